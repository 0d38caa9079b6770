// The state of a chip between two calls, a lent image and the watch beside it: read on the bus, and reset. They come one by one, as C hands them in.
#![tactic(auto)]

ghost use Rattle.std.specs.Prelude.{◌≡◌, set};
ghost use Rattle.images.specs.Bytes.{seen};
ghost use Rattle.states.specs.States.{after_read, rested};
ghost use Rattle.states.specs.Promises.{ReadsByte, ResetsChip};

use pages::Chip;
use watch::{Refused, Watch};

// A register goes to 0. Behind the image's end is none. By `get_mut` it was tried: the proof is told nothing of the image after the write.
fn clear(image: &mut [u8], at: usize)
    ensures { image.new ≡ set image.old at 0 }
{
    if at < image.len() {
        image[at] = 0;
    }
}

// A read where it lands: a status register gives its byte and is then cleared, and the alarm is acknowledged. No other read changes anything.
fn take(chip: Chip, image: &mut [u8], address: u8, watch: Watch) -> (u8, Watch)
    ensures answer { result ≡ (seen chip address image.old, (after_read chip address (record { image = image.old; watch = watch })).watch) }
    ensures bytes { image.new ≡ (after_read chip address (record { image = image.old; watch = watch })).image }
{
    let access = images::look(chip, image, address);
    if !cards::is_status(chip, access.position) {
        return (access.byte, watch);
    }
    clear(image, access.position);
    (access.byte, watch.acknowledge())
}

// The byte at an address of the image, and the watch. Of a status register the read clears the image's byte and acknowledges the alarm.
pub fn read(chip: u8, image: &mut [u8], address: u8, watch: Watch) -> Result<(u8, Watch), Refused>
    ensures { ReadsByte chip image.old address watch result image.new }
{
    let known = images::admit(chip, image.len()).map_err(|refusal| Refused { refusal, watch })?;
    Ok(take(known, image, address, watch))
}

// The watch of a chip that is reset: both facts are off where the chip has status registers, and else it is carried on.
fn rest(chip: Chip, watch: Watch) -> Watch
    ensures { result ≡ rested chip watch }
{
    let sizes = cards::sizes_of(chip);
    if sizes.status == 0 {
        return watch;
    }
    Watch::new(watch.behaviour)
}

// Fills the image with the chip's power-on values, and turns the facts of the watch off.
pub fn reset(chip: u8, image: &mut [u8], watch: Watch) -> Result<Watch, Refused>
    ensures { ResetsChip chip image.old watch result image.new }
{
    let refused = |refusal| Refused { refusal, watch };
    let known = images::admit(chip, image.len()).map_err(refused)?;
    images::reset(chip, image).map_err(refused)?;
    Ok(rest(known, watch))
}
