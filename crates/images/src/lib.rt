// A register image of a chip, lent by the caller: written, looked at and reset. The chip's number and the image come one by one, as C hands them in.
#![tactic(auto)]

mod bus;
mod bytes;

ghost use Rattle.std.specs.Prelude.{◌≡◌, length};
ghost use Rattle.pages.specs.Rows.{column};
ghost use Rattle.pages.specs.Cards.{row_of};
ghost use Rattle.images.specs.Promises.{Admits, Places, WritesByte, Looks, Resets};

use cards::GREATEST;
use pages::{Chip, Register};
use refusal::Refusal;

// An access on the bus: the position where it lands, and the byte that stands there.
#[derive(Clone, Copy)]
pub struct Access {
    pub position: usize,
    pub byte: u8,
}

// The chip of a number, where an image of that length can be its.
pub fn admit(chip: u8, size: usize) -> Result<Chip, Refusal>
    ensures { Admits chip size result }
{
    let known = Chip::try_from(chip)?;
    let sizes = cards::sizes_of(known);
    if size != sizes.image {
        return Err(Refusal::NotAnImage);
    }
    Ok(known)
}

// Writes a byte to a register of the image, as far as its masks let it be written. Behind the image's end is no register. By `get_mut` it was tried: the
// proof is told nothing of the image after the write.
pub fn place(image: &mut [u8], register: Register, byte: u8)
    ensures { Places register byte image.old image.new }
{
    let at = register.position;
    if at < image.len() {
        let old = image[at];
        image[at] = bytes::stored(register.masks, old, byte);
    }
}

// Writes a byte to an address of the image, as far as the chip's card lets it be written.
pub fn write(chip: u8, image: &mut [u8], address: u8, byte: u8) -> Result<(), Refusal>
    ensures { WritesByte chip image.old address byte result image.new }
{
    let known = admit(chip, image.len())?;
    bus::store(known, image, address, byte);
    Ok(())
}

// Where an access to an address lands, and what a read would give: 0 behind the image's end. What a read changes is told by `states::read`.
pub fn look(chip: Chip, image: &[u8], address: u8) -> Access
    ensures { Looks chip image.now address result }
{
    let position = bus::position(chip, image, address);
    Access {
        position,
        byte: bus::byte_at(image, position),
    }
}

// Fills a working image with the power-on column of the chip's card.
fn fill(chip: Chip, working: &mut [u8])
    ensures { working.new ≡ column (length working.old) (λ position. (row_of chip position).power) }
{
    for (at, byte) in working.iter_mut().enumerate() {
        *byte = cards::power_on_of(chip, at);
    }
}

// Fills the image with the chip's power-on values. No chip's image is longer than the working image.
pub fn reset(chip: u8, image: &mut [u8]) -> Result<(), Refusal>
    ensures { Resets chip image.old result image.new }
{
    let size = image.len();
    let known = admit(chip, size)?;
    let mut zeros = [0u8; GREATEST];
    let working = &mut zeros[..size];
    fill(known, working);
    image.copy_from_slice(working);
    Ok(())
}
