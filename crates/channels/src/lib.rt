// The channels of the NCT80, seven voltages and a temperature: a sample of them is stored in a lent image, and raises status bits by the limits there.
#![tactic(auto)]

ghost use Rattle.std.specs.Prelude.{◌<◌, ◌≡◌};
ghost use Rattle.std.specs.Int.Signed.{lt_z};
ghost use Rattle.pages.specs.Nct80.{temperature};
ghost use Rattle.readings.specs.Sensors.{with_temperature};
ghost use Rattle.watch.specs.Alarm.{in_steps};
ghost use Rattle.channels.specs.Channels.{is_on, raised, beyond, voltage_taken, voltages_taken, fed, temperature_taken};
ghost use Rattle.channels.specs.Promises.{SamplesChannels};

use refusal::Refusal;
use watch::{Refused, Watch};

// How many bytes the chip's image has, and how many voltages it takes.
const IMAGE: usize = 256;

const VOLTAGES: usize = 7;

fn is_on(bit: u8, byte: u8) -> bool
    ensures { result ≡ is_on bit byte }
{
    byte & bit != 0
}

// Whether a voltage is strictly above its high limit or strictly below its low one. A limit counts four of the ten-bit codes.
fn is_beyond(high: u8, low: u8, word: u16) -> bool
    ensures { result ≡ beyond high low word }
{
    let code = word >> 6;
    (4 * (high as u16) < code) | (code < 4 * (low as u16))
}

// A status bit goes on, or stays as it is.
fn raise(image: &mut [u8; IMAGE], register: usize, bit: u8, on: bool)
    requires { register < 256 }
    ensures { image.new ≡ raised register bit on image.old }
{
    if on {
        image[register] |= bit;
    }
}

// A voltage, by its number: its high byte is stored (`to_be_bytes` would be no plainer for one of two), and its bit of 01h goes on where it is beyond its limits. A disabled one is 0 and raises nothing.
fn take_voltage(image: &mut [u8; IMAGE], n: usize, word: u16)
    requires { n < 7 }
    ensures { image.new ≡ voltage_taken n word image.old }
{
    let bit = 1u8 << n;
    if is_on(bit, image[0x08]) {
        image[0x20 + n] = 0;
        return;
    }
    let high = image[0x2A + 2 * n];
    let low = image[0x2B + 2 * n];
    image[0x20 + n] = (word / 256) as u8;
    raise(image, 0x01, bit, is_beyond(high, low, word));
}

fn take_voltages(image: &mut [u8; IMAGE], words: [u16; VOLTAGES])
    ensures { image.new ≡ voltages_taken 7 words image.old }
{
    for (n, word) in words.iter().enumerate() {
        take_voltage(image, n, *word);
    }
}

// A temperature where the chip holds it: 27h, and bits 7 to 4 of 06h. The other bits of 06h stay.
fn store_temperature(image: &mut [u8; IMAGE], steps: i16)
    ensures { image.new ≡ with_temperature temperature 0 steps image.old }
{
    let word = readings::as_word(steps);
    let low = (word % 16 * 16) as u8;
    let held = image[0x06];
    image[0x27] = (word / 16 % 256) as u8;
    image[0x06] = (low & 0xF0) + (held & 0x0F);
}

// Whether a temperature is strictly above a limit in whole degrees.
fn is_above(steps: i16, limit: i8) -> bool
    ensures { result ≡ lt_z (in_steps limit) steps }
{
    16 * (limit as i16) < steps
}

// The temperature, with the watch before it and the one that it feeds: it is stored, and 02h tells the output and the OS limit. A disabled one is 0,
// raises nothing and leaves the watch.
fn take_temperature(image: &mut [u8; IMAGE], watch: Watch, next: Watch, steps: i16) -> Watch
    requires { next ≡ fed steps (record { image = image.old; watch = watch }) }
    ensures { record { image = image.new; watch = result } ≡ temperature_taken steps (record { image = image.old; watch = watch }) }
{
    if is_on(0x80, image[0x08]) {
        store_temperature(image, 0);
        return watch;
    }
    let above = is_above(steps, image[0x3A].cast_signed());
    store_temperature(image, steps);
    raise(image, 0x02, 0x01, next.output());
    raise(image, 0x02, 0x20, above);
    next
}

// A sample, the temperature in steps of 1/16 degree and the words of IN0 to IN6: it is stored in the image and raises status bits there, and the watch
// comes back with the alarm's facts.
pub fn sample(
    image: &mut [u8],
    watch: Watch,
    steps: i16,
    words: [u16; VOLTAGES],
) -> Result<Watch, Refused>
    ensures { SamplesChannels image.old watch steps words result image.new }
{
    let Some(image) = image.as_mut_array::<IMAGE>() else {
        return Err(Refused {
            refusal: Refusal::NotAnImage,
            watch,
        });
    };
    let next = watch.sample(steps, image[0x38].cast_signed(), image[0x39].cast_signed())?;
    let left = take_temperature(image, watch, next, steps);
    take_voltages(image, words);
    Ok(left)
}
