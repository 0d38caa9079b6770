// A chip's state, an image and the watch beside it, whose facts the caller keeps between the calls: read, reset and sampled.
ghost use Rattle.std.specs.Prelude.{◌≡◌, ◌<◌, ◌^◌, [], ◌∷◌};
ghost use Rattle.clib.specs.Packed.{with_byte};
ghost use Rattle.clib.specs.Promises.{YkRead, YkReset, YkSampleImage};

use crate::{facts, packing};
use watch::Watch;

// The facts, and the byte above them.
fn facts_and_byte(read: (u8, Watch)) -> u64
    ensures value { result ≡ with_byte read }
    ensures upper_bound { result < 2 ^ 16 }
{
    let (byte, watch) = read;
    facts::facts_of(watch) + 256 * u64::from(byte)
}

#[unsafe(no_mangle)]
pub extern "C" fn yk_read(chip: u8, image: &mut [u8], address: u8, behaviour: u8, facts: u8) -> u64
    ensures { YkRead chip image.old address behaviour facts result image.new }
{
    let watch = facts::watch_of(behaviour, facts);
    let read = states::read(chip, image, address, watch);
    packing::of_facts(read.map(facts_and_byte))
}

#[unsafe(no_mangle)]
pub extern "C" fn yk_reset(chip: u8, image: &mut [u8], behaviour: u8, facts: u8) -> u64
    ensures { YkReset chip image.old behaviour facts result image.new }
{
    let watch = facts::watch_of(behaviour, facts);
    let reset = states::reset(chip, image, watch);
    packing::of_facts(reset.map(facts::facts_of))
}

// The words one by one: the C interface has no array of seven.
#[unsafe(no_mangle)]
pub extern "C" fn yk_sample_image(
    image: &mut [u8],
    behaviour: u8,
    facts: u8,
    steps: i16,
    in0: u16,
    in1: u16,
    in2: u16,
    in3: u16,
    in4: u16,
    in5: u16,
    in6: u16,
) -> u64
    ensures { YkSampleImage image.old behaviour facts steps (in0 ∷ in1 ∷ in2 ∷ in3 ∷ in4 ∷ in5 ∷ in6 ∷ []) result image.new }
{
    let watch = facts::watch_of(behaviour, facts);
    let words = [in0, in1, in2, in3, in4, in5, in6];
    let sampled = channels::sample(image, watch, steps, words);
    packing::of_facts(sampled.map(facts::facts_of))
}
