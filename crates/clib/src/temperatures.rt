// Temperatures of a width and those of the NCT7904D, and the voltages of the NCT80 and the NCT7904D.
ghost use Rattle.std.specs.Prelude.{◌≡◌, ◌+◌, ◌*◌};
ghost use Rattle.clib.specs.Promises.{YkSteps, YkBytes, YkMicrovolts, YkRightSteps, YkRightBytes, YkInputMicrovolts};

use crate::packing;

// "high byte first"
fn word(bytes: (u8, u8)) -> u64
    ensures { result ≡ bytes.0 * 256 + bytes.1 }
{
    let (high, low) = bytes;
    u64::from(u16::from_be_bytes([high, low]))
}

// A count of steps crosses as its 16-bit two's complement word.
#[unsafe(no_mangle)]
pub extern "C" fn yk_steps(width: u8, high: u8, low: u8) -> u64
    ensures { YkSteps width high low result }
{
    let steps = readings::steps_of(width, high, low);
    packing::of(steps.map(|number| u64::from(readings::as_word(number))))
}

#[unsafe(no_mangle)]
pub extern "C" fn yk_bytes(width: u8, steps: i16) -> u64
    ensures { YkBytes width steps result }
{
    let bytes = readings::bytes_of(width, steps);
    packing::of(bytes.map(word))
}

#[unsafe(no_mangle)]
pub extern "C" fn yk_microvolts(word: u16) -> u64
    ensures { YkMicrovolts word result }
{
    packing::packed(0, u64::from(readings::microvolts(word)))
}

#[unsafe(no_mangle)]
pub extern "C" fn yk_right_steps(high: u8, low: u8) -> u64
    ensures { YkRightSteps high low result }
{
    let steps = right_readings::right_steps(high, low);
    packing::packed(0, u64::from(readings::as_word(steps)))
}

#[unsafe(no_mangle)]
pub extern "C" fn yk_right_bytes(steps: i16) -> u64
    ensures { YkRightBytes steps result }
{
    let bytes = right_readings::right_bytes(steps);
    packing::of(bytes.map(word))
}

#[unsafe(no_mangle)]
pub extern "C" fn yk_input_microvolts(input: u8, high: u8, low: u8) -> u64
    ensures { YkInputMicrovolts input high low result }
{
    let microvolts = right_readings::input_microvolts(input, high, low);
    packing::packed(0, u64::from(microvolts))
}
