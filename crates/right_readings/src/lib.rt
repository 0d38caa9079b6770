// Readings whose low bits are right-aligned: temperatures and voltages of the NCT7904D. The two bytes come as C hands them in.
#![tactic(auto)]

ghost use Rattle.std.specs.Prelude.{◌≡◌, ◌≤◌};
ghost use Rattle.right_readings.specs.Inputs.{inputs, worth_in};
ghost use Rattle.right_readings.specs.Promises.{CountsRight, GivesRight, MeasuresInput};

use refusal::Refusal;

// The temperature of two bytes in steps of 1/8 degree: the high byte counts degrees, its top bit -128 of them, and the low three bits count steps.
pub fn right_steps(high: u8, low: u8) -> i16
    ensures { CountsRight high low result }
{
    8 * high.cast_signed() as i16 + (low % 8) as i16
}

// The two bytes of such a temperature.
pub fn right_bytes(steps: i16) -> Result<(u8, u8), Refusal>
    ensures { GivesRight steps result }
{
    if (-1024 <= steps) & (steps < 1024) {
        let word = readings::as_word(steps);
        return Ok(((word / 8 % 256) as u8, (word % 8) as u8));
    }
    Err(Refusal::StepsDoNotFit)
}

// What a count of a voltage is worth in microvolts, by the address of its high byte; 0 where no voltage's high byte stands.
fn worth_of(input: u8) -> u32
    ensures value { result ≡ worth_in inputs input }
    ensures upper_bound { result ≤ 6000 }
{
    match input {
        0x40
        | 0x42
        | 0x44
        | 0x46
        | 0x48
        | 0x4A
        | 0x4C
        | 0x4E
        | 0x50
        | 0x52
        | 0x54
        | 0x56
        | 0x58
        | 0x5A => 2000,
        0x5C | 0x5E | 0x60 | 0x64 | 0x66 | 0x68 => 6000,
        _ => 0,
    }
}

// The voltage of an input, in microvolts.
pub fn input_microvolts(input: u8, high: u8, low: u8) -> u32
    ensures { MeasuresInput input high low result }
{
    (8 * high as u32 + (low % 8) as u32) * worth_of(input)
}
