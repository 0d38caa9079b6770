// Temperatures of a width as counts of steps, and the voltages of the NCT80.
#![tactic(auto)]

ghost use Rattle.std.specs.Prelude.{◌≡◌, true, false, MatchResult};
ghost use Rattle.readings.specs.Readings.{is_width, fits};
ghost use Rattle.readings.specs.Promises.{Encodes, CountsSteps, GivesBytes, Measures};

use refusal::Refusal;

// A temperature's width is 8, 9, 11 or 12.
fn check_width(width: u8) -> Result<(), Refusal>
    ensures { MatchResult result (λ _. is_width width ≡ true) (λ r. (r ≡ Refusal.NoSuchWidth) × (is_width width ≡ false)) }
{
    match width {
        8 | 9 | 11 | 12 => Ok(()),
        _ => Err(Refusal::NoSuchWidth),
    }
}

// The word of a 16-bit two's complement number.
pub fn as_word(number: i16) -> u16
    ensures { Encodes number result }
{
    number.cast_unsigned()
}

// Whether a number of steps fits a width: a signed number of that many bits.
fn does_fit(width: u8, steps: i16) -> bool
    requires { is_width width ≡ true }
    ensures { result ≡ fits width steps }
{
    let reach: i16 = 1 << (width - 1);
    (-reach <= steps) & (steps < reach)
}

// The temperature of two bytes at a width.
pub fn steps_of(width: u8, high: u8, low: u8) -> Result<i16, Refusal>
    ensures { CountsSteps width high low result }
{
    check_width(width)?;
    Ok(i16::from_be_bytes([high, low]) >> (16 - width))
}

// The two bytes of a temperature at a width.
pub fn bytes_of(width: u8, steps: i16) -> Result<(u8, u8), Refusal>
    ensures { GivesBytes width steps result }
{
    check_width(width)?;
    if !does_fit(width, steps) {
        return Err(Refusal::StepsDoNotFit);
    }
    let [high, low] = (steps << (16 - width)).to_be_bytes();
    Ok((high, low))
}

// The voltage of an NCT80 word, in microvolts.
pub fn microvolts(word: u16) -> u32
    ensures { Measures word result }
{
    (word >> 6) as u32 * 2500
}
