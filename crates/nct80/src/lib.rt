// The register card of the NCT80, told by rules over its addresses.
#![tactic(auto)]

ghost use Rattle.std.specs.Prelude.{◌≡◌};
ghost use Rattle.pages.specs.declared.Chip.TheVariants.{Nct80};
ghost use Rattle.pages.specs.Cards.{row_of};
ghost use Rattle.pages.specs.Promises.{Finds, Acts, PowersOn};

use pages::{Effects, Masks, NO_EFFECTS};

// What the card says of a register: its writable bits, and what it holds at power-on. No bit of this chip clears on one.
#[derive(Clone, Copy)]
struct Row(u8, u8);

// The row of each address, as in crates/pages/specs/Nct80.antt.
#[tactic(auto, using(crate::proofs::Rows::rows))]
fn row_at(position: usize) -> Row
    ensures { (result.0 ≡ (row_of Nct80 position).writable) × (result.1 ≡ (row_of Nct80 position).power) }
{
    match position {
        // Configuration: every bit; INT_clear is set at power-on.
        0x00 => Row(0xFF, 0x08),
        // Status: read only.
        0x01..=0x02 => Row(0x00, 0x00),
        // Masks of the status bits.
        0x03..=0x04 => Row(0xFF, 0x00),
        // Pins, conversions and channels, each by itself.
        0x05..=0x09 => match position {
            // Fan divisors and output pins: both divide by 2 at power-on.
            0x05 => Row(0xFF, 0x14),
            // OS pin and resolution: bit 0 mirrors the pin, read only.
            0x06 => Row(0xFE, 0x01),
            // Conversion rate: bits 7 to 1 are reserved.
            0x07 => Row(0x01, 0x00),
            // Disabled channels.
            0x08 => Row(0xFF, 0x00),
            // 09h, conversion rate programming: bits 7 to 3 are reserved.
            _ => Row(0x07, 0x00),
        },
        // Not listed.
        0x0A..=0x1F => Row(0x00, 0x00),
        // Value RAM, readings: read only.
        0x20..=0x29 => Row(0x00, 0x00),
        // Value RAM, limits of the voltages.
        0x2A..=0x37 => Row(0xFF, 0x00),
        // Value RAM, limits of the temperature and of the fan counts.
        0x38..=0x3D => match position {
            // Hot and OS temperature: 85 degrees at power-on.
            0x38 | 0x3A => Row(0xFF, 0x55),
            // Their hystereses: 75 degrees.
            0x39 | 0x3B => Row(0xFF, 0x4B),
            // 3Ch and 3Dh, fan counts: the greatest.
            _ => Row(0xFF, 0xFF),
        },
        // Identity: read only.
        0x3E => Row(0x00, 0x1A),
        // Not listed, or behind the image's end.
        _ => Row(0x00, 0x00),
    }
}

#[tactic(auto, using(pages::proofs::Lines::clearless), unfolding(pages::specs::Cards::sheet_of, pages::specs::Nct80::card))]
pub fn masks(position: usize) -> Masks
    ensures { Finds Nct80 position result }
{
    Masks {
        writable: row_at(position).0,
        clears: 0x00,
    }
}

// The bits that do more than stand there: INITIALIZATION and Chassis_clear.
#[tactic(auto, unfolding(pages::specs::Cards::sheet_of, pages::specs::Cards::effects_of))]
pub fn effects(position: usize) -> Effects
    ensures { Acts Nct80 position result }
{
    match position {
        0x00 => Effects {
            initialize: 0x80,
            fleeting: 0x20,
        },
        _ => NO_EFFECTS,
    }
}

pub fn power(position: usize) -> u8
    ensures { PowersOn Nct80 position result }
{
    row_at(position).1
}
