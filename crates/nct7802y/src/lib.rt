// The NCT7802Y: its register card, two of its columns in a file each, its identity and its fan tables.
#![tactic(auto)]

mod power_on;
mod writable;

ghost use Rattle.std.specs.Prelude.{◌≡◌};
ghost use Rattle.pages.specs.declared.Chip.TheVariants.{Nct7802y};
ghost use Rattle.pages.specs.Cards.{row_of};
ghost use Rattle.pages.specs.Promises.{Finds, PowersOn, Requires, Stands, Lays};

use pages::{Ground, Layout, Masks, NO_GROUND, NO_MASKS, NOTHING, Required, Shape, one_row};
use power_on::POWER_ON;
use writable::WRITABLE;

// The bits that may be written.
#[tactic(auto, using(pages::proofs::Lines::writable_at, pages::proofs::Lines::writable_beyond), unfolding(pages::specs::Cards::sheet_of, pages::specs::Rows::column, pages::specs::Nct7802y::card))]
fn writable_at(position: usize) -> u8
    ensures { result ≡ (row_of Nct7802y position).writable }
{
    WRITABLE.get(position).copied().unwrap_or(NO_MASKS.writable)
}

#[tactic(auto, using(pages::proofs::Lines::clearless), unfolding(pages::specs::Cards::sheet_of, pages::specs::Nct7802y::card))]
pub fn masks(position: usize) -> Masks
    ensures { Finds Nct7802y position result }
{
    Masks {
        writable: writable_at(position),
        clears: 0x00,
    }
}

#[tactic(auto, using(pages::proofs::Lines::power_at, pages::proofs::Lines::power_beyond), unfolding(pages::specs::Cards::sheet_of, pages::specs::Sheets::power_on_in, pages::specs::Rows::column, pages::specs::Nct7802y::card))]
pub fn power(position: usize) -> u8
    ensures { PowersOn Nct7802y position result }
{
    POWER_ON.get(position).copied().unwrap_or(0x00)
}

// The registers that identity looks at, all of them required.
#[tactic(auto, unfolding(pages::specs::Cards::sheet_of))]
pub fn required(k: usize) -> Required
    ensures { Requires Nct7802y k result }
{
    match k {
        0 => Required {
            position: 0xFD,
            bits: 0xFF,
            value: 0x50,
            other: 0x50,
        },
        1 => Required {
            position: 0xFE,
            bits: 0xFF,
            value: 0xC3,
            other: 0xC3,
        },
        2 => Required {
            position: 0xFF,
            bits: 0xF0,
            value: 0x20,
            other: 0x20,
        },
        3 => Required {
            position: 0x05,
            bits: 0x1F,
            value: 0x00,
            other: 0x00,
        },
        4 => Required {
            position: 0x08,
            bits: 0x3F,
            value: 0x00,
            other: 0x00,
        },
        _ => NOTHING,
    }
}

// "All fan table registers have mask FFh".
const EVERY_BIT: Masks = Masks {
    writable: 0xFF,
    clears: 0x00,
};

// The registers of the fan tables: T1 to T4 and critical, FL1 to FL4.
#[tactic(auto, unfolding(pages::specs::Cards::sheet_of, pages::specs::Nct7802y::card))]
pub fn ground(number: u8) -> Ground
    ensures { Stands Nct7802y number result }
{
    match number {
        1 => one_row(0x80, 4, 4, EVERY_BIT),
        2 => one_row(0x90, 4, 4, EVERY_BIT),
        3 => one_row(0xA0, 4, 4, EVERY_BIT),
        _ => NO_GROUND,
    }
}

#[tactic(auto, using(pages::proofs::Tables::laid_first, pages::proofs::Tables::none_laid), unfolding(pages::specs::Cards::sheet_of, pages::specs::Nct7802y::card))]
pub fn table(number: u8) -> Option<Layout>
    ensures { Lays Nct7802y number result }
{
    match number {
        1..=3 => Some(Layout {
            settings: 5,
            speeds: 4,
            shape: Shape::Slope(4, 255),
            whole: true,
            selects: 0,
            leading: false,
            counted: false,
        }),
        _ => None,
    }
}
