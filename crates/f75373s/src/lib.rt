// The F75373S: its register card, two of its columns in a file each, its identity and its fan tables.
#![tactic(auto)]

mod power_on;
mod writable;

ghost use Rattle.std.specs.Prelude.{◌≡◌};
ghost use Rattle.pages.specs.declared.Chip.TheVariants.{F75373s};
ghost use Rattle.pages.specs.F75373s.{card};
ghost use Rattle.pages.specs.Rows.{row_in};
ghost use Rattle.pages.specs.Cards.{row_of};
ghost use Rattle.pages.specs.Promises.{Finds, PowersOn, Requires, Stands, Lays};

use pages::{Ground, Layout, Masks, NO_GROUND, NO_MASKS, NOTHING, Required, Shape, one_row};
use power_on::POWER_ON;
use writable::WRITABLE;

// The bits that may be written.
#[tactic(auto, using(pages::proofs::Lines::writable_at, pages::proofs::Lines::writable_beyond), unfolding(pages::specs::Cards::sheet_of, pages::specs::Rows::column, pages::specs::F75373s::card))]
fn writable_at(position: usize) -> u8
    ensures { result ≡ (row_of F75373s position).writable }
{
    WRITABLE.get(position).copied().unwrap_or(NO_MASKS.writable)
}

// The interrupt status registers alone have bits that clear on one.
fn clears(position: usize) -> u8
    ensures { result ≡ (row_in card position).clears }
{
    match position {
        0x31 => 0xFF,
        0x34 => 0x03,
        _ => 0x00,
    }
}

#[tactic(auto, unfolding(pages::specs::Cards::sheet_of, pages::specs::Cards::row_of))]
pub fn masks(position: usize) -> Masks
    ensures { Finds F75373s position result }
{
    Masks {
        writable: writable_at(position),
        clears: clears(position),
    }
}

#[tactic(auto, using(pages::proofs::Lines::power_at, pages::proofs::Lines::power_beyond), unfolding(pages::specs::Cards::sheet_of, pages::specs::Sheets::power_on_in, pages::specs::Rows::column, pages::specs::F75373s::card))]
pub fn power(position: usize) -> u8
    ensures { PowersOn F75373s position result }
{
    POWER_ON.get(position).copied().unwrap_or(0x00)
}

// The registers that identity looks at, all of them required.
#[tactic(auto, unfolding(pages::specs::Cards::sheet_of))]
pub fn required(k: usize) -> Required
    ensures { Requires F75373s k result }
{
    match k {
        0 => Required {
            position: 0x5A,
            bits: 0xFF,
            value: 0x02,
            other: 0x02,
        },
        1 => Required {
            position: 0x5B,
            bits: 0xFF,
            value: 0x04,
            other: 0x04,
        },
        2 => Required {
            position: 0x5D,
            bits: 0xFF,
            value: 0x19,
            other: 0x19,
        },
        3 => Required {
            position: 0x5E,
            bits: 0xFF,
            value: 0x34,
            other: 0x34,
        },
        _ => NOTHING,
    }
}

// "All fan table registers have mask FFh".
const EVERY_BIT: Masks = Masks {
    writable: 0xFF,
    clears: 0x00,
};

// The registers of the fan tables: B1 to B4, C1 to C5, high byte first.
#[tactic(auto, unfolding(pages::specs::Cards::sheet_of, pages::specs::F75373s::card))]
pub fn ground(number: u8) -> Ground
    ensures { Stands F75373s number result }
{
    match number {
        1 => one_row(0xA0, 3, 10, EVERY_BIT),
        2 => one_row(0xB0, 3, 10, EVERY_BIT),
        _ => NO_GROUND,
    }
}

#[tactic(auto, using(pages::proofs::Tables::laid_first, pages::proofs::Tables::none_laid), unfolding(pages::specs::Cards::sheet_of, pages::specs::F75373s::card))]
pub fn table(number: u8) -> Option<Layout>
    ensures { Lays F75373s number result }
{
    match number {
        1..=2 => Some(Layout {
            settings: 4,
            speeds: 10,
            shape: Shape::Steps,
            whole: true,
            selects: 0,
            leading: false,
            counted: false,
        }),
        _ => None,
    }
}
