// The W83793G: its register card, a file for each column of a bank, its banks, its identity and its fan tables.
#![tactic(auto)]

mod power_on_0;
mod power_on_1;
mod power_on_2;
mod writable_0;
mod writable_1;
mod writable_2;

ghost use Rattle.std.specs.Prelude.{◌≡◌, ◌+◌, ◌*◌, ◌<◌, ◌≤◌};
ghost use Rattle.pages.specs.declared.Chip.TheVariants.{W83793g};
ghost use Rattle.pages.specs.W83793g.{card};
ghost use Rattle.pages.specs.Rows.{row_in, mask_of, stretch};
ghost use Rattle.pages.specs.Promises.{Finds, PowersOn, Requires, Stands, Lays, Positions};

use pages::{Ground, Layout, Masks, NO_GROUND, NOTHING, Required, Shape, Stretch};

// A bank at a time, and a match for each column: a column that is handed to one function for both is built on the stack at each use, all banks of it
// (docs/PERFORMANCE.md). A position is 256 times the bank plus the address, of which `to_be_bytes` would make eight bytes.
fn writable(bank: usize, address: usize) -> u8
    requires { address < 256 }
    ensures { result ≡ (row_in card (bank * 256 + address)).writable }
{
    match bank {
        0 => writable_0::WRITABLE[address],
        1 => writable_1::WRITABLE[address],
        2 => writable_2::WRITABLE[address],
        _ => 0x00,
    }
}

fn power_on(bank: usize, address: usize) -> u8
    requires { address < 256 }
    ensures { result ≡ (row_in card (bank * 256 + address)).power }
{
    match bank {
        0 => power_on_0::POWER_ON[address],
        1 => power_on_1::POWER_ON[address],
        2 => power_on_2::POWER_ON[address],
        _ => 0x00,
    }
}

pub fn masks(position: usize) -> Masks
    ensures { Finds W83793g position result }
{
    Masks {
        writable: writable(position / 256, position % 256),
        clears: 0x00,
    }
}

pub fn power(position: usize) -> u8
    ensures { PowersOn W83793g position result }
{
    power_on(position / 256, position % 256)
}

// Bank select is seen in every bank, with the vendor, chip and device registers.
#[tactic(auto, unfolding(pages::specs::Cards::sheet_of))]
pub fn position(bank: u8, address: u8) -> usize
    ensures { Positions W83793g bank address result }
{
    match address {
        0x00 | 0x0D | 0x0E | 0x0F => address as usize,
        _ => bank as usize * 256 + address as usize,
    }
}

// The registers that identity looks at, all of them required: the vendor's high byte, the chip, and version B or C.
#[tactic(auto, unfolding(pages::specs::Cards::sheet_of))]
pub fn required(k: usize) -> Required
    ensures { Requires W83793g k result }
{
    match k {
        0 => Required {
            position: 0x0D,
            bits: 0xFF,
            value: 0x5C,
            other: 0x5C,
        },
        1 => Required {
            position: 0x0E,
            bits: 0xFF,
            value: 0x7B,
            other: 0x7B,
        },
        2 => Required {
            position: 0x0F,
            bits: 0xFF,
            value: 0x11,
            other: 0x12,
        },
        _ => NOTHING,
    }
}

// A temperature has bits 6 to 0, a duty bits 5 to 0.
const TEMPERATURE: Masks = Masks {
    writable: 0x7F,
    clears: 0x00,
};

const DUTY: Masks = Masks {
    writable: 0x3F,
    clears: 0x00,
};

// A table by where its first temperature stands: seven temperatures, critical, which all tables share, and seven duties from 8 behind the first on.
fn in_table(first: u16) -> Ground
    requires { first ≤ 768 }
    ensures { result ≡ record { settings = stretch first 7 (mask_of 0x7F); last = stretch 0xC5 1 (mask_of 0x7F); speeds = stretch (first + 8) 7 (mask_of 0x3F) } }
{
    Ground {
        settings: Stretch {
            first,
            count: 7,
            masks: TEMPERATURE,
        },
        last: Stretch {
            first: 0xC5,
            count: 1,
            masks: TEMPERATURE,
        },
        speeds: Stretch {
            first: first + 8,
            count: 7,
            masks: DUTY,
        },
    }
}

// TD1 to TD4, TR1 and TR2 stand in bank 2, 10h apart from 30h on.
pub fn ground(number: u8) -> Ground
    ensures { Stands W83793g number result }
{
    match number {
        1..=6 => in_table(0x220 + 0x10 * number as u16),
        _ => NO_GROUND,
    }
}

// Critical stands in bank 0 and the rest in bank 2: a script selects bank 2, bank 0 before critical, and bank 2 again.
#[tactic(auto, using(pages::proofs::Tables::laid_first, pages::proofs::Tables::none_laid), unfolding(pages::specs::Cards::sheet_of, pages::specs::W83793g::card, pages::specs::W83793gBank0::bank, pages::specs::W83793gBank1::bank, pages::specs::W83793gBank2::bank))]
pub fn table(number: u8) -> Option<Layout>
    ensures { Lays W83793g number result }
{
    match number {
        1..=6 => Some(Layout {
            settings: 8,
            speeds: 7,
            shape: Shape::Slope(7, 63),
            whole: false,
            selects: 3,
            leading: false,
            counted: true,
        }),
        _ => None,
    }
}
