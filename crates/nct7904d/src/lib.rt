// The NCT7904D: its register card, a file for each column of a bank, its banks, its identity and its fan tables.
#![tactic(auto)]

mod power_on_0;
mod power_on_1;
mod power_on_2;
mod power_on_3;
mod power_on_4;
mod writable_0;
mod writable_1;
mod writable_2;
mod writable_3;
mod writable_4;

ghost use Rattle.std.specs.Prelude.{◌≡◌, ◌+◌, ◌*◌, ◌<◌, ◌≤◌};
ghost use Rattle.pages.specs.declared.Chip.TheVariants.{Nct7904d};
ghost use Rattle.pages.specs.Nct7904d.{card};
ghost use Rattle.pages.specs.Rows.{row_in, every_bit, stretch};
ghost use Rattle.pages.specs.Promises.{Finds, PowersOn, Requires, Stands, Lays, Positions};

use pages::{Ground, Layout, Masks, NO_GROUND, NOTHING, Required, Shape, Stretch};

// A bank at a time, and a match for each column: a column that is handed to one function for both is built on the stack at each use, all banks of it
// (docs/PERFORMANCE.md). A position is 256 times the bank plus the address, of which `to_be_bytes` would make eight bytes.
fn writable(bank: usize, address: usize) -> u8
    requires { address < 256 }
    ensures { result ≡ (row_in card (bank * 256 + address)).writable }
{
    match bank {
        0 => writable_0::WRITABLE[address],
        1 => writable_1::WRITABLE[address],
        2 => writable_2::WRITABLE[address],
        3 => writable_3::WRITABLE[address],
        4 => writable_4::WRITABLE[address],
        _ => 0x00,
    }
}

fn power_on(bank: usize, address: usize) -> u8
    requires { address < 256 }
    ensures { result ≡ (row_in card (bank * 256 + address)).power }
{
    match bank {
        0 => power_on_0::POWER_ON[address],
        1 => power_on_1::POWER_ON[address],
        2 => power_on_2::POWER_ON[address],
        3 => power_on_3::POWER_ON[address],
        4 => power_on_4::POWER_ON[address],
        _ => 0x00,
    }
}

pub fn masks(position: usize) -> Masks
    ensures { Finds Nct7904d position result }
{
    Masks {
        writable: writable(position / 256, position % 256),
        clears: 0x00,
    }
}

pub fn power(position: usize) -> u8
    ensures { PowersOn Nct7904d position result }
{
    power_on(position / 256, position % 256)
}

// The vendor, chip and device registers with bank select are seen in every bank.
#[tactic(auto, unfolding(pages::specs::Cards::sheet_of))]
pub fn position(bank: u8, address: u8) -> usize
    ensures { Positions Nct7904d bank address result }
{
    match address {
        0x7A | 0x7B | 0x7C | 0xFF => address as usize,
        _ => bank as usize * 256 + address as usize,
    }
}

// The registers that identity looks at, all of them required.
#[tactic(auto, unfolding(pages::specs::Cards::sheet_of))]
pub fn required(k: usize) -> Required
    ensures { Requires Nct7904d k result }
{
    match k {
        0 => Required {
            position: 0x0D,
            bits: 0xFF,
            value: 0x50,
            other: 0x50,
        },
        1 => Required {
            position: 0x0E,
            bits: 0xFF,
            value: 0xC5,
            other: 0xC5,
        },
        2 => Required {
            position: 0x0F,
            bits: 0xF0,
            value: 0x50,
            other: 0x50,
        },
        3 => Required {
            position: 0x7A,
            bits: 0xFF,
            value: 0x50,
            other: 0x50,
        },
        4 => Required {
            position: 0x7B,
            bits: 0xFF,
            value: 0xC5,
            other: 0xC5,
        },
        5 => Required {
            position: 0x7C,
            bits: 0xF0,
            value: 0x50,
            other: 0x50,
        },
        _ => NOTHING,
    }
}

// Every bit of a fan table's registers may be written.
const EVERY_BIT: Masks = Masks {
    writable: 0xFF,
    clears: 0x00,
};

// A table by where critical and T1 stand: T1 to T4, critical, P1 to P4 behind T4.
fn in_table(critical: u16, first: u16) -> Ground
    requires { first ≤ 1280 }
    ensures { result ≡ record { settings = stretch first 4 every_bit; last = stretch critical 1 every_bit; speeds = stretch (first + 4) 4 every_bit } }
{
    Ground {
        settings: Stretch {
            first,
            count: 4,
            masks: EVERY_BIT,
        },
        last: Stretch {
            first: critical,
            count: 1,
            masks: EVERY_BIT,
        },
        speeds: Stretch {
            first: first + 4,
            count: 4,
            masks: EVERY_BIT,
        },
    }
}

// Tables 1 to 4 stand in bank 3, tables 5 to 10 in bank 4.
#[tactic(auto, using(pages::proofs::Tables::no_ground), unfolding(pages::specs::Cards::sheet_of, pages::specs::Nct7904d::card, pages::specs::Nct7904dBank0::bank, pages::specs::Nct7904dBank1::bank, pages::specs::Nct7904dBank2::bank, pages::specs::Nct7904dBank3::bank, pages::specs::Nct7904dBank4::bank))]
pub fn ground(number: u8) -> Ground
    ensures { Stands Nct7904d number result }
{
    match number {
        1 => in_table(0x320, 0x330),
        2 => in_table(0x321, 0x338),
        3 => in_table(0x322, 0x340),
        4 => in_table(0x323, 0x348),
        5 => in_table(0x410, 0x430),
        6 => in_table(0x411, 0x438),
        7 => in_table(0x412, 0x440),
        8 => in_table(0x413, 0x448),
        9 => in_table(0x414, 0x450),
        10 => in_table(0x415, 0x458),
        _ => NO_GROUND,
    }
}

#[tactic(auto, using(pages::proofs::Tables::laid_first, pages::proofs::Tables::none_laid), unfolding(pages::specs::Cards::sheet_of, pages::specs::Nct7904d::card, pages::specs::Nct7904dBank0::bank, pages::specs::Nct7904dBank1::bank, pages::specs::Nct7904dBank2::bank, pages::specs::Nct7904dBank3::bank, pages::specs::Nct7904dBank4::bank))]
pub fn table(number: u8) -> Option<Layout>
    ensures { Lays Nct7904d number result }
{
    match number {
        1..=10 => Some(Layout {
            settings: 5,
            speeds: 4,
            shape: Shape::Slope(4, 255),
            whole: true,
            selects: 1,
            leading: true,
            counted: false,
        }),
        _ => None,
    }
}
