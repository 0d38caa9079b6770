// What the chips' pages say, looked up in the crate of the chip. Each look-up has its match over the chips: a table of functions or a dyn page could not
// be handed out, and a trait of pages would still want the match.
#![tactic(auto)]

ghost use Rattle.pages.specs.Promises.{Finds, Acts, Reports, PowersOn, TellsSizes, Requires, Lays, LaysOut, Stands, Selects, Positions};

use pages::{
    Chip, Effects, Ground, Layout, Masks, NO_EFFECTS, NO_GROUND, NO_REGISTER, NOTHING, Register,
    Required, Selector, Shape, Sizes,
};

// How many bytes an image has at most.
pub const GREATEST: usize = 1280;

// The masks of a register of the image, and none behind the card's end.
pub fn masks_of(chip: Chip, position: usize) -> Masks
    ensures { Finds chip position result }
{
    match chip {
        Chip::Nct7802y => nct7802y::masks(position),
        Chip::F75373s => f75373s::masks(position),
        Chip::Nct80 => nct80::masks(position),
        Chip::Nct7904d => nct7904d::masks(position),
        Chip::W83793g => w83793g::masks(position),
    }
}

// The bits of a register of the image that do more than stand there; none behind the card's end.
#[tactic(auto, unfolding(pages::specs::Cards::sheet_of, pages::specs::Cards::effects_of))]
pub fn effects_of(chip: Chip, position: usize) -> Effects
    ensures { Acts chip position result }
{
    match chip {
        Chip::Nct7802y => NO_EFFECTS,
        Chip::F75373s => NO_EFFECTS,
        Chip::Nct80 => nct80::effects(position),
        Chip::Nct7904d => NO_EFFECTS,
        Chip::W83793g => NO_EFFECTS,
    }
}

// Whether a register of the image tells a status: a read clears it, and is the acknowledge.
#[tactic(auto, unfolding(pages::specs::Cards::sheet_of, pages::specs::Cards::is_status))]
pub fn is_status(chip: Chip, position: usize) -> bool
    ensures { Reports chip position result }
{
    match chip {
        Chip::Nct7802y => false,
        Chip::F75373s => false,
        Chip::Nct80 => (position == 0x01) | (position == 0x02),
        Chip::Nct7904d => false,
        Chip::W83793g => false,
    }
}

// What a register of the image holds at power-on, and 0 behind the card's end.
pub fn power_on_of(chip: Chip, position: usize) -> u8
    ensures { PowersOn chip position result }
{
    match chip {
        Chip::Nct7802y => nct7802y::power(position),
        Chip::F75373s => f75373s::power(position),
        Chip::Nct80 => nct80::power(position),
        Chip::Nct7904d => nct7904d::power(position),
        Chip::W83793g => w83793g::power(position),
    }
}

// How long the chip's image and its identity are, and how many status registers it has. Where identity looks at no register, nothing is confirmed.
#[tactic(auto, unfolding(pages::specs::Cards::sheet_of))]
pub fn sizes_of(chip: Chip) -> Sizes
    ensures { TellsSizes chip result }
{
    match chip {
        Chip::Nct7802y => Sizes {
            image: 256,
            identity: 5,
            status: 0,
        },
        Chip::F75373s => Sizes {
            image: 256,
            identity: 4,
            status: 0,
        },
        Chip::Nct80 => Sizes {
            image: 256,
            identity: 0,
            status: 2,
        },
        Chip::Nct7904d => Sizes {
            image: 1280,
            identity: 6,
            status: 0,
        },
        Chip::W83793g => Sizes {
            image: 768,
            identity: 3,
            status: 0,
        },
    }
}

// The k-th register that identity looks at, and no bit of any register behind the last.
#[tactic(auto, unfolding(pages::specs::Cards::sheet_of))]
pub fn required_of(chip: Chip, k: usize) -> Required
    ensures { Requires chip k result }
{
    match chip {
        Chip::Nct7802y => nct7802y::required(k),
        Chip::F75373s => f75373s::required(k),
        Chip::Nct80 => NOTHING,
        Chip::Nct7904d => nct7904d::required(k),
        Chip::W83793g => w83793g::required(k),
    }
}

// The fan table of a number.
#[tactic(auto, using(pages::proofs::Tables::none_laid), unfolding(pages::specs::Cards::sheet_of))]
pub fn table_of(chip: Chip, number: u8) -> Option<Layout>
    ensures { Lays chip number result }
{
    match chip {
        Chip::Nct7802y => nct7802y::table(number),
        Chip::F75373s => f75373s::table(number),
        Chip::Nct80 => None,
        Chip::Nct7904d => nct7904d::table(number),
        Chip::W83793g => w83793g::table(number),
    }
}

// The table of a number that has none.
const MISSING: Layout = Layout {
    settings: 0,
    speeds: 0,
    shape: Shape::Steps,
    whole: true,
    selects: 0,
    leading: false,
    counted: false,
};

// How the fan table of a number is laid out; where there is none, without a register.
pub fn layout_of(chip: Chip, number: u8) -> Layout
    ensures { LaysOut chip number result }
{
    table_of(chip, number).unwrap_or(MISSING)
}

// Where the registers of a fan table stand; nowhere where there is none.
#[tactic(auto, using(pages::proofs::Tables::no_ground), unfolding(pages::specs::Cards::sheet_of))]
pub fn ground_of(chip: Chip, number: u8) -> Ground
    ensures { Stands chip number result }
{
    match chip {
        Chip::Nct7802y => nct7802y::ground(number),
        Chip::F75373s => f75373s::ground(number),
        Chip::Nct80 => NO_GROUND,
        Chip::Nct7904d => nct7904d::ground(number),
        Chip::W83793g => w83793g::ground(number),
    }
}

// Where there is one bank only.
const ONE_BANK: Selector = Selector {
    register: NO_REGISTER,
    bits: 0x00,
};

// The register that selects a bank of the chip: of the NCT7904D BANK_SEL, bits 2 to 0; of the W83793G BankSel, bits 2 to 0, whose bit 7 may be written too.
#[tactic(auto, unfolding(pages::specs::Cards::sheet_of, pages::specs::Nct7904d::card, pages::specs::Nct7904dBank0::bank, pages::specs::W83793g::card, pages::specs::W83793gBank0::bank))]
pub fn selector_of(chip: Chip) -> Selector
    ensures { Selects chip result }
{
    match chip {
        Chip::Nct7802y => ONE_BANK,
        Chip::F75373s => ONE_BANK,
        Chip::Nct80 => ONE_BANK,
        Chip::Nct7904d => Selector {
            register: Register {
                position: 0xFF,
                masks: Masks {
                    writable: 0x07,
                    clears: 0x00,
                },
            },
            bits: 0x07,
        },
        Chip::W83793g => Selector {
            register: Register {
                position: 0x00,
                masks: Masks {
                    writable: 0x87,
                    clears: 0x00,
                },
            },
            bits: 0x07,
        },
    }
}

// The position of the image that an address is while a bank is selected.
#[tactic(auto, unfolding(pages::specs::Cards::sheet_of))]
pub fn position_of(chip: Chip, bank: u8, address: u8) -> usize
    ensures { Positions chip bank address result }
{
    match chip {
        Chip::Nct7802y => address as usize,
        Chip::F75373s => address as usize,
        Chip::Nct80 => address as usize,
        Chip::Nct7904d => nct7904d::position(bank, address),
        Chip::W83793g => w83793g::position(bank, address),
    }
}
