// What the chips' pages and their callers speak of. The pages themselves are in specs/: facts, which the chips' crates look up.
#![tactic(auto)]

ghost use Rattle.std.specs.Prelude.{◌≡◌, get_or};
ghost use Rattle.pages.specs.Rows.{spread, no_register};
ghost use Rattle.pages.specs.Promises.{Names, GoesWith, StandsInOneRow, StandsAt};

use refusal::Refusal;

#[derive(Clone, Copy, Debug, PartialEq, Eq)]
pub enum Chip {
    Nct7802y,
    F75373s,
    Nct80,
    Nct7904d,
    W83793g,
}

// The chip of a chip number; every other number is refused.
impl TryFrom<u8> for Chip {
    type Error = Refusal;

    ghost try_from_gives = { Names };

    #[tactic(auto, unfolding(crate::specs::Cards::sheet_of))]
    fn try_from(number: u8) -> Result<Chip, Refusal> {
        match number {
            1 => Ok(Chip::Nct7802y),
            2 => Ok(Chip::F75373s),
            3 => Ok(Chip::Nct80),
            4 => Ok(Chip::Nct7904d),
            5 => Ok(Chip::W83793g),
            _ => Err(Refusal::NoSuchChip),
        }
    }
}

// What a write does in a register: the bits that it replaces, and those that it clears where it has a 1.
#[derive(Clone, Copy)]
pub struct Masks {
    pub writable: u8,
    pub clears: u8,
}

// The bits of a register that do more than stand there: those that initialize the chip where a 1 is written, and those that clear themselves.
#[derive(Clone, Copy)]
pub struct Effects {
    pub initialize: u8,
    pub fleeting: u8,
}

// A register of a fan table: where it stands in the image, and what a write does there.
#[derive(Clone, Copy)]
pub struct Register {
    pub position: usize,
    pub masks: Masks,
}

// Registers that stand in a row and have the same masks.
#[derive(Clone, Copy)]
pub struct Stretch {
    pub first: u16,
    pub count: u8,
    pub masks: Masks,
}

// Where the registers of a fan table stand: its settings but for the last, the last one, which may stand apart from them, and its speeds.
#[derive(Clone, Copy)]
pub struct Ground {
    pub settings: Stretch,
    pub last: Stretch,
    pub speeds: Stretch,
}

// The register that selects a bank, and its bits that say which; no bit where there is one bank only.
#[derive(Clone, Copy)]
pub struct Selector {
    pub register: Register,
    pub bits: u8,
}

// How many bytes a chip's image has, how many registers its identity looks at, and how many tell a status.
#[derive(Clone, Copy)]
pub struct Sizes {
    pub image: usize,
    pub identity: usize,
    pub status: usize,
}

// A register that identity looks at: the bits that count, and what these hold, one value or the other; both are the same where there is one only.
#[derive(Clone, Copy)]
pub struct Required {
    pub position: usize,
    pub bits: u8,
    pub value: u8,
    pub other: u8,
}

// What a fan table's curve is: a slope between points, with their number and its full duty, or steps of counts.
#[derive(Clone, Copy)]
pub enum Shape {
    Slope(u8, u8),
    Steps,
}

// That a table has at most 17 registers is no invariant here, since the definition `layout` lays out any table: three functions require it.
// How many registers of each kind a fan table has, what its curve is, whether every register of it takes every bit, so that each byte fits, how
// many selects of a bank its script has, whether critical leads in its record, and whether its record carries the number of its points.
#[derive(Clone, Copy)]
pub struct Layout {
    pub settings: usize,
    pub speeds: usize,
    pub shape: Shape,
    pub whole: bool,
    pub selects: usize,
    pub leading: bool,
    pub counted: bool,
}

// Behind the end of a card.
pub const NO_MASKS: Masks = Masks {
    writable: 0x00,
    clears: 0x00,
};

// A register that only stores.
pub const NO_EFFECTS: Effects = Effects {
    initialize: 0x00,
    fleeting: 0x00,
};

// Behind the last register of a table.
pub const NO_REGISTER: Register = Register {
    position: 0,
    masks: NO_MASKS,
};

// No register at all.
const NO_STRETCH: Stretch = Stretch {
    first: 0,
    count: 0,
    masks: NO_MASKS,
};

// Where there is no table.
pub const NO_GROUND: Ground = Ground {
    settings: NO_STRETCH,
    last: NO_STRETCH,
    speeds: NO_STRETCH,
};

// No bit of any register.
pub const NOTHING: Required = Required {
    position: 0,
    bits: 0x00,
    value: 0x00,
    other: 0x00,
};

// Whether a number of points goes with a fan table: where its record carries one, it is that of its duties.
pub fn goes_with(layout: Layout, points: u8) -> bool
    ensures { GoesWith layout points result }
{
    if layout.counted {
        return points as usize == layout.speeds;
    }
    true
}

// Where a table stands whose registers are all in a row: some settings and one more, then the speeds.
pub fn one_row(first: u8, settings: u8, speeds: u8, masks: Masks) -> Ground
    ensures { StandsInOneRow first settings speeds masks result }
{
    let last = first as u16 + settings as u16;
    Ground {
        settings: Stretch {
            first: first as u16,
            count: settings,
            masks,
        },
        last: Stretch {
            first: last,
            count: 1,
            masks,
        },
        speeds: Stretch {
            first: last + 1,
            count: speeds,
            masks,
        },
    }
}

// The k-th register of a stretch, and none behind the last.
fn in_a_row(stretch: Stretch, k: usize) -> Register
    ensures { result ≡ get_or (spread stretch) k no_register }
{
    if stretch.count as usize <= k {
        return NO_REGISTER;
    }
    let masks = stretch.masks;
    Register {
        position: stretch.first as usize + k,
        masks,
    }
}

// The k-th register of a fan table, settings first, and none behind the last.
pub fn register_at(stretches: Ground, k: usize) -> Register
    ensures { StandsAt stretches k result }
{
    let settings = stretches.settings;
    let before = settings.count as usize;
    if k < before {
        return in_a_row(settings, k);
    }
    let last = stretches.last;
    let through = before + last.count as usize;
    if k < through {
        return in_a_row(last, k - before);
    }
    in_a_row(stretches.speeds, k - through)
}
