// What a script is made from. One rule serves every chip: raise the speeds, then write the body in register order, and select a bank before the first
// write and wherever the next register lies in another bank.
ghost use Rattle.std.specs.Prelude.{ℕ, ◌<◌, ◌≡◌, true, cond, eqb, min};
ghost use Rattle.scripts.specs.Making.{Short, registers_of, writes_of, place_at, byte_at, start, cursor_at, load_of, loaded_bytes};

use bodies::LONGEST;
use curves::Plan;
use pages::{Chip, Ground, Register, Selector};

// A fan table that is loaded: where it stands, how many settings and speeds it has, the full byte, and the selects.
#[derive(Clone, Copy)]
pub struct Load {
    pub stretches: Ground,
    pub settings: usize,
    pub speeds: usize,
    pub full: u8,
    pub selector: Selector,
    pub selects: usize,
}

// A byte to a register.
#[derive(Clone, Copy)]
pub struct Write {
    pub register: Register,
    pub byte: u8,
}

// Between two writes: which register is next, and which bank is selected.
#[derive(Clone, Copy)]
pub struct Cursor {
    pub next: usize,
    pub bank: usize,
}

// What is selected before the first write is not known.
pub(crate) const START: Cursor = Cursor { next: 0, bank: 256 };

// The writes that are still to come: of which load, with which body's bytes, from where, and how many.
#[derive(Drop)]
pub struct Writes {
    pub load: Load,
    pub body: [u8; LONGEST],
    pub cursor: Cursor,
    pub left: usize,
    ghost short: { Short load },
    ghost inside: { (n : ℕ) → n < left → (cursor_at load cursor n).next < registers_of load },
}

impl Writes {
    // All writes of a plan.
    #[inline(always)]
    pub(crate) fn of(chip: Chip, plan: Plan) -> Writes
        ensures { (result.load ≡ load_of chip plan) × (result.body ≡ loaded_bytes chip plan) × (result.cursor ≡ start) × (result.left ≡ writes_of (load_of chip plan)) }
    {
        let load = load_of(chip, plan);
        Writes {
            load,
            body: bytes_of(chip, plan),
            cursor: START,
            left: load.selects + (load.speeds + (load.settings + load.speeds)),
        }
    }

    // The first of them, as many as `count` says, or all.
    pub(crate) fn first(mut self, count: usize) -> Writes
        ensures { (result.load ≡ self.load) × (result.body ≡ self.body) × (result.cursor ≡ self.cursor) × (result.left ≡ min count self.left) }
    {
        self.left = count.min(self.left);
        self
    }

    // The table's register that is next, by its place: the raised speeds, then all of them.
    #[tactic(auto, unfolding(crate::specs::Making::place_at))]
    fn place(&self) -> usize
        requires { 0 < self.now.left }
        ensures { result ≡ place_at self.now.load self.now.cursor.next }
    {
        let next = self.cursor.next;
        if next < self.load.speeds {
            return self.load.settings + next;
        }
        next - self.load.speeds
    }

    // The byte that it takes.
    #[tactic(auto, unfolding(crate::specs::Making::byte_at))]
    fn byte(&self) -> u8
        requires { 0 < self.now.left }
        ensures { result ≡ byte_at self.now.load self.now.body self.now.cursor.next }
    {
        let next = self.cursor.next;
        if next < self.load.speeds {
            return self.load.full;
        }
        self.body[next - self.load.speeds]
    }
}

// The next write is the next register's, or a select of its bank before it.
impl Iterator for Writes {
    type Item = Write;

    ghost use Rattle.std.specs.Iterator.{YieldsFirst, item_count};
    ghost use Rattle.scripts.specs.Left.{left_of};

    ghost next_gives = { YieldsFirst left_of };

    ghost remaining = { item_count left_of };

    // Compiled into its loops: a call for each write costs as much again as the write.
    #[inline(always)]
    fn next(&mut self) -> Option<Write> {
        if self.left == 0 {
            return None;
        }
        let register = pages::register_at(self.load.stretches, self.place());
        // A position is a usize of no bound, so that its bank is a quotient and no byte of a u16.
        let bank = register.position / 256;
        let selector = self.load.selector;
        let cursor = self.cursor;
        if is_ready(selector.bits, cursor.bank, bank) {
            let byte = self.byte();
            self.left -= 1;
            self.cursor = Cursor {
                next: cursor.next + 1,
                bank,
            };
            return Some(Write { register, byte });
        }
        self.left -= 1;
        self.cursor = Cursor {
            next: cursor.next,
            bank,
        };
        Some(Write {
            register: selector.register,
            byte: bank as u8,
        })
    }
}

// Whether a bank's registers are reached without a select: no bit says a bank, or it is the one selected.
fn is_ready(bits: u8, selected: usize, bank: usize) -> bool
    ensures { result ≡ cond (eqb bits 0) true (eqb selected bank) }
{
    if bits == 0 {
        return true;
    }
    selected == bank
}

// A plan's table of a chip; where the chip has no such table, one without a register.
pub(crate) fn load_of(chip: Chip, plan: Plan) -> Load
    ensures { result ≡ load_of chip plan }
{
    let layout = cards::layout_of(chip, plan.table);
    Load {
        stretches: cards::ground_of(chip, plan.table),
        settings: layout.settings,
        speeds: layout.speeds,
        full: curves::full_of(layout.shape),
        selector: cards::selector_of(chip),
        selects: layout.selects,
    }
}

// The bytes that a plan loads there.
pub(crate) fn bytes_of(chip: Chip, plan: Plan) -> [u8; LONGEST]
    ensures { result ≡ loaded_bytes chip plan }
{
    let layout = cards::layout_of(chip, plan.table);
    bodies::body_of(layout.shape, false, plan)
}
