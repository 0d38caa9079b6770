// Plan records: read from bytes, and written to a lent buffer.
#![tactic(auto)]

mod forms;

ghost use Rattle.std.specs.Prelude.{◌+◌, ◌≤◌, ◌≡◌};
ghost use Rattle.std.proofs.Math.Bool.{So};
ghost use Rattle.pages.specs.Sheets.{longest};
ghost use Rattle.pages.specs.Cards.{has_table};
ghost use Rattle.records.specs.Parts.{Refuses, looked_at, TakesBy, Headed, PutsRecord};
ghost use Rattle.records.specs.Promises.{TakesBody, ReadsRecord, WritesRecord};

use curves::{NO_SLOPE, NO_STEPS, Plan};
use pages::{Chip, Layout};
use refusal::Refusal;

// What is read: the bytes used, and the plan, which is all zeros where the record is refused. It is no Result of both: the rules paper wants
// "answers that hold arrays stand beside an enum".
#[derive(Clone, Copy)]
pub struct Found {
    pub answer: Result<usize, Refusal>,
    pub plan: Plan,
}

fn refused(refusal: Refusal) -> Found
    ensures { Refuses refusal result }
{
    Found {
        answer: Err(refusal),
        plan: Plan {
            chip: 0,
            table: 0,
            points: 0,
            slope: NO_SLOPE,
            steps: NO_STEPS,
        },
    }
}

// How a chip's fan table is laid out.
fn look(chip: u8, table: u8) -> Result<Layout, Refusal>
    ensures { result ≡ looked_at chip table }
{
    let known = Chip::try_from(chip)?;
    cards::table_of(known, table).ok_or(Refusal::NoSuchTable)
}

// The plan of a table that is laid out so and of the bytes behind a header, the point count first where the record carries one.
fn plan_by(layout: Layout, chip: u8, table: u8, bytes: &[u8]) -> Found
    requires { layout.settings + layout.speeds ≤ longest }
    ensures { TakesBy layout chip table bytes.now result }
{
    if forms::is_count_out(layout, bytes) {
        return refused(Refusal::FormNotOfChip);
    }
    let length = forms::body_size(layout);
    if bytes.len() < length {
        return refused(Refusal::BodyCutShort);
    }
    let shape = layout.shape;
    if layout.counted {
        return Found {
            answer: Ok(length),
            plan: bodies::plan_of(shape, layout.leading, chip, table, bytes[0], &bytes[1..]),
        };
    }
    Found {
        answer: Ok(length),
        plan: bodies::plan_of(shape, layout.leading, chip, table, 0, bytes),
    }
}

// The plan of a chip, a table and the body that the bytes begin with, and how many of them it takes.
pub fn plan_from(chip: u8, table: u8, bytes: &[u8]) -> Found
    ensures { TakesBody chip table bytes.now result }
{
    match look(chip, table) {
        Err(refusal) => refused(refusal),
        Ok(layout) => plan_by(layout, chip, table, bytes),
    }
}

// The plan of a record whose table is laid out so, with its mark, and how many of the bytes it takes.
fn read_by(layout: Layout, bytes: &[u8]) -> Found
    requires { Headed layout bytes.now }
    ensures { ReadsRecord bytes.now result }
{
    if bytes[1] != forms::mark_of(layout.counted) {
        return refused(Refusal::FormNotOfChip);
    }
    let found = plan_by(layout, bytes[2], bytes[3], &bytes[4..]);
    let answer = found.answer;
    let Ok(length) = answer else {
        return found;
    };
    let plan = found.plan;
    if let Err(refusal) = plans::judge(plan) {
        return refused(refusal);
    }
    Found {
        answer: Ok(4 + length),
        plan,
    }
}

// The plan of the record that the bytes begin with, and how many of them it takes.
pub fn read(bytes: &[u8]) -> Found
    ensures { ReadsRecord bytes.now result }
{
    if bytes.len() < 4 {
        return refused(Refusal::HeaderCutShort);
    }
    if !forms::is_mark(bytes[0], bytes[1]) {
        return refused(Refusal::WrongMark);
    }
    match look(bytes[2], bytes[3]) {
        Err(refusal) => refused(refusal),
        Ok(layout) => read_by(layout, bytes),
    }
}

// Writes the record of a chip's plan to the front of the buffer.
fn put(chip: Chip, plan: Plan, out: &mut [u8]) -> Result<usize, Refusal>
    requires { So (has_table chip plan.table) }
    ensures { PutsRecord chip plan out.old result out.new }
{
    let layout = cards::layout_of(chip, plan.table);
    let length = 4 + forms::body_size(layout);
    if out.len() < length {
        return Err(Refusal::OutputTooShort);
    }
    let body = bodies::body_of(layout.shape, layout.leading, plan);
    let registers = layout.settings + layout.speeds;
    out[..4].copy_from_slice(&forms::header(layout.counted, plan.chip, plan.table));
    forms::put_body(
        layout.counted,
        plan.points,
        &body[..registers],
        &mut out[4..length],
    );
    Ok(length)
}

// Writes a plan's record to the front of the buffer, and answers its length.
pub fn write(plan: Plan, out: &mut [u8]) -> Result<usize, Refusal>
    ensures { WritesRecord plan out.old result out.new }
{
    let chip = plans::accept(plan)?;
    put(chip, plan, out)
}
