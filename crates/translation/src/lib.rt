// The text of an input of plan records: a header and the script of each plan.
#![tactic(auto)]

mod lines;
mod output;

ghost use Rattle.std.specs.Prelude.{◌≤◌, ◌≡◌, leb, length};
ghost use Rattle.std.proofs.lemmas.List.Edits.{sets};
ghost use Rattle.translation.specs.Text.{plan_text, text_from, text_of};
ghost use Rattle.translation.specs.Promises.{Translates};
ghost use Rattle.translation.specs.Parts.{InRange, Adds, Printable};

use crate::output::Output;
use curves::Plan;
use refusal::Refusal;

// An accepted plan's header and script. No script has more than 25 writes, so 50 bytes hold each, and none is refused.
fn plan_lines(output: &mut Output<'_>, number: usize, plan: Plan)
    requires printable { Printable plan }
    requires in_range { InRange (plan_text number plan) output.old }
    ensures { Adds (plan_text number plan) output.old output.new }
{
    let mut bytes = [0u8; 50];
    let Ok(writes) = scripts::script(plan, &mut bytes) else {
        return;
    };
    let (script, _) = bytes.as_chunks::<2>();
    lines::header(output, number, plan.chip, plan.table, writes);
    lines::writes(output, &script[..writes]);
}

// The lines of the records in at most 4,096 bytes.
fn record_lines(input: &[u8], output: &mut Output<'_>)
    requires short { length input.now ≤ 4096 }
    requires in_range { output.old.length ≡ 0 }
    ensures { Adds (text_from (length input.now) 0 input.now) output.old output.new }
{
    let mut rest = input;
    let mut plans = 0;
    while !rest.is_empty() {
        plans += 1;
        let found = records::read(rest);
        match found.answer {
            Err(refusal) => return lines::refused(output, plans, u8::from(refusal)),
            Ok(used) => {
                plan_lines(output, plans, found.plan);
                (_, rest) = rest.split_at(used);
            }
        }
    }
    lines::end(output, plans)
}

#[tactic(auto, using(crate::proofs::WrittenOut::longer))]
fn all_lines(input: &[u8], output: &mut Output<'_>)
    requires { output.old.length ≡ 0 }
    ensures { Adds (text_of input.now) output.old output.new }
{
    if 4096 < input.len() {
        return output.append(b"input too long\n");
    }
    record_lines(input, output)
}

// The length of an input's text, which stands in the buffer as far as that reaches.
fn put(input: &[u8], out: &mut [u8]) -> usize
    ensures length { result ≡ length (text_of input.now) }
    ensures bytes { out.new ≡ sets out.old 0 (text_of input.now) }
{
    let mut output = Output::new(out);
    all_lines(input, &mut output);
    output.length()
}

// No text is longer.
const LONGEST_TEXT: usize = 40979;

// Whether a buffer of some length holds the text of an input. Where it might not, the text is measured, by a walk over a buffer without a byte.
#[tactic(auto, using(crate::proofs::Bound::text_short))]
fn has_room(input: &[u8], room: usize) -> bool
    ensures { result ≡ leb (length (text_of input.now)) room }
{
    if LONGEST_TEXT <= room {
        return true;
    }
    let mut nowhere = [0u8; 0];
    put(input, &mut nowhere) <= room
}

// Writes the text of an input to the front of the buffer, and answers its length.
pub fn translate(input: &[u8], out: &mut [u8]) -> Result<usize, Refusal>
    ensures { Translates input.now out.old result out.new }
{
    if !has_room(input, out.len()) {
        return Err(Refusal::OutputTooShort);
    }
    Ok(put(input, out))
}
