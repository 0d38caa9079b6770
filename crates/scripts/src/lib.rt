// A plan's byte writes: put in a buffer, or made on an image.
#![tactic(auto)]

mod making;
mod output;
mod playing;

ghost use Rattle.scripts.specs.Promises.{Scripts, Makes};

use crate::making::Writes;
use curves::Plan;
use pages::Chip;
use refusal::Refusal;

// Writes a plan's script to the front of the buffer, as pairs of address and byte.
pub fn script(plan: Plan, out: &mut [u8]) -> Result<usize, Refusal>
    ensures { Scripts plan out.old result out.new }
{
    let chip = plans::accept(plan)?;
    output::put_all(Writes::of(chip, plan), out)
}

// Makes the first writes of a plan's script on an image, as many as `count` says, or all, and answers how many. Nothing is checked.
pub fn make(chip: Chip, plan: Plan, count: usize, image: &mut [u8]) -> usize
    ensures { Makes chip plan count image.old result image.new }
{
    let writes = Writes::of(chip, plan).first(count);
    let made = writes.left;
    playing::make_all(writes, image);
    made
}
