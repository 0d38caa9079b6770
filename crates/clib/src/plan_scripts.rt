// A plan's byte writes, and playing them on an image.
ghost use Rattle.std.specs.Prelude.{◌≡◌};
ghost use Rattle.refusal.specs.Checks.{first};
ghost use Rattle.records.specs.Records.{plan_of};
ghost use Rattle.records.specs.Promises.{body_checks};
ghost use Rattle.scripts.specs.Promises.{ScriptsBy};
ghost use Rattle.plays.specs.Promises.{PlaysBy};
ghost use Rattle.plays.specs.NeverSlower.{Safely};
ghost use Rattle.clib.specs.Bodies.{script_body_checks, play_body_checks};
ghost use Rattle.clib.specs.Promises.{YkScript, YkPlay};

use crate::packing;
use refusal::Refusal;

// The calls that take a body hand on the refusal that stands beside the plan. A `Result` of the plan for all four would put arrays into an enum, where the
// rules paper wants them beside one.
fn script_of_body(chip: u8, table: u8, body: &[u8], out: &mut [u8]) -> Result<usize, Refusal>
    ensures { ScriptsBy (script_body_checks chip table body.now out.old) (plan_of chip table body.now) out.old result out.new }
{
    let found = records::plan_from(chip, table, body);
    found.answer?;
    scripts::script(found.plan, out)
}

#[unsafe(no_mangle)]
pub extern "C" fn yk_script(chip: u8, table: u8, body: &[u8], out: &mut [u8]) -> u64
    ensures { YkScript chip table body.now out.old result out.new }
{
    let writes = script_of_body(chip, table, body, out);
    packing::of_count(writes)
}

fn play_body(
    chip: u8,
    table: u8,
    body: &[u8],
    image: &mut [u8],
    count: usize,
) -> Result<usize, Refusal>
    ensures plays { PlaysBy (play_body_checks chip table body.now image.old) (plan_of chip table body.now) image.old count result image.new }
    ensures safely { first (body_checks chip table body.now) ≡ 0 → Safely (plan_of chip table body.now) image.old count image.new }
{
    let found = records::plan_from(chip, table, body);
    found.answer?;
    plays::play(found.plan, image, count)
}

#[unsafe(no_mangle)]
pub extern "C" fn yk_play(chip: u8, table: u8, body: &[u8], image: &mut [u8], count: usize) -> u64
    ensures yk_play { YkPlay chip table body.now image.old count result image.new }
    ensures safely { first (body_checks chip table body.now) ≡ 0 → Safely (plan_of chip table body.now) image.old count image.new }
{
    let made = play_body(chip, table, body, image, count);
    packing::of_count(made)
}
