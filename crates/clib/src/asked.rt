// The speed that a plan, or the curve in an image, asks at a temperature.
ghost use Rattle.plans.specs.Promises.{AsksPlanBy};
ghost use Rattle.records.specs.Records.{plan_of};
ghost use Rattle.records.specs.Promises.{body_checks};
ghost use Rattle.clib.specs.Promises.{YkAskedOfPlan, YkAskedOfImage};

use crate::packing;
use refusal::Refusal;

fn asked_of_body(chip: u8, table: u8, body: &[u8], t: u8) -> Result<u16, Refusal>
    ensures { AsksPlanBy (body_checks chip table body.now) (plan_of chip table body.now) t result }
{
    let found = records::plan_from(chip, table, body);
    found.answer?;
    plans::asked_of_plan(found.plan, t)
}

#[unsafe(no_mangle)]
pub extern "C" fn yk_asked_of_plan(chip: u8, table: u8, body: &[u8], t: u8) -> u64
    ensures { YkAskedOfPlan chip table body.now t result }
{
    let asked = asked_of_body(chip, table, body, t);
    packing::of(asked.map(u64::from))
}

#[unsafe(no_mangle)]
pub extern "C" fn yk_asked_of_image(chip: u8, table: u8, image: &[u8], t: u8) -> u64
    ensures { YkAskedOfImage chip table image.now t result }
{
    let asked = plans::asked_of_image(chip, table, image, t);
    packing::of(asked.map(u64::from))
}
