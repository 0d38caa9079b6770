// Cooling plans: which are accepted, and what speed a plan, or the curve in an image, asks at a temperature. An image comes with its chip's and its
// table's number, as C hands them in.
#![tactic(auto)]

mod tables;

ghost use Rattle.plans.specs.Promises.{Accepts, Judges, AsksPlan, AsksImage};

use curves::Plan;
use pages::Chip;
use refusal::Refusal;

// The chip of a plan that is accepted, and else the first check that it fails.
pub fn accept(plan: Plan) -> Result<Chip, Refusal>
    ensures { Accepts plan result }
{
    let chip = Chip::try_from(plan.chip)?;
    let layout = cards::table_of(chip, plan.table).ok_or(Refusal::NoSuchTable)?;
    if !pages::goes_with(layout, plan.points) {
        return Err(Refusal::FormNotOfChip);
    }
    let fitting = tables::fit(chip, plan, layout);
    if !(curves::temperatures_in_order(layout.shape, plan) & fitting.settings) {
        return Err(Refusal::TemperaturesOutOfOrder);
    }
    if !(curves::speeds_in_order(layout.shape, plan) & fitting.speeds) {
        return Err(Refusal::SpeedsOutOfOrder);
    }
    Ok(chip)
}

// Whether a plan is accepted.
pub fn judge(plan: Plan) -> Result<(), Refusal>
    ensures { Judges plan result }
{
    accept(plan)?;
    Ok(())
}

// The speed that a plan asks at a temperature, ordered or not: a duty, or the count of chip 2.
pub fn asked_of_plan(plan: Plan, t: u8) -> Result<u16, Refusal>
    ensures { AsksPlan plan t result }
{
    let chip = Chip::try_from(plan.chip)?;
    let layout = cards::table_of(chip, plan.table).ok_or(Refusal::NoSuchTable)?;
    if !pages::goes_with(layout, plan.points) {
        return Err(Refusal::FormNotOfChip);
    }
    Ok(curves::speed_of(layout.shape, plan, t))
}

// The speed that the curve in an image's fan table asks at a temperature.
pub fn asked_of_image(chip: u8, table: u8, image: &[u8], t: u8) -> Result<u16, Refusal>
    ensures { AsksImage chip table image.now t result }
{
    let known = Chip::try_from(chip)?;
    let layout = cards::table_of(known, table).ok_or(Refusal::NoSuchTable)?;
    if image.len() != cards::sizes_of(known).image {
        return Err(Refusal::NotAnImage);
    }
    let body = tables::held(cards::ground_of(known, table), image);
    let plan = bodies::plan_of(layout.shape, false, chip, table, 0, &body);
    Ok(curves::speed_of(layout.shape, plan, t))
}
