// Playing a plan's script on an image.
#![tactic(auto)]

ghost use Rattle.plays.specs.Promises.{Plays};
ghost use Rattle.plays.specs.NeverSlower.{Safely};

use curves::Plan;
use refusal::Refusal;

// Makes the first writes of a plan's script on the image, as many as `count` says, or all. The plan and the identity are looked at once, before the
// first write.
pub fn play(plan: Plan, image: &mut [u8], count: usize) -> Result<usize, Refusal>
    ensures plays { Plays plan image.old count result image.new }
    ensures safely { Safely plan image.old count image.new }
{
    let chip = plans::accept(plan)?;
    identities::confirm(plan.chip, image)?;
    Ok(scripts::make(chip, plan, count, image))
}
