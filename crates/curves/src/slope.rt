// The duty that a slope asks.
ghost use Rattle.std.specs.Prelude.{◌≡◌, map, ◌<◌, ◌≤◌, length, take, leb, position};
ghost use Rattle.curves.specs.Curves.{degree, points, mean, below, slope};

use crate::degrees::{degree_of, degrees_of};
use crate::{SlopeValues, count_of};

// Between two points: "the floor of (FL(k-1) x (Tk - T) + FLk x (T - T(k-1))) / (Tk - T(k-1))", never a truncated difference.
#[tactic(auto, unfolding(crate::specs::Curves::mean))]
fn mean(low: u8, from: u8, high: u8, to: u8, at: u8) -> u8
    requires { (low < at) × (at ≤ high) }
    ensures { result ≡ mean (low, from) (high, to) at }
{
    let down = u32::from(high - at);
    let up = u32::from(at - low);
    let span = u32::from(high - low);
    ((u32::from(from) * down + u32::from(to) * up) / span) as u8
}

// The first point that T is at most.
fn first_ahead(degrees: &[u8], at: u8) -> Option<usize>
    ensures { result ≡ position (leb at) degrees.now }
{
    degrees.iter().position(|degree| at <= *degree)
}

// Below critical: "FL1 if T is at most T1; else for the first k .. with T at most Tk" the mean, "else" the last duty; with no point at all, full.
fn duty_below(full: u8, degrees: &[u8], duties: &[u8], at: u8) -> u8
    requires { length degrees.now ≡ length duties.now }
    ensures { result ≡ below full (points degrees.now duties.now) at }
{
    match first_ahead(degrees, at) {
        Some(0) => duties[0],
        Some(k) => mean(degrees[k - 1], duties[k - 1], degrees[k], duties[k], at),
        None => duties.last().copied().unwrap_or(full),
    }
}

impl SlopeValues {
    pub(crate) fn asked_duty(self, number: u8, full: u8, t: u8) -> u8
        ensures { result ≡ slope full (points (map degree (take number self.temperatures)) (take number self.duties)) (degree self.critical) (degree t) }
    {
        let at = degree_of(t);
        if degree_of(self.critical) <= at {
            return full;
        }
        let count = count_of(number);
        let degrees = degrees_of(self.temperatures);
        duty_below(full, &degrees[..count], &self.duties[..count], at)
    }
}
