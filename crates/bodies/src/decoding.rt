// The values of a body's bytes. What a short body lacks counts as 0.
ghost use Rattle.std.specs.Prelude.{◌≡◌, ◌+◌, ◌*◌, ◌≤◌, get_or};
ghost use Rattle.pages.specs.Rows.{from};
ghost use Rattle.curves.specs.Curves.{words};
ghost use Rattle.curves.specs.Planned.{values_at};
ghost use Rattle.bodies.specs.Bodies.{point_at, points_in, slope_in, steps_in};

use curves::{MOST_POINTS, SlopeValues, StepValues};

fn byte_at(body: &[u8], at: usize) -> u8
    ensures { result ≡ get_or body.now at 0 }
{
    body.get(at).copied().unwrap_or(0)
}

// The value of the k-th point, where the first one's stands at a place, and 0 behind the last point.
fn point_at(points: usize, first: usize, body: &[u8], k: usize) -> u8
    requires { first + k ≤ 512 }
    ensures { result ≡ point_at points first body.now k }
{
    if k < points {
        return byte_at(body, first + k);
    }
    0
}

#[tactic(auto, unfolding(pages::specs::Rows::column))]
fn points_in(points: usize, first: usize, body: &[u8]) -> [u8; MOST_POINTS]
    requires { first ≤ 256 }
    ensures { result ≡ points_in points first body.now }
{
    std::array::from_fn(|k| point_at(points, first, body, k))
}

// "high byte first"
fn word_at(body: &[u8], at: usize) -> u16
    requires { at ≤ 256 }
    ensures { result ≡ get_or body.now at 0 * 256 + get_or body.now (at + 1) 0 }
{
    u16::from_be_bytes([byte_at(body, at), byte_at(body, at + 1)])
}

// B1 to B4 lead.
fn bounds_in(body: &[u8]) -> [u8; 4]
    ensures { result ≡ values_at body.now (from 0 4) }
{
    std::array::from_fn(|k| byte_at(body, k))
}

// C1 to C5 stand behind B1 to B4.
#[tactic(auto, unfolding(curves::specs::Curves::words))]
fn counts_in(body: &[u8]) -> [u16; 5]
    ensures { result ≡ words (values_at body.now (from 4 10)) }
{
    std::array::from_fn(|k| word_at(body, 4 + 2 * k))
}

// A temperature for each point, critical, a duty for each point; or critical first.
pub(crate) fn slope_in(leading: bool, points: u8, body: &[u8]) -> SlopeValues
    ensures { result ≡ slope_in leading points body.now }
{
    let count = usize::from(points);
    if leading {
        return SlopeValues {
            temperatures: points_in(count, 1, body),
            critical: byte_at(body, 0),
            duties: points_in(count, count + 1, body),
        };
    }
    SlopeValues {
        temperatures: points_in(count, 0, body),
        critical: byte_at(body, count),
        duties: points_in(count, count + 1, body),
    }
}

// B1 to B4, C1 to C5.
pub(crate) fn steps_in(body: &[u8]) -> StepValues
    ensures { result ≡ steps_in body.now }
{
    StepValues {
        bounds: bounds_in(body),
        counts: counts_in(body),
    }
}
