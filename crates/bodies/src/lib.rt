// A plan's body, its values in register order: taken from bytes, and laid out.
#![tactic(auto)]

mod decoding;
mod encoding;

ghost use Rattle.bodies.specs.Promises.{Decodes, EncodesBody};

use curves::{NO_SLOPE, NO_STEPS, Plan};
use pages::Shape;

// No body has more bytes.
pub const LONGEST: usize = 17;

// Chip, table and points are three numbers here, as a record has them: a struct for them would be taken apart again in the plan.
// The plan whose curve stands in a body's bytes, by whether critical leads there, with the number of points that its record carries.
pub fn plan_of(shape: Shape, leading: bool, chip: u8, table: u8, points: u8, body: &[u8]) -> Plan
    ensures { Decodes leading shape chip table points body.now result }
{
    match shape {
        Shape::Slope(count, _) => Plan {
            chip,
            table,
            points,
            slope: decoding::slope_in(leading, count, body),
            steps: NO_STEPS,
        },
        Shape::Steps => Plan {
            chip,
            table,
            points,
            slope: NO_SLOPE,
            steps: decoding::steps_in(body),
        },
    }
}

// The bytes of a plan's body, by whether critical leads there, and zeros behind them.
pub fn body_of(shape: Shape, leading: bool, plan: Plan) -> [u8; LONGEST]
    ensures { EncodesBody leading shape plan result }
{
    match shape {
        Shape::Slope(points, _) => encoding::slope_bytes(leading, points, plan.slope),
        Shape::Steps => encoding::step_bytes(plan.steps),
    }
}
