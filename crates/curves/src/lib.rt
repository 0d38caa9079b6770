// A plan's curve: when its values are in order, and what it asks.
#![tactic(auto)]

mod degrees;
mod orders;
mod slope;
mod steps;

ghost use Rattle.curves.specs.Promises.{CountsPoints, Asks, OrdersTemperatures, OrdersSpeeds, Raises};

use pages::Shape;

// No slope has more points.
pub const MOST_POINTS: usize = 8;

// The values of a slope: a temperature for each point, critical, a duty for each point, and room behind them where there are fewer points than eight.
// Temperatures are bytes as their registers hold them, in two's complement.
#[derive(Clone, Copy)]
pub struct SlopeValues {
    pub temperatures: [u8; MOST_POINTS],
    pub critical: u8,
    pub duties: [u8; MOST_POINTS],
}

// The values of steps: B1 to B4, C1 to C5. Temperatures are unsigned.
#[derive(Clone, Copy)]
pub struct StepValues {
    pub bounds: [u8; 4],
    pub counts: [u16; 5],
}

// A plan has room for the values of either shape, and for the number of points that a record with the mark 43h 51h carries.
#[derive(Clone, Copy)]
pub struct Plan {
    pub chip: u8,
    pub table: u8,
    pub points: u8,
    pub slope: SlopeValues,
    pub steps: StepValues,
}

// "those of the other chip are zero in what is read"
pub const NO_SLOPE: SlopeValues = SlopeValues {
    temperatures: [0; MOST_POINTS],
    critical: 0,
    duties: [0; MOST_POINTS],
};

pub const NO_STEPS: StepValues = StepValues {
    bounds: [0; 4],
    counts: [0; 5],
};

// How many points of a slope a plan holds: as many as its shape says, and no more than there is room for.
pub fn count_of(points: u8) -> usize
    ensures { CountsPoints points result }
{
    usize::from(points).min(MOST_POINTS)
}

// The speed that a plan's curve asks at a temperature: a duty or a count.
pub fn speed_of(shape: Shape, plan: Plan, t: u8) -> u16
    ensures { Asks shape plan t result }
{
    match shape {
        Shape::Slope(points, full) => u16::from(plan.slope.asked_duty(points, full, t)),
        Shape::Steps => steps::asked_count(plan.steps.bounds, plan.steps.counts, t),
    }
}

// Whether a plan's temperatures are in the order of its shape.
pub fn temperatures_in_order(shape: Shape, plan: Plan) -> bool
    ensures { OrdersTemperatures shape plan result }
{
    match shape {
        Shape::Slope(points, _) => plan.slope.rising_to_critical(points),
        Shape::Steps => plan.steps.bounds_fall(),
    }
}

// Whether a plan's duties or counts are in order. The two orders are two promises: one function for both would take the rule of each shape.
pub fn speeds_in_order(shape: Shape, plan: Plan) -> bool
    ensures { OrdersSpeeds shape plan result }
{
    match shape {
        Shape::Slope(points, _) => plan.slope.duties_never_fall(points),
        Shape::Steps => plan.steps.counts_never_fall(),
    }
}

// The fastest that a speed register can hold.
pub fn full_of(shape: Shape) -> u8
    ensures { Raises shape result }
{
    match shape {
        Shape::Slope(_, full) => full,
        Shape::Steps => 0x00,
    }
}
