// Plans that lines are about, and how a line shows a plan, a temperature and a speed. Only the programs that print figures use it.
#![tactic(auto)]

ghost use Rattle.std.specs.Prelude.{◌≡◌};
ghost use Rattle.figures_samples.specs.Samples.{in_eight as Samples·in_eight, pointed as Samples·pointed, sloped, stepped as Samples·stepped, seven as Samples·seven, paper_for, muddled_for, all_different, banked_for, counted_for, other_seven, refused_at};

use curves::{NO_SLOPE, NO_STEPS, Plan, SlopeValues, StepValues};
use figures_printing::{Byte, Bytes, Refused, Word};
use refusal::Refusal;
use std::io::{self, Stdout};

// The points of a plan, which has room for eight: zeros stand behind fewer.
fn in_eight(points: &[u8]) -> [u8; 8]
    ensures { result ≡ Samples·in_eight points.now }
{
    std::array::from_fn(|k| points.get(k).copied().unwrap_or(0))
}

// A plan with the values of a slope and a point count, which is a matter of chip 5; another chip number may stand on it.
pub fn pointed<const N: usize>(
    chip: u8,
    table: u8,
    points: u8,
    temperatures: [u8; N],
    critical: u8,
    duties: [u8; N],
) -> Plan
    ensures { result ≡ Samples·pointed chip table points temperatures.entry critical duties.entry }
{
    Plan {
        chip,
        table,
        points,
        slope: SlopeValues {
            temperatures: in_eight(&temperatures),
            critical,
            duties: in_eight(&duties),
        },
        steps: NO_STEPS,
    }
}

// A plan with four points, as chips 1 and 4 have them.
pub fn slope(chip: u8, table: u8, temperatures: [u8; 4], critical: u8, duties: [u8; 4]) -> Plan
    ensures { result ≡ sloped chip table temperatures critical duties }
{
    pointed(chip, table, 0, temperatures, critical, duties)
}

// A plan of chip 5, with its seven points and their count.
pub fn seven(table: u8, temperatures: [u8; 7], critical: u8, duties: [u8; 7]) -> Plan
    ensures { result ≡ Samples·seven table temperatures critical duties }
{
    pointed(5, table, 7, temperatures, critical, duties)
}

// A plan of chip 2.
pub fn steps(table: u8, bounds: [u8; 4], counts: [u16; 5]) -> Plan
    ensures { result ≡ Samples·stepped table bounds counts }
{
    Plan {
        chip: 2,
        table,
        points: 0,
        slope: NO_SLOPE,
        steps: StepValues { bounds, counts },
    }
}

// The values of the rules paper's plan, which is for table 3 of chip 1.
pub fn paper(chip: u8, table: u8) -> Plan
    ensures { result ≡ paper_for chip table }
{
    slope(chip, table, [30, 40, 50, 55], 60, [140, 170, 200, 230])
}

// The same with neither temperatures nor duties in order, and a point count.
fn muddled(chip: u8, table: u8, points: u8) -> Plan
    ensures { result ≡ muddled_for chip table points }
{
    pointed(
        chip,
        table,
        points,
        [40, 30, 50, 55],
        60,
        [140, 170, 200, 199],
    )
}

// A plan of chip 2 whose bytes are all different.
pub fn stepped() -> Plan
    ensures { result ≡ all_different }
{
    steps(
        1,
        [60, 50, 40, 30],
        [0x0102, 0x0304, 0x0506, 0x0708, 0x090A],
    )
}

// A plan of chip 4 with a temperature below zero and critical above all others: the second of the request's, which is for table 10.
pub fn banked(table: u8) -> Plan
    ensures { result ≡ banked_for table }
{
    slope(4, table, [0xEC, 0, 20, 50], 127, [0, 64, 128, 255])
}

// The request's plan of chip 5, which is for table 1 and has the point count 7. Its values are those of power-on, too.
pub fn counted(table: u8, points: u8) -> Plan
    ensures { result ≡ counted_for table points }
{
    pointed(
        5,
        table,
        points,
        [30, 35, 40, 45, 50, 55, 60],
        80,
        [8, 12, 16, 24, 32, 48, 56],
    )
}

// A plan of chip 5 whose bytes are all different, and none of them its register's at power-on.
pub fn other_seven(table: u8) -> Plan
    ensures { result ≡ other_seven table }
{
    seven(
        table,
        [20, 33, 41, 47, 54, 59, 66],
        75,
        [5, 9, 18, 27, 36, 45, 62],
    )
}

// 33 plans that a check refuses, and several that two or more would: then the first is the answer.
pub fn refused(k: u8) -> Plan
    ensures { result ≡ refused_at k }
{
    match k {
        0 => paper(0, 3),
        1 => muddled(6, 11, 0),
        2 => paper(1, 0),
        3 => paper(1, 4),
        4 => muddled(1, 4, 0),
        5 => steps(3, [60, 50, 40, 30], [0, 1, 2, 3, 4]),
        6 => paper(3, 1),
        7 => paper(4, 0),
        8 => muddled(4, 11, 0),
        9 => slope(1, 1, [30, 40, 40, 55], 60, [140, 170, 200, 230]),
        10 => slope(1, 2, [30, 40, 50, 55], 54, [140, 170, 200, 230]),
        11 => slope(1, 3, [30, 0x80, 50, 55], 60, [140, 139, 200, 230]),
        12 => steps(1, [60, 50, 50, 30], [0, 1, 2, 3, 4]),
        13 => steps(2, [60, 50, 40, 41], [0, 0x0200, 0x01FF, 3, 4]),
        14 => slope(4, 4, [30, 40, 40, 55], 60, [140, 170, 200, 230]),
        15 => slope(4, 5, [30, 40, 50, 55], 54, [140, 170, 200, 230]),
        16 => slope(4, 10, [30, 0x80, 50, 55], 60, [140, 139, 200, 230]),
        17 => slope(1, 3, [30, 40, 50, 55], 60, [140, 170, 200, 199]),
        18 => slope(4, 10, [30, 40, 50, 55], 60, [140, 170, 200, 199]),
        19 => steps(2, [60, 50, 40, 30], [0, 0x0200, 0x01FF, 0x0300, 0xFFFF]),
        20 => counted(0, 7),
        21 => counted(7, 6),
        22 => counted(1, 6),
        23 => counted(6, 8),
        24 => counted(2, 0),
        25 => muddled(5, 1, 4),
        26 => seven(
            1,
            [30, 35, 40, 45, 50, 55, 55],
            80,
            [8, 12, 16, 24, 32, 48, 56],
        ),
        27 => seven(
            2,
            [30, 35, 40, 45, 50, 55, 60],
            59,
            [8, 12, 16, 24, 32, 48, 56],
        ),
        28 => seven(
            3,
            [0x80, 35, 40, 45, 50, 55, 60],
            80,
            [8, 12, 16, 24, 32, 48, 56],
        ),
        29 => seven(
            4,
            [30, 35, 40, 45, 50, 55, 60],
            0x80,
            [8, 12, 16, 24, 32, 48, 56],
        ),
        30 => seven(
            5,
            [30, 35, 40, 45, 50, 55, 54],
            80,
            [8, 12, 16, 24, 32, 48, 47],
        ),
        31 => seven(
            6,
            [30, 35, 40, 45, 50, 55, 60],
            80,
            [8, 12, 16, 24, 32, 48, 47],
        ),
        _ => seven(
            1,
            [30, 35, 40, 45, 50, 55, 60],
            80,
            [8, 12, 16, 24, 32, 48, 64],
        ),
    }
}

pub fn head(out: Stdout, plan: Plan) -> io::Result<()> {
    print!(out; " chip {} table {}", plan.chip, plan.table)
}

// ` chip C table T points N`, then in hexadecimal eight temperatures, critical, eight duties, B1 to B4, C1 to C5.
pub fn show(out: Stdout, plan: Plan) -> io::Result<()> {
    head(out, plan)?;
    let slope = plan.slope;
    let steps = plan.steps;
    print!(out;
        " points {}{} {}",
        plan.points,
        Bytes(&slope.temperatures),
        Byte(slope.critical)
    )?;
    print!(out; "{}{}", Bytes(&slope.duties), Bytes(&steps.bounds))?;
    for count in steps.counts {
        print!(out; " {}", Word(count))?;
    }
    Ok(())
}

fn has_duties(chip: u8) -> bool {
    matches!(chip, 1 | 4 | 5)
}

// A temperature is signed for chips 1, 4 and 5.
pub fn degrees(out: Stdout, chip: u8, t: u8) -> io::Result<()> {
    if has_duties(chip) {
        print!(out; "{}", t.cast_signed())
    } else {
        print!(out; "{t}")
    }
}

// A duty in decimal, a count in hexadecimal.
pub fn speed(out: Stdout, chip: u8, asked: Result<u16, Refusal>) -> io::Result<()> {
    match asked {
        Err(r) => print!(out; " {}", Refused(r)),
        Ok(s) if has_duties(chip) => print!(out; " {s}"),
        Ok(s) => print!(out; " {}", Word(s)),
    }
}
