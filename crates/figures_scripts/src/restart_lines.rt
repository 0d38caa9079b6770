// A script that is played again after each cut, `restart chip C table T play K count N writes N changed N`, then for five temperatures
// `T FIRST STOP PLAN`: the speed that the very first image asked, that the image asks at this stop, and that the plan asks. What has changed is
// counted from the very first image too. At no stop is it slower than the slower of the first one and the plan's.
ghost use Rattle.plays.specs.NeverSlower.{Since, Safely};

use crate::demand_lines;
use curves::Plan;
use figures_printing::counted;
use std::io::{self, Stdout};

// One play more. It comes before the line's first byte, and so also where the line cannot be written.
fn again(
    out: Stdout,
    plan: Plan,
    start: &[u8],
    image: &mut [u8],
    play: usize,
    count: u8,
) -> io::Result<()>
    ensures { Safely plan image.old count image.new }
{
    let writes = plays::play(plan, image, usize::from(count));
    print!(out; "restart")?;
    figures_samples::head(out, plan)?;
    print!(out; " play {play} count {count}")?;
    counted(out, " writes ", writes)?;
    demand_lines::compared(out, plan, start, image)?;
    println!(out)
}

// A play for each count, on the image that the one before it left. What `plays::play` promises of one play is all that is used of it.
// Every play is made, also once a line cannot be written, and the first such failure is the answer.
fn run(out: Stdout, plan: Plan, start: &[u8], image: &mut [u8], counts: &[u8]) -> io::Result<()>
    ensures { Since plan image.old counts.now image.new }
{
    let mut printed = Ok(());
    for (play, count) in counts.iter().enumerate() {
        printed = printed.and(again(out, plan, start, image, play, *count));
    }
    printed
}

fn run_from<const N: usize>(
    out: Stdout,
    plan: Plan,
    start: &[u8; N],
    counts: [u8; 5],
) -> io::Result<()> {
    let mut image = *start;
    run(out, plan, start, &mut image, &counts)
}

// Cut while speeds are raised, while settings move and while speeds settle; before the first write; and at last not at all. Of chip 5 also between the
// select of bank 0 and critical.
pub fn print_all(out: Stdout) -> io::Result<()> {
    run_from(
        out,
        demand_lines::slope(1, 1, 65),
        &demand_lines::power_on::<256>(1),
        [6, 0, 11, 2, 13],
    )?;
    run_from(
        out,
        demand_lines::stepped(),
        &demand_lines::earlier(),
        [12, 0, 19, 3, 24],
    )?;
    run_from(
        out,
        demand_lines::slope(4, 7, 95),
        &demand_lines::unordered(),
        [7, 0, 12, 1, 99],
    )?;
    run_from(
        out,
        demand_lines::seven(4),
        &demand_lines::unordered_seven(),
        [16, 0, 22, 3, 99],
    )
}
