// Prints what curves ask, of plans and of images: `.. at T is S`. proofs/ has the starred figures, of readings, the watch and
// curves, and where those layers agree.
#![tactic(auto)]

mod banked_tables;
mod unmasked;

use curves::Plan;
use figures_printing::FILL;
use refusal::Refusal;
use std::io::{self, Stdout};

// How many bytes the longest image has.
const LONGEST: usize = 1280;

pub fn end(out: Stdout, chip: u8, t: u8, asked: Result<u16, Refusal>) -> io::Result<()> {
    print!(out; " at ")?;
    figures_samples::degrees(out, chip, t)?;
    print!(out; " is")?;
    figures_samples::speed(out, chip, asked)?;
    println!(out)
}

fn named_at(out: Stdout, name: &str, plan: Plan, t: u8) -> io::Result<()> {
    print!(out; "{name}")?;
    end(out, plan.chip, t, plans::asked_of_plan(plan, t))
}

fn plan_at(out: Stdout, plan: Plan, t: u8) -> io::Result<()> {
    print!(out; "asked")?;
    figures_samples::show(out, plan)?;
    end(out, plan.chip, t, plans::asked_of_plan(plan, t))
}

// The rules paper's figures.
fn figures(out: Stdout) -> io::Result<()> {
    for t in [30, 33, 45, 53, 58, 60] {
        named_at(out, "plan duty", figures_samples::paper(1, 3), t)?;
    }
    plan_at(
        out,
        figures_samples::slope(1, 1, [50, 40, 60, 70], 100, [11, 22, 33, 44]),
        45,
    )?;
    plan_at(
        out,
        figures_samples::slope(1, 1, [0, 3, 60, 70], 100, [200, 100, 33, 44]),
        1,
    )?;
    for t in [61, 60, 51] {
        named_at(out, "steps count", figures_samples::stepped(), t)?;
    }
    Ok(())
}

// The request's figures of its plan of chip 5.
fn seven_figures(out: Stdout) -> io::Result<()> {
    for t in [
        0x80, 0xFF, 0x00, 0x1E, 0x1F, 0x21, 0x2A, 0x2F, 0x35, 0x3A, 0x3C, 0x4F, 0x50, 0x7F,
    ] {
        named_at(out, "seven points duty", figures_samples::counted(1, 7), t)?;
    }
    Ok(())
}

// Unordered, falling, and with critical among the points.
fn unordered_seven(out: Stdout) -> io::Result<()> {
    let unordered = figures_samples::seven(
        2,
        [50, 40, 60, 70, 80, 90, 95],
        100,
        [1, 2, 3, 4, 5, 6, 7],
    );
    let falling = figures_samples::seven(
        3,
        [0, 3, 60, 70, 80, 90, 95],
        100,
        [50, 25, 3, 4, 5, 6, 7],
    );
    let low = figures_samples::seven(
        4,
        [30, 35, 40, 45, 50, 55, 60],
        40,
        [8, 12, 16, 24, 32, 48, 56],
    );
    for (plan, t) in [
        (unordered, 45),
        (unordered, 55),
        (falling, 1),
        (falling, 2),
        (low, 39),
        (low, 40),
    ] {
        plan_at(out, plan, t)?;
    }
    Ok(())
}

// With eight values, of which a curve has the first four or seven.
fn behind_the_points(out: Stdout) -> io::Result<()> {
    for (chip, points, t) in [(5, 7, 65), (5, 7, 75), (1, 7, 48), (4, 8, 60), (5, 8, 65)] {
        let plan = figures_samples::pointed(
            chip,
            1,
            points,
            [30, 35, 40, 45, 50, 55, 60, 70],
            80,
            [8, 12, 16, 24, 32, 48, 56, 60],
        );
        plan_at(out, plan, t)?;
    }
    Ok(())
}

// From -128 to 127: the bytes with their top bit turned over are in order.
fn whole_curve(out: Stdout) -> io::Result<()> {
    for k in 0..=255u8 {
        for (name, plan) in [
            ("plan duty", figures_samples::paper(1, 3)),
            ("banked duty", figures_samples::banked(10)),
            ("seven points duty", figures_samples::counted(1, 7)),
        ] {
            named_at(out, name, plan, k ^ 0x80)?;
        }
    }
    Ok(())
}

// Above, at and below each bound, and at both ends.
fn all_steps(out: Stdout) -> io::Result<()> {
    for t in [255, 61, 60, 59, 51, 50, 49, 41, 40, 39, 31, 30, 29, 0] {
        named_at(out, "steps count", figures_samples::stepped(), t)?;
    }
    Ok(())
}

// A plan is asked in order or not: only its chip, its table and its point count are checked.
fn unordered(out: Stdout) -> io::Result<()> {
    for k in 0..33 {
        plan_at(out, figures_samples::refused(k), 45)?;
    }
    Ok(())
}

const USUAL: [u8; 14] = [0x80, 0xFF, 0, 25, 26, 30, 31, 45, 51, 59, 60, 61, 90, 0x7F];

// One between each two of chip 5's points.
const OF_SEVEN: [u8; 14] = [0x80, 0xFF, 30, 33, 38, 43, 48, 53, 58, 60, 79, 80, 81, 0x7F];

pub fn temperatures(chip: u8) -> [u8; 14] {
    match chip {
        5 => OF_SEVEN,
        _ => USUAL,
    }
}

fn image_at(out: Stdout, chip: u8, table: u8, image: &[u8], t: u8) -> io::Result<()> {
    let length = image.len();
    print!(out; "image chip {chip} table {table} length {length}")?;
    end(out, chip, t, plans::asked_of_image(chip, table, image, t))
}

// Of the power-on image, each table below a number.
fn power_on(out: Stdout, chip: u8, image: &mut [u8], end: u8) -> io::Result<()> {
    let _ = images::reset(chip, image);
    for table in 1..end {
        for t in temperatures(chip) {
            image_at(out, chip, table, image, t)?;
        }
    }
    Ok(())
}

fn all_powered_on(out: Stdout) -> io::Result<()> {
    for (chip, length, end) in [(1, 256, 4), (2, 256, 3), (4, 1280, 11), (5, 768, 7)] {
        if let Some(image) = [0; LONGEST].get_mut(..length) {
            power_on(out, chip, image, end)?;
        }
    }
    Ok(())
}

// Of bytes that are all 5Ah, one too few for an image, as many as one has, and one too many.
fn lengths(out: Stdout, chip: u8, table: u8) -> io::Result<()> {
    for length in [255, 256, 257, 767, 768, 769, 1279, 1280, 1281] {
        if let Some(image) = [FILL; LONGEST + 1].get(..length) {
            image_at(out, chip, table, image, 91)?;
        }
    }
    Ok(())
}

// Of chips that there are and that there are not.
fn all_tables(out: Stdout) -> io::Result<()> {
    for chip in [0, 1, 2, 3, 4, 5, 6, 255] {
        for table in [0, 1, 2, 3, 4, 6, 7, 10, 11] {
            lengths(out, chip, table)?;
        }
    }
    Ok(())
}

fn main(rt: HostRuntime) -> io::Result<()> {
    let out = rt.stdout();
    figures(out)?;
    seven_figures(out)?;
    unordered_seven(out)?;
    behind_the_points(out)?;
    whole_curve(out)?;
    all_steps(out)?;
    unordered(out)?;
    all_powered_on(out)?;
    banked_tables::print_all(out)?;
    unmasked::print_all(out)?;
    all_tables(out)
}
