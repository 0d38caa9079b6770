// Scripts written to a buffer that was filled with 5Ah, `script PLAN room N writes N out BYTES`, and plays that are refused:
// `play PLAN length L refused R kept`.
use curves::Plan;
use figures_printing::{Bytes, FILL, counted, kept};
use std::io::{self, Stdout};

fn script(out: Stdout, plan: Plan, room: usize) -> io::Result<()> {
    let mut buffer = [FILL; 52];
    print!(out; "script")?;
    figures_samples::show(out, plan)?;
    print!(out; " room {room}")?;
    if let Some(part) = buffer.get_mut(..room) {
        counted(out, " writes ", scripts::script(plan, part))?;
    }
    println!(out; " out{}", Bytes(&buffer))
}

// The request's first plan of chip 4.
fn first_banked() -> Plan {
    figures_samples::slope(4, 1, [25, 35, 45, 55], 90, [140, 170, 200, 230])
}

// 9 where a byte is missing.
fn rooms(out: Stdout) -> io::Result<()> {
    for (plan, length) in [
        (figures_samples::paper(1, 3), 26),
        (figures_samples::stepped(), 48),
        (first_banked(), 28),
        (figures_samples::counted(1, 7), 50),
    ] {
        script(out, plan, length - 1)?;
        script(out, plan, length)?;
    }
    Ok(())
}

// A script for every table of chips 1 and 2, and the requests' first plans; the request's second plan of chip 4 is that of table 10. A tail is kept.
fn tables(out: Stdout) -> io::Result<()> {
    for plan in [
        figures_samples::paper(1, 1),
        figures_samples::paper(1, 2),
        figures_samples::paper(1, 3),
        figures_samples::stepped(),
        figures_samples::steps(
            2,
            [75, 65, 45, 35],
            [0x1112, 0x1314, 0x1516, 0x1718, 0x191A],
        ),
        first_banked(),
        figures_samples::counted(1, 7),
    ] {
        script(out, plan, 52)?;
    }
    for table in 1..11 {
        script(out, figures_samples::banked(table), 52)?;
    }
    for table in 1..7 {
        script(out, figures_samples::other_seven(table), 52)?;
    }
    Ok(())
}

// Into no room and into plenty: 7 is before 9.
fn refused_scripts(out: Stdout) -> io::Result<()> {
    for k in 0..33 {
        let plan = figures_samples::refused(k);
        script(out, plan, 0)?;
        script(out, plan, 52)?;
    }
    Ok(())
}

// On an image that is all 5Ah, which is no chip's.
fn play(out: Stdout, plan: Plan, length: usize) -> io::Result<()> {
    let mut buffer = [FILL; 1281];
    print!(out; "play")?;
    figures_samples::show(out, plan)?;
    print!(out; " length {length}")?;
    if let Some(part) = buffer.get_mut(..length) {
        counted(out, " writes ", plays::play(plan, part, 25))?;
    }
    println!(out; "{}", kept(&buffer))
}

// On too few bytes for an image, and on enough: 7 is before 8 and 10.
fn refused_plays(out: Stdout) -> io::Result<()> {
    for k in 0..33 {
        for length in [255, 256, 768, 1280] {
            play(out, figures_samples::refused(k), length)?;
        }
    }
    Ok(())
}

// 8, and 8 before 10.
fn not_images(out: Stdout) -> io::Result<()> {
    for plan in [
        figures_samples::paper(1, 3),
        figures_samples::stepped(),
        first_banked(),
        figures_samples::counted(1, 7),
    ] {
        for length in [0, 255, 256, 257, 767, 768, 769, 1279, 1280, 1281] {
            play(out, plan, length)?;
        }
    }
    Ok(())
}

pub fn print_all(out: Stdout) -> io::Result<()> {
    rooms(out)?;
    tables(out)?;
    refused_scripts(out)?;
    refused_plays(out)?;
    not_images(out)
}
