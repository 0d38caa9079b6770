// Plays that stop at each number of writes, `stop chip C table T count N writes N changed N`, then for five temperatures `T OLD STOP PLAN`: the speed
// that the image asked before, asks at the stop, and that the plan asks. At no stop is it slower than the slower of the old one and the plan's.
// `played chip C table T select SS writes N changed` has each position that a whole play changes, and its byte. `shared chip 5 table T`, then for three
// temperatures `T OLD NEW`: what a table asks before and after a play of table 1, which moves the critical temperature of all six.
use curves::Plan;
use figures_printing::{Byte, Changes, counted};
use std::io::{self, Stdout};

fn temperatures(chip: u8) -> [u8; 5] {
    match chip {
        1 => [0xEC, 38, 43, 53, 60],
        2 => [15, 30, 50, 60, 75],
        4 => [0xEC, 38, 43, 53, 90],
        _ => [0xEC, 38, 43, 58, 78],
    }
}

// What a fan table of two images asks: `, T OLD NEW`.
fn asked_before_and_after(
    out: Stdout,
    chip: u8,
    table: u8,
    t: u8,
    old: &[u8],
    new: &[u8],
) -> io::Result<()> {
    print!(out; ", ")?;
    figures_samples::degrees(out, chip, t)?;
    for image in [old, new] {
        figures_samples::speed(out, chip, plans::asked_of_image(chip, table, image, t))?;
    }
    Ok(())
}

// How many bytes changed between two images, and the speeds that they ask beside the plan's.
pub fn compared(out: Stdout, plan: Plan, old: &[u8], new: &[u8]) -> io::Result<()> {
    let changed = old.iter().zip(new).filter(|(a, b)| a != b).count();
    print!(out; " changed {changed}")?;
    for t in temperatures(plan.chip) {
        asked_before_and_after(out, plan.chip, plan.table, t, old, new)?;
        figures_samples::speed(out, plan.chip, plans::asked_of_plan(plan, t))?;
    }
    Ok(())
}

// Played on a copy of the image.
fn stop<const N: usize>(out: Stdout, plan: Plan, old: &[u8; N], count: usize) -> io::Result<()> {
    let mut new = *old;
    print!(out; "stop")?;
    figures_samples::head(out, plan)?;
    print!(out; " count {count}")?;
    counted(out, " writes ", plays::play(plan, &mut new, count))?;
    compared(out, plan, old, &new)?;
    println!(out)
}

// At each number of writes up to one more than there are, and at the greatest number.
fn stops<const N: usize>(out: Stdout, plan: Plan, old: &[u8; N], counts: usize) -> io::Result<()> {
    for count in 0..counts {
        stop(out, plan, old, count)?;
    }
    stop(out, plan, old, usize::MAX)
}

pub fn power_on<const N: usize>(chip: u8) -> [u8; N] {
    let mut image = [0; N];
    let _ = images::reset(chip, &mut image);
    image
}

// Of chip 4, with a bank selected.
fn banked(select: u8) -> [u8; 1280] {
    let mut image = power_on(4);
    image[0xFF] = select;
    image
}

// Of chip 5, with a bank selected.
fn seven_banked(select: u8) -> [u8; 768] {
    let mut image = power_on(5);
    image[0x00] = select;
    image
}

// With the temperatures first, 38 degrees would ask 140, less than either curve: chip 1's and chip 4's registers hold the same at power-on.
pub fn slope(chip: u8, table: u8, critical: u8) -> Plan {
    figures_samples::slope(
        chip,
        table,
        [40, 44, 48, 52],
        critical,
        [150, 210, 220, 250],
    )
}

// Of chip 5, whose power-on image asks 14 at 38 degrees: with the temperatures first, it would ask 8.
pub fn seven(table: u8) -> Plan {
    figures_samples::seven(
        table,
        [40, 44, 48, 52, 56, 60, 66],
        75,
        [15, 20, 25, 35, 45, 55, 62],
    )
}

pub fn stepped() -> Plan {
    figures_samples::steps(
        1,
        [70, 55, 45, 20],
        [0x00FF, 0x01FF, 0x02FF, 0x0300, 0xFFFF],
    )
}

// Of chip 2, with another plan loaded. From 0200h to 01FFh: with the low byte first, 60 degrees would ask 02FFh.
pub fn earlier() -> [u8; 256] {
    let plan = figures_samples::steps(
        1,
        [60, 50, 40, 30],
        [0x0100, 0x0200, 0x0300, 0x0400, 0x0500],
    );
    let mut image = power_on(2);
    let _ = plays::play(plan, &mut image, 24);
    image
}

// Of chips 1 and 2.
fn stops_of_one_bank(out: Stdout) -> io::Result<()> {
    let first = power_on::<256>(1);
    let second = power_on::<256>(2);
    let slope = slope(1, 1, 65);
    stops(out, slope, &first, 15)?;
    let steps = stepped();
    stops(out, steps, &second, 26)?;
    stops(out, steps, &earlier(), 26)?;
    // The image of another chip, and an image with one bit of its identity turned over: nothing is written.
    stop(out, slope, &second, 13)?;
    stop(out, steps, &first, 24)?;
    let mut image = first;
    image[0xFF] ^= 0x10;
    stop(out, slope, &image, 13)
}

// Table 7 in no order, while a bank is selected that the sheet lacks, and bit 5 of the select register is set.
pub fn unordered() -> [u8; 1280] {
    let mut image = banked(0x2E);
    image[0x412] = 85;
    image[0x440..0x448].copy_from_slice(&[30, 60, 40, 50, 200, 100, 50, 220]);
    image
}

// Of chip 4.
fn stops_of_banks(out: Stdout) -> io::Result<()> {
    stops(out, slope(4, 1, 95), &banked(0), 16)?;
    stops(out, slope(4, 7, 95), &unordered(), 16)?;
    // An image of another length, and one with one bit of its identity turned over: nothing is written.
    stop(out, slope(4, 1, 95), &power_on::<256>(1), 14)?;
    stop(out, slope(1, 1, 65), &banked(0), 13)?;
    let mut image = unordered();
    image[0x7C] ^= 0x10;
    stop(out, slope(4, 7, 95), &image, 14)
}

// Table 4 in no order, with bits set that its registers don't take, while a bank is selected that the sheet lacks, and bits 6 to 3 of the select register
// are set.
pub fn unordered_seven() -> [u8; 768] {
    let mut image = seven_banked(0x7E);
    image[0x0C5] = 0xD5;
    // No register stands at 267h.
    image[0x260..0x26F].copy_from_slice(&[
        0x9E, 60, 40, 50, 35, 20, 0xC6, 0x00, 40, 0xD4, 10, 50, 0x5E, 5, 0xFF,
    ]);
    image
}

// Of chip 5.
fn stops_of_seven_points(out: Stdout) -> io::Result<()> {
    stops(out, seven(1), &seven_banked(0x80), 27)?;
    stops(out, seven(4), &unordered_seven(), 27)?;
    // Images of another length: nothing is written.
    stop(out, seven(1), &banked(0), 25)?;
    stop(out, slope(4, 1, 95), &seven_banked(0x80), 14)?;
    // Version 12h is confirmed, 13h is not, and the vendor byte's low half is not.
    for (at, byte) in [(0x0F, 0x12), (0x0F, 0x13), (0x0Du8, 0xA3)] {
        let mut image = unordered_seven();
        image[at as usize] = byte;
        stop(out, seven(4), &image, 25)?;
    }
    Ok(())
}

fn played<const N: usize>(out: Stdout, plan: Plan, select: u8, old: &[u8; N]) -> io::Result<()> {
    let mut new = *old;
    print!(out; "played")?;
    figures_samples::head(out, plan)?;
    print!(out; " select {}", Byte(select))?;
    counted(out, " writes ", plays::play(plan, &mut new, 25))?;
    println!(out; " changed{}", Changes { old, new: &new })
}

// From another bank each time.
fn all_played(out: Stdout) -> io::Result<()> {
    for table in 1..11 {
        let select = table % 8;
        let plan = figures_samples::banked(table);
        played(out, plan, select, &banked(select))?;
    }
    for table in 1..7 {
        let select = 0xA8 | table % 8;
        let plan = figures_samples::other_seven(table);
        played(out, plan, select, &seven_banked(select))?;
    }
    Ok(())
}

fn shared(out: Stdout) -> io::Result<()> {
    let old = seven_banked(0x80);
    let mut new = old;
    let _ = plays::play(figures_samples::other_seven(1), &mut new, 25);
    for table in 1..7 {
        print!(out; "shared chip 5 table {table}")?;
        for t in [53, 74, 75] {
            asked_before_and_after(out, 5, table, t, &old, &new)?;
        }
        println!(out)?;
    }
    Ok(())
}

pub fn print_all(out: Stdout) -> io::Result<()> {
    stops_of_one_bank(out)?;
    stops_of_banks(out)?;
    stops_of_seven_points(out)?;
    all_played(out)?;
    shared(out)
}
