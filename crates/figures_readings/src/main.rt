// Prints temperatures from bytes to steps, and from steps to bytes and back, at widths that there are and are not, those that an image holds, and
// NCT80 voltages: `temperature width W bytes HHLL steps N`, `temperature width W steps N bytes HHLL steps N`, `voltage word HHLL microvolts N`.
#![tactic(auto)]

mod coding;
mod of_nct7904d;
mod sensors;

use coding::Coding;
use figures_printing::Word;
use std::io::{self, Stdout};

// The rules paper's figures.
fn figures(out: Stdout) -> io::Result<()> {
    for word in [0x7D00, 0xFFF0, 0xC900] {
        coding::from_bytes(out, Coding::Width(12), word)?;
    }
    coding::from_bytes(out, Coding::Width(9), 0xC900)?;
    coding::from_bytes(out, Coding::Width(11), 0xE7A0)?;
    for steps in [32, 256, 255, -256] {
        coding::from_steps(out, Coding::Width(9), steps)?;
    }
    Ok(())
}

// The last steps that fit a width and the first that don't, at both ends.
const ENDS: [(u8, [i16; 6]); 4] = [
    (8, [-129, -128, -1, 0, 127, 128]),
    (9, [-257, -256, -1, 0, 255, 256]),
    (11, [-1025, -1024, -1, 0, 1023, 1024]),
    (12, [-2049, -2048, -1, 0, 2047, 2048]),
];

fn ends(out: Stdout) -> io::Result<()> {
    for (width, ends) in ENDS {
        for steps in ends {
            coding::from_steps(out, Coding::Width(width), steps)?;
        }
    }
    Ok(())
}

// 32,767 steps fit no width, and yet it is the width that is refused.
fn no_widths(out: Stdout) -> io::Result<()> {
    for width in [0, 7, 10, 13, 255] {
        coding::from_bytes(out, Coding::Width(width), 0x7D00)?;
        coding::from_steps(out, Coding::Width(width), 0)?;
        coding::from_steps(out, Coding::Width(width), 32767)?;
    }
    Ok(())
}

fn temperatures(out: Stdout) -> io::Result<()> {
    figures(out)?;
    ends(out)?;
    no_widths(out)?;
    for width in [8, 9, 11, 12] {
        coding::sweep(out, Coding::Width(width))?;
    }
    Ok(())
}

fn voltages(out: Stdout) -> io::Result<()> {
    for word in [0x0000, 0x003F, 0x0040, 0x7FFF, 0x8000, 0xFFC0, 0xFFFF] {
        let microvolts = readings::microvolts(word);
        println!(out; "voltage word {} microvolts {microvolts}", Word(word))?;
    }
    Ok(())
}

fn main(rt: HostRuntime) -> io::Result<()> {
    let out = rt.stdout();
    temperatures(out)?;
    sensors::print_all(out)?;
    voltages(out)?;
    of_nct7904d::print_all(out)
}
