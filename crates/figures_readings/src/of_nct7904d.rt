// Temperatures of the NCT7904D from bytes to steps, and from steps to bytes and back, and its voltages by the address of the high byte:
// `temperature right-aligned bytes HHLL steps N`, `temperature right-aligned steps N bytes HHLL steps N`, `voltage input AA bytes HHLL microvolts N`.
use crate::coding::{Coding, from_bytes, from_steps, sweep};
use figures_printing::Byte;
use std::io::{self, Stdout};

// Some figures, the sheet's table of temperatures, and the ends of the bytes: the low bits that do not count as zeros, and as ones.
fn some_bytes(out: Stdout) -> io::Result<()> {
    for word in [
        0xE602, 0x8000, 0x7F07, 0xFF07, 0x1906, 0x0202, 0x0101, 0x0000, 0xFE07, 0xFD06, 0x8001,
    ] {
        from_bytes(out, Coding::RightAligned, word)?;
        from_bytes(out, Coding::RightAligned, word | 0x00F8)?;
    }
    Ok(())
}

// The ends of what fits, and some figures between.
fn some_steps(out: Stdout) -> io::Result<()> {
    for steps in [-32768, -1025, -1024, -206, -1, 0, 1023, 1024, 32767] {
        from_steps(out, Coding::RightAligned, steps)?;
    }
    Ok(())
}

fn voltage(out: Stdout, input: u8, high: u8, low: u8) -> io::Result<()> {
    let microvolts = right_readings::input_microvolts(input, high, low);
    println!(out;
        "voltage input {} bytes {}{} microvolts {microvolts}",
        Byte(input),
        Byte(high),
        Byte(low)
    )
}

// Every voltage's two addresses, LTD's, and those around them. Then no count, one, all with the reserved bits, and the reserved bits alone.
fn inputs(out: Stdout) -> io::Result<()> {
    for input in 0x3E..=0x6B {
        voltage(out, input, 0x19, 0x06)?;
    }
    for input in [0x40, 0x5C, 0x62] {
        for (high, low) in [(0x00, 0x00), (0x00, 0x01), (0xFF, 0xFF), (0x00, 0xF8)] {
            voltage(out, input, high, low)?;
        }
    }
    Ok(())
}

pub fn print_all(out: Stdout) -> io::Result<()> {
    some_bytes(out)?;
    some_steps(out)?;
    sweep(out, Coding::RightAligned)?;
    inputs(out)?;
    voltage(out, 0x00, 0xFF, 0xFF)?;
    voltage(out, 0xFF, 0xFF, 0xFF)
}
