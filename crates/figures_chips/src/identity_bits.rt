// Which bits identity sees: each bit of a power-on image is turned over by itself. `identity chip C power-on confirmed bits N`, and by position
// `identity chip C sees PPP MM`; of chips 4 and 5 with each bank code selected, `identity chip C select SS confirmed bits N`; of chip 5 each byte with
// which a register is confirmed, `identity chip 5 select SS at PPP takes BB`.
use crate::{banks, image_calls};
use figures_printing::{Byte, Placed, Position};
use std::io::{self, Stdout};

fn turn(image: &mut [u8], at: usize, bit: u8) {
    if let Some(byte) = image.get_mut(at) {
        *byte ^= bit;
    }
}

// The bits of a register that, each turned over by itself, undo the identity.
fn seen(chip: u8, image: &mut [u8], at: usize) -> u8 {
    let mut bits = 0;
    for bit in [0x01, 0x02, 0x04, 0x08, 0x10, 0x20, 0x40, 0x80] {
        turn(image, at, bit);
        if identities::confirm(chip, image).is_err() {
            bits |= bit;
        }
        turn(image, at, bit);
    }
    bits
}

// Both loops below go by the position, since `seen` is lent the whole image.
fn how_many(chip: u8, image: &mut [u8]) -> u32 {
    let mut count: u32 = 0;
    for at in 0..image.len() {
        count = count.wrapping_add(seen(chip, image, at).count_ones());
    }
    count
}

fn list(out: Stdout, chip: u8, image: &mut [u8]) -> io::Result<()> {
    for at in 0..image.len() {
        let byte = seen(chip, image, at);
        if byte != 0 {
            print!(out; "{}", Placed { at, byte })?;
        }
    }
    Ok(())
}

fn confirmed(out: Stdout, chip: u8, image: &mut [u8]) -> io::Result<()> {
    image_calls::identity(out, chip, image)?;
    println!(out; " bits {}", how_many(chip, image))
}

// Of the chip's own power-on image.
fn at_power_on(out: Stdout, chip: u8, image: &mut [u8]) -> io::Result<()> {
    let _ = images::reset(chip, image);
    print!(out; "identity chip {chip} power-on")?;
    confirmed(out, chip, image)?;
    print!(out; "identity chip {chip} sees")?;
    list(out, chip, image)?;
    println!(out)
}

// Of the power-on image with a bank selected.
fn begin_selected(out: Stdout, chip: u8, image: &mut [u8], select: u8) -> io::Result<()> {
    let _ = images::reset(chip, image);
    banks::select(chip, image, select);
    print!(out; "identity chip {chip} select {}", Byte(select))
}

fn selected(out: Stdout, chip: u8, image: &mut [u8], select: u8) -> io::Result<()> {
    begin_selected(out, chip, image, select)?;
    confirmed(out, chip, image)
}

// Each bank code, of chip 5 with bit 7 of the select register off and on.
fn codes_of(out: Stdout, chip: u8, image: &mut [u8]) -> io::Result<()> {
    for code in 0..8 {
        selected(out, chip, image, code)?;
        if chip == 5 {
            selected(out, chip, image, code | 0x80)?;
        }
    }
    Ok(())
}

// Each of the 256 bytes is tried.
fn takes(out: Stdout, select: u8, at: usize) -> io::Result<()> {
    let mut image = [0; 768];
    begin_selected(out, 5, &mut image, select)?;
    print!(out; " at {} takes", Position(at))?;
    for byte in 0..=255 {
        banks::put(&mut image, at, byte);
        if identities::confirm(5, &image).is_ok() {
            print!(out; " {}", Byte(byte))?;
        }
    }
    println!(out)
}

// The vendor, chip and version registers.
fn all_taken(out: Stdout) -> io::Result<()> {
    for select in [0x80, 0x00] {
        for at in [0x0D, 0x0E, 0x0F] {
            takes(out, select, at)?;
        }
    }
    Ok(())
}

// Chip 3 has no identity rule: its own image, manufacturer byte and all, is refused.
fn without(out: Stdout) -> io::Result<()> {
    let mut image = [0; 256];
    let _ = images::reset(3, &mut image);
    print!(out; "identity chip 3 power-on")?;
    image_calls::identity(out, 3, &image)?;
    println!(out)
}

pub fn print_all(out: Stdout) -> io::Result<()> {
    at_power_on(out, 1, &mut [0; 256])?;
    at_power_on(out, 2, &mut [0; 256])?;
    at_power_on(out, 4, &mut [0; 1280])?;
    at_power_on(out, 5, &mut [0; 768])?;
    codes_of(out, 4, &mut [0; 1280])?;
    codes_of(out, 5, &mut [0; 768])?;
    all_taken(out)?;
    without(out)
}
