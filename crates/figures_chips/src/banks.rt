// Chips 4 and 5 on the bus, with their banks. `bank chip C select SS reads D writes D` has a digest of what every address gives, and of the image after a
// write to every address but that of the select register. Neither chip has a status register: no read changes anything.
use crate::{bus, image_calls};
use figures_printing::{Byte, Word};
use std::io::{self, Stdout};

// The address of the select register, which is its position too.
fn select_at(chip: u8) -> u8 {
    match chip {
        4 => 0xFF,
        _ => 0x00,
    }
}

pub fn put(image: &mut [u8], at: usize, byte: u8) {
    if let Some(there) = image.get_mut(at) {
        *there = byte;
    }
}

pub fn select(chip: u8, image: &mut [u8], byte: u8) {
    put(image, select_at(chip) as usize, byte);
}

// What an example does with its images: an access on the bus, or a byte that the select register is given without one.
#[derive(Clone, Copy)]
enum Step {
    Read(u8),
    Write(u8, u8),
    Hold(u8),
}

use Step::{Hold, Read, Write};

// The request's example. Then the bits of the select register that can't be written stay, 7 to 3, and what is seen in every bank is read only in each.
const EXAMPLE_4: [Step; 18] = [
    Write(0xFF, 0x83),
    Read(0xFF),
    Read(0x20),
    Read(0x7A),
    Write(0x20, 0x55),
    Read(0x20),
    Write(0xFF, 0x06),
    Read(0x20),
    Read(0x7B),
    Write(0x20, 0x11),
    Write(0xFF, 0x04),
    Read(0x10),
    Read(0x20),
    Hold(0x2C),
    Write(0xFF, 0x03),
    Write(0x7A, 0xFF),
    Write(0x7B, 0xFF),
    Write(0x7C, 0xFF),
];

// Bit 7 of the select register goes to zero, and the vendor byte stays the high one; T1 of table 1 takes seven bits; code 5 has the shared registers
// alone; bits 6 to 3 stay zero; 50h is the critical temperature, in bank 0. Then bits 6 to 3 stay as they are, and what is seen in every bank is read only.
const EXAMPLE_5: [Step; 23] = [
    Write(0x00, 0x02),
    Read(0x00),
    Read(0x30),
    Read(0xC5),
    Read(0x0D),
    Write(0x30, 0xA8),
    Read(0x30),
    Write(0x00, 0x05),
    Read(0x30),
    Read(0xC5),
    Read(0x0E),
    Write(0x30, 0x11),
    Write(0x00, 0xF8),
    Read(0x00),
    Read(0x0D),
    Read(0x0F),
    Read(0x30),
    Read(0xC5),
    Hold(0x7A),
    Write(0x00, 0x81),
    Write(0x0D, 0xFF),
    Write(0x0E, 0xFF),
    Write(0x0F, 0xFF),
];

fn example(
    out: Stdout,
    chip: u8,
    old: &mut [u8],
    new: &mut [u8],
    steps: &[Step],
) -> io::Result<()> {
    let _ = images::reset(chip, old);
    let _ = images::reset(chip, new);
    for step in steps {
        match *step {
            Read(address) => bus::read(out, chip, new, address)?,
            Write(address, byte) => bus::write(out, chip, old, new, address, byte)?,
            Hold(byte) => {
                select(chip, old, byte);
                select(chip, new, byte);
            }
        }
    }
    Ok(())
}

fn digested(digest: u16, b: u8) -> u16 {
    digest.wrapping_mul(31).wrapping_add(b as u16)
}

fn digest(image: &[u8]) -> u16 {
    image.iter().fold(0, |digest, b| digested(digest, *b))
}

fn digest_of_reads(chip: u8, image: &mut [u8]) -> u16 {
    let mut digest = 0;
    for address in 0..=255 {
        let byte = image_calls::asked(chip, image, address).unwrap_or(0);
        digest = digested(digest, byte);
    }
    digest
}

fn write_all_beside(chip: u8, image: &mut [u8]) {
    for address in 0..=255 {
        if address != select_at(chip) {
            let _ = images::write(chip, image, address, 0xA5);
        }
    }
}

// Each byte is its position modulo 251.
fn fill_with_positions(image: &mut [u8]) {
    for (at, byte) in image.iter_mut().enumerate() {
        *byte = (at % 251) as u8;
    }
}

fn selected(out: Stdout, chip: u8, image: &mut [u8], byte: u8) -> io::Result<()> {
    fill_with_positions(image);
    select(chip, image, byte);
    print!(out;
        "bank chip {chip} select {} reads {}",
        Byte(byte),
        Word(digest_of_reads(chip, image))
    )?;
    write_all_beside(chip, image);
    println!(out; " writes {}", Word(digest(image)))
}

// Each bank code, whatever the other bits hold.
fn codes_of(out: Stdout, chip: u8, image: &mut [u8]) -> io::Result<()> {
    for code in 0..8 {
        selected(out, chip, image, code)?;
        selected(out, chip, image, code | 0xA8)?;
    }
    Ok(())
}

pub fn print_all(out: Stdout) -> io::Result<()> {
    example(out, 4, &mut [0; 1280], &mut [0; 1280], &EXAMPLE_4)?;
    codes_of(out, 4, &mut [0; 1280])?;
    example(out, 5, &mut [0; 768], &mut [0; 768], &EXAMPLE_5)?;
    codes_of(out, 5, &mut [0; 768])
}
