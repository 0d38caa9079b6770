// An access on the bus as a line: `bus chip C write AA BB changed`, then each position that has changed and its byte, and `bus chip C read AA byte BB`.
use crate::image_calls;
use figures_printing::{Byte, Changes};
use std::io::{self, Stdout};

// The image is lent, since a read of 01h or 02h of chip 3 clears the byte that it shows.
pub fn read(out: Stdout, chip: u8, image: &mut [u8], address: u8) -> io::Result<()> {
    print!(out; "bus chip {chip} read {}", Byte(address))?;
    image_calls::read(out, chip, image, address)?;
    println!(out)
}

// Of two images that hold the same, the new one is written first: what then differs is shown.
pub fn write(
    out: Stdout,
    chip: u8,
    old: &mut [u8],
    new: &mut [u8],
    address: u8,
    byte: u8,
) -> io::Result<()> {
    let _ = images::write(chip, new, address, byte);
    println!(out;
        "bus chip {chip} write {} {} changed{}",
        Byte(address),
        Byte(byte),
        Changes { old, new }
    )?;
    let _ = images::write(chip, old, address, byte);
    Ok(())
}
