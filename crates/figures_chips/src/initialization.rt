// The initialization bit of chip 3, in the lines of a write and of a read on the bus.
use crate::bus;
use figures_printing::FILL;
use std::io::{self, Stdout};

// The request's image.
fn example() -> [u8; 256] {
    let mut image = [FILL; 256];
    image[0x01] = 0x55;
    image[0x08] = 0x7F;
    image[0x20] = 0x33;
    image[0x2A] = 0x80;
    image[0x90] = 0xAA;
    image
}

// What it holds where the request says so, and at 06h. The read of 01h clears that byte.
fn read_back(out: Stdout, image: &mut [u8]) -> io::Result<()> {
    for address in [0x00, 0x01, 0x05, 0x06, 0x08, 0x20, 0x2A, 0x3E, 0x90] {
        bus::read(out, 3, image, address)?;
    }
    Ok(())
}

// Its two writes, and a third: of 7Fh all but bit 5 is stored. What the first left is read back from a copy, so that the next two show what a write
// changes and not what a read did.
fn worked_example(out: Stdout) -> io::Result<()> {
    let mut old = example();
    let mut new = example();
    bus::write(out, 3, &mut old, &mut new, 0x00, 0xC1)?;
    let mut shown = new;
    read_back(out, &mut shown)?;
    bus::write(out, 3, &mut old, &mut new, 0x00, 0x21)?;
    bus::write(out, 3, &mut old, &mut new, 0x00, 0x7F)
}

// The first write to an image whose bytes are all one.
fn write_to(out: Stdout, chip: u8, held: u8, address: u8, byte: u8) -> io::Result<()> {
    bus::write(out, chip, &mut [held; 256], &mut [held; 256], address, byte)
}

// Bit 7 of 00h of chip 3 set before; clear in the byte that is written, and set in one that goes to another register; and of chips 1 and 2 bit 7 of FCh
// and of 00h, which only stores.
pub fn print_all(out: Stdout) -> io::Result<()> {
    worked_example(out)?;
    write_to(out, 3, 0xFF, 0x00, 0x80)?;
    write_to(out, 3, FILL, 0x00, 0x7F)?;
    write_to(out, 3, FILL, 0x08, 0x80)?;
    write_to(out, 1, FILL, 0xFC, 0xFF)?;
    write_to(out, 2, FILL, 0x00, 0xFF)
}
