// A table value of chip 5 is its register's writable bits: `image chip 5 table T over BB at T is S` has what is asked of a power-on image with the bits
// BB set in every byte. 9Eh in a T register is 1Eh, C8h in a duty's 08h; bit 6 is a temperature's.
use figures_printing::Byte;
use std::io::{self, Stdout};

fn over(out: Stdout, table: u8, bits: u8) -> io::Result<()> {
    let mut image = [0u8; 768];
    let _ = images::reset(5, &mut image);
    for byte in &mut image {
        *byte |= bits;
    }
    for t in crate::temperatures(5) {
        print!(out; "image chip 5 table {table} over {}", Byte(bits))?;
        crate::end(out, 5, t, plans::asked_of_image(5, table, &image, t))?;
    }
    Ok(())
}

pub fn print_all(out: Stdout) -> io::Result<()> {
    for table in 1..7 {
        over(out, table, 0x80)?;
        over(out, table, 0xC0)?;
    }
    Ok(())
}
