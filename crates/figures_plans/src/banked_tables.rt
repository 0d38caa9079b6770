// Where a fan table of chips 4 and 5 stands, whichever bank is selected: `image chip C table T select SS looks at`, then each position where bit 2 of the
// power-on value, turned over, changes what the table asks. All tables of chip 5 look at 0C5.
use figures_printing::{Byte, Position};
use std::io::{self, Stdout};

// What the table asks at each temperature.
fn asked(chip: u8, table: u8, image: &[u8]) -> [u16; 14] {
    crate::temperatures(chip).map(|t| plans::asked_of_image(chip, table, image, t).unwrap_or(0))
}

fn turn(image: &mut [u8], at: usize) {
    if let Some(byte) = image.get_mut(at) {
        *byte ^= 0x04;
    }
}

fn list(out: Stdout, chip: u8, table: u8, image: &mut [u8]) -> io::Result<()> {
    let before = asked(chip, table, image);
    // By position: the whole image is asked while one byte of it is turned over.
    for at in 0..image.len() {
        turn(image, at);
        if asked(chip, table, image) != before {
            print!(out; " {}", Position(at))?;
        }
        turn(image, at);
    }
    Ok(())
}

fn looks(out: Stdout, chip: u8, table: u8, image: &mut [u8], select_at: usize) -> io::Result<()> {
    let select = table % 8;
    let _ = images::reset(chip, image);
    if let Some(byte) = image.get_mut(select_at) {
        *byte = select;
    }
    print!(out;
        "image chip {chip} table {table} select {} looks at",
        Byte(select)
    )?;
    list(out, chip, table, image)?;
    println!(out)
}

pub fn print_all(out: Stdout) -> io::Result<()> {
    for table in 1..11 {
        looks(out, 4, table, &mut [0; 1280], 0xFF)?;
    }
    for table in 1..7 {
        looks(out, 5, table, &mut [0; 768], 0x00)?;
    }
    Ok(())
}
