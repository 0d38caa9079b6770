// Every row of every card: `row C AA WW CC PP`, with three digits of the position where an image has more than one bank. A card is asked by position; it
// is no slice.
use figures_printing::{Byte, Position};
use pages::Chip;
use std::io::{self, Stdout};

fn place(out: Stdout, size: usize, at: usize) -> io::Result<()> {
    if size > 256 {
        print!(out; "{}", Position(at))
    } else {
        print!(out; "{}", Byte((at % 256) as u8))
    }
}

fn card(out: Stdout, number: u8) -> io::Result<()> {
    let Ok(chip) = Chip::try_from(number) else {
        return Ok(());
    };
    let size = cards::sizes_of(chip).image;
    for at in 0..size {
        let masks = cards::masks_of(chip, at);
        let power_on = cards::power_on_of(chip, at);
        print!(out; "row {number} ")?;
        place(out, size, at)?;
        println!(out;
            " {} {} {}",
            Byte(masks.writable),
            Byte(masks.clears),
            Byte(power_on)
        )?;
    }
    Ok(())
}

pub fn print_all(out: Stdout) -> io::Result<()> {
    for number in 1..=5 {
        card(out, number)?;
    }
    Ok(())
}
