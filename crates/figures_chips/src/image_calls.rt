// Each call on an image, at known and unknown chip numbers and at lengths about 256, 768 and 1,280. A lent buffer is filled with 5Ah beforehand, and a
// refusal says whether it still is: `CALL chip C length L ..`.
use figures_printing::{Byte, FILL, Refused, kept};
use refusal::Refusal;
use std::io::{self, Stdout};
use watch::{Behaviour, Watch};

fn sum(image: &[u8]) -> u32 {
    image
        .iter()
        .fold(0, |sum: u32, b| sum.wrapping_add(*b as u32))
}

fn after_refusal(out: Stdout, r: Refusal, buffer: &[u8]) -> io::Result<()> {
    print!(out; " {}{}", Refused(r), kept(buffer))
}

// A read that brings a watch of its own, which nobody sees again. It changes the image where it reads 01h or 02h of chip 3, and nowhere else.
pub fn asked(chip: u8, image: &mut [u8], address: u8) -> Result<u8, Refusal> {
    states::read(chip, image, address, Watch::new(Behaviour::Default))
        .map(|(byte, _)| byte)
        .map_err(|refused| refused.refusal)
}

fn read_as(out: Stdout, label: &str, chip: u8, image: &mut [u8], address: u8) -> io::Result<()> {
    match asked(chip, image, address) {
        Err(r) => after_refusal(out, r, image),
        Ok(b) => print!(out; " {label} {}", Byte(b)),
    }
}

pub fn read(out: Stdout, chip: u8, image: &mut [u8], address: u8) -> io::Result<()> {
    read_as(out, "byte", chip, image, address)
}

// FFh to 91h, and what the register then holds.
fn write(out: Stdout, chip: u8, image: &mut [u8]) -> io::Result<()> {
    match images::write(chip, image, 0x91, 0xFF) {
        Err(r) => after_refusal(out, r, image),
        Ok(()) => read_as(out, "91 holds", chip, image, 0x91),
    }
}

fn reset(out: Stdout, chip: u8, image: &mut [u8]) -> io::Result<()> {
    match images::reset(chip, image) {
        Err(r) => after_refusal(out, r, image),
        Ok(()) => print!(out; " sum {}", sum(image)),
    }
}

pub fn identity(out: Stdout, chip: u8, image: &[u8]) -> io::Result<()> {
    match identities::confirm(chip, image) {
        Err(r) => after_refusal(out, r, image),
        Ok(()) => print!(out; " confirmed"),
    }
}

fn lines<F: Fn(u8, &mut [u8]) -> io::Result<()>>(out: Stdout, name: &str, call: F) -> io::Result<()>
    requires { F.IsAlwaysCallable call }
{
    for chip in [0, 1, 2, 3, 4, 5, 6, 255] {
        for length in [0, 255, 256, 257, 767, 768, 769, 1279, 1280, 1281] {
            print!(out; "{name} chip {chip} length {length}")?;
            let mut buffer = [FILL; 1281];
            if let Some(image) = buffer.get_mut(..length) {
                call(chip, image)?;
            }
            println!(out)?;
        }
    }
    Ok(())
}

pub fn print_all(out: Stdout) -> io::Result<()> {
    lines(out, "write", |chip, image| write(out, chip, image))?;
    lines(out, "read", |chip, image| read(out, chip, image, 0x91))?;
    lines(out, "reset", |chip, image| reset(out, chip, image))?;
    lines(out, "identity", |chip, image| identity(out, chip, image))
}

// Each byte is written to its register while every register holds 5Ah: what it then holds.
fn stored(out: Stdout, chip: u8, image: &mut [u8], writes: &[(u8, u8)]) -> io::Result<()> {
    for (address, byte) in writes {
        image.fill(FILL);
        let _ = images::write(chip, image, *address, *byte);
        print!(out;
            "stored chip {chip} {} write {}",
            Byte(*address),
            Byte(*byte)
        )?;
        read(out, chip, image, *address)?;
        println!(out)?;
    }
    Ok(())
}

pub fn print_stored(out: Stdout) -> io::Result<()> {
    // Bits 0 and 1 of 34h clear on one.
    let of_2 = [(0x34, 0x00), (0x34, 0x01), (0x34, 0x02), (0x34, 0xFF)];
    // 54h has six writable bits.
    let of_1 = [(0x54, 0x00), (0x54, 0xFF)];
    // 3Eh has none.
    let of_3 = [(0x3E, 0x00), (0x3E, 0xFF)];
    // 5Ah selects bank 2 of chips 4 and 5. There 00h of chip 4 has four writable bits; FFh has three and 7Ah none.
    let of_4 = [
        (0x00, 0x00),
        (0x00, 0xFF),
        (0x7A, 0x00),
        (0x7A, 0xFF),
        (0xFF, 0x00),
        (0xFF, 0xFF),
    ];
    // There 30h of chip 5 has seven and 38h six; 00h has four and 0Dh none.
    let of_5 = [
        (0x30, 0x00),
        (0x30, 0xFF),
        (0x38, 0x00),
        (0x38, 0xFF),
        (0x0D, 0x00),
        (0x0D, 0xFF),
        (0x00, 0x00),
        (0x00, 0xFF),
    ];
    stored(out, 2, &mut [0; 256], &of_2)?;
    stored(out, 1, &mut [0; 256], &of_1)?;
    stored(out, 3, &mut [0; 256], &of_3)?;
    stored(out, 4, &mut [0; 1280], &of_4)?;
    stored(out, 5, &mut [0; 768], &of_5)
}
