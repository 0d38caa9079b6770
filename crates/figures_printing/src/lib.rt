// Pieces of a line, for the programs that print figures: what a format prints by `{}`. Nothing here alters a byte that it is lent.
#![tactic(auto)]

ghost use Rattle.std.specs.Prelude.{◌↔◌, ◌≡◌, IsTrue};
ghost use Rattle.figures_printing.specs.Pieces.{on_off_text, all_filled, SaysKept};

use refusal::Refusal;
use std::fmt;
use std::io::{self, Stdout};

// What a lent buffer is filled with beforehand, so that a line can say whether a refusal kept it.
pub const FILL: u8 = 0x5A;

// A byte in two upper-case hexadecimal digits.
#[derive(Clone, Copy)]
pub struct Byte(pub u8);

impl fmt::Display for Byte {
    ghost use Rattle.std.specs.Prelude.{Some};
    ghost use Rattle.figures_printing.specs.Pieces.{byte_text};

    ghost output = { λ b. Some (byte_text b.0) };

    fn fmt<W: fmt::Write>(&self, f: &mut fmt::Formatter<W>) -> fmt::Result {
        let b = self.0;
        write!(f, "{b:02X}")
    }
}

// A word in four upper-case hexadecimal digits.
#[derive(Clone, Copy)]
pub struct Word(pub u16);

impl fmt::Display for Word {
    ghost use Rattle.std.specs.Prelude.{Some};
    ghost use Rattle.figures_printing.specs.Pieces.{word_text};

    ghost output = { λ w. Some (word_text w.0) };

    fn fmt<W: fmt::Write>(&self, f: &mut fmt::Formatter<W>) -> fmt::Result {
        let [high, low] = self.0.to_be_bytes();
        write!(f, "{high:02X}{low:02X}")
    }
}

// A position of an image in three upper-case hexadecimal digits.
#[derive(Clone, Copy)]
pub struct Position(pub usize);

impl fmt::Display for Position {
    ghost use Rattle.std.specs.Prelude.{Some};
    ghost use Rattle.figures_printing.specs.Pieces.{position_text};

    ghost output = { λ p. Some (position_text p.0) };

    fn fmt<W: fmt::Write>(&self, f: &mut fmt::Formatter<W>) -> fmt::Result {
        let at = self.0;
        write!(f, "{at:03X}")
    }
}

// A byte of an image behind its position.
#[derive(Clone, Copy)]
pub struct Placed {
    pub at: usize,
    pub byte: u8,
}

impl fmt::Display for Placed {
    ghost use Rattle.std.specs.Prelude.{Some};
    ghost use Rattle.figures_printing.specs.Pieces.{placed_text};

    ghost output = { λ p. Some (placed_text p.at p.byte) };

    fn fmt<W: fmt::Write>(&self, f: &mut fmt::Formatter<W>) -> fmt::Result {
        let at = self.at;
        let byte = self.byte;
        write!(f, " {at:03X} {byte:02X}")
    }
}

// Bytes in hexadecimal, two by two.
#[derive(Clone, Copy)]
pub struct Bytes<'a>(pub &'a [u8]);

impl fmt::Display for Bytes<'_> {
    ghost use Rattle.std.specs.Prelude.{Some};
    ghost use Rattle.figures_printing.specs.Pieces.{bytes_text};

    ghost output = { λ b. Some (bytes_text b.0.now) };

    fn fmt<W: fmt::Write>(&self, f: &mut fmt::Formatter<W>) -> fmt::Result {
        for pair in self.0.chunks(2) {
            f.write_str(" ")?;
            for b in pair {
                write!(f, "{}", Byte(*b))?;
            }
        }
        Ok(())
    }
}

// Each position whose byte differs in two images, and its byte in the second.
#[derive(Clone, Copy)]
pub struct Changes<'a> {
    pub old: &'a [u8],
    pub new: &'a [u8],
}

impl fmt::Display for Changes<'_> {
    ghost use Rattle.std.specs.Prelude.{Some};
    ghost use Rattle.figures_printing.specs.Pieces.{changes_from};

    ghost output = { λ c. Some (changes_from 0 c.old.now c.new.now) };

    fn fmt<W: fmt::Write>(&self, f: &mut fmt::Formatter<W>) -> fmt::Result {
        for (at, (old, new)) in self.old.iter().zip(self.new).enumerate() {
            if old != new {
                write!(f, "{}", Placed { at, byte: *new })?;
            }
        }
        Ok(())
    }
}

// A refusal, by its number.
#[derive(Clone, Copy)]
pub struct Refused(pub Refusal);

impl fmt::Display for Refused {
    ghost use Rattle.std.specs.Prelude.{Some};
    ghost use Rattle.figures_printing.specs.Pieces.{refused_text};

    ghost output = { λ r. Some (refused_text r.0) };

    fn fmt<W: fmt::Write>(&self, f: &mut fmt::Formatter<W>) -> fmt::Result {
        write!(f, "refused {}", u8::from(self.0))
    }
}

// The word for a fact of a watch, which stands behind the fact's name.
pub fn on_off(fact: bool) -> &'static str
    ensures { result.now ≡ on_off_text fact }
{
    if fact { "on" } else { "off" }
}

// An answer behind its label, or its refusal.
pub fn counted<T: fmt::Display + Drop>(
    out: Stdout,
    label: &str,
    answer: Result<T, Refusal>,
) -> io::Result<()> {
    match answer {
        Err(r) => print!(out; " {}", Refused(r)),
        Ok(n) => print!(out; "{label}{n}"),
    }
}

fn is_filled(buffer: &[u8]) -> bool
    ensures { IsTrue result ↔ all_filled buffer.now }
{
    buffer.iter().all(|&b| b == FILL)
}

// Says so where a buffer still is as it was filled.
pub fn kept(buffer: &[u8]) -> &'static str
    ensures { SaysKept buffer.now result.now }
{
    if is_filled(buffer) { " kept" } else { "" }
}
