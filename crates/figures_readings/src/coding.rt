// A temperature as steps and as two bytes, in the codings that there are: a line from bytes to steps, one from steps to bytes and back, and one on
// every word.
use figures_printing::{Refused, Word, counted};
use refusal::Refusal;
use std::fmt;
use std::io::{self, Stdout};

// How two bytes hold a temperature: left-aligned at a width, or as the NCT7904D has it.
#[derive(Clone, Copy)]
pub enum Coding {
    Width(u8),
    RightAligned,
}

impl fmt::Display for Coding {
    fn fmt<W: fmt::Write>(&self, f: &mut fmt::Formatter<W>) -> fmt::Result {
        match *self {
            Coding::Width(width) => write!(f, "width {width}"),
            Coding::RightAligned => f.write_str("right-aligned"),
        }
    }
}

impl Coding {
    fn steps_of(self, word: u16) -> Result<i16, Refusal> {
        let [high, low] = word.to_be_bytes();
        match self {
            Coding::Width(width) => readings::steps_of(width, high, low),
            Coding::RightAligned => Ok(right_readings::right_steps(high, low)),
        }
    }

    fn word_of(self, steps: i16) -> Result<u16, Refusal> {
        let (high, low) = match self {
            Coding::Width(width) => readings::bytes_of(width, steps)?,
            Coding::RightAligned => right_readings::right_bytes(steps)?,
        };
        Ok(u16::from_be_bytes([high, low]))
    }

    // The bits of a word that count.
    fn counting(self) -> u16 {
        match self {
            Coding::Width(8) => 0xFF00,
            Coding::Width(9) => 0xFF80,
            Coding::Width(11) => 0xFFE0,
            Coding::Width(_) => 0xFFF0,
            Coding::RightAligned => 0xFF07,
        }
    }
}

// Bytes and the steps that they are, as a line ends.
pub fn read(out: Stdout, coding: Coding, word: u16) -> io::Result<()> {
    print!(out; " bytes {}", Word(word))?;
    counted(out, " steps ", coding.steps_of(word))?;
    println!(out)
}

pub fn from_bytes(out: Stdout, coding: Coding, word: u16) -> io::Result<()> {
    print!(out; "temperature {coding}")?;
    read(out, coding, word)
}

pub fn from_steps(out: Stdout, coding: Coding, steps: i16) -> io::Result<()> {
    print!(out; "temperature {coding} steps {steps}")?;
    match coding.word_of(steps) {
        Err(r) => println!(out; " {}", Refused(r)),
        Ok(word) => read(out, coding, word),
    }
}

// How many of all words come back from their steps, and the sum of the steps in 16 bits.
#[inline(always)]
fn tally(coding: Coding) -> (u32, u16) {
    let mut back: u32 = 0;
    let mut sum: u16 = 0;
    for word in 0..=u16::MAX {
        if let Ok(steps) = coding.steps_of(word) {
            if coding.word_of(steps) == Ok(word & coding.counting()) {
                back = back.wrapping_add(1);
            }
            sum = sum.wrapping_add(steps.cast_unsigned());
        }
    }
    (back, sum)
}

// Of all words in one line. Each coding has its own loop, which doesn't ask at each word which coding it is.
pub fn sweep(out: Stdout, coding: Coding) -> io::Result<()> {
    let (back, sum) = match coding {
        Coding::Width(width) => tally(Coding::Width(width)),
        Coding::RightAligned => tally(Coding::RightAligned),
    };
    println!(out; "temperature {coding} words back {back} sum of steps {sum}")
}
