// Prints histories of a chip's state, which is an image and the watch beside it: each begins with `state behaviour B`, and each call on it is a line.
#![tactic(auto)]

mod lines;

use figures_printing::FILL;
use lines::{LONGEST, State, VOLTAGES};
use std::io::{self, Stdout};
use watch::{Behaviour, Watch};

const BEHAVIOURS: [Behaviour; 3] = [
    Behaviour::Default,
    Behaviour::OneTime,
    Behaviour::Comparator,
];

// A watch whose facts are both on.
const ALARMED: Watch = Watch {
    behaviour: Behaviour::Default,
    hot: true,
    pending: true,
};

// An image of chip 3 with the limits of its temperature, and those of its voltages as wide as can be: high FFh, low 00h.
fn limits(high: u8, hysteresis: u8, os: u8) -> [u8; 256] {
    let mut image = [0u8; 256];
    for address in [0x2A, 0x2C, 0x2E, 0x30, 0x32, 0x34, 0x36u8] {
        image[address as usize] = 0xFF;
    }
    image[0x38] = high;
    image[0x39] = hysteresis;
    image[0x3A] = os;
    image
}

// The request's image.
fn example() -> [u8; 256] {
    let mut image = limits(0x50, 0x4B, 0x7F);
    image[0x00] = 0x01;
    image[0x2A] = 0x80;
    image[0x2B] = 0x40;
    image[0x2D] = 0x20;
    image[0x3B] = 0x80;
    image
}

// Voltages of which one has a word of its own, and the others are alike.
fn all_but_one(others: u16, n: u8, word: u16) -> [u16; VOLTAGES] {
    let mut words = [others; VOLTAGES];
    words[n as usize % VOLTAGES] = word;
    words
}

// The request's first sample: 81 degrees, and IN0 above its high limit.
fn first<'a>(out: Stdout, image: &'a mut [u8], behaviour: Behaviour) -> io::Result<State<'a>> {
    let mut state = State::begin(out, image, Watch::new(behaviour))?;
    state.sample(out, 1296, all_but_one(0x2000, 0, 0x8100))?;
    Ok(state)
}

// The request's history: each status register is read twice after the first sample; then 78 degrees with IN0 exactly at its limit, and what is stored;
// at last a reset.
fn worked_example(out: Stdout, behaviour: Behaviour) -> io::Result<()> {
    let mut image = example();
    let mut state = first(out, &mut image, behaviour)?;
    state.reads(out, 3, &[0x01, 0x01, 0x02, 0x02])?;
    state.sample(out, 1248, all_but_one(0x2000, 0, 0x8000))?;
    state.reads(out, 3, &[0x01, 0x02, 0x20, 0x21, 0x27, 0x06])?;
    state.reset(out, 3)
}

// A voltage exactly at its high limit, with the bits that do not count as ones too, and a code above it; exactly at its low limit, and a code below it.
// What 01h then tells.
fn one_input(out: Stdout, n: u8) -> io::Result<()> {
    let mut image = limits(0x7F, 0x80, 0x7F);
    let high = 0x2A + 2 * (n as usize % VOLTAGES);
    image[high] = 0x80;
    image[high + 1] = 0x40;
    let mut state = State::begin(out, &mut image, Watch::new(Behaviour::Default))?;
    state.sample(out, 0, [0x8000; VOLTAGES])?;
    for (inside, beyond) in [(0x803F, 0x8040), (0x4000, 0x3FFFu16)] {
        state.sample(out, 0, all_but_one(0x8000, n, inside))?;
        state.sample(out, 0, all_but_one(0x8000, n, beyond))?;
        state.read(out, 3, 0x01)?;
    }
    Ok(())
}

// Channels disabled by the bits of 08h, while the others are all above their limits of 00h. What was stored before goes to 0 with a disabled one, and
// the low bits of 06h stay.
fn disabled(out: Stdout, channels: u8, steps: i16, word: u16) -> io::Result<()> {
    let mut image = [0u8; 256];
    for address in 0x20..0x28u8 {
        image[address as usize] = 0x55;
    }
    image[0x06] = 0x5F;
    image[0x08] = channels;
    let hot = Watch {
        behaviour: Behaviour::Default,
        hot: true,
        pending: false,
    };
    let mut state = State::begin(out, &mut image, hot)?;
    state.sample(out, steps, [word; VOLTAGES])
}

// Each by itself, then all and none.
fn channels(out: Stdout) -> io::Result<()> {
    for k in 0..8u8 {
        disabled(out, 1 << k, 1296, 0xFFC0)?;
    }
    disabled(out, 0xFF, 2047, 0xFFFF)?;
    disabled(out, 0x00, 1, 0x0040)
}

// Limits below zero: -10 and -15 degrees for the watch, -10 for the OS bit. Exactly at a limit nothing changes. After each temperature but the first,
// what 02h then tells.
fn below_zero(out: Stdout, behaviour: Behaviour) -> io::Result<()> {
    let mut image = limits(0xF6, 0xF1, 0xF6);
    let mut state = State::begin(out, &mut image, Watch::new(behaviour))?;
    state.sample(out, -160, [0x0000; VOLTAGES])?;
    for steps in [-159, -160, -240, -241] {
        state.sample(out, steps, [0x0000; VOLTAGES])?;
        state.read(out, 3, 0x02)?;
    }
    Ok(())
}

// Steps that don't fill a degree and both ends of the twelve bits, where the low bits of 06h are not 0 and each voltage is exactly at both its limits.
fn to_the_ends(out: Stdout) -> io::Result<()> {
    let mut image = [FILL; 256];
    image[0x01] = 0x00;
    image[0x02] = 0x00;
    image[0x08] = 0x00;
    let mut state = State::begin(out, &mut image, Watch::new(Behaviour::Default))?;
    for steps in [-1, 2047, -2048, 15, 16] {
        state.sample(out, steps, [0x5A00; VOLTAGES])?;
    }
    state.reads(out, 3, &[0x02, 0x01])
}

fn reads_of(out: Stdout, chip: u8, image: &mut [u8], addresses: &[u8]) -> io::Result<()> {
    let mut state = State::begin(out, image, ALARMED)?;
    state.reads(out, chip, addresses)
}

// Only chip 3 has status registers, and a read of one clears its own byte alone. Of chips 4 and 5 FFh selects a bank that the sheets lack.
fn every_bit_on(out: Stdout) -> io::Result<()> {
    for (chip, length) in [(1, 256), (2, 256), (4, 1280), (5, 768)] {
        if let Some(image) = [0xFF; LONGEST].get_mut(..length) {
            reads_of(out, chip, image, &[0x01, 0x02])?;
        }
    }
    reads_of(
        out,
        3,
        &mut [0xFF; 256],
        &[0x00, 0x03, 0x04, 0x06, 0x20, 0x27, 0x3E, 0xFF, 0x01],
    )?;
    reads_of(out, 3, &mut [0xFF; 256], &[0x02])
}

// A call of no chip, and on images that are not the chip's.
fn refused<F: Fn(&mut State<'_>, u8) -> io::Result<()>>(call: F) -> io::Result<()>
    requires { F.IsAlwaysCallable call }
{
    for (chip, length) in [
        (0, 256),
        (6, 256),
        (255, 256),
        (3, 0),
        (3, 255),
        (3, 257),
        (4, 256),
    ] {
        if let Some(image) = [FILL; LONGEST].get_mut(..length) {
            let watch = ALARMED;
            call(&mut State { image, watch }, chip)?;
        }
    }
    Ok(())
}

// A refused call changes no byte and no fact. Of a sample the length is checked before the steps, and the steps also where every channel is disabled.
fn refusals(out: Stdout) -> io::Result<()> {
    let words = [0xFFFF; VOLTAGES];
    let mut image = [FILL; 256];
    image[0x08] = 0xFF;
    let mut state = State::begin(out, &mut image, ALARMED)?;
    refused(|state, chip| state.read(out, chip, 0x01))?;
    refused(|state, chip| state.reset(out, chip))?;
    for (length, steps) in [(0, 0), (255, 0), (257, 0), (255, 2048)] {
        if let Some(image) = [FILL; LONGEST].get_mut(..length) {
            let watch = ALARMED;
            State { image, watch }.sample(out, steps, words)?;
        }
    }
    for steps in [2048, -2049, 32767, -32768] {
        state.sample(out, steps, words)?;
    }
    Ok(())
}

// A reset turns both facts off and keeps the behaviour; another chip than 3 carries the watch unchanged.
fn reset(out: Stdout, chip: u8, image: &mut [u8], behaviour: Behaviour) -> io::Result<()> {
    let watch = Watch {
        behaviour,
        ..ALARMED
    };
    let mut state = State::begin(out, image, watch)?;
    state.reset(out, chip)
}

// The images are those of power-on, of chip 3 with a byte at 01h.
fn resets(out: Stdout) -> io::Result<()> {
    for behaviour in BEHAVIOURS {
        let mut image = [0u8; 256];
        let _ = images::reset(3, &mut image);
        image[0x01] = 0x7F;
        reset(out, 3, &mut image, behaviour)?;
    }
    for (chip, length) in [(1, 256), (2, 256), (4, 1280), (5, 768)] {
        if let Some(image) = [0; LONGEST].get_mut(..length) {
            let _ = images::reset(chip, image);
            reset(out, chip, image, Behaviour::Default)?;
        }
    }
    Ok(())
}

// No write reaches a status register or a fact, nor does an initialization.
fn writes(out: Stdout) -> io::Result<()> {
    let mut image = example();
    let mut state = first(out, &mut image, Behaviour::Default)?;
    for (address, byte) in [(0x01, 0xFF), (0x02, 0x00), (0x00, 0x80)] {
        state.write(out, 3, address, byte)?;
    }
    state.reads(out, 3, &[0x01, 0x02])
}

// Start off, interrupt bits on and every mask set: no status bit minds.
fn masked(out: Stdout) -> io::Result<()> {
    let mut image = example();
    image[0x00] = 0x0E;
    image[0x03] = 0xFF;
    image[0x04] = 0x3F;
    let mut state = first(out, &mut image, Behaviour::Default)?;
    state.reads(out, 3, &[0x02, 0x01])
}

fn main(rt: HostRuntime) -> io::Result<()> {
    let out = rt.stdout();
    for behaviour in BEHAVIOURS {
        worked_example(out, behaviour)?;
    }
    for n in 0..7u8 {
        one_input(out, n)?;
    }
    channels(out)?;
    for behaviour in BEHAVIOURS {
        below_zero(out, behaviour)?;
    }
    to_the_ends(out)?;
    every_bit_on(out)?;
    refusals(out)?;
    resets(out)?;
    writes(out)?;
    masked(out)
}
