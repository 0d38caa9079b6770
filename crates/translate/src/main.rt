// Translates plan records on standard input to the text of their scripts on standard output. What the text is, the crate `translation` says.
#![tactic(auto)]

ghost use Rattle.std.specs.Prelude.{◌≤◌, length, Ok};
ghost use Rattle.translation.specs.Promises.{Translates};
ghost use Rattle.translate.specs.Inputs.{Holds};

use std::io;
use std::io::{Read, Stdin};

// Fills the buffer until the input ends or the buffer is full, however the bytes arrive. A loop by hand: `read_exact` tells no count, and
// `read_to_end` wants a heap.
fn read_all(mut input: Stdin, buffer: &mut [u8]) -> io::Result<usize>
    ensures { Holds buffer.new result }
{
    let mut filled = 0;
    while filled < buffer.len() {
        let more = input.read(&mut buffer[filled..])?;
        if more == 0 {
            break;
        }
        filled += more;
    }
    Ok(filled)
}

// Where standard error takes no words either, there is nobody left to tell.
fn say(rt: HostRuntime, words: &[u8]) {
    let _ = rt.stderr().write_all(words);
}

// No text is longer than 40,979 bytes, so none is refused: it stands at the front of the buffer.
fn text_of(input: &[u8], buffer: &mut [u8]) -> usize
    requires { 40979 ≤ length buffer.old }
    ensures { Translates input.now buffer.old (Ok result) buffer.new }
{
    translation::translate(input, buffer).unwrap()
}

fn translated(rt: HostRuntime, input: &[u8]) {
    let mut text = [0u8; 40979];
    let length = text_of(input, &mut text);
    if rt.stdout().write_all(&text[..length]).is_err() {
        say(rt, b"translate: standard output cannot be written\n");
    }
}

// One byte more than the longest input tells that an input is too long.
fn main(rt: HostRuntime) {
    let mut input = [0u8; 4097];
    match read_all(rt.stdin(), &mut input) {
        Ok(length) => translated(rt, &input[..length]),
        Err(_) => say(rt, b"translate: standard input cannot be read\n"),
    }
}
