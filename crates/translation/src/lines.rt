// The lines of a text.
ghost use Rattle.std.specs.Prelude.{◌≡◌, length};
ghost use Rattle.translation.specs.Words.{hexadecimal};
ghost use Rattle.translation.specs.Text.{header_line, write_line, write_lines, refused_line, end_line};
ghost use Rattle.translation.specs.Parts.{InRange, Adds, writes_of};

use crate::output::Output;

pub(crate) fn header(output: &mut Output<'_>, number: usize, chip: u8, table: u8, writes: usize)
    requires { InRange (header_line number chip table writes) output.old }
    ensures { Adds (header_line number chip table writes) output.old output.new }
{
    output.field(b"plan ", number);
    output.field(b" chip ", usize::from(chip));
    output.field(b" table ", usize::from(table));
    output.last_field(b" writes ", writes);
}

// A table by hand: `{:02X}` goes through a `Formatter`, and no contract of std rules out that it answers an error.
const DIGITS: [u8; 16] = *b"0123456789ABCDEF";

fn hexadecimal(byte: u8) -> [u8; 2]
    ensures { result ≡ hexadecimal byte }
{
    [
        DIGITS[usize::from(byte / 16)],
        DIGITS[usize::from(byte % 16)],
    ]
}

// As one array, since each piece of a text costs a call of the library's copy.
fn write_line(address: u8, byte: u8) -> [u8; 6]
    ensures { result ≡ write_line (address, byte) }
{
    let [high, low] = hexadecimal(address);
    let [first, second] = hexadecimal(byte);
    [high, low, b' ', first, second, b'\n']
}

fn write(output: &mut Output<'_>, address: u8, byte: u8)
    requires { InRange (write_line (address, byte)) output.old }
    ensures { Adds (write_line (address, byte)) output.old output.new }
{
    // Asked first: a line that fits is put together where it will stand. Made before, it is an array, written and then copied.
    if output.has_room(6) {
        output.put(write_line(address, byte));
    } else {
        output.append(&write_line(address, byte));
    }
}

// A line for each write, an address and its byte.
pub(crate) fn writes(output: &mut Output<'_>, script: &[[u8; 2]])
    requires { InRange (write_lines (writes_of script.now)) output.old }
    ensures { Adds (write_lines (writes_of script.now)) output.old output.new }
{
    for &[address, byte] in script {
        write(output, address, byte);
    }
}

#[tactic(auto, unfolding(crate::specs::Text::refused_line))]
pub(crate) fn refused(output: &mut Output<'_>, number: usize, refusal: u8)
    requires { InRange (refused_line number refusal) output.old }
    ensures { Adds (refused_line number refusal) output.old output.new }
{
    output.field(b"plan ", number);
    output.last_field(b" refused ", usize::from(refusal));
}

#[tactic(auto, unfolding(crate::specs::Text::end_line))]
pub(crate) fn end(output: &mut Output<'_>, plans: usize)
    requires { InRange (end_line plans) output.old }
    ensures { Adds (end_line plans) output.old output.new }
{
    output.field(b"end ", plans);
    output.append(b"\n");
}
