// A text in a lent buffer. Past the buffer's end it is only counted, so that a text without a byte of room is measured.
ghost use Rattle.std.specs.Prelude.{◌≡◌, ◌≤◌, ◌+◌, leb, length};
ghost use Rattle.translation.specs.Words.{decimal};
ghost use Rattle.translation.specs.Text.{line};

use itoa::Buffer;

#[derive(Drop)]
pub(crate) struct Output<'a> {
    buffer: &'a mut [u8],
    length: usize,
}

ghost use Rattle.std.specs.Prelude.{◌++◌};
ghost use Rattle.translation.specs.Parts.{InRange, Adds};

impl<'a> Output<'a> {
    pub(crate) fn new(buffer: &'a mut [u8]) -> Output<'a>
        ensures same { result.buffer.ghost_name ≡ buffer.entry.ghost_name }
        ensures bytes { result.buffer.now ≡ buffer.old }
        ensures length { result.length ≡ 0 }
    {
        Output { buffer, length: 0 }
    }

    pub(crate) fn length(&self) -> usize
        ensures { result ≡ self.now.length }
    {
        self.length
    }

    // Compiled into its callers: of a text of known length that fits whole, the copy is then a few stores and no call.
    #[inline(always)]
    pub(crate) fn append(&mut self, text: &[u8])
        requires { InRange text.now self.old }
        ensures { Adds text.now self.old self.new }
    {
        let start = self.length.min(self.buffer.len());
        let room = self.buffer.len() - start;
        self.length += text.len();
        if text.len() <= room {
            self.buffer[start..start + text.len()].copy_from_slice(text);
        } else if 0 < room {
            self.buffer[start..].copy_from_slice(&text[..room]);
        }
    }

    // Whether so many bytes more fit.
    pub(crate) fn has_room(&self, count: usize) -> bool
        ensures { result ≡ leb (self.now.length + count) (length self.now.buffer.now) }
    {
        let room = self.buffer.len();
        self.length <= room && count <= room - self.length
    }

    // A text that fits.
    #[inline(always)]
    pub(crate) fn put<const N: usize>(&mut self, text: [u8; N])
        requires fits { self.old.length + N ≤ length self.old.buffer.now }
        requires in_range { InRange text self.old }
        ensures { Adds text.entry self.old self.new }
    {
        let start = self.length;
        self.buffer[start..start + N].copy_from_slice(&text);
        self.length += N;
    }

    // A number, by itself, so that its digits are found in one place.
    fn number(&mut self, number: usize)
        requires { InRange (decimal number) self.old }
        ensures { Adds (decimal number) self.old self.new }
    {
        let mut digits = Buffer::new();
        self.append(digits.format(number).as_bytes());
    }

    // A word and a number behind it. Compiled into its callers, where the word's length is known.
    #[inline(always)]
    pub(crate) fn field(&mut self, word: &[u8], number: usize)
        requires { InRange (word.now ++ decimal number) self.old }
        ensures { Adds (word.now ++ decimal number) self.old self.new }
    {
        self.append(word);
        self.number(number);
    }

    // The last of a line.
    #[inline(always)]
    pub(crate) fn last_field(&mut self, word: &[u8], number: usize)
        requires { InRange (line (word.now ++ decimal number)) self.old }
        ensures { Adds (line (word.now ++ decimal number)) self.old self.new }
    {
        self.field(word, number);
        self.append(b"\n");
    }
}
