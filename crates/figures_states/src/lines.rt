// A call on a state as a line: `state sample N words WWWW .. RESULT`, `state chip C read AA byte BB RESULT`, `state chip C reset RESULT`,
// `state chip C write AA BB RESULT`. The result is `changed`, each position that has changed and its byte, and both facts of the watch that the call
// left. A refused call has `refused R` before it, and no byte.
use figures_printing::{Byte, Changes, Refused, Word, on_off};
use std::io::{self, Stdout};
use watch::{Behaviour, Watch};

// How many bytes the longest image has, and how many words a sample.
pub const LONGEST: usize = 1280;

pub const VOLTAGES: usize = 7;

// A lent image and the watch beside it.
#[derive(Drop)]
pub struct State<'a> {
    pub image: &'a mut [u8],
    pub watch: Watch,
}

// What an image holds before a call: the call's changes are seen beside it.
fn held(image: &[u8]) -> [u8; LONGEST] {
    let mut old = [0u8; LONGEST];
    if let Some(part) = old.get_mut(..image.len()) {
        part.copy_from_slice(image);
    }
    old
}

impl<'a> State<'a> {
    // The state that a history begins with: `state behaviour B`.
    pub fn begin(out: Stdout, image: &'a mut [u8], watch: Watch) -> io::Result<State<'a>> {
        let behaviour = match watch.behaviour {
            Behaviour::Default => "default",
            Behaviour::OneTime => "one-time",
            Behaviour::Comparator => "comparator",
        };
        println!(out; "state behaviour {behaviour}")?;
        Ok(State { image, watch })
    }

    // A call hands the watch back, also where it is refused.
    fn result(
        &mut self,
        out: Stdout,
        old: &[u8],
        answer: Result<Watch, watch::Refused>,
    ) -> io::Result<()> {
        self.watch = match answer {
            Ok(watch) => watch,
            Err(refused) => {
                print!(out; " {}", Refused(refused.refusal))?;
                refused.watch
            }
        };
        let hot = on_off(self.watch.hot);
        let pending = on_off(self.watch.pending);
        let new: &[u8] = self.image;
        println!(out;
            " changed{} hot {hot} pending {pending}",
            Changes { old, new }
        )
    }

    pub fn sample(&mut self, out: Stdout, steps: i16, words: [u16; VOLTAGES]) -> io::Result<()> {
        print!(out; "state sample {steps} words")?;
        for word in words {
            print!(out; " {}", Word(word))?;
        }
        let old = held(self.image);
        let answer = channels::sample(self.image, self.watch, steps, words);
        self.result(out, &old, answer)
    }

    pub fn read(&mut self, out: Stdout, chip: u8, address: u8) -> io::Result<()> {
        print!(out; "state chip {chip} read {}", Byte(address))?;
        let old = held(self.image);
        let answer = states::read(chip, self.image, address, self.watch);
        if let Ok((byte, _)) = answer {
            print!(out; " byte {}", Byte(byte))?;
        }
        self.result(out, &old, answer.map(|(_, watch)| watch))
    }

    // One read after the other.
    pub fn reads(&mut self, out: Stdout, chip: u8, addresses: &[u8]) -> io::Result<()> {
        for address in addresses {
            self.read(out, chip, *address)?;
        }
        Ok(())
    }

    pub fn reset(&mut self, out: Stdout, chip: u8) -> io::Result<()> {
        print!(out; "state chip {chip} reset")?;
        let old = held(self.image);
        let answer = states::reset(chip, self.image, self.watch);
        self.result(out, &old, answer)
    }

    // A write has no watch: its facts are those kept beside.
    pub fn write(&mut self, out: Stdout, chip: u8, address: u8, byte: u8) -> io::Result<()> {
        print!(out; "state chip {chip} write {} {}", Byte(address), Byte(byte))?;
        let old = held(self.image);
        let watch = self.watch;
        let answer = images::write(chip, self.image, address, byte)
            .map(|()| watch)
            .map_err(|refusal| watch::Refused { refusal, watch });
        self.result(out, &old, answer)
    }
}
