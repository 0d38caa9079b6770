// A byte access on the bus: where it lands, and what it does there. Behind the image's end is no register.
ghost use Rattle.std.specs.Prelude.{◌≡◌, get_or};
ghost use Rattle.images.specs.Bytes.{initialized, landed, selected, position, written};

use crate::{bytes, place};
use pages::{Chip, Masks, Register};

pub(crate) fn byte_at(image: &[u8], at: usize) -> u8
    ensures { result ≡ get_or image.now at 0 }
{
    image.get(at).copied().unwrap_or(0)
}

// The bank that is selected.
fn selected(chip: Chip, image: &[u8]) -> u8
    ensures { result ≡ selected chip image.now }
{
    let selector = cards::selector_of(chip);
    let register = selector.register;
    byte_at(image, register.position) & selector.bits
}

// The position of the image that an address is.
pub(crate) fn position(chip: Chip, image: &[u8], address: u8) -> usize
    ensures { result ≡ position chip image.now address }
{
    cards::position_of(chip, selected(chip, image), address)
}

// Every writable bit gets its power-on value, and the others stay, also those that clear on one.
#[tactic(auto, unfolding(crate::specs::Bytes::stored))]
fn initialize(chip: Chip, image: &mut [u8])
    ensures { image.new ≡ initialized chip image.old }
{
    for (at, byte) in image.iter_mut().enumerate() {
        let power = cards::power_on_of(chip, at);
        let card = cards::masks_of(chip, at);
        let writable = card.writable;
        let masks = Masks {
            writable,
            clears: 0x00,
        };
        *byte = bytes::stored(masks, *byte, power);
    }
}

// A write where it lands: what lasts of the byte is stored there, and where one of its bits initializes, the whole image is then initialized.
fn land(chip: Chip, image: &mut [u8], at: usize, byte: u8)
    ensures { image.new ≡ landed chip at byte image.old }
{
    let register = Register {
        position: at,
        masks: cards::masks_of(chip, at),
    };
    let effects = cards::effects_of(chip, at);
    place(image, register, byte & !effects.fleeting);
    if byte & effects.initialize != 0 {
        initialize(chip, image);
    }
}

pub(crate) fn store(chip: Chip, image: &mut [u8], address: u8, byte: u8)
    ensures { image.new ≡ written chip address byte image.old }
{
    let at = position(chip, image, address);
    land(chip, image, at, byte);
}
