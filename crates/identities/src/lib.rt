// Whose an image is: every register that the chip's identity names is asked.
#![tactic(auto)]

ghost use Rattle.std.specs.Prelude.{◌<◌, ◌≡◌, length};
ghost use Rattle.pages.specs.Cards.{size_of};
ghost use Rattle.pages.specs.Identity.{holds, confirmed};
ghost use Rattle.identities.specs.Promises.{Confirms};

use pages::{Chip, Required};
use refusal::Refusal;

fn holds(image: &[u8], required: Required) -> bool
    requires { required.position < length image.now }
    ensures { result ≡ holds image.now required }
{
    let at = required.position;
    let held = image[at] & required.bits;
    (held == required.value) | (held == required.other)
}

// Where nothing is required, nothing is confirmed. The loop goes by number: the registers are asked of a look-up, since an array of them costs ten times as
// much (docs/PERFORMANCE.md).
fn confirmed(chip: Chip, image: &[u8]) -> bool
    requires { length image.now ≡ size_of chip }
    ensures { result ≡ confirmed chip image.now }
{
    let sizes = cards::sizes_of(chip);
    let count = sizes.identity;
    for k in 0..count {
        let required = cards::required_of(chip, k);
        if !holds(image, required) {
            return false;
        }
    }
    0 < count
}

// Whether the image is the chip's, by every bit that its identity names.
pub fn confirm(chip: u8, image: &[u8]) -> Result<(), Refusal>
    ensures { Confirms chip image.now result }
{
    let known = images::admit(chip, image.len())?;
    if !confirmed(known, image) {
        return Err(Refusal::IdentityNotConfirmed);
    }
    Ok(())
}
