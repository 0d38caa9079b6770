// Register images: written, and asked whose they are.
ghost use Rattle.clib.specs.Promises.{YkWrite, YkIdentity};

use crate::packing;

#[unsafe(no_mangle)]
pub extern "C" fn yk_write(chip: u8, image: &mut [u8], address: u8, byte: u8) -> u64
    ensures { YkWrite chip image.old address byte result image.new }
{
    let written = images::write(chip, image, address, byte);
    packing::of(written.map(|()| 0))
}

#[unsafe(no_mangle)]
pub extern "C" fn yk_identity(chip: u8, image: &[u8]) -> u64
    ensures { YkIdentity chip image.now result }
{
    let confirmed = identities::confirm(chip, image);
    packing::of(confirmed.map(|()| 0))
}
