// A script's writes on a lent image, register by register.
ghost use Rattle.std.specs.Prelude.{◌≡◌};
ghost use Rattle.scripts.specs.Left.{left_of};
ghost use Rattle.scripts.specs.Making.{made_of};

use crate::making::Writes;

pub(crate) fn make_all(writes: Writes, image: &mut [u8])
    ensures { image.new ≡ made_of (left_of writes) image.old }
{
    for write in writes {
        images::place(image, write.register, write.byte);
    }
}
