// The text of plan records.
ghost use Rattle.clib.specs.Promises.{YkTranslate};

use crate::packing;

#[unsafe(no_mangle)]
pub extern "C" fn yk_translate(input: &[u8], out: &mut [u8]) -> u64
    ensures { YkTranslate input.now out.old result out.new }
{
    let length = translation::translate(input, out);
    packing::of_count(length)
}
