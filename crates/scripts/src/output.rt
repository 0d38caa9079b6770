// A script's pairs in a lent buffer.
ghost use Rattle.std.specs.Prelude.{◌+◌, ◌*◌, ◌%◌, ◌<◌, ◌≡◌, length, set};
ghost use Rattle.scripts.specs.Left.{left_of};
ghost use Rattle.scripts.specs.Making.{PutsPairs};

use crate::making::{Write, Writes};
use refusal::Refusal;

// Puts the k-th pair. A register's address is its place in its bank's page: of a position of no bound a remainder, and no byte of a u16.
fn put(write: Write, out: &mut [u8], k: usize)
    requires { 2 * k + 1 < length out.old }
    ensures { out.new ≡ set (set out.old (2 * k) (write.register.position % 256)) (2 * k + 1) write.byte }
{
    let register = write.register;
    out[2 * k] = (register.position % 256) as u8;
    out[2 * k + 1] = write.byte;
}

pub(crate) fn put_all(writes: Writes, out: &mut [u8]) -> Result<usize, Refusal>
    ensures { PutsPairs (left_of writes) out.old result out.new }
{
    let count = writes.left;
    if out.len() / 2 < count {
        return Err(Refusal::OutputTooShort);
    }
    // By place, since behind `chunks_exact_mut` a proof knows the buffer's length and none of its bytes.
    for (k, write) in writes.enumerate() {
        put(write, out, k);
    }
    Ok(count)
}
