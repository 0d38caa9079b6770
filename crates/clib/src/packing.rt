// The one number that every call answers: the refusal number in its low byte, the value above it.
ghost use Rattle.std.specs.Prelude.{◌≡◌, ◌<◌, ◌^◌, IfOk};
ghost use Rattle.refusal.specs.Answers.{tells_amount};
ghost use Rattle.clib.specs.Packed.{packed, packs_amount, packs_facts};

use crate::facts;
use refusal::Refusal;
use watch::Refused;

// A value of at most 56 bits has room above the refusal number.
pub(crate) fn packed(refusal: u8, value: u64) -> u64
    requires { value < 2 ^ 56 }
    ensures { result ≡ packed refusal value }
{
    u64::from(refusal) + 256 * value
}

// "A refusal returns its number and zero in every other part of the answer".
pub(crate) fn of(answer: Result<u64, Refusal>) -> u64
    requires { (tells_amount answer).1 < 2 ^ 56 }
    ensures { result ≡ packs_amount answer }
{
    match answer {
        Ok(value) => packed(0, value),
        Err(refusal) => packed(u8::from(refusal), 0),
    }
}

// Of bytes or of writes.
pub(crate) fn of_count(count: Result<usize, Refusal>) -> u64
    requires { (tells_amount count).1 < 2 ^ 56 }
    ensures { result ≡ packs_amount count }
{
    of(count.map(|n| n as u64))
}

// "a watch comes back unchanged": a refused call answers the facts as they were.
pub(crate) fn of_facts(answer: Result<u64, Refused>) -> u64
    requires { IfOk answer (λ value. value < 2 ^ 56) }
    ensures { result ≡ packs_facts answer }
{
    match answer {
        Ok(value) => packed(0, value),
        Err(refused) => packed(u8::from(refused.refusal), facts::facts_of(refused.watch)),
    }
}
