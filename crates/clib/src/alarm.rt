// The alarm watch, whose facts the caller keeps between the calls.
ghost use Rattle.clib.specs.Promises.{YkSample, YkAcknowledge, YkRun};

use crate::{facts, packing};

#[unsafe(no_mangle)]
pub extern "C" fn yk_sample(behaviour: u8, facts: u8, steps: i16, high: i8, hysteresis: i8) -> u64
    ensures { YkSample behaviour facts steps high hysteresis result }
{
    let watch = facts::watch_of(behaviour, facts);
    let sampled = watch.sample(steps, high, hysteresis);
    packing::of_facts(sampled.map(facts::facts_of))
}

#[unsafe(no_mangle)]
pub extern "C" fn yk_acknowledge(behaviour: u8, facts: u8) -> u64
    ensures { YkAcknowledge behaviour facts result }
{
    let watch = facts::watch_of(behaviour, facts);
    packing::packed(0, facts::facts_of(watch.acknowledge()))
}

// Samples in turn, with the same limits; a refused one changes nothing.
#[unsafe(no_mangle)]
pub extern "C" fn yk_run(behaviour: u8, facts: u8, samples: &[i16], high: i8, hysteresis: i8) -> u64
    ensures { YkRun behaviour facts samples.now high hysteresis result }
{
    let before = facts::watch_of(behaviour, facts);
    let after = before.run(samples, high, hysteresis);
    packing::packed(0, facts::facts_of(after))
}
