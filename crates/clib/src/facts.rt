// A watch as numbers: its behaviour, and its facts as bits.
ghost use Rattle.std.specs.Prelude.{◌≡◌, ◌<◌};
ghost use Rattle.clib.specs.Facts.{behaviour_of, watch_of, facts_of};

use watch::{Behaviour, Watch};

// By hand: the numbers are the C interface's, of which `watch` knows nothing.
pub(crate) fn behaviour_of(number: u8) -> Behaviour
    ensures { result ≡ behaviour_of number }
{
    match number {
        0 => Behaviour::Default,
        1 => Behaviour::OneTime,
        _ => Behaviour::Comparator,
    }
}

pub(crate) fn watch_of(behaviour: u8, facts: u8) -> Watch
    ensures { result ≡ watch_of behaviour facts }
{
    Watch {
        behaviour: behaviour_of(behaviour),
        hot: facts % 2 == 1,
        pending: facts / 2 % 2 == 1,
    }
}

// The facts of a watch, and what its output shows.
#[tactic(auto, unfolding(crate::specs::Facts::facts_of))]
pub(crate) fn facts_of(watch: Watch) -> u64
    ensures value { result ≡ facts_of watch }
    ensures upper_bound { result < 8 }
{
    let hot = u64::from(watch.hot);
    let pending = u64::from(watch.pending);
    let output = u64::from(watch.output());
    hot + 2 * pending + 4 * output
}
