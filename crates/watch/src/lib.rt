// The NCT80's temperature alarm: whether it is hot, and whether an alarm is pending.
#![tactic(auto)]

ghost use Rattle.std.specs.Prelude.{◌≡◌};
ghost use Rattle.watch.specs.Alarm.{is_sample, in_steps, hot_after, pending_after, taken, after, sample};
ghost use Rattle.watch.specs.Promises.{Starts, Samples, Acknowledges, Shows, Runs};

use refusal::Refusal;

// What makes an alarm, and what the output shows: the data sheet's default, one-time and comparator.
#[derive(Clone, Copy)]
pub enum Behaviour {
    Default,
    OneTime,
    Comparator,
}

// A watch has its behaviour for good, and two facts.
#[derive(Clone, Copy)]
pub struct Watch {
    pub behaviour: Behaviour,
    pub hot: bool,
    pub pending: bool,
}

// Why a call was refused, and the watch, which comes back unchanged.
#[derive(Clone, Copy)]
pub struct Refused {
    pub refusal: Refusal,
    pub watch: Watch,
}

// Whether a number of steps is one of 12 bits.
fn is_sample(steps: i16) -> bool
    ensures { result ≡ is_sample steps }
{
    (-2048 <= steps) & (steps <= 2047)
}

// A limit in whole degrees, as steps of 1/16 degree.
fn in_steps(degrees: i8) -> i16
    ensures { result ≡ in_steps degrees }
{
    16 * (degrees as i16)
}

// Whether it is hot after a sample; exactly at a limit nothing changes.
fn hot_after(hot: bool, steps: i16, high: i8, hysteresis: i8) -> bool
    ensures { result ≡ hot_after hot steps high hysteresis }
{
    if in_steps(high) < steps {
        return true;
    }
    if steps < in_steps(hysteresis) {
        return false;
    }
    hot
}

// Whether an alarm is pending after a sample that found hot as `was` and left it as `hot`.
fn pending_after(behaviour: Behaviour, was: bool, hot: bool, pending: bool) -> bool
    ensures { result ≡ pending_after behaviour was hot pending }
{
    match behaviour {
        Behaviour::Default => hot | pending,
        Behaviour::OneTime => (!was & hot) | pending,
        Behaviour::Comparator => pending,
    }
}

// The limits are two numbers in each call, as C hands them in.
impl Watch {
    // Both facts are off at first.
    pub fn new(behaviour: Behaviour) -> Watch
        ensures { Starts behaviour result }
    {
        Watch {
            behaviour,
            hot: false,
            pending: false,
        }
    }

    // What a sample of 12 bits leaves.
    fn taken(mut self, steps: i16, high: i8, hysteresis: i8) -> Watch
        ensures { result ≡ taken self steps high hysteresis }
    {
        let hot = hot_after(self.hot, steps, high, hysteresis);
        self.pending = pending_after(self.behaviour, self.hot, hot, self.pending);
        self.hot = hot;
        self
    }

    // A sample of 12 bits, with its limits in whole degrees. Any other number of steps is refused and changes neither fact.
    pub fn sample(mut self, steps: i16, high: i8, hysteresis: i8) -> Result<Watch, Refused>
        ensures { Samples self steps high hysteresis result }
    {
        if !is_sample(steps) {
            return Err(Refused {
                refusal: Refusal::StepsDoNotFit,
                watch: self,
            });
        }
        self = self.taken(steps, high, hysteresis);
        Ok(self)
    }

    // Pending goes off, and hot stays.
    pub fn acknowledge(mut self) -> Watch
        ensures { Acknowledges self result }
    {
        self.pending = false;
        self
    }

    // Hot in comparator, pending in the other two.
    pub fn output(self) -> bool
        ensures { Shows self result }
    {
        match self.behaviour {
            Behaviour::Default => self.pending,
            Behaviour::OneTime => self.pending,
            Behaviour::Comparator => self.hot,
        }
    }

    // What one sample leaves, taken or refused.
    fn after(self, steps: i16, high: i8, hysteresis: i8) -> Watch
        ensures { result ≡ after self (sample steps high hysteresis) }
    {
        if is_sample(steps) {
            self.taken(steps, high, hysteresis)
        } else {
            self
        }
    }

    // Recorded samples in turn, with the same limits. A refused sample changes nothing, and the run goes on.
    pub fn run(mut self, samples: &[i16], high: i8, hysteresis: i8) -> Watch
        ensures { Runs self samples.now high hysteresis result }
    {
        for steps in samples {
            self = self.after(*steps, high, hysteresis);
        }
        self
    }
}
