// Prints histories of the alarm watch in each behaviour: `watch BEHAVIOUR new ..`, `watch BEHAVIOUR limits H L sample N ..`,
// `watch BEHAVIOUR limits H L run N N ..` and `watch BEHAVIOUR acknowledge ..`, each with what the watch then holds and shows.
#![tactic(auto)]

use figures_printing::{Refused, on_off};
use std::io::{self, Stdout};
use watch::{Behaviour, Watch};

fn name(behaviour: Behaviour) -> &'static str {
    match behaviour {
        Behaviour::Default => "default",
        Behaviour::OneTime => "one-time",
        Behaviour::Comparator => "comparator",
    }
}

// The end of a line.
fn facts(out: Stdout, watch: Watch) -> io::Result<()> {
    println!(out;
        " hot {} pending {} output {}",
        on_off(watch.hot),
        on_off(watch.pending),
        on_off(watch.output())
    )
}

// What befalls a watch.
#[derive(Clone, Copy)]
enum Event {
    Sample(i16),
    Acknowledge,
}

use Event::{Acknowledge, Sample};

// The watch after a sample; a refusal says so, and leaves it as it was.
fn sample(out: Stdout, watch: Watch, steps: i16, high: i8, hysteresis: i8) -> io::Result<Watch> {
    print!(out;
        "watch {} limits {high} {hysteresis} sample {steps}",
        name(watch.behaviour)
    )?;
    let after = match watch.sample(steps, high, hysteresis) {
        Ok(after) => after,
        Err(refused) => {
            print!(out; " {}", Refused(refused.refusal))?;
            refused.watch
        }
    };
    facts(out, after)?;
    Ok(after)
}

fn acknowledge(out: Stdout, watch: Watch) -> io::Result<Watch> {
    let after = watch.acknowledge();
    print!(out; "watch {} acknowledge", name(after.behaviour))?;
    facts(out, after)?;
    Ok(after)
}

// A watch from its start, through one event after the other.
fn history(
    out: Stdout,
    behaviour: Behaviour,
    high: i8,
    hysteresis: i8,
    events: &[Event],
) -> io::Result<()> {
    let mut watch = Watch::new(behaviour);
    print!(out; "watch {} new", name(behaviour))?;
    facts(out, watch)?;
    for event in events {
        watch = match *event {
            Sample(steps) => sample(out, watch, steps, high, hysteresis)?,
            Acknowledge => acknowledge(out, watch)?,
        };
    }
    Ok(())
}

// The rules paper's history: 81, 78, acknowledge, 78 degrees.
const FIGURE: [Event; 4] = [Sample(1296), Sample(1248), Acknowledge, Sample(1248)];

// Exactly at a limit nothing changes, and a step beyond it hot does.
const AT_THE_LIMITS: [Event; 6] = [
    Sample(1280),
    Sample(1281),
    Sample(1280),
    Sample(1200),
    Sample(1199),
    Sample(1200),
];

// Refused samples leave a watch that is cold as it was, and one that is hot; the ends of the twelve bits are taken.
const AT_THE_ENDS: [Event; 10] = [
    Sample(2048),
    Sample(-2049),
    Sample(32767),
    Sample(-32768),
    Sample(2047),
    Sample(2048),
    Sample(-2049),
    Sample(32767),
    Sample(-32768),
    Sample(-2048),
];

// With the hysteresis limit above the high limit the high limit decides.
const LIMITS_CROSSED: [Event; 4] = [Sample(1200), Sample(1201), Sample(1279), Sample(1200)];

// Once acknowledged, one-time waits for it to cool before the next alarm.
const SECOND_ALARM: [Event; 6] = [
    Sample(1296),
    Acknowledge,
    Sample(1296),
    Acknowledge,
    Sample(1199),
    Sample(1296),
];

// Recorded samples in turn, with the limits 80 and 75.
fn run(out: Stdout, watch: Watch, samples: &[i16]) -> io::Result<Watch> {
    let after = watch.run(samples, 80, 75);
    print!(out; "watch {} limits 80 75 run", name(after.behaviour))?;
    for steps in samples {
        print!(out; " {steps}")?;
    }
    facts(out, after)?;
    Ok(after)
}

// Runs in which a refused sample changes nothing, wherever it stands; and runs that end between the limits, below both, and exactly at each.
fn runs(out: Stdout, behaviour: Behaviour) -> io::Result<()> {
    let runs: [&[i16]; 10] = [
        &[1296, 1248, 2048, 1199, 1281],
        &[1296, 2048, 1199],
        &[1296, -2049, 1248],
        &[1199, 2048, 1248],
        &[1199, 1296, 1248],
        &[1296, 1199, 1248],
        &[1296, 1248, 1199],
        &[1248, 1199],
        &[1281, 1199, 1280],
        &[1199, 1281, 1200],
    ];
    for samples in runs {
        run(out, Watch::new(behaviour), samples)?;
    }
    Ok(())
}

// The rules paper's history again, in two runs: the second goes on from where the first and the acknowledge ended.
fn figure_in_runs(out: Stdout, behaviour: Behaviour) -> io::Result<()> {
    let mut watch = run(out, Watch::new(behaviour), &[1296, 1248])?;
    watch = acknowledge(out, watch)?;
    run(out, watch, &[1248])?;
    Ok(())
}

fn main(rt: HostRuntime) -> io::Result<()> {
    let out = rt.stdout();
    for behaviour in [
        Behaviour::Default,
        Behaviour::OneTime,
        Behaviour::Comparator,
    ] {
        history(out, behaviour, 80, 75, &FIGURE)?;
        history(out, behaviour, 80, 75, &AT_THE_LIMITS)?;
        history(out, behaviour, 80, 75, &AT_THE_ENDS)?;
        history(out, behaviour, 75, 80, &LIMITS_CROSSED)?;
        history(out, behaviour, 80, 75, &SECOND_ALARM)?;
        runs(out, behaviour)?;
        figure_in_runs(out, behaviour)?;
    }
    Ok(())
}
