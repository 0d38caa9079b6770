// What a fan table's registers hold in an image, and whether they can hold a plan's values.
ghost use Rattle.std.specs.Prelude.{◌+◌, ◌-◌, ◌≤◌, ◌≡◌};
ghost use Rattle.pages.specs.Rows.{column, stands_at};
ghost use Rattle.pages.specs.Sheets.{longest};
ghost use Rattle.plans.specs.Parts.{worth_at, fit_from, fitting_of};

use bodies::LONGEST;
use curves::Plan;
use pages::{Chip, Ground, Layout, Register};

// A register's writable bits in the image, and 0 behind the image's end.
fn worth(image: &[u8], register: Register) -> u8
    ensures { result ≡ worth_at register image.now }
{
    image.get(register.position).copied().unwrap_or(0) & register.masks.writable
}

// Register by register, in the order of the table.
pub(crate) fn held(stretches: Ground, image: &[u8]) -> [u8; LONGEST]
    ensures { result ≡ column longest (λ k. worth_at (stands_at stretches k) image.now) }
{
    std::array::from_fn(|k| worth(image, pages::register_at(stretches, k)))
}

// Whether the registers of a table, from one place up to another, can hold a body's bytes.
fn each_fits(stretches: Ground, body: [u8; LONGEST], from: usize, to: usize) -> bool
    requires { to ≤ longest }
    ensures { result ≡ fit_from (stands_at stretches) body from (to - from) }
{
    (from..to).all(|k| {
        let writable = pages::register_at(stretches, k).masks.writable;
        body[k] & writable == body[k]
    })
}

// Whether a table's registers can hold a plan's settings, and its speeds.
#[derive(Clone, Copy)]
pub(crate) struct Fitting {
    pub settings: bool,
    pub speeds: bool,
}

// A table all of whose bits are writable holds every byte.
pub(crate) fn fit(chip: Chip, plan: Plan, layout: Layout) -> Fitting
    requires { layout.settings + layout.speeds ≤ longest }
    ensures { result ≡ fitting_of chip plan layout }
{
    if layout.whole {
        return Fitting {
            settings: true,
            speeds: true,
        };
    }
    let body = bodies::body_of(layout.shape, false, plan);
    let stretches = cards::ground_of(chip, plan.table);
    let settings = layout.settings;
    Fitting {
        settings: each_fits(stretches, body, 0, settings),
        speeds: each_fits(stretches, body, settings, settings + layout.speeds),
    }
}
