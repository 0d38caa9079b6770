// The bytes of a body, and zeros behind them.
ghost use Rattle.std.specs.Prelude.{◌≡◌, ◌++◌, get_or};
ghost use Rattle.pages.specs.Rows.{column};
ghost use Rattle.pages.specs.Sheets.{longest};
ghost use Rattle.curves.specs.Curves.{halves};
ghost use Rattle.bodies.specs.Bodies.{slope_body};

use crate::LONGEST;
use curves::{SlopeValues, StepValues};

// A slope's body: the temperatures of its points and critical, which leads or stands behind them, then the duties.
pub(crate) fn slope_bytes(leading: bool, points: u8, values: SlopeValues) -> [u8; LONGEST]
    ensures { result ≡ column longest (λ k. get_or (slope_body leading points values.temperatures values.critical values.duties) k 0) }
{
    let count = curves::count_of(points);
    let temperatures = &values.temperatures[..count];
    let mut bytes = [0; LONGEST];
    if leading {
        bytes[0] = values.critical;
        bytes[1..count + 1].copy_from_slice(temperatures);
    } else {
        bytes[..count].copy_from_slice(temperatures);
        bytes[count] = values.critical;
    }
    bytes[count + 1..count + 1 + count].copy_from_slice(&values.duties[..count]);
    bytes
}

// B1 to B4, C1 to C5, "high byte first".
pub(crate) fn step_bytes(values: StepValues) -> [u8; LONGEST]
    ensures { result ≡ column longest (λ k. get_or (values.bounds ++ halves values.counts) k 0) }
{
    let [b1, b2, b3, b4] = values.bounds;
    let [c1, c2, c3, c4, c5] = values.counts.map(u16::to_be_bytes);
    [
        b1, b2, b3, b4, c1[0], c1[1], c2[0], c2[1], c3[0], c3[1], c4[0], c4[1], c5[0], c5[1], 0, 0,
        0,
    ]
}
