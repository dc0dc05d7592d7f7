// A vector clock: sixteen counts of reports, one a station, each at most 65,535.
ghost use Rattle.std.specs.Prelude.{◌≡◌};

use crate::counts::{CountKind, Counts};
use entries::kind::Clock;

pub type VectorClock = Counts<Clock>;

// A report: one more.
#[derive(Clone, Copy, PartialEq, Eq, Debug)]
pub struct Tick;

impl CountKind for Clock {
    type Report = Tick;

    ghost amount = { λ _. 1 };

    fn amount(_report: Tick) -> u32 {
        1 // report
    }
}
