// A grow-only counter: sixteen counts, one a station, each at most 16,777,215.
ghost use Rattle.std.specs.Prelude.{◌≡◌};

use crate::counts::{CountKind, Counts};
use entries::kind::Counter;

pub type GCounter = Counts<Counter>;

// A report: how much is to be added, from 1 to 65,535.
#[derive(Clone, Copy, PartialEq, Eq, Debug)]
pub struct Amount(pub u32);

impl CountKind for Counter {
    type Report = Amount;

    ghost amount = { λ r. r.0 };

    fn amount(report: Amount) -> u32 {
        report.0
    }
}
