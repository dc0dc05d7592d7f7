// The record kinds that a script can choose.
ghost use Rattle.std.specs.Prelude.{Some};
ghost use Rattle.scripts.specs.Shown.{kind_shown};

use std::fmt;

#[derive(Clone, Copy, PartialEq, Eq, Debug)]
pub enum RecordKind {
    Card,
    Loan,
}

impl fmt::Display for RecordKind {
    ghost output = { λ x. Some (kind_shown x) };

    fn fmt<W: fmt::Write>(&self, f: &mut fmt::Formatter<W>) -> fmt::Result {
        f.write_str(match self {
            RecordKind::Card => "card",
            RecordKind::Loan => "loan",
        })
    }
}
