// What a station can report: the first five for a card record, the last two for a loan record.
ghost use Rattle.std.specs.Prelude.{Some};
ghost use Rattle.scripts.specs.Shown.{what_shown};

use std::fmt;

#[derive(Clone, Copy, PartialEq, Eq, Debug)]
pub enum What {
    Erased,
    Taken,
    Returned,
    Retired,
    Firmware,
    Lent,
    Marked,
}

impl fmt::Display for What {
    ghost output = { λ x. Some (what_shown x) };

    fn fmt<W: fmt::Write>(&self, f: &mut fmt::Formatter<W>) -> fmt::Result {
        f.write_str(match self {
            What::Erased => "erased",
            What::Taken => "taken",
            What::Returned => "returned",
            What::Retired => "retired",
            What::Firmware => "firmware",
            What::Lent => "lent",
            What::Marked => "marked",
        })
    }
}
