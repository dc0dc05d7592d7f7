// What becomes of the cards of a family.
ghost use Rattle.std.specs.Prelude.{◌≡◌, Some};
ghost use Rattle.cards.specs.Verdicts.{verdict_of, verdict_shown};

use std::fmt;

#[derive(Clone, Copy, PartialEq, Eq, Debug)]
pub enum Verdict {
    // Worn: the cards are pulled from use.
    Pulled,
    // Sound: they go back into use.
    GoesBack,
}

impl fmt::Display for Verdict {
    ghost output = { λ x. Some (verdict_shown x) };

    fn fmt<W: fmt::Write>(&self, f: &mut fmt::Formatter<W>) -> fmt::Result {
        f.write_str(match self {
            Verdict::Pulled => "pulled",
            Verdict::GoesBack => "goes back",
        })
    }
}

// The cards of a family are pulled once its erased blocks have reached its rated cycles.
pub fn judge(erased: u32, rated: u32) -> Verdict
    ensures { result ≡ verdict_of erased rated }
{
    if erased >= rated {
        Verdict::Pulled
    } else {
        Verdict::GoesBack
    }
}
