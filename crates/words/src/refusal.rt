// Why a call refuses. Each refusal has a fixed number, which no later edition changes.
ghost use Rattle.std.specs.Prelude.{◌≡◌, Some};
ghost use Rattle.words.specs.Refusals.{number_of};
ghost use Rattle.words.specs.Shown.{meaning, refusal_shown};

use std::error::Error;
use std::fmt;

#[derive(Clone, Copy, PartialEq, Eq, Debug)]
pub enum Refusal {
    // No such station, or a table that is none.
    Station = 1,
    // A value outside its range.
    Range = 2,
    // A count that would pass its limit.
    Limit = 3,
    // A station that has made all its reports.
    Spent = 4,
    // Nothing to send.
    Nothing = 5,
    // Too few given words.
    Room = 6,
    // More words than a message has.
    Long = 7,
    // A mailbox that does not take the message now.
    Full = 8,
    // No such message.
    Absent = 9,
    // A word of another kind than belongs there.
    Kind = 10,
    // A word of the right kind in a wrong form.
    Form = 11,
    // No word left where one belongs.
    Ended = 12,
    // A length that is not the number of words.
    Length = 13,
    // A delta that begins after what the receiver has.
    Gap = 14,
    // A message that claims more of the receiver than it has done.
    Ahead = 15,
    // Memory of a size that no mailbox has.
    Memory = 16,
}

impl Refusal {
    // Its number, from 1 to 16. A method, since the number has a name in every document; `u32::from` would be no plainer.
    pub fn number(self) -> u32
        ensures { result ≡ number_of self }
    {
        self as u32
    }

    // What it means, in a few words.
    pub fn meaning(self) -> &'static str
        ensures { result.now ≡ meaning self }
    {
        match self {
            Refusal::Station => "no such station",
            Refusal::Range => "out of range",
            Refusal::Limit => "past its limit",
            Refusal::Spent => "all reports made",
            Refusal::Nothing => "nothing to send",
            Refusal::Room => "too few words",
            Refusal::Long => "too long",
            Refusal::Full => "does not fit",
            Refusal::Absent => "no such message",
            Refusal::Kind => "wrong kind",
            Refusal::Form => "wrong form",
            Refusal::Ended => "words ended",
            Refusal::Length => "wrong length",
            Refusal::Gap => "gap before it",
            Refusal::Ahead => "ahead of the receiver",
            Refusal::Memory => "wrong memory size",
        }
    }
}

impl fmt::Display for Refusal {
    ghost output = { λ x. Some (refusal_shown x) };

    fn fmt<W: fmt::Write>(&self, f: &mut fmt::Formatter<W>) -> fmt::Result {
        let number = self.number();
        let meaning = self.meaning();
        write!(f, "{number} ({meaning})")
    }
}

impl Error for Refusal {}
