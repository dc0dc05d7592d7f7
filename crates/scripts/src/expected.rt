// What should have stood where a line went wrong.
ghost use Rattle.std.specs.Prelude.{Some};
ghost use Rattle.scripts.specs.Shown.{expected_shown};

use std::error::Error;
use std::fmt;

#[derive(Clone, Copy, PartialEq, Eq, Debug)]
pub enum Expected {
    Command,
    RecordKind,
    Stations,
    Mailbox,
    Store,
    Size,
    Send,
    Station,
    Message,
    What,
    Value,
    Length,
    Words,
    End,
}

impl fmt::Display for Expected {
    ghost output = { λ x. Some (expected_shown x) };

    fn fmt<W: fmt::Write>(&self, f: &mut fmt::Formatter<W>) -> fmt::Result {
        f.write_str(match self {
            Expected::Command => "a command",
            Expected::RecordKind => "card or loan",
            Expected::Stations => "a number of stations, 0 to 100",
            Expected::Mailbox => "words, pages, image or overflow",
            Expected::Store => "words, pages or image",
            Expected::Size => "a size, 0 to 1000000",
            Expected::Send => "delta or full",
            Expected::Station => "a station number",
            Expected::Message => "a message number",
            Expected::What => "something to report",
            Expected::Value => "a number, 0 to 4294967295",
            Expected::Length => "a number of words",
            Expected::Words => "words of 1 to 8 hexadecimal digits, at most 255",
            Expected::End => "the end of the line",
        })
    }
}

impl Error for Expected {}
