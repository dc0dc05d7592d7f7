// What a line asks for.
ghost use Rattle.std.specs.Prelude.{Some};
ghost use Rattle.scripts.specs.Shown.{shown as command_shown};

use crate::record_kind::RecordKind;
use crate::store::MailboxShape;
use crate::what::What;
use std::fmt;

#[derive(Clone, Copy, PartialEq, Eq, Debug)]
pub enum Command {
    Record(RecordKind),
    Stations(usize),
    Mailbox(MailboxShape),
    Report {
        station: usize,
        what: What,
        value: u32,
    },
    SendDelta {
        station: usize,
    },
    SendFull {
        station: usize,
    },
    // That many words stand at the front of the given words.
    Put {
        len: usize,
    },
    Fetch {
        station: usize,
        message: usize,
    },
    Discard {
        message: usize,
    },
    Count,
    Fits {
        len: usize,
    },
    Read {
        message: usize,
    },
    Show {
        station: usize,
    },
    Compare {
        left: usize,
        right: usize,
    },
    Image,
}

// Of a put the verb alone: its words stand elsewhere.
impl fmt::Display for Command {
    ghost output = { λ x. Some (command_shown x) };

    fn fmt<W: fmt::Write>(&self, f: &mut fmt::Formatter<W>) -> fmt::Result {
        match self {
            Command::Record(kind) => write!(f, "record {kind}"),
            Command::Stations(n) => write!(f, "stations {n}"),
            Command::Mailbox(shape) => write!(f, "mailbox {shape}"),
            Command::Report {
                station,
                what,
                value,
            } => write!(f, "report {station} {what} {value}"),
            Command::SendDelta { station } => write!(f, "send delta {station}"),
            Command::SendFull { station } => write!(f, "send full {station}"),
            Command::Put { .. } => write!(f, "put"),
            Command::Fetch { station, message } => write!(f, "fetch {station} {message}"),
            Command::Discard { message } => write!(f, "discard {message}"),
            Command::Count => write!(f, "count"),
            Command::Fits { len } => write!(f, "fits {len}"),
            Command::Read { message } => write!(f, "read {message}"),
            Command::Show { station } => write!(f, "show {station}"),
            Command::Compare { left, right } => write!(f, "compare {left} {right}"),
            Command::Image => write!(f, "image"),
        }
    }
}
