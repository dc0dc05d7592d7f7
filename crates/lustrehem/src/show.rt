// How the program prints words, counts, answers and faults.
ghost use Rattle.std.specs.Iterator.{IsFinite};

use crate::record::{RecordOf, Recorded};
use cards::card_record::CardReport;
use counters::g_counter::GCounter;
use either::{Left, Right};
use registers::gset::GSet;
use replication::answer::{Answer, CallError, Reply};
use replication::call::Call;
use scripts::command::Command;
use stations::station::Station;
use std::cmp::Ordering;
use std::{array, fmt};

// Items with a separator between them, each as `show` writes it.
pub(crate) fn separated<W, I, F>(
    f: &mut fmt::Formatter<W>,
    separator: &str,
    items: I,
    mut show: F,
) -> fmt::Result
where
    W: fmt::Write,
    I: Iterator + Drop,
    I::Item: Drop,
    F: FnMut(&mut fmt::Formatter<W>, I::Item) -> fmt::Result,
    requires can { I.can_next items }
    requires finite { IsFinite (I.remaining items) }
    requires shows { F.IsAlwaysCallable show }
{
    let mut before = "";
    for item in items {
        f.write_str(before)?;
        show(f, item)?;
        before = separator;
    }
    Ok(())
}

// Words or bytes in so many hexadecimal digits each.
#[derive(Clone, Copy)]
pub(crate) struct Hex<'a, T, const DIGITS: usize>(pub(crate) &'a [T]);

impl<T: fmt::Radix + Copy, const DIGITS: usize> fmt::Display for Hex<'_, T, DIGITS> {
    fn fmt<W: fmt::Write>(&self, f: &mut fmt::Formatter<W>) -> fmt::Result {
        separated(
            f,
            " ",
            self.0.iter(),
            |f, item| write!(f, "{item:0w$X}", w = DIGITS),
        )
    }
}

// Counts that are not 0, by station.
#[derive(Clone, Copy)]
pub(crate) struct Counts([u32; 16]);

impl Counts {
    pub(crate) fn of<F: Fn(usize) -> u32>(count: F) -> Counts
        requires { F.IsAlwaysCallable count }
    {
        Counts(array::from_fn(count))
    }
}

impl fmt::Display for Counts {
    fn fmt<W: fmt::Write>(&self, f: &mut fmt::Formatter<W>) -> fmt::Result {
        let counts = self.0.iter().enumerate().filter(|(_, count)| **count > 0);
        f.write_str("{")?;
        separated(
            f,
            ", ",
            counts,
            |f, (station, count)| write!(f, "{station}:{count}"),
        )?;
        f.write_str("}")
    }
}

// The counts of a counter that are not 0, by station, and their sum.
#[derive(Clone, Copy)]
pub(crate) struct CounterOf<'a>(pub(crate) &'a GCounter);

impl fmt::Display for CounterOf<'_> {
    fn fmt<W: fmt::Write>(&self, f: &mut fmt::Formatter<W>) -> fmt::Result {
        let counts = Counts::of(|station| self.0.count(station));
        write!(f, "{counts} total {}", self.0.total())
    }
}

// The members of a set, and how many they are.
#[derive(Clone, Copy)]
pub(crate) struct MembersOf<'a>(pub(crate) &'a GSet);

impl fmt::Display for MembersOf<'_> {
    fn fmt<W: fmt::Write>(&self, f: &mut fmt::Formatter<W>) -> fmt::Result {
        let members = (0..256).filter(|member| self.0.contains(*member));
        f.write_str("{")?;
        separated(f, ", ", members, |f, member| write!(f, "{member}"))?;
        write!(f, "}} count {}", self.0.len())
    }
}

// A call of the day.
#[derive(Clone, Copy)]
pub(crate) struct CallOf<'a>(pub(crate) &'a Call<CardReport>);

impl fmt::Display for CallOf<'_> {
    fn fmt<W: fmt::Write>(&self, f: &mut fmt::Formatter<W>) -> fmt::Result {
        match *self.0 {
            Call::Report { station, report } => {
                write!(f, "station {station} reports {}", ReportOf(report))
            }
            Call::SendDelta { station } => write!(f, "station {station} sends a delta"),
            Call::SendFull { station } => write!(f, "station {station} sends all"),
            Call::Fetch { station, message } => write!(
                f,
                "station {station} fetches message {message}"
            ),
            Call::Discard { message } => write!(f, "message {message} is discarded"),
            Call::Count => write!(f, "count"),
            Call::Fits { len } => write!(f, "fits {len}"),
            Call::Read { message } => write!(f, "read {message}"),
        }
    }
}

// A report on a card record.
#[derive(Clone, Copy)]
struct ReportOf(CardReport);

impl fmt::Display for ReportOf {
    fn fmt<W: fmt::Write>(&self, f: &mut fmt::Formatter<W>) -> fmt::Result {
        match self.0 {
            Left(Left(erased)) => write!(f, "erased {}", erased.0),
            Left(Right(Left(taken))) => write!(f, "taken {}", taken.0),
            Left(Right(Right(returned))) => write!(f, "returned {}", returned.0),
            Right(Left(group)) => write!(f, "retired {}", group.0),
            Right(Right(revision)) => write!(f, "firmware {}", revision.0),
        }
    }
}

// An answer.
#[derive(Clone, Copy)]
pub(crate) struct AnswerOf<'a>(pub(crate) &'a Answer);

impl fmt::Display for AnswerOf<'_> {
    fn fmt<W: fmt::Write>(&self, f: &mut fmt::Formatter<W>) -> fmt::Result {
        match *self.0 {
            Ok(Reply::Done) => write!(f, "done"),
            Ok(Reply::Number(n)) => write!(f, "{n}"),
            Ok(Reply::Fits(true)) => write!(f, "yes"),
            Ok(Reply::Fits(false)) => write!(f, "no"),
            Err(CallError::Refused(refusal)) => write!(f, "refused, {refusal}"),
            Err(CallError::Faulted(fault)) => write!(f, "refused, {}", fault.fault),
        }
    }
}

// A line of a script that asks for a put, with its words.
#[derive(Clone, Copy)]
pub(crate) struct PutOf<'a>(pub(crate) &'a [u32]);

impl fmt::Display for PutOf<'_> {
    fn fmt<W: fmt::Write>(&self, f: &mut fmt::Formatter<W>) -> fmt::Result {
        f.write_str("put")?;
        for word in self.0 {
            write!(f, " {word:08X}")?;
        }
        Ok(())
    }
}

// What a call of a script answered, and the words that it left.
#[derive(Clone, Copy)]
pub(crate) struct Answered<'a> {
    pub(crate) command: Command,
    pub(crate) answer: &'a Answer,
    pub(crate) words: &'a [u32],
}

impl fmt::Display for Answered<'_> {
    fn fmt<W: fmt::Write>(&self, f: &mut fmt::Formatter<W>) -> fmt::Result {
        match (self.command, self.answer) {
            (Command::Count, Ok(Reply::Number(n))) => write!(f, "{n}"),
            (Command::Fetch { .. }, Ok(Reply::Number(n))) => write!(f, "{n} words"),
            (_, Ok(Reply::Number(n))) => {
                let n = (*n).min(self.words.len());
                write!(f, "{n} words: {}", Hex::<u32, 8>(&self.words[..n]))
            }
            (_, answer) => write!(f, "{}", AnswerOf(answer)),
        }
    }
}

// How one clock stands to another. A function: the type is the library's.
pub(crate) fn order_name(order: Option<Ordering>) -> &'static str {
    match order {
        Some(Ordering::Equal) => "same",
        Some(Ordering::Less) => "behind",
        Some(Ordering::Greater) => "ahead",
        None => "sideways",
    }
}

// A station, as a script shows it.
#[derive(Clone, Copy)]
pub(crate) struct StationOf<'a, C>(pub(crate) &'a Station<C>);

impl<C: Recorded> fmt::Display for StationOf<'_, C> {
    fn fmt<W: fmt::Write>(&self, f: &mut fmt::Formatter<W>) -> fmt::Result {
        let station = self.0;
        let clock = Counts::of(|s| station.clock.count(s));
        let record = RecordOf(&station.record);
        let own = station.clock.count(station.number);
        let sent = station.unsent().map_or(own, |span| span.from);
        write!(f, "clock {clock}, {record}, sent {sent}")
    }
}
