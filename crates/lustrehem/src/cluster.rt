// One cluster of a script: the lines from the one that makes it to the one that makes the next. What is printed changes nothing: the
// contracts say that each command makes what it asks for, and that a cluster changes only by calls and by words that are put.
ghost use Rattle.std.specs.Prelude.{◌≡◌, false, length};
ghost use Rattle.mailboxes.specs.Mailboxes.{put_leaves};
ghost use Rattle.stations.specs.Stored.{cluster_of};
ghost use Rattle.lustrehem.specs.Rehearsals.{Rehearsed, RehearsalPromised, Made, Obeyed, plain_of};
ghost use Rattle.replication.specs.Runs.{asked as meant};

use crate::record::Recorded;
use crate::script::Script;
use crate::show::{Answered, PutOf, StationOf, order_name};
use crate::store::Imaged;
use crdt::kind::Crdt;
use mailboxes::mailbox::Mailbox;
use replication::call::Call;
use replication::perform::perform;
use scripts::command::Command;
use stations::station::Station;
use stations::table::find;
use std::cmp::Ordering;
use std::fmt::Display;
use std::io;
use std::io::Write;
use thiserror::Error;
use words::fault::Fault;
use words::refusal::Refusal;
use words::word::LONGEST;

// A line that made a cluster, and what came of it.
#[derive(Clone, Copy)]
pub(crate) struct Opening {
    pub(crate) asked: Command,
    pub(crate) ready: Result<(), Unready>,
}

// Why a cluster takes nothing: its table or its mailbox is refused.
#[derive(Clone, Copy, Debug, Error)]
pub(crate) enum Unready {
    #[error(transparent)]
    Table(Refusal),
    #[error(transparent)]
    Mailbox(Fault),
}

// Carries out lines up to one that makes another cluster, which it answers. The last clause is the whole promise of histories, for lines
// that put no words, from a fresh cluster on.
pub(crate) fn serve<C: Recorded, M: Imaged, W: Write>(
    script: &mut Script<W>,
    opening: Option<Opening>,
    table: &mut [Station<C>],
    mailbox: &mut M,
) -> io::Result<Option<Command>>
    ensures lines { Rehearsed C.Crdt (cluster_of C.Crdt M.Mailbox table.old mailbox.old) (cluster_of C.Crdt M.Mailbox table.new mailbox.new) }
    ensures promised { RehearsalPromised C.Crdt }
{
    if let Some(opening) = opening {
        announce(script.out, opening, mailbox)?;
    }
    let mut words = [0; LONGEST];
    // A count, since a loop has to end: for a measure `next`, `obey` and all that they call would have to say how much text is left.
    for _ in 0..usize::MAX {
        match script.next()? {
            Some(command @ (Command::Record(_) | Command::Stations(_) | Command::Mailbox(_))) =>
                return Ok(Some(command)),
            Some(command) => obey(script, command, table, mailbox, &mut words)?,
            None => return Ok(None),
        }
    }
    Ok(None)
}

// Answers the line that made the cluster.
fn announce<M: Mailbox, W: Write>(out: &mut W, opening: Opening, mailbox: &M) -> io::Result<()> {
    let Opening { asked, ready } = opening;
    match (asked, ready) {
        (Command::Mailbox(_), Ok(())) => {
            writeln!(out, "{asked}: ready, {} messages", mailbox.count())
        }
        _ => tell(out, asked, ready.map(|()| "ready")),
    }
}

// What a line asked for, and its answer or refusal.
fn tell<W: Write, Q: Display + Drop, A: Display + Drop, R: Display + Drop>(
    out: &mut W,
    asked: Q,
    answer: Result<A, R>,
) -> io::Result<()> {
    match answer {
        Ok(answer) => writeln!(out, "{asked}: {answer}"),
        Err(refusal) => writeln!(out, "{asked}: refused, {refusal}"),
    }
}

// Carries out a line and prints its answer.
fn obey<C: Recorded, M: Imaged, W: Write>(
    script: &mut Script<W>,
    command: Command,
    table: &mut [Station<C>],
    mailbox: &mut M,
    words: &mut [u32; LONGEST],
) -> io::Result<()>
    ensures lines { Rehearsed C.Crdt (cluster_of C.Crdt M.Mailbox table.old mailbox.old) (cluster_of C.Crdt M.Mailbox table.new mailbox.new) }
    ensures obeyed { Obeyed C.Crdt script.old.words (cluster_of C.Crdt M.Mailbox table.old mailbox.old) (cluster_of C.Crdt M.Mailbox table.new mailbox.new) command }
{
    match command {
        Command::Report {
            station,
            what,
            value,
        } => match C::reported(what, value) {
            Some(report) => {
                let asked = Call::Report { station, report };
                make(script.out, command, table, mailbox, &asked, words)
            }
            None => script.misunderstood(C::REPORTABLE),
        },
        Command::Put { len } => {
            let len = len.min(script.words.len());
            put(script.out, mailbox, &script.words[..len])
        }
        Command::Show { station } => {
            let station = station_at(table, station).map(StationOf);
            tell(script.out, command, station)
        }
        Command::Compare { left, right } => {
            let order = compare(table, left, right).map(order_name);
            tell(script.out, command, order)
        }
        Command::Image => mailbox.print_image(script.out),
        // A match: of a closure under map_or the contract would not see what the call changes.
        _ => match plain(command) {
            Some(asked) => make(script.out, command, table, mailbox, &asked, words),
            None => Ok(()),
        },
    }
}

// The call that a line asks for, where it is one that every record kind has. A match: lines and calls do not know each other.
fn plain<R>(command: Command) -> Option<Call<R>>
    ensures { result ≡ plain_of command }
{
    match command {
        Command::SendDelta { station } => Some(Call::SendDelta { station }),
        Command::SendFull { station } => Some(Call::SendFull { station }),
        Command::Fetch { station, message } => Some(Call::Fetch { station, message }),
        Command::Discard { message } => Some(Call::Discard { message }),
        Command::Count => Some(Call::Count),
        Command::Fits { len } => Some(Call::Fits { len }),
        Command::Read { message } => Some(Call::Read { message }),
        _ => None,
    }
}

// Makes a call and prints its answer. The cluster is left as the call leaves it.
fn make<C: Recorded, M: Mailbox, W: Write>(
    out: &mut W,
    command: Command,
    table: &mut [Station<C>],
    mailbox: &mut M,
    asked: &Call<C::Report>,
    words: &mut [u32; LONGEST],
) -> io::Result<()>
    ensures made { Made C.Crdt (cluster_of C.Crdt M.Mailbox table.old mailbox.old) (meant 127 asked.now) (cluster_of C.Crdt M.Mailbox table.new mailbox.new) }
{
    let answer = perform(table, mailbox, asked, words);
    let answered = Answered {
        command,
        answer: &answer,
        words,
    };
    writeln!(out, "{command}: {answered}")
}

// Puts what a link delivers into the mailbox.
fn put<M: Mailbox, W: Write>(out: &mut W, mailbox: &mut M, words: &[u32]) -> io::Result<()>
    ensures mailbox { M.Mailbox.waiting mailbox.new ≡ put_leaves (M.Mailbox.takes mailbox.old (length words.now)) (M.Mailbox.waiting mailbox.old) words.now }
    ensures refused { M.Mailbox.takes mailbox.old (length words.now) ≡ false → mailbox.new ≡ mailbox.old }
{
    let done = mailbox.put(words).map(|()| "done");
    tell(out, PutOf(words), done)
}

fn station_at<C: Crdt>(table: &[Station<C>], s: usize) -> Result<&Station<C>, Refusal> {
    find(table, s)?;
    Ok(&table[s])
}

// How the clocks of two stations stand to each other.
fn compare<C: Crdt>(table: &[Station<C>], s: usize, t: usize) -> Result<Option<Ordering>, Refusal> {
    let left = station_at(table, s)?;
    let right = station_at(table, t)?;
    Ok(left.clock.partial_cmp(&right.clock))
}
