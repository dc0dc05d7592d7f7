// What a line asks for.
ghost use Rattle.std.specs.Prelude.{◌≡◌};
ghost use Rattle.scripts.specs.Grammar.{store_by, part_of, mailbox_of, report_of, send_of, put_of, words_put, fetch_of, compare_of, asked, leaves, understood, words_after};
ghost use Rattle.scripts.specs.Laws.{Ranged, PrintedBack};
ghost use Rattle.scripts.specs.Readings.{Reads};
ghost use Rattle.scripts.specs.Tokens.{tokens as tokens_of, left};

use crate::command::Command;
use crate::expected::Expected;
use crate::keywords::{Keyword, Kind, Shape, Verb};
use crate::numbers::hexadecimal;
use crate::store::{MailboxShape, Store};
use crate::tokens::Tokens;

// A store after its first word.
fn store(shape: Shape, tokens: &mut Tokens) -> Result<Store, Expected>
    ensures { Reads (store_by shape) (left tokens.old) result (left tokens.new) }
{
    match shape {
        Shape::Words => Ok(Store::Words(tokens.number(1_000_000, Expected::Size)?)),
        Shape::Pages => Ok(Store::Pages(tokens.number(1_000_000, Expected::Size)?)),
        Shape::Image => Ok(Store::Image),
        Shape::Overflow => Err(Expected::Store),
    }
}

// One of the two stores of an overflow.
fn part(tokens: &mut Tokens) -> Result<Store, Expected>
    ensures { Reads part_of (left tokens.old) result (left tokens.new) }
{
    let shape = tokens.keyword(Expected::Store)?;
    store(shape, tokens)
}

fn mailbox(tokens: &mut Tokens) -> Result<Command, Expected>
    ensures { Reads mailbox_of (left tokens.old) result (left tokens.new) }
{
    match tokens.keyword(Expected::Mailbox)? {
        Shape::Overflow => {
            let first = part(tokens)?;
            let second = part(tokens)?;
            Ok(Command::Mailbox(MailboxShape::Overflow(first, second)))
        }
        shape => {
            let only = store(shape, tokens)?;
            Ok(Command::Mailbox(MailboxShape::One(only)))
        }
    }
}

fn report(tokens: &mut Tokens) -> Result<Command, Expected>
    ensures { Reads report_of (left tokens.old) result (left tokens.new) }
{
    let station = tokens.number(usize::MAX, Expected::Station)?;
    let what = tokens.keyword(Expected::What)?;
    // `as` is proved to lose nothing; a `try_from` would add a failure that cannot be.
    let value = tokens.number(u32::MAX as usize, Expected::Value)? as u32;
    Ok(Command::Report {
        station,
        what,
        value,
    })
}

fn send(tokens: &mut Tokens) -> Result<Command, Expected>
    ensures { Reads send_of (left tokens.old) result (left tokens.new) }
{
    let kind = tokens.keyword(Expected::Send)?;
    let station = tokens.number(usize::MAX, Expected::Station)?;
    match kind {
        Kind::Delta => Ok(Command::SendDelta { station }),
        Kind::Full => Ok(Command::SendFull { station }),
    }
}

// Every word that is left goes to the given words. Where one is refused, those before it are there.
fn put(tokens: &mut Tokens, words: &mut [u32; 255]) -> Result<Command, Expected>
    ensures answer { Reads put_of (left tokens.old) result (left tokens.new) }
    ensures words { words.new ≡ words_put (left tokens.old) words.old }
{
    let mut len = 0;
    // `while let`: after `for token in tokens` nothing is known of what `tokens` has left
    while let Some(token) = tokens.next() {
        let word = hexadecimal(token).ok_or(Expected::Words)?;
        if len == words.len() {
            return Err(Expected::Words);
        }
        words[len] = word;
        len += 1;
    }
    Ok(Command::Put { len })
}

fn fetch(tokens: &mut Tokens) -> Result<Command, Expected>
    ensures { Reads fetch_of (left tokens.old) result (left tokens.new) }
{
    let station = tokens.number(usize::MAX, Expected::Station)?;
    let message = tokens.number(usize::MAX, Expected::Message)?;
    Ok(Command::Fetch { station, message })
}

// Two numbers, as `fetch` reads: one function for both would take the two expectations and a closure that makes the command.
fn compare(tokens: &mut Tokens) -> Result<Command, Expected>
    ensures { Reads compare_of (left tokens.old) result (left tokens.new) }
{
    let left = tokens.number(usize::MAX, Expected::Station)?;
    let right = tokens.number(usize::MAX, Expected::Station)?;
    Ok(Command::Compare { left, right })
}

// What a verb and the words after it ask for.
fn asked(verb: Verb, tokens: &mut Tokens, words: &mut [u32; 255]) -> Result<Command, Expected>
    ensures answer { Reads (asked verb) (left tokens.old) result (left tokens.new) }
    ensures words { words.new ≡ leaves verb (left tokens.old) words.old }
{
    match verb {
        Verb::Record => Ok(Command::Record(tokens.keyword(Expected::RecordKind)?)),
        Verb::Stations => Ok(Command::Stations(tokens.number(100, Expected::Stations)?)),
        Verb::Mailbox => mailbox(tokens),
        Verb::Report => report(tokens),
        Verb::Send => send(tokens),
        Verb::Put => put(tokens, words),
        Verb::Fetch => fetch(tokens),
        Verb::Discard => Ok(Command::Discard {
            message: tokens.number(usize::MAX, Expected::Message)?,
        }),
        Verb::Count => Ok(Command::Count),
        Verb::Fits => Ok(Command::Fits {
            len: tokens.number(usize::MAX, Expected::Length)?,
        }),
        Verb::Read => Ok(Command::Read {
            message: tokens.number(usize::MAX, Expected::Message)?,
        }),
        Verb::Show => Ok(Command::Show {
            station: tokens.number(usize::MAX, Expected::Station)?,
        }),
        Verb::Compare => compare(tokens),
        Verb::Image => Ok(Command::Image),
    }
}

// Understands one line: None where it asks for nothing. The words of a put go to the front of `words`; where one of them is
// refused, those before it are there. What is printed of a command is understood as that command, but for a put, which is
// printed without its words.
#[tactic(auto, using(crate::proofs::Back::printed_back))]
pub fn understand(line: &[u8], words: &mut [u32; 255]) -> Result<Option<Command>, Expected>
    ensures answer { result ≡ understood (tokens_of line.now) }
    ensures words { words.new ≡ words_after (tokens_of line.now) words.old }
    ensures range { Ranged result }
    ensures law { PrintedBack }
{
    let mut tokens = Tokens { line };
    let Some(first) = tokens.next() else {
        return Ok(None);
    };
    let verb = Verb::named(first).ok_or(Expected::Command)?;
    let command = asked(verb, &mut tokens, words)?;
    match tokens.next() {
        None => Ok(Some(command)),
        Some(_) => Err(Expected::End),
    }
}
