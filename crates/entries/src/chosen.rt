// Rows of a kind that is chosen when the program runs.
ghost use Rattle.std.specs.Prelude.{◌≡◌, ◌^◌, ◌<◌, ◌≤◌, length};
ghost use Rattle.words.specs.Refusals.{numbered};
ghost use Rattle.words.specs.Readings.{left, before, rest, read_or, told, load_answer};
ghost use Rattle.words.specs.Writes.{write_answer, write_leaves};
ghost use Rattle.entries.specs.Kinds.{top_of, word_kind, entry_number};
ghost use Rattle.entries.specs.Rows.{row_of, empty};
ghost use Rattle.entries.specs.Entries.{row_written, row_reading};

use crate::kind::{Clock, Counter, EntryKind, Set};
use words::fault::Fault;
use words::reader::Reader;
use words::refusal::Refusal;
use words::word::WordKind;

#[derive(Clone, Copy, PartialEq, Eq, Debug)]
pub enum RowKind {
    Clock,
    Counter,
    Set,
}

impl RowKind {
    // The largest number of an entry.
    pub fn top(self) -> u32
        ensures value { result ≡ top_of self }
        ensures bound { result < 2 ^ 24 }
    {
        match self {
            RowKind::Clock => Clock::TOP,
            RowKind::Counter => Counter::TOP,
            RowKind::Set => Set::TOP,
        }
    }

    // The kind of an entry's word.
    pub fn word(self) -> WordKind
        ensures { result ≡ word_kind self }
    {
        match self {
            RowKind::Clock => Clock::WORD,
            RowKind::Counter => Counter::WORD,
            RowKind::Set => Set::WORD,
        }
    }
}

// The number of words that a row is written as.
pub fn size(row: &[u32; 16], kind: RowKind) -> usize
    ensures value { result ≡ length (row_written (entry_number kind) (row_of (top_of kind) row.now)) }
    ensures bound { result ≤ 17 }
{
    match kind {
        RowKind::Clock => crate::write::size::<Clock>(row),
        RowKind::Counter => crate::write::size::<Counter>(row),
        RowKind::Set => crate::write::size::<Set>(row),
    }
}

// Writes a row at a place, and answers the place after it.
pub fn write(
    row: &[u32; 16],
    kind: RowKind,
    words: &mut [u32],
    place: usize,
) -> Result<usize, Refusal>
    ensures answer { numbered result ≡ write_answer (length words.old) place (length (row_written (entry_number kind) (row_of (top_of kind) row.now))) }
    ensures words { words.new ≡ write_leaves words.old place (row_written (entry_number kind) (row_of (top_of kind) row.now)) }
{
    match kind {
        RowKind::Clock => crate::write::write::<Clock>(row, words, place),
        RowKind::Counter => crate::write::write::<Counter>(row, words, place),
        RowKind::Set => crate::write::write::<Set>(row, words, place),
    }
}

// Loads a row from where the reader stands, and answers the place after it. It is empty on a refusal.
pub fn load(row: &mut [u32; 16], kind: RowKind, reader: &mut Reader) -> Result<usize, Fault>
    ensures answer { told result ≡ load_answer reader.old (row_reading (entry_number kind) (top_of kind) (left reader.old)) }
    ensures row { row_of (top_of kind) row.new ≡ read_or (empty (top_of kind)) (row_reading (entry_number kind) (top_of kind) (left reader.old)) }
    ensures reader { reader.new ≡ before reader.old (rest (row_reading (entry_number kind) (top_of kind) (left reader.old))) }
{
    match kind {
        RowKind::Clock => crate::load::load::<Clock>(row, reader),
        RowKind::Counter => crate::load::load::<Counter>(row, reader),
        RowKind::Set => crate::load::load::<Set>(row, reader),
    }
}
