// The size and the words of a row.
ghost use Rattle.std.specs.Prelude.{◌≡◌, ◌≤◌, length};
ghost use Rattle.words.specs.Words.{kind_number};
ghost use Rattle.words.specs.Refusals.{numbered};
ghost use Rattle.words.specs.Writes.{write_answer, write_leaves};
ghost use Rattle.entries.specs.Rows.{row_of};
ghost use Rattle.entries.specs.Entries.{row_written};

use crate::kind::EntryKind;
use words::refusal::Refusal;
use words::word::{Word, WordKind};

// The number of words that a row is written as.
pub fn size<K: EntryKind>(row: &[u32; 16]) -> usize
    ensures value { result ≡ length (row_written (kind_number K.WORD) (row_of K.TOP row.now)) }
    ensures bound { result ≤ 17 }
{
    // Summed, not counted: a filter branches at each number, and takes several times as long.
    let entries: usize = row
        .iter()
        .map(|stored| usize::from(K::low(*stored) != 0))
        .sum();
    1 + entries
}

// Writes a row at a place, and answers the place after it.
pub fn write<K: EntryKind>(
    row: &[u32; 16],
    words: &mut [u32],
    place: usize,
) -> Result<usize, Refusal>
    ensures answer { numbered result ≡ write_answer (length words.old) place (length (row_written (kind_number K.WORD) (row_of K.TOP row.now))) }
    ensures words { words.new ≡ write_leaves words.old place (row_written (kind_number K.WORD) (row_of K.TOP row.now)) }
{
    let all = size::<K>(row);
    if words.len().saturating_sub(place) < all {
        return Err(Refusal::Room);
    }
    // The place and the entries are counted: only what is not 0 is written.
    let mut next = place;
    let mut seen: u32 = 0;
    for (i, stored) in row.iter().enumerate() {
        let number = K::low(*stored);
        if number != 0 {
            words[next] = Word::new(K::WORD, i as u32 * 0x100_0000 + number).0;
            next += 1;
            seen += 1;
        }
    }
    words[next] = Word::new(WordKind::End, seen).0;
    Ok(next + 1)
}
