// The head of a message: its kind, its sender and the number of its words.
ghost use Rattle.std.specs.Prelude.{◌≡◌};
ghost use Rattle.words.specs.Readings.{left, found_at, word_read};
ghost use Rattle.words.specs.Words.{kind_number};
ghost use Rattle.wire.specs.Openings.{head_found};
ghost use Rattle.wire.specs.Packs.{head_made};
ghost use Rattle.wire.specs.Answers.{word_told};

use words::fault::Fault;
use words::reader::Reader;
use words::refusal::Refusal;
use words::word::{LONGEST, STATIONS, Word, WordKind};

// The fewest words of a message.
const FEWEST: usize = 2;

// The head of a message of so many words, where that many are given; or why there is none.
pub fn make(kind: WordKind, sender: usize, size: usize, room: usize) -> Result<Word, Refusal>
    ensures { word_told result ≡ head_made (kind_number kind) sender size room }
{
    if sender >= STATIONS {
        return Err(Refusal::Station);
    }
    if size > LONGEST {
        return Err(Refusal::Long);
    }
    if size > room {
        return Err(Refusal::Room);
    }
    Ok(Word::new(kind, sender as u32 * 0x100_0000 + size as u32))
}

// The head at the place of a reader, which counts the words from there on.
pub fn check(reader: &Reader) -> Result<Word, Fault>
    ensures { word_read result ≡ found_at reader.now (head_found (left reader.now)) }
{
    let word = reader.look().ok_or(reader.fault(Refusal::Ended))?;
    if !word.is(WordKind::FullHead) && !word.is(WordKind::DeltaHead) {
        return Err(reader.fault(Refusal::Kind));
    }
    if !word.is_well_formed() {
        return Err(reader.fault(Refusal::Form));
    }
    let size = word.length();
    let given = reader.words.len() - reader.place;
    if size != given || !(FEWEST..=LONGEST).contains(&size) {
        return Err(reader.fault(Refusal::Length));
    }
    Ok(word)
}
