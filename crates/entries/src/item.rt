// One word of a row.
ghost use Rattle.std.specs.Prelude.{◌≡◌};
ghost use Rattle.words.specs.Words.{kind_number};
ghost use Rattle.words.specs.Readings.{told, found_at};
ghost use Rattle.entries.specs.Entries.{examined};

use crate::kind::EntryKind;
use words::fault::Fault;
use words::reader::Reader;
use words::refusal::Refusal;
use words::word::{Word, WordKind};

// The number of the entry and the number that it holds, or None at the end, after `seen` entries that are all below number `low`.
pub(crate) fn examine<K: EntryKind>(
    reader: &Reader,
    word: Word,
    low: u32,
    seen: u32,
) -> Result<Option<(u32, u32)>, Fault>
    ensures { told result ≡ found_at reader.now (examined (kind_number K.WORD) K.TOP low seen word.0) }
{
    // The fault is made in one place: made in three, no load of a row is compiled into its caller, and a card record loads slower.
    let refusal = if word.is(WordKind::End) {
        if word.is_well_formed() && word.0 % 32 == seen {
            return Ok(None);
        }
        Refusal::Form
    } else if word.is(K::WORD) {
        let number = K::low(word.0);
        if word.is_well_formed() && word.index() >= low && number != 0 {
            return Ok(Some((word.index(), number)));
        }
        Refusal::Form
    } else {
        Refusal::Kind
    };
    Err(reader.fault(refusal))
}
