// Reading a row.
ghost use Rattle.std.specs.Prelude.{◌≡◌};
ghost use Rattle.words.specs.Words.{kind_number};
ghost use Rattle.words.specs.Readings.{left, before, rest, read_or, told, load_answer};
ghost use Rattle.entries.specs.Rows.{row_of, empty};
ghost use Rattle.entries.specs.Entries.{row_reading, read_is};

use crate::item::examine;
use crate::kind::EntryKind;
use words::fault::Fault;
use words::reader::Reader;
use words::refusal::Refusal;

// Reads a row, and leaves the entries before the wrong word where it refuses.
fn fill<K: EntryKind>(row: &mut [u32; 16], reader: &mut Reader) -> Result<usize, Fault>
    ensures answer { told result ≡ load_answer reader.old (row_reading (kind_number K.WORD) K.TOP (left reader.old)) }
    ensures row { read_is (row_reading (kind_number K.WORD) K.TOP (left reader.old)) (row_of K.TOP row.new) }
    ensures reader { reader.new ≡ before reader.old (rest (row_reading (kind_number K.WORD) K.TOP (left reader.old))) }
{
    *row = [0; 16];
    let mut low: u32 = 0;
    let mut seen: u32 = 0;
    loop {
        // A `let .. else`, as plain as `ok_or_else` with a closure that makes the fault.
        let Some(word) = reader.look() else {
            return Err(reader.fault(Refusal::Ended));
        };
        let item = examine::<K>(reader, word, low, seen)?;
        reader.step();
        let Some((index, number)) = item else {
            return Ok(reader.place);
        };
        row[index as usize] = number;
        low = index + 1;
        seen += 1;
    }
}

// Loads a row from where the reader stands, and answers the place after it. It is empty on a refusal.
pub fn load<K: EntryKind>(row: &mut [u32; 16], reader: &mut Reader) -> Result<usize, Fault>
    ensures answer { told result ≡ load_answer reader.old (row_reading (kind_number K.WORD) K.TOP (left reader.old)) }
    ensures row { row_of K.TOP row.new ≡ read_or (empty K.TOP) (row_reading (kind_number K.WORD) K.TOP (left reader.old)) }
    ensures reader { reader.new ≡ before reader.old (rest (row_reading (kind_number K.WORD) K.TOP (left reader.old))) }
{
    // Not by `inspect_err`: it does not say that what its closure captures stays where nothing is refused.
    let answer = fill::<K>(row, reader);
    if answer.is_err() {
        *row = [0; 16];
    }
    answer
}
