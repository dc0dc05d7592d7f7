// A record kind: a set of values with a bottom and a join, records that stand for values, and the words of a value.
ghost use Rattle.std.specs.Prelude.{◌≡◌, ℕ, List, ◌++◌, length, Result};
ghost use Rattle.words.specs.Refusals.{numbered, bare, value_or};
ghost use Rattle.words.specs.Writes.{capped, write_answer, write_leaves};
ghost use Rattle.words.specs.Readings.{Reading, read, read_or, rest, left, before, told, load_answer};

use words::fault::Fault;
use words::reader::Reader;
use words::refusal::Refusal;

pub trait Crdt: Copy {
    // What a station reports to a record of this kind.
    type Report: Copy;

    // The set of values, the value that a stored record stands for, the bottom and the join.
    ghost Value: { Type 0 };

    ghost value: { Self → Value };

    ghost least: { Value };

    ghost joined: { Value → Value → Value };

    // The delta of a report at a station, or the number of its refusal.
    ghost reported: { Value → ℕ → Self.Report → Result Value ℕ };

    // The words of a value, and what is read from words.
    ghost written: { Value → List ℕ };

    ghost reading: { List ℕ → Reading Value };

    fn bottom() -> Self
        ensures { value result ≡ least };

    // Brings another record into this one.
    fn join(&mut self, other: &Self)
        ensures { value self.new ≡ joined (value self.old) (value other.now) };

    // Writes the delta of a report into a second record, bottom on a refusal. The record is the caller's memory, as in a load: what it holds
    // after a refusal is a rule too.
    fn delta(&self, station: usize, report: Self::Report, into: &mut Self) -> Result<(), Refusal>
        ensures answer { numbered result ≡ bare (reported (value self.now) station report) }
        ensures into { value into.new ≡ value_or least (reported (value self.now) station report) };

    // The number of words that it is written as, or 128 where there are more than 127.
    fn size(&self) -> usize
        ensures { result ≡ capped (length (written (value self.now))) };

    // Writes it at a place, and answers the place after it. Words and place stay two: they are the caller's, and go on without a writer.
    fn write(&self, words: &mut [u32], place: usize) -> Result<usize, Refusal>
        ensures answer { numbered result ≡ write_answer (length words.old) place (length (written (value self.now))) }
        ensures words { words.new ≡ write_leaves words.old place (written (value self.now)) };

    // Loads a value from where the reader stands, and answers the place after it. It is bottom on a refusal.
    fn load(&mut self, reader: &mut Reader) -> Result<usize, Fault>
        ensures answer { told result ≡ load_answer reader.old (reading (left reader.old)) }
        ensures after { value self.new ≡ read_or least (reading (left reader.old)) }
        ensures reader { reader.new ≡ before reader.old (rest (reading (left reader.old))) };

    ghost assoc: { (a b c : Value) → joined (joined a b) c ≡ joined a (joined b c) };

    ghost comm: { (a b : Value) → joined a b ≡ joined b a };

    ghost idem: { (a : Value) → joined a a ≡ a };

    ghost neutral: { (a : Value) → joined a least ≡ a };

    // What is written is read as the same value, whatever follows it.
    ghost reads: { (v : Value) (ws : List ℕ) → reading (written v ++ ws) ≡ read v ws };

    // What is read as a value is what is written of it.
    ghost exact: { (ws : List ℕ) (v : Value) (more : List ℕ) → reading ws ≡ read v more → ws ≡ written v ++ more };
}
