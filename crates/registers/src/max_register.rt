// One value under the larger of two.
ghost use Rattle.std.specs.Prelude.{◌≡◌};
ghost use Rattle.registers.specs.Values.{Level, level_of, higher, level_reported, level_written, level_reading};
ghost use Rattle.registers.specs.LevelLaws.{higher_assoc, higher_comm, higher_idem, higher_neutral, level_reads, level_exact};

use crdt::kind::Crdt;
use words::fault::Fault;
use words::reader::Reader;
use words::refusal::Refusal;
use words::word::{STATIONS, Word, WordKind};

// One more than the largest value.
const LIMIT: u32 = 0x1000_0000;

// A stored value stands for its low 28 bits.
#[derive(Clone, Copy)]
pub struct MaxRegister {
    pub stored: u32,
}

// A report of a value.
#[derive(Clone, Copy, PartialEq, Eq, Debug)]
pub struct Revision(pub u32);

impl MaxRegister {
    // The value that it stands for.
    pub fn value(&self) -> u32
        ensures { result ≡ (level_of self.now.stored).level }
    {
        self.stored % LIMIT
    }
}

impl Crdt for MaxRegister {
    type Report = Revision;

    ghost Value = { Level };

    ghost value = { λ m. level_of m.stored };

    ghost least = { level_of 0 };

    ghost joined = { higher };

    ghost reported = { level_reported };

    ghost written = { level_written };

    ghost reading = { level_reading };

    ghost assoc = { higher_assoc };

    ghost comm = { higher_comm };

    ghost idem = { higher_idem };

    ghost neutral = { higher_neutral };

    ghost reads = { level_reads };

    ghost exact = { level_exact };

    fn bottom() -> MaxRegister {
        MaxRegister { stored: 0 }
    }

    fn join(&mut self, other: &MaxRegister) {
        let theirs = other.value();
        if self.value() < theirs {
            self.stored = theirs;
        }
    }

    fn delta(
        &self,
        station: usize,
        report: Revision,
        into: &mut MaxRegister,
    ) -> Result<(), Refusal> {
        into.stored = 0;
        if station >= STATIONS {
            return Err(Refusal::Station);
        }
        if report.0 >= LIMIT {
            return Err(Refusal::Range);
        }
        into.stored = report.0;
        Ok(())
    }

    fn size(&self) -> usize {
        1 // word, whatever the value
    }

    fn write(&self, words: &mut [u32], place: usize) -> Result<usize, Refusal> {
        if place >= words.len() {
            return Err(Refusal::Room);
        }
        words[place] = Word::new(WordKind::Register, self.stored).0;
        Ok(place + 1)
    }

    fn load(&mut self, reader: &mut Reader) -> Result<usize, Fault> {
        self.stored = 0;
        let word = reader.expect(WordKind::Register)?;
        self.stored = word.0;
        reader.step();
        Ok(reader.place)
    }
}
