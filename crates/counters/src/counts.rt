// Sixteen counts, one a station, joined by the larger count. A stored count stands for its low part.
ghost use Rattle.std.specs.Prelude.{◌≡◌, ℕ, sum, slice_index};
ghost use Rattle.std.specs.Ordering.{on};
ghost use Rattle.words.specs.Words.{kind_number};
ghost use Rattle.entries.specs.Rows.{Row, row_of, empty};
ghost use Rattle.entries.specs.Entries.{row_written, row_reading};
ghost use Rattle.entries.proofs.Scans.{row_reads, row_exact};
ghost use Rattle.counters.specs.Counts.{larger, count_reported};
ghost use Rattle.counters.specs.Laws.{larger_assoc, larger_comm, larger_idem, larger_neutral};
ghost use Rattle.counters.specs.Orders.{nowhere_higher, same, compared, Compared};
ghost use Rattle.counters.specs.OrderLaws.{same_laws, compared_laws};

use crdt::kind::Crdt;
use entries::kind::EntryKind;
use entries::{load, write};
use std::cmp::Ordering;
use std::marker::PhantomData;
use words::fault::Fault;
use words::reader::Reader;
use words::refusal::Refusal;
use words::word::STATIONS;

// The largest amount of a report.
const MOST: u32 = 65_535;

pub trait CountKind: EntryKind + Copy {
    // What a station reports, and the amount that it adds.
    type Report: Copy;

    ghost amount: { Self.Report → ℕ };

    fn amount(report: Self::Report) -> u32
        ensures { result ≡ amount report };
}

#[derive(Clone, Copy)]
pub struct Counts<K> {
    pub counts: [u32; 16],
    pub of: PhantomData<K>,
}

impl<K> From<[u32; 16]> for Counts<K> {
    ghost from_gives = { λ xs c. c.counts ≡ xs };

    fn from(counts: [u32; 16]) -> Counts<K> {
        Counts {
            counts,
            of: PhantomData,
        }
    }
}

impl<K: CountKind> Counts<K> {
    // The count of a station; 0 for a number that no station has.
    pub fn count(&self, station: usize) -> u32
        ensures { result ≡ slice_index (row_of K.TOP self.now.counts).numbers station }
    {
        self.counts.get(station).map_or(0, |stored| K::low(*stored))
    }

    // The sum of the counts.
    pub fn total(&self) -> u32
        ensures { result ≡ sum (row_of K.TOP self.now.counts).numbers }
    {
        self.counts.iter().map(|stored| K::low(*stored)).sum()
    }

    // Whether no count is higher than the other's.
    fn nowhere_higher(&self, other: &Counts<K>) -> bool
        ensures { result ≡ nowhere_higher (row_of K.TOP self.now.counts) (row_of K.TOP other.now.counts) }
    {
        self.counts
            .iter()
            .zip(&other.counts)
            .all(|(mine, theirs)| K::low(*mine) <= K::low(*theirs))
    }
}

impl<K: CountKind> PartialEq for Counts<K> {
    ghost eq = { on (λ c. row_of K.TOP c.counts) same };

    ghost laws = { same_laws (λ c. row_of K.TOP c.counts) };

    fn eq(&self, other: &Counts<K>) -> bool {
        self.nowhere_higher(other) && other.nowhere_higher(self)
    }
}

impl<K: CountKind> PartialOrd for Counts<K> {
    ghost partial_cmp = { on (λ c. row_of K.TOP c.counts) compared };

    ghost laws = { compared_laws (λ c. row_of K.TOP c.counts) };

    // None where each is higher somewhere.
    fn partial_cmp(&self, other: &Counts<K>) -> Option<Ordering>
        ensures value { result ≡ compared (row_of K.TOP self.now.counts) (row_of K.TOP other.now.counts) }
        ensures cases { Compared (row_of K.TOP self.now.counts) (row_of K.TOP other.now.counts) result }
    {
        match (self.nowhere_higher(other), other.nowhere_higher(self)) {
            (true, true) => Some(Ordering::Equal),
            (true, false) => Some(Ordering::Less),
            (false, true) => Some(Ordering::Greater),
            (false, false) => None,
        }
    }
}

impl<K: CountKind> Crdt for Counts<K> {
    type Report = K::Report;

    ghost Value = { Row K.TOP };

    ghost value = { λ c. row_of K.TOP c.counts };

    ghost least = { empty K.TOP };

    ghost joined = { larger };

    ghost reported = { λ v s r. count_reported v s (K.amount r) };

    ghost written = { row_written (kind_number K.WORD) };

    ghost reading = { row_reading (kind_number K.WORD) K.TOP };

    ghost assoc = { larger_assoc };

    ghost comm = { larger_comm };

    ghost idem = { larger_idem };

    ghost neutral = { larger_neutral };

    ghost reads = { row_reads (kind_number K.WORD) K.TOP K.fits };

    ghost exact = { row_exact (kind_number K.WORD) K.TOP K.fits };

    fn bottom() -> Counts<K> {
        Counts::from([0; 16])
    }

    fn join(&mut self, other: &Counts<K>) {
        // By index: of what a loop over `iter_mut().zip(..)` has written nothing is known after it.
        for (i, theirs) in other.counts.iter().enumerate() {
            let mine = K::low(self.counts[i]);
            let count = K::low(*theirs);
            if mine < count {
                self.counts[i] = count;
            }
        }
    }

    // The count with the amount added, and no other. None on a refusal.
    fn delta(
        &self,
        station: usize,
        report: K::Report,
        into: &mut Counts<K>,
    ) -> Result<(), Refusal> {
        into.counts = [0; 16];
        if station >= STATIONS {
            return Err(Refusal::Station);
        }
        let amount = K::amount(report);
        if amount == 0 || amount > MOST {
            return Err(Refusal::Range);
        }
        let count = K::low(self.counts[station]) + amount;
        if count > K::TOP {
            return Err(Refusal::Limit);
        }
        into.counts[station] = count;
        Ok(())
    }

    fn size(&self) -> usize {
        write::size::<K>(&self.counts)
    }

    fn write(&self, words: &mut [u32], place: usize) -> Result<usize, Refusal> {
        write::write::<K>(&self.counts, words, place)
    }

    fn load(&mut self, reader: &mut Reader) -> Result<usize, Fault> {
        load::load::<K>(&mut self.counts, reader)
    }
}
