// A pair of any two kinds, side by side.
ghost use Rattle.crdt.specs.Pairs.{each, side_reported, side_written, then_right};
ghost use Rattle.crdt.specs.Sides.{pair_assoc, pair_comm, pair_idem, pair_neutral, pair_reads, pair_exact};

use crate::kind::Crdt;
use either::{Either, Left, Right};
use words::fault::Fault;
use words::reader::Reader;
use words::refusal::Refusal;
use words::word::LONGEST;

#[derive(Clone, Copy)]
pub struct Pair<L, R> {
    pub left: L,
    pub right: R,
}

impl<L: Crdt, R: Crdt> Crdt for Pair<L, R> {
    // A report for the left or for the right of a pair.
    type Report = Either<L::Report, R::Report>;

    ghost Value = { L.Crdt.Value × R.Crdt.Value };

    ghost value = { λ p. (L.Crdt.value p.left, R.Crdt.value p.right) };

    ghost least = { (L.Crdt.least, R.Crdt.least) };

    ghost joined = { each L.Crdt.joined R.Crdt.joined };

    ghost reported = { side_reported L.Crdt.least R.Crdt.least L.Crdt.reported R.Crdt.reported };

    ghost written = { side_written L.Crdt.written R.Crdt.written };

    ghost reading = { λ ws. then_right R.Crdt.reading (L.Crdt.reading ws) };

    ghost assoc = { pair_assoc L.Crdt.joined R.Crdt.joined L.Crdt.assoc R.Crdt.assoc };

    ghost comm = { pair_comm L.Crdt.joined R.Crdt.joined L.Crdt.comm R.Crdt.comm };

    ghost idem = { pair_idem L.Crdt.joined R.Crdt.joined L.Crdt.idem R.Crdt.idem };

    ghost neutral = { pair_neutral L.Crdt.joined R.Crdt.joined L.Crdt.neutral R.Crdt.neutral };

    ghost reads = { pair_reads L.Crdt.written R.Crdt.written L.Crdt.reading R.Crdt.reading L.Crdt.reads R.Crdt.reads };

    ghost exact = { pair_exact L.Crdt.written R.Crdt.written L.Crdt.reading R.Crdt.reading L.Crdt.exact R.Crdt.exact };

    fn bottom() -> Pair<L, R> {
        Pair {
            left: L::bottom(),
            right: R::bottom(),
        }
    }

    fn join(&mut self, other: &Pair<L, R>) {
        self.left.join(&other.left);
        self.right.join(&other.right);
    }

    fn delta(
        &self,
        station: usize,
        report: Either<L::Report, R::Report>,
        into: &mut Pair<L, R>,
    ) -> Result<(), Refusal> {
        match report {
            Left(inner) => {
                into.right = R::bottom();
                self.left.delta(station, inner, &mut into.left)
            }
            Right(inner) => {
                into.left = L::bottom();
                self.right.delta(station, inner, &mut into.right)
            }
        }
    }

    fn size(&self) -> usize {
        (self.left.size() + self.right.size()).min(LONGEST + 1)
    }

    // Looks at the size of both sides first, so that a refusal has changed no word.
    fn write(&self, words: &mut [u32], place: usize) -> Result<usize, Refusal> {
        let all = self.left.size() + self.right.size();
        if all > LONGEST {
            return Err(Refusal::Long);
        }
        if words.len().saturating_sub(place) < all {
            return Err(Refusal::Room);
        }
        let next = self.left.write(words, place)?;
        self.right.write(words, next)
    }

    fn load(&mut self, reader: &mut Reader) -> Result<usize, Fault> {
        // No `?`: the right side would have to be set to bottom before it, in a load that is accepted too.
        if let Err(fault) = self.left.load(reader) {
            self.right = R::bottom();
            return Err(fault);
        }
        let answer = self.right.load(reader);
        // `inspect_err` does not say that what its closure captures stays as it is where nothing is refused.
        if answer.is_err() {
            self.left = L::bottom();
        }
        answer
    }
}
