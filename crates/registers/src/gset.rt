// A set of members from 0 to 255 that only grows.
ghost use Rattle.std.specs.Prelude.{◌≡◌, is_ok};
ghost use Rattle.words.specs.Refusals.{numbered, bare, value_or};
ghost use Rattle.entries.specs.Entries.{row_written, row_reading};
ghost use Rattle.registers.specs.Members.{Members, members_of, has, none, union, count, set_reported, Unites, Only, Subsets};
ghost use Rattle.registers.specs.Sets.{union_assoc, union_comm, union_idem, union_none};
ghost use Rattle.entries.specs.Fits.{set_fits};
ghost use Rattle.entries.proofs.Scans.{row_reads, row_exact};

use crdt::kind::Crdt;
use entries::kind::{EntryKind, Set};
use entries::load::load;
use entries::write::{size, write};
use words::fault::Fault;
use words::reader::Reader;
use words::refusal::Refusal;
use words::word::STATIONS;

// Entry c has bit b where 16 * c + b is a member. A stored entry stands for its low 16 bits.
#[derive(Clone, Copy)]
pub struct GSet {
    pub bits: [u32; 16],
}

// A report of a member.
#[derive(Clone, Copy, PartialEq, Eq, Debug)]
pub struct Member(pub u32);

impl GSet {
    // Whether a number is a member. None above 255 is.
    pub fn contains(&self, member: u32) -> bool
        ensures value { result ≡ has (members_of self.now.bits) member }
        ensures subsets { Subsets }
    {
        if member > 255 {
            return false;
        }
        let entry = Set::low(self.bits[(member / 16) as usize]);
        (entry >> (member % 16)) % 2 == 1
    }

    // The number of members.
    pub fn len(&self) -> usize
        ensures { result ≡ count (members_of self.now.bits) }
    {
        self.bits
            .iter()
            .map(|stored| Set::low(*stored).count_ones() as usize)
            .sum()
    }
}

impl Crdt for GSet {
    type Report = Member;

    ghost Value = { Members };

    ghost value = { λ s. members_of s.bits };

    ghost least = { none };

    ghost joined = { union };

    ghost reported = { set_reported };

    ghost written = { row_written 7 };

    ghost reading = { row_reading 7 65535 };

    ghost assoc = { union_assoc };

    ghost comm = { union_comm };

    ghost idem = { union_idem };

    ghost neutral = { union_none };

    ghost reads = { row_reads 7 65535 set_fits };

    ghost exact = { row_exact 7 65535 set_fits };

    fn bottom() -> GSet {
        GSet { bits: [0; 16] }
    }

    fn join(&mut self, other: &GSet)
        ensures value { members_of self.new.bits ≡ union (members_of self.old.bits) (members_of other.now.bits) }
        ensures members { Unites (members_of self.old.bits) (members_of other.now.bits) (members_of self.new.bits) }
    {
        // By index: of what a loop over `iter_mut().zip(..)` has written nothing is known after it.
        for (i, theirs) in other.bits.iter().enumerate() {
            self.bits[i] |= *theirs;
        }
    }

    fn delta(&self, station: usize, report: Member, into: &mut GSet) -> Result<(), Refusal>
        ensures answer { numbered result ≡ bare (set_reported (members_of self.now.bits) station report) }
        ensures into { members_of into.new.bits ≡ value_or none (set_reported (members_of self.now.bits) station report) }
        ensures members { Only (is_ok result) report.0 (members_of into.new.bits) }
    {
        into.bits = [0; 16];
        if station >= STATIONS {
            return Err(Refusal::Station);
        }
        if report.0 > 255 {
            return Err(Refusal::Range);
        }
        into.bits[(report.0 / 16) as usize] = 1 << (report.0 % 16);
        Ok(())
    }

    fn size(&self) -> usize {
        size::<Set>(&self.bits)
    }

    fn write(&self, words: &mut [u32], place: usize) -> Result<usize, Refusal> {
        write::<Set>(&self.bits, words, place)
    }

    fn load(&mut self, reader: &mut Reader) -> Result<usize, Fault> {
        load::<Set>(&mut self.bits, reader)
    }
}
