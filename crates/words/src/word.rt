// A word: its kind in bits 28 to 31, and by its kind the fields below and the bits that must be zero.
ghost use Rattle.std.specs.Prelude.{◌≡◌, ◌+◌, ◌*◌, ◌/◌, ◌%◌, ◌^◌, ◌<◌, ◌==◌};
ghost use Rattle.words.specs.Words.{kind_number, kind, index, formed, word_of};

// The most words of a message, and so of a record.
pub const LONGEST: usize = 127;

// How many stations there are; each has a number below it.
pub const STATIONS: usize = 16;

// The kinds of words. Kinds 0 and 10 to 14 are not in use.
#[derive(Clone, Copy, PartialEq, Eq, Debug)]
pub enum WordKind {
    FullHead = 1,
    DeltaHead = 2,
    From = 3,
    To = 4,
    ClockEntry = 5,
    CounterEntry = 6,
    SetEntry = 7,
    Register = 8,
    End = 9,
    PageHead = 15,
}

impl WordKind {
    // Its number, below 16. A method, as of a refusal; `u32::from` would be no plainer.
    pub fn number(self) -> u32
        ensures value { result ≡ kind_number self }
        ensures bound { result < 16 }
    {
        self as u32
    }
}

// The bits that must be zero, by a word's kind. A table: kinds that are not in use have an entry too.
const ZERO_BITS: [u32; 16] = [
    0,
    0x00FF_FF00,
    0x00FF_FF00,
    0x0FFF_0000,
    0x0FFF_0000,
    0x00FF_0000,
    0,
    0x00FF_0000,
    0,
    0x0FFF_FFE0,
    0,
    0,
    0,
    0,
    0,
    0x0FFF_FF00,
];

#[derive(Clone, Copy, PartialEq, Eq, Debug)]
pub struct Word(pub u32);

impl Word {
    // The word of a kind with the low 28 bits of `fields`.
    pub fn new(kind: WordKind, fields: u32) -> Word
        ensures { result.0 ≡ word_of (kind_number kind) fields }
    {
        Word(kind.number() * 0x1000_0000 + fields % 0x1000_0000)
    }

    // Whether it is of a kind.
    pub fn is(self, sort: WordKind) -> bool
        ensures { result ≡ (kind self.0 == kind_number sort) }
    {
        self.0 / 0x1000_0000 == sort.number()
    }

    // Whether the bits that must be zero by its kind are zero.
    pub fn is_well_formed(self) -> bool
        ensures { result ≡ formed self.0 }
    {
        self.0 & ZERO_BITS[(self.0 / 0x1000_0000) as usize] == 0
    }

    // Bits 24 to 27: the number of a station or of an entry.
    pub fn index(self) -> u32
        ensures value { result ≡ index self.0 }
        ensures bound { result < 16 }
    {
        self.0 / 0x100_0000 % 16
    }

    // Bits 0 to 7: the length that a head gives.
    pub fn length(self) -> usize
        ensures value { result ≡ self.0 % 256 }
        ensures bound { result < 256 }
    {
        (self.0 % 256) as usize
    }
}
