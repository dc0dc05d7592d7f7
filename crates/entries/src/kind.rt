// Which rows there are, each a type: the kind of its entries' words and the largest number that an entry holds.
ghost use Rattle.std.specs.Prelude.{◌≡◌, ℕ, ◌+◌, ◌%◌, ◌^◌, ◌<◌};
ghost use Rattle.words.specs.declared.word.WordKind.{WordKind};
ghost use Rattle.words.specs.declared.word.WordKind.TheVariants.{ClockEntry, CounterEntry, SetEntry};
ghost use Rattle.words.specs.Words.{kind_number};
ghost use Rattle.entries.specs.Fits.{Fits, clock_fits, counter_fits, set_fits};

use words::word::WordKind;

pub trait EntryKind {
    // The largest number of an entry.
    ghost TOP: { ℕ };

    const TOP: u32;

    // The kind of an entry's word.
    ghost WORD: { WordKind };

    const WORD: WordKind;

    // What the words of an entry need of the two.
    ghost fits: { Fits (kind_number WORD) TOP };

    // The number that a stored one stands for: its low part.
    final fn low(stored: u32) -> u32
        ensures value { result ≡ stored % (TOP + 1) }
        ensures bound { result < 2 ^ 24 }
    {
        stored % (Self::TOP + 1)
    }
}

#[derive(Clone, Copy, PartialEq, Eq, Debug)]
pub struct Clock;

#[derive(Clone, Copy, PartialEq, Eq, Debug)]
pub struct Counter;

#[derive(Clone, Copy, PartialEq, Eq, Debug)]
pub struct Set;

impl EntryKind for Clock {
    ghost TOP = { 65535 };

    const TOP: u32 = 65_535;

    ghost WORD = { ClockEntry };

    const WORD: WordKind = WordKind::ClockEntry;

    ghost fits = { clock_fits };
}

impl EntryKind for Counter {
    ghost TOP = { 16777215 };

    const TOP: u32 = 16_777_215;

    ghost WORD = { CounterEntry };

    const WORD: WordKind = WordKind::CounterEntry;

    ghost fits = { counter_fits };
}

impl EntryKind for Set {
    ghost TOP = { 65535 };

    const TOP: u32 = 65_535;

    ghost WORD = { SetEntry };

    const WORD: WordKind = WordKind::SetEntry;

    ghost fits = { set_fits };
}
