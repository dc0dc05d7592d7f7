// A walk over given words. What it finds wrong is named by its place and its layer.
ghost use Rattle.std.specs.Prelude.{◌≡◌, ◌+◌, [], ◌∷◌, MatchOption};
ghost use Rattle.words.specs.Readings.{left, stepped, told_fault, fault_at, found, found_at, word_read};
ghost use Rattle.words.specs.Refusals.{number_of};
ghost use Rattle.words.specs.Words.{kind_number};

use crate::fault::{Fault, Layer};
use crate::refusal::Refusal;
use crate::word::{Word, WordKind};

#[derive(Drop)]
pub struct Reader<'a> {
    pub words: &'a [u32],
    pub place: usize,
    pub layer: Layer,
}

impl Reader<'_> {
    // The word at the place, if one is left.
    pub fn look(&self) -> Option<Word>
        ensures { MatchOption result (left self.now ≡ []) (λ w. left self.now ≡ w.0 ∷ left (stepped self.now)) }
    {
        self.words.get(self.place).copied().map(Word)
    }

    // The word of a kind at the place.
    pub fn expect(&self, kind: WordKind) -> Result<Word, Fault>
        ensures { word_read result ≡ found_at self.now (found (kind_number kind) (left self.now)) }
    {
        let word = self.look().ok_or(self.fault(Refusal::Ended))?;
        if !word.is(kind) {
            return Err(self.fault(Refusal::Kind));
        }
        if !word.is_well_formed() {
            return Err(self.fault(Refusal::Form));
        }
        Ok(word)
    }

    // Goes past the word at the place, if one is left.
    pub fn step(&mut self)
        ensures { self.new ≡ stepped self.old }
    {
        if self.place < self.words.len() {
            self.place += 1;
        }
    }

    // A refusal of the word at the place.
    pub fn fault(&self, refusal: Refusal) -> Fault
        ensures { told_fault result ≡ fault_at self.now (number_of refusal) }
    {
        let place = if refusal == Refusal::Ended {
            0
        } else {
            self.place
        };
        Fault {
            refusal,
            place,
            layer: self.layer,
        }
    }
}
