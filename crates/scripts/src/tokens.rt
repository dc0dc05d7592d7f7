// The words of a line. A comment, from `#` on, has none.
ghost use Rattle.std.specs.Prelude.{◌≡◌, ℕ, ◌<◌, ◌≤◌, true, false, length, slice_index, IfOk, ⊤};
ghost use Rattle.std.specs.Iterator.{YieldsFirstRef, item_count};
ghost use Rattle.scripts.specs.Parts.{keyword_or, number_or};
ghost use Rattle.scripts.specs.Readings.{Reads};
ghost use Rattle.scripts.specs.Tokens.{blank, letter, left};

use crate::expected::Expected;
use crate::keywords::Keyword;
use crate::numbers::decimal;

fn is_blank(byte: u8) -> bool
    ensures { result ≡ blank byte }
{
    matches!(byte, b' ' | b'\t' | b'\r')
}

// How many blanks stand at the front.
fn blanks(line: &[u8]) -> usize
    ensures bound { result ≤ length line.now }
    ensures front { (k : ℕ) → k < result → blank (slice_index line.now k) ≡ true }
    ensures ends { result < length line.now → blank (slice_index line.now result) ≡ false }
{
    line.iter()
        .position(|byte| !is_blank(*byte))
        .unwrap_or(line.len())
}

// How many bytes of one word stand at the front.
fn letters(line: &[u8]) -> usize
    ensures bound { result ≤ length line.now }
    ensures front { (k : ℕ) → k < result → letter (slice_index line.now k) ≡ true }
    ensures ends { result < length line.now → letter (slice_index line.now result) ≡ false }
{
    line.iter()
        .position(|byte| is_blank(*byte) || *byte == b'#')
        .unwrap_or(line.len())
}

// What is left of a line.
#[derive(Drop)]
pub struct Tokens<'a> {
    pub line: &'a [u8],
}

// Each call goes past the next word, and answers it.
impl<'a> Iterator for Tokens<'a> {
    type Item = &'a [u8];

    ghost can_next = { λ _. ⊤ };

    ghost next_gives = { YieldsFirstRef left };

    ghost remaining = { item_count left };

    fn next(&mut self) -> Option<&'a [u8]> {
        let start = blanks(self.line);
        let line = &self.line[start..];
        let len = letters(line);
        self.line = &line[len..];
        (len > 0).then_some(&line[0..len])
    }
}

impl<'a> Tokens<'a> {
    // The meaning of the next word, or what should have stood there.
    pub(crate) fn keyword<K: Keyword>(&mut self, expected: Expected) -> Result<K, Expected>
        ensures { Reads (keyword_or K.names expected) (left self.old) result (left self.new) }
    {
        self.next()
            .and_then(|token| K::named(token))
            .ok_or(expected)
    }

    // The number that the next word is, of at most `top`, or what should have stood there.
    pub(crate) fn number(&mut self, top: usize, expected: Expected) -> Result<usize, Expected>
        ensures value { Reads (number_or top expected) (left self.old) result (left self.new) }
        ensures bound { IfOk result (λ n. n ≤ top) }
    {
        self.next()
            .and_then(|token| decimal(token, top))
            .ok_or(expected)
    }
}
