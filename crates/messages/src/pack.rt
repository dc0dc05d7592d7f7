// The words of a message, from its parts.
ghost use Rattle.std.specs.Prelude.{◌≡◌, length, take, IfOk, Ok};
ghost use Rattle.words.specs.Refusals.{numbered};
ghost use Rattle.counters.specs.Counts.{clock_of};
ghost use Rattle.wire.specs.Messages.{full, delta};
ghost use Rattle.wire.specs.Openings.{unpacked};
ghost use Rattle.wire.specs.Packs.{pack_answer, pack_leaves};

use counters::vector_clock::VectorClock;
use crdt::kind::Crdt;
use wire::head;
use wire::span::Span;
use words::refusal::Refusal;
use words::word::{Word, WordKind};

// Puts a full message at the front of the words, and answers its length.
pub fn pack_full<C: Crdt>(
    sender: usize,
    clock: &VectorClock,
    record: &C,
    words: &mut [u32],
) -> Result<usize, Refusal>
    ensures answer { numbered result ≡ pack_answer C.Crdt (full sender (clock_of clock.now.counts) (C.Crdt.value «record».now)) (length words.old) }
    ensures words { words.new ≡ pack_leaves C.Crdt (full sender (clock_of clock.now.counts) (C.Crdt.value «record».now)) words.old }
    ensures back { IfOk result (λ n. unpacked C.Crdt (take n words.new) ≡ Ok (full sender (clock_of clock.now.counts) (C.Crdt.value «record».now))) }
{
    let size = 1 + clock.size() + record.size();
    words[0] = head::make(WordKind::FullHead, sender, size, words.len())?.0;
    let next = clock.write(words, 1)?;
    record.write(words, next)
}

// Puts a delta message at the front of the words, and answers its length.
pub fn pack_delta<C: Crdt>(
    sender: usize,
    span: Span,
    record: &C,
    words: &mut [u32],
) -> Result<usize, Refusal>
    ensures answer { numbered result ≡ pack_answer C.Crdt (delta sender span.from span.to (C.Crdt.value «record».now)) (length words.old) }
    ensures words { words.new ≡ pack_leaves C.Crdt (delta sender span.from span.to (C.Crdt.value «record».now)) words.old }
    ensures back { IfOk result (λ n. unpacked C.Crdt (take n words.new) ≡ Ok (delta sender span.from span.to (C.Crdt.value «record».now))) }
{
    let size = 3 + record.size();
    words[0] = head::make(WordKind::DeltaHead, sender, size, words.len())?.0;
    words[1] = Word::new(WordKind::From, span.from).0;
    words[2] = Word::new(WordKind::To, span.to).0;
    record.write(words, 3)
}
