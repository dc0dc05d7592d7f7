// The calls of a mailbox over words.
ghost use Rattle.std.specs.Prelude.{◌≡◌, ◌+◌, ◌<◌, ◌≤◌, [], length, take, slice_index_or};
ghost use Rattle.words.specs.Refusals.{numbered};
ghost use Rattle.mailboxes.specs.Mailboxes.{put_answer, put_leaves, discard_answer, discard_leaves, Kept};
ghost use Rattle.layouts.specs.Rows.{laid, row_put, row_discard};
ghost use Rattle.word_mailbox.specs.Stores.{memory_of, waiting_of, takes_of, kept};

use crate::WordMailbox;
use crate::open::MOST;
use mailboxes::mailbox::{Mailbox, is_sized};
use std::ops::Range;
use words::refusal::Refusal;
use words::word::{LONGEST, Word, WordKind};

impl WordMailbox<'_> {
    // Where the page head of message k stands, or where the used words end.
    fn place(&self, k: usize) -> usize
        requires { k ≤ self.now.held }
        ensures { result ≡ length (laid (take k (waiting_of self.now))) }
    {
        // A loop: each place is where the message before it ends, and a fold's closure does not know that it is within the words.
        let mut place = 0;
        for _i in 0..k {
            place += Word(self.words[place]).length() + 1;
        }
        place
    }

    // Where message k lies, its page head first.
    fn find(&self, k: usize) -> Range<usize>
        requires { k < self.now.held }
        ensures start { result.start ≡ length (laid (take k (waiting_of self.now))) }
        ensures end { result.end ≡ length (laid (take (k + 1) (waiting_of self.now))) }
        ensures size { result.end ≡ result.start + 1 + length (slice_index_or (waiting_of self.now) k []) }
        ensures within { result.end ≤ self.now.used }
    {
        let start = self.place(k);
        start..start + 1 + Word(self.words[start]).length()
    }
}

impl<'a> Mailbox for WordMailbox<'a> {
    ghost waiting = { waiting_of };

    ghost takes = { takes_of };

    fn count(&self) -> u16 {
        self.held as u16 // proved to lose nothing; a `try_from` would add a failure that cannot be
    }

    fn fits(&self, n: usize) -> bool {
        let all = self.words.len();
        is_sized(n) && all <= MOST && self.used + n + 1 <= all
    }

    fn put(&mut self, message: &[u32]) -> Result<(), Refusal>
        ensures answer { numbered result ≡ put_answer (takes_of self.old (length message.now)) (length message.now) }
        ensures after { waiting_of self.new ≡ put_leaves (takes_of self.old (length message.now)) (waiting_of self.old) message.now }
        ensures refused { Kept result self.old self.new }
        ensures memory { memory_of self.new ≡ row_put (takes_of self.old (length message.now)) (waiting_of self.old) message.now (memory_of self.old) }
        ensures lender { self.new.words.ghost_name ≡ self.old.words.ghost_name }
    {
        // The refusals of every mailbox, in their order. Each store has them itself: they ask for what it holds and takes.
        let n = message.len();
        if !is_sized(n) {
            return Err(Refusal::Long);
        }
        if !self.fits(n) {
            return Err(Refusal::Full);
        }
        let used = self.used;
        let head = Word::new(WordKind::PageHead, n as u32);
        self.words[used] = head.0;
        let rest = &mut self.words[used + 1..used + 1 + n];
        rest.copy_from_slice(message);
        self.used += n + 1;
        self.held += 1;
        Ok(())
    }

    fn read(&self, k: usize, words: &mut [u32]) -> Result<usize, Refusal> {
        if words.len() < LONGEST {
            return Err(Refusal::Room);
        }
        if k >= self.held {
            return Err(Refusal::Absent);
        }
        let found = self.find(k);
        let message = &self.words[found.start + 1..found.end];
        words[..message.len()].copy_from_slice(message);
        Ok(message.len())
    }

    fn discard(&mut self, k: usize) -> Result<(), Refusal>
        ensures answer { numbered result ≡ discard_answer (waiting_of self.old) k }
        ensures after { waiting_of self.new ≡ discard_leaves (waiting_of self.old) k }
        ensures refused { Kept result self.old self.new }
        ensures memory { memory_of self.new ≡ row_discard (waiting_of self.old) k (memory_of self.old) }
        ensures lender { self.new.words.ghost_name ≡ self.old.words.ghost_name }
    {
        if k >= self.held {
            return Err(Refusal::Absent);
        }
        let found = self.find(k);
        self.words.copy_within(found.end..self.used, found.start);
        self.used -= found.end - found.start;
        self.held -= 1;
        Ok(())
    }

    ghost lawful = { kept };
}
