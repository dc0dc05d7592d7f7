// A mailbox of any two: the first's messages, then the second's. While messages wait in the second, the first takes none, so that they
// stay in the order in which they were put.
ghost use Rattle.std.specs.Prelude.{◌≡◌, ◌<◌, ◌≤◌, true, false, length};
ghost use Rattle.words.specs.Refusals.{numbered};
ghost use Rattle.mailboxes.specs.Mailboxes.{Message, counted, put_answer, put_leaves, discard_answer, discard_leaves, Kept};
ghost use Rattle.mailboxes.specs.Overflows.{spills_sizes, all_append};
ghost use Rattle.mailboxes.specs.Parts.{waiting_of, takes_of, goes_first, goes_second};

use crate::mailbox::Mailbox;
use words::refusal::Refusal;
use words::word::LONGEST;

#[derive(Drop)]
pub struct Overflow<A, B> {
    first: A,
    second: B,
}

impl<A: Mailbox, B: Mailbox> Overflow<A, B> {
    pub fn new(first: A, second: B) -> Self
        ensures first { result.first ≡ first }
        ensures second { result.second ≡ second }
    {
        Overflow { first, second }
    }

    pub fn first(&self) -> &A
        ensures { result.now ≡ self.now.first }
    {
        &self.first
    }

    pub fn second(&self) -> &B
        ensures { result.now ≡ self.now.second }
    {
        &self.second
    }
}

impl<A: Mailbox, B: Mailbox> Mailbox for Overflow<A, B> {
    ghost waiting = { λ o. waiting_of A.Mailbox B.Mailbox o };

    ghost takes = { λ o n. takes_of A.Mailbox B.Mailbox o n };

    fn count(&self) -> u16 {
        self.first.count().saturating_add(self.second.count())
    }

    fn fits(&self, n: usize) -> bool {
        (self.second.count() == 0 && self.first.fits(n)) || self.second.fits(n)
    }

    // The clauses beyond the interface say which part took the message, and that the other is as it was.
    fn put(&mut self, message: &[u32]) -> Result<(), Refusal>
        ensures answer { numbered result ≡ put_answer (takes_of A.Mailbox B.Mailbox self.old (length message.now)) (length message.now) }
        ensures after { waiting_of A.Mailbox B.Mailbox self.new ≡ put_leaves (takes_of A.Mailbox B.Mailbox self.old (length message.now)) (waiting_of A.Mailbox B.Mailbox self.old) message.now }
        ensures refused { Kept result self.old self.new }
        ensures first { A.Mailbox.waiting self.new.first ≡ put_leaves (goes_first A.Mailbox B.Mailbox self.old (length message.now)) (A.Mailbox.waiting self.old.first) message.now }
        ensures second { B.Mailbox.waiting self.new.second ≡ put_leaves (goes_second A.Mailbox B.Mailbox self.old (length message.now)) (B.Mailbox.waiting self.old.second) message.now }
        ensures others { (goes_first A.Mailbox B.Mailbox self.old (length message.now) ≡ true → self.new.second ≡ self.old.second) × (goes_first A.Mailbox B.Mailbox self.old (length message.now) ≡ false → self.new.first ≡ self.old.first) }
    {
        if self.second.count() == 0 && self.first.fits(message.len()) {
            self.first.put(message)
        } else {
            self.second.put(message)
        }
    }

    fn read(&self, k: usize, words: &mut [u32]) -> Result<usize, Refusal> {
        let here = usize::from(self.first.count());
        if k < here {
            self.first.read(k, words)
        } else if k < 65_535 {
            self.second.read(k - here, words)
        } else if words.len() < LONGEST {
            Err(Refusal::Room)
        } else {
            Err(Refusal::Absent)
        }
    }

    // The clause beyond the interface says that the part that does not hold the message is as it was.
    fn discard(&mut self, k: usize) -> Result<(), Refusal>
        ensures answer { numbered result ≡ discard_answer (waiting_of A.Mailbox B.Mailbox self.old) k }
        ensures after { waiting_of A.Mailbox B.Mailbox self.new ≡ discard_leaves (waiting_of A.Mailbox B.Mailbox self.old) k }
        ensures refused { Kept result self.old self.new }
        ensures others { (k < counted (A.Mailbox.waiting self.old.first) → self.new.second ≡ self.old.second) × (counted (A.Mailbox.waiting self.old.first) ≤ k → self.new.first ≡ self.old.first) }
    {
        let here = usize::from(self.first.count());
        if k < here {
            self.first.discard(k)
        } else if k < 65_535 {
            self.second.discard(k - here)
        } else {
            Err(Refusal::Absent)
        }
    }

    ghost lawful = { record {
      messages = λ o. all_append Message (A.Mailbox.waiting o.first) (B.Mailbox.waiting o.second) (A.Mailbox.lawful.messages o.first) (B.Mailbox.lawful.messages o.second);
      sizes = λ o n. spills_sizes (A.Mailbox.takes o.first n) (B.Mailbox.takes o.second n) (B.Mailbox.waiting o.second) n (A.Mailbox.lawful.sizes o.first n) (B.Mailbox.lawful.sizes o.second n);
    } };
}
