// A mailbox: messages of 1 to 127 words that wait in a row.
ghost use Rattle.std.specs.Prelude.{◌≡◌, ℕ, Bool, List, length};
ghost use Rattle.words.specs.Refusals.{numbered};
ghost use Rattle.mailboxes.specs.Mailboxes.{Lawful, sized, counted, put_answer, put_leaves, read_answer, read_leaves, discard_answer, discard_leaves, Kept};

use words::refusal::Refusal;
use words::word::LONGEST;

// Whether a message may have so many words.
pub fn is_sized(n: usize) -> bool
    ensures { result ≡ sized n }
{
    1 <= n && n <= LONGEST
}

pub trait Mailbox {
    // The messages, in the order in which they wait.
    ghost waiting: { Self → List (List ℕ) };

    // Whether a message of so many words is taken now. It is the mailbox's own choice, and free after a put or a discard that is done.
    ghost takes: { Self → ℕ → Bool };

    // How many wait, or 65,535 where there are more.
    fn count(&self) -> u16
        ensures { result ≡ counted (waiting self.now) };

    // Whether a message of n words would be taken now.
    fn fits(&self, n: usize) -> bool
        ensures { result ≡ takes self.now n };

    // Appends a message.
    fn put(&mut self, message: &[u32]) -> Result<(), Refusal>
        ensures answer { numbered result ≡ put_answer (takes self.old (length message.now)) (length message.now) }
        ensures after { waiting self.new ≡ put_leaves (takes self.old (length message.now)) (waiting self.old) message.now }
        ensures refused { Kept result self.old self.new };

    // Copies message k to the front of the given words, and answers its length: the words are the caller's, so it stands beside them.
    fn read(&self, k: usize, words: &mut [u32]) -> Result<usize, Refusal>
        ensures answer { numbered result ≡ read_answer (waiting self.now) k (length words.old) }
        ensures words { words.new ≡ read_leaves (waiting self.now) k words.old };

    // Removes message k. The others stay in their order.
    fn discard(&mut self, k: usize) -> Result<(), Refusal>
        ensures answer { numbered result ≡ discard_answer (waiting self.old) k }
        ensures after { waiting self.new ≡ discard_leaves (waiting self.old) k }
        ensures refused { Kept result self.old self.new };

    // Every message has 1 to 127 words, and none of another length is taken.
    ghost lawful: { Lawful waiting takes };
}
