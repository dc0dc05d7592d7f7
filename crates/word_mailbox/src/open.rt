// The check and the opening of words.
ghost use Rattle.std.specs.Prelude.{◌≡◌, [], length};
ghost use Rattle.words.specs.Readings.{told};
ghost use Rattle.word_mailbox.specs.Stores.{memory_of, waiting_of, check_answer};

use crate::WordMailbox;
use words::fault::{Fault, Layer};
use words::refusal::Refusal;

// The most words that a mailbox is made of.
pub(crate) const MOST: usize = 4096;

impl<'a> WordMailbox<'a> {
    // Whether a mailbox can be made of so many words.
    pub fn check(words: &[u32]) -> Result<(), Fault>
        ensures { told result ≡ check_answer (length words.now) }
    {
        if words.len() > MOST {
            return Err(Fault::plain(Refusal::Memory, Layer::Mailbox));
        }
        Ok(())
    }

    // An empty mailbox. Of words that the check turns away, it is one that takes nothing.
    pub fn open(words: &'a mut [u32]) -> WordMailbox<'a>
        ensures waiting { waiting_of result ≡ [] }
        ensures memory { memory_of result ≡ words.old }
        ensures lender { result.words.ghost_name ≡ words.entry.ghost_name }
    {
        WordMailbox {
            words,
            used: 0,
            held: 0,
        }
    }
}
