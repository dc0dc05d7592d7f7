// The calls of a mailbox over pages.
ghost use Rattle.std.specs.Prelude.{◌≡◌, ◌+◌, ◌*◌, ◌<◌, ◌≤◌, length, take, drop};
ghost use Rattle.words.specs.Refusals.{numbered};
ghost use Rattle.words.specs.Writes.{put};
ghost use Rattle.mailboxes.specs.Mailboxes.{put_answer, put_leaves, discard_answer, discard_leaves, Kept};
ghost use Rattle.layouts.specs.Pages.{page_put, page_closed, page_discard};
ghost use Rattle.page_mailbox.specs.Stores.{memory_of, waiting_of, takes_of, kept};

use crate::PageMailbox;
use crate::bytes::{PAGE, close, pack, unpack};
use mailboxes::mailbox::{Mailbox, is_sized};
use words::refusal::Refusal;
use words::word::LONGEST;

impl<'a> Mailbox for PageMailbox<'a> {
    ghost waiting = { waiting_of };

    ghost takes = { takes_of };

    fn count(&self) -> u16 {
        self.held as u16 // proved to lose nothing; a `try_from` would add a failure that cannot be
    }

    fn fits(&self, n: usize) -> bool {
        is_sized(n) && self.held < self.pages
    }

    fn put(&mut self, message: &[u32]) -> Result<(), Refusal>
        ensures answer { numbered result ≡ put_answer (takes_of self.old (length message.now)) (length message.now) }
        ensures after { waiting_of self.new ≡ put_leaves (takes_of self.old (length message.now)) (waiting_of self.old) message.now }
        ensures refused { Kept result self.old self.new }
        ensures pages { self.new.pages ≡ self.old.pages }
        ensures memory { memory_of self.new ≡ page_put (takes_of self.old (length message.now)) (waiting_of self.old) message.now (memory_of self.old) }
        ensures lender { self.new.bytes.ghost_name ≡ self.old.bytes.ghost_name }
    {
        let n = message.len();
        if !is_sized(n) {
            return Err(Refusal::Long);
        }
        if !self.fits(n) {
            return Err(Refusal::Full);
        }
        let page = pack(message);
        let pages = self.pages;
        let held = self.held;
        // While a page is being written, no pages are in use.
        self.pages = 0;
        self.held = 0;
        let place = PAGE * held;
        self.bytes[place..place + PAGE].copy_from_slice(&page);
        self.pages = pages;
        self.held = held + 1;
        Ok(())
    }

    fn read(&self, k: usize, words: &mut [u32]) -> Result<usize, Refusal> {
        if words.len() < LONGEST {
            return Err(Refusal::Room);
        }
        if k >= self.held {
            return Err(Refusal::Absent);
        }
        let (pages, _) = self.bytes.as_chunks();
        Ok(unpack(&pages[k], words))
    }

    fn discard(&mut self, k: usize) -> Result<(), Refusal>
        ensures answer { numbered result ≡ discard_answer (waiting_of self.old) k }
        ensures after { waiting_of self.new ≡ discard_leaves (waiting_of self.old) k }
        ensures refused { Kept result self.old self.new }
        ensures pages { self.new.pages ≡ self.old.pages }
        ensures memory { memory_of self.new ≡ page_discard (waiting_of self.old) k (memory_of self.old) }
        ensures lender { self.new.bytes.ghost_name ≡ self.old.bytes.ghost_name }
    {
        if k >= self.held {
            return Err(Refusal::Absent);
        }
        let pages = self.pages;
        let held = self.held;
        // While pages are being moved, none are in use.
        self.pages = 0;
        self.held = 0;
        close(self.bytes, k, held);
        self.pages = pages;
        self.held = held - 1;
        Ok(())
    }

    ghost lawful = { kept };
}
