// Whether a message can be sent.
ghost use Rattle.std.specs.Prelude.{◌≡◌};
ghost use Rattle.words.specs.Refusals.{numbered};
ghost use Rattle.sends.specs.Sends.{admitted};

use mailboxes::mailbox::Mailbox;
use words::refusal::Refusal;
use words::word::LONGEST;

// Refuses a message of so many words that is too long, or that the mailbox does not take now.
pub(crate) fn admit<M: Mailbox>(mailbox: &M, size: usize) -> Result<(), Refusal>
    ensures { numbered result ≡ admitted (M.Mailbox.takes mailbox.now) size }
{
    if size > LONGEST {
        return Err(Refusal::Long);
    }
    if !mailbox.fits(size) {
        return Err(Refusal::Full);
    }
    Ok(())
}
