// A mailbox over lent words: each message lies behind its page head, one after another from the first word on.
// What is used is held beside the words, so that a put, a count and a query whether a message fits walk over nothing.
#![tactic(auto)]

ghost use Rattle.std.specs.Prelude.{◌≡◌, ◌≤◌, true, length, take};
ghost use Rattle.layouts.specs.Rows.{sound};

pub mod calls;
pub mod open;

// The used words are as many messages as are held, each behind its page head, and nothing else.
#[derive(Drop)]
pub struct WordMailbox<'a> {
    words: &'a mut [u32],
    used: usize,
    held: usize,
    ghost room: { used ≤ length words.now },
    ghost small: { used ≤ 4096 },
    ghost messages: { sound held (take used words.now) ≡ true },
}
