// The stores that a mailbox can be made of.
ghost use Rattle.std.specs.Prelude.{Some};
ghost use Rattle.scripts.specs.Shown.{store_shown, mailbox_shown};

use std::fmt;

#[derive(Clone, Copy, PartialEq, Eq, Debug)]
pub enum Store {
    // Over that many words.
    Words(usize),
    // Over that many bytes, wiped.
    Pages(usize),
    // The card image that was named on the command line.
    Image,
}

#[derive(Clone, Copy, PartialEq, Eq, Debug)]
pub enum MailboxShape {
    One(Store),
    // What does not fit the first goes to the second.
    Overflow(Store, Store),
}

impl fmt::Display for Store {
    ghost output = { λ x. Some (store_shown x) };

    fn fmt<W: fmt::Write>(&self, f: &mut fmt::Formatter<W>) -> fmt::Result {
        match self {
            Store::Words(n) => write!(f, "words {n}"),
            Store::Pages(n) => write!(f, "pages {n}"),
            Store::Image => write!(f, "image"),
        }
    }
}

impl fmt::Display for MailboxShape {
    ghost output = { λ x. Some (mailbox_shown x) };

    fn fmt<W: fmt::Write>(&self, f: &mut fmt::Formatter<W>) -> fmt::Result {
        match self {
            MailboxShape::One(store) => write!(f, "{store}"),
            MailboxShape::Overflow(first, second) => write!(f, "overflow {first} {second}"),
        }
    }
}
