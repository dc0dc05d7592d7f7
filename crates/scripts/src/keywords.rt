// The words of the grammar.
ghost use Rattle.std.specs.Prelude.{◌≡◌, ℕ, List};
ghost use Rattle.scripts.specs.Keywords.{named, verbs, record_kinds, shapes, kinds, whats};

use crate::record_kind::RecordKind;
use crate::what::What;

// The first word of a line.
#[derive(Clone, Copy)]
pub enum Verb {
    Record,
    Stations,
    Mailbox,
    Report,
    Send,
    Put,
    Fetch,
    Discard,
    Count,
    Fits,
    Read,
    Show,
    Compare,
    Image,
}

// The first word of a mailbox or of a store.
#[derive(Clone, Copy)]
pub enum Shape {
    Words,
    Pages,
    Image,
    Overflow,
}

#[derive(Clone, Copy)]
pub enum Kind {
    Delta,
    Full,
}

// What single words of the grammar mean.
// Each impl is one `match`, which is its table: a table of pairs would be searched by hand.
pub(crate) trait Keyword: Drop {
    // Each word with its meaning.
    ghost names: { List (List ℕ × Self) };

    // What a word means, if anything.
    fn named(token: &[u8]) -> Option<Self>
        ensures { result ≡ named names token.now };
}

impl Keyword for Verb {
    ghost names = { verbs };

    #[tactic(auto, using(crate::proofs::Names::unnamed))]
    fn named(token: &[u8]) -> Option<Verb> {
        match token {
            b"record" => Some(Verb::Record),
            b"stations" => Some(Verb::Stations),
            b"mailbox" => Some(Verb::Mailbox),
            b"report" => Some(Verb::Report),
            b"send" => Some(Verb::Send),
            b"put" => Some(Verb::Put),
            b"fetch" => Some(Verb::Fetch),
            b"discard" => Some(Verb::Discard),
            b"count" => Some(Verb::Count),
            b"fits" => Some(Verb::Fits),
            b"read" => Some(Verb::Read),
            b"show" => Some(Verb::Show),
            b"compare" => Some(Verb::Compare),
            b"image" => Some(Verb::Image),
            _ => None,
        }
    }
}

impl Keyword for RecordKind {
    ghost names = { record_kinds };

    fn named(token: &[u8]) -> Option<RecordKind> {
        match token {
            b"card" => Some(RecordKind::Card),
            b"loan" => Some(RecordKind::Loan),
            _ => None,
        }
    }
}

impl Keyword for Shape {
    ghost names = { shapes };

    fn named(token: &[u8]) -> Option<Shape> {
        match token {
            b"words" => Some(Shape::Words),
            b"pages" => Some(Shape::Pages),
            b"image" => Some(Shape::Image),
            b"overflow" => Some(Shape::Overflow),
            _ => None,
        }
    }
}

impl Keyword for Kind {
    ghost names = { kinds };

    fn named(token: &[u8]) -> Option<Kind> {
        match token {
            b"delta" => Some(Kind::Delta),
            b"full" => Some(Kind::Full),
            _ => None,
        }
    }
}

impl Keyword for What {
    ghost names = { whats };

    #[tactic(auto, using(crate::proofs::Names::unnamed))]
    fn named(token: &[u8]) -> Option<What> {
        match token {
            b"erased" => Some(What::Erased),
            b"taken" => Some(What::Taken),
            b"returned" => Some(What::Returned),
            b"retired" => Some(What::Retired),
            b"firmware" => Some(What::Firmware),
            b"lent" => Some(What::Lent),
            b"marked" => Some(What::Marked),
            _ => None,
        }
    }
}
