// The span of a delta message: the reports of its sender after number `from`, up to number `to`.
ghost use Rattle.std.specs.Prelude.{◌≡◌, ◌<◌, ◌≤◌, ◌&&◌, is_some, IfSome, nat_le, nat_lt};

// From is below to, and each is a count of reports. No span exists that is not so.
#[derive(Clone, Copy, PartialEq, Eq, Debug)]
pub struct Span {
    pub from: u32,
    pub to: u32,
    ghost rises: { (from < to) × (to ≤ 65535) },
}

impl Span {
    // The span from one count to another, if they are the ends of one.
    pub fn new(from: u32, to: u32) -> Option<Span>
        ensures some { is_some result ≡ (nat_lt from to && nat_le to 65535) }
        ensures value { IfSome result (λ s. (s.from ≡ from) × (s.to ≡ to)) }
    {
        // An `if`: a span's invariant has to be known where it is made.
        if from < to && to <= 65_535 {
            Some(Span { from, to })
        } else {
            None
        }
    }
}
