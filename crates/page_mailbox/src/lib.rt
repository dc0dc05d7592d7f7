// A mailbox over lent bytes in pages of 512: message k is page k. The bytes are what travels between stations, so every word is written
// and read with its lowest byte first, whatever the machine's own order is.
#![tactic(auto)]

ghost use Rattle.std.specs.Prelude.{◌≡◌, true, length};
ghost use Rattle.layouts.specs.Mounts.{pages_sound, whole};

pub mod bytes;
pub mod calls;
pub mod open;

// The pages in use are those of as many messages as are held, and then zero bytes. With no pages in use nothing is held.
#[derive(Drop)]
pub struct PageMailbox<'a> {
    bytes: &'a mut [u8],
    pages: usize,
    held: usize,
    ghost messages: { pages_sound pages held bytes.now ≡ true },
    ghost extent: { whole pages (length bytes.now) ≡ true },
}
