// The words and the page of a message as bytes, each word with its lowest byte first.
ghost use Rattle.std.specs.Prelude.{◌≡◌, ◌+◌, ◌*◌, ◌<◌, ◌≤◌, true, length};
ghost use Rattle.words.specs.Writes.{put};
ghost use Rattle.layouts.specs.Pages.{word_at, page_of, page_closed, page_message};
ghost use Rattle.layouts.specs.Mounts.{all_zero, full};

use words::word::{Word, WordKind};

// The bytes of a page.
pub const PAGE: usize = 512;

// The most bytes of a mailbox.
pub const LARGEST: usize = 65_536;

// The head of a page.
pub fn head_of(page: &[u8; PAGE]) -> Word
    ensures { result.0 ≡ word_at page.now 0 }
{
    Word(u32::from_le_bytes([page[0], page[1], page[2], page[3]]))
}

// Whether every byte is zero.
pub fn is_zero(bytes: &[u8]) -> bool
    ensures { result ≡ all_zero bytes.now }
{
    bytes.iter().all(|byte| *byte == 0)
}

// The page of a message.
pub(crate) fn pack(message: &[u32]) -> [u8; PAGE]
    requires { length message.now ≤ 127 }
    ensures { result ≡ page_of message.now }
{
    let head = Word::new(WordKind::PageHead, message.len() as u32);
    let mut page = [0; PAGE];
    page[..4].copy_from_slice(&head.0.to_le_bytes());
    // By their places: what is written through `chunks_exact_mut` is not known after the loop.
    for (i, word) in message.iter().enumerate() {
        page[4 + 4 * i..8 + 4 * i].copy_from_slice(&word.to_le_bytes());
    }
    page
}

// Copies the message of a page to the front of the given words, and answers its length.
pub(crate) fn unpack(page: &[u8; PAGE], words: &mut [u32]) -> usize
    requires full { full page.now ≡ true }
    requires room { 127 ≤ length words.old }
    ensures size { result ≡ length (page_message page.now) }
    ensures words { words.new ≡ put words.old 0 (page_message page.now) }
{
    let n = head_of(page).length();
    let (quads, _) = page.as_chunks();
    // By their places: what is written through `iter_mut` is not known after the loop.
    for (i, quad) in quads[1..1 + n].iter().enumerate() {
        words[i] = u32::from_le_bytes(*quad);
    }
    n
}

// Moves the pages after page k down by one, each through a spare page, and zeroes the last of `held` pages.
pub(crate) fn close(bytes: &mut [u8], k: usize, held: usize)
    requires below { k < held }
    requires room { 512 * held ≤ length bytes.old }
    ensures { bytes.new ≡ page_closed k held bytes.old }
{
    let mut spare = [0; PAGE];
    // By its place: of what a move within the bytes writes first nothing is said.
    for i in k..held - 1 {
        let place = PAGE * i;
        spare.copy_from_slice(&bytes[place + PAGE..place + 2 * PAGE]);
        bytes[place..place + PAGE].copy_from_slice(&spare);
    }
    bytes[PAGE * (held - 1)..PAGE * held].fill(0);
}
