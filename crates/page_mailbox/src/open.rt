// The check, the wiping and the mounting of bytes.
ghost use Rattle.std.specs.Prelude.{◌≡◌, [], length, IfOk, Ok, ◌≢◌};
ghost use Rattle.words.specs.Refusals.{number_of, value_or};
ghost use Rattle.words.specs.Readings.{told, told_fault};
ghost use Rattle.layouts.specs.Pages.{pages_of};
ghost use Rattle.layouts.specs.Mounts.{wrong, page_check, paged, mount_check, mounted_pages, wiped, wiped_pages, ForeignRefused};
ghost use Rattle.layouts.specs.Images.{Written, ImagesAccepted};
ghost use Rattle.page_mailbox.specs.Stores.{memory_of, waiting_of};

use crate::PageMailbox;
use crate::bytes::{LARGEST, PAGE, head_of, is_zero};
use mailboxes::mailbox::is_sized;
use words::fault::{Fault, Layer};
use words::refusal::Refusal;
use words::word::WordKind;

fn fault(refusal: Refusal, place: usize) -> Fault
    ensures { told_fault result ≡ wrong (number_of refusal) place }
{
    Fault {
        refusal,
        place,
        layer: Layer::Mailbox,
    }
}

// Whether so many bytes are 1 to 128 whole pages.
fn is_paged(size: usize) -> bool
    ensures { result ≡ paged size }
{
    size != 0 && size <= LARGEST && size % PAGE == 0
}

// Whether a page is one of a message, or else an empty one: a `bool`, since nothing stands beside it. `seen` is whether an empty page came
// before it.
fn check_page(page: &[u8; PAGE], place: usize, seen: bool) -> Result<bool, Fault>
    ensures { told result ≡ page_check place seen page.now }
{
    let head = head_of(page);
    if head.0 == 0 {
        return if is_zero(page) {
            Ok(false)
        } else {
            Err(fault(Refusal::Form, place))
        };
    }
    if !head.is(WordKind::PageHead) {
        return Err(fault(Refusal::Kind, place));
    }
    let n = head.length();
    if seen || !head.is_well_formed() || !is_sized(n) {
        return Err(fault(Refusal::Form, place));
    }
    if is_zero(&page[4 + 4 * n..PAGE]) {
        Ok(true)
    } else {
        Err(fault(Refusal::Form, place))
    }
}

impl<'a> PageMailbox<'a> {
    // How many messages wait in bytes, or what is wrong with them and at which page's first byte.
    pub fn check(bytes: &[u8]) -> Result<usize, Fault>
        ensures answer { told result ≡ mount_check bytes.now }
        ensures exact { IfOk result (Written bytes.now) }
        ensures law { ImagesAccepted }
        ensures foreign { ForeignRefused bytes.now (told result) }
    {
        let size = bytes.len();
        if !is_paged(size) {
            return Err(fault(Refusal::Memory, 0));
        }
        let (pages, _) = bytes.as_chunks();
        let mut held = 0;
        for (i, page) in pages.iter().enumerate() {
            // Where not every page so far is one of a message, an empty one came before.
            if check_page(page, PAGE * i, held < i)? {
                held += 1;
            }
        }
        Ok(held)
    }

    // An empty mailbox over bytes that are all made zero. Bytes that are no whole pages stay as they are, and it takes nothing.
    pub fn wipe(bytes: &'a mut [u8]) -> PageMailbox<'a>
        ensures waiting { waiting_of result ≡ [] }
        ensures pages { result.pages ≡ wiped_pages (length bytes.old) }
        ensures memory { memory_of result ≡ wiped bytes.old }
        ensures lender { result.bytes.ghost_name ≡ bytes.entry.ghost_name }
    {
        let size = bytes.len();
        if !is_paged(size) {
            return PageMailbox {
                bytes,
                pages: 0,
                held: 0,
            };
        }
        bytes.fill(0);
        PageMailbox {
            bytes,
            pages: size / PAGE,
            held: 0,
        }
    }

    // A mailbox with the messages of bytes. Of bytes that the check turns away, it is an empty one that takes nothing.
    pub fn mount(bytes: &'a mut [u8]) -> PageMailbox<'a>
        ensures waiting { waiting_of result ≡ pages_of (value_or 0 (mount_check bytes.old)) bytes.old }
        ensures pages { result.pages ≡ mounted_pages (mount_check bytes.old) (length bytes.old) }
        ensures memory { memory_of result ≡ bytes.old }
        ensures lender { result.bytes.ghost_name ≡ bytes.entry.ghost_name }
    {
        let (pages, held) = PageMailbox::check(bytes).map_or(
            (0, 0),
            |held| (bytes.len() / PAGE, held),
        );
        PageMailbox { bytes, pages, held }
    }

    // Lets it go, as when power is lost, and mounts the same bytes. A mailbox with pages in use holds the same messages again.
    pub fn remount(self) -> PageMailbox<'a>
        ensures memory { memory_of result ≡ memory_of self.entry }
        ensures pages { self.entry.pages ≢ 0 → result.pages ≡ self.entry.pages }
        ensures waiting { self.entry.pages ≢ 0 → waiting_of result ≡ waiting_of self.entry }
        ensures mounted_pages { result.pages ≡ mounted_pages (mount_check (memory_of self.entry)) (length (memory_of self.entry)) }
        ensures mounted_waiting { waiting_of result ≡ pages_of (value_or 0 (mount_check (memory_of self.entry))) (memory_of self.entry) }
        ensures accepted { self.entry.pages ≢ 0 → mount_check (memory_of self.entry) ≡ Ok (length (waiting_of self.entry)) }
        ensures lender { result.bytes.ghost_name ≡ self.entry.bytes.ghost_name }
    {
        let PageMailbox { bytes, .. } = self;
        PageMailbox::mount(bytes)
    }

    // Its bytes, as they travel.
    pub fn image(&self) -> &[u8]
        ensures { result.now ≡ memory_of self.now }
    {
        self.bytes
    }
}
