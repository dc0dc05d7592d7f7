// The bytes of a mailbox's pages, as they are printed.
use crate::show::Hex;
use mailboxes::mailbox::Mailbox;
use mailboxes::overflow::Overflow;
use page_mailbox::PageMailbox;
use page_mailbox::bytes::is_zero;
use std::io;
use std::io::Write;
use word_mailbox::WordMailbox;

// The bytes of a line.
const ROW: usize = 16;

pub(crate) trait Imaged: Mailbox {
    // Prints the bytes of its pages.
    fn print_image<W: Write>(&self, out: &mut W) -> io::Result<()>;
}

impl<'a> Imaged for WordMailbox<'a> {
    fn print_image<W: Write>(&self, out: &mut W) -> io::Result<()> {
        writeln!(out, "image: no pages")
    }
}

impl<'a> Imaged for PageMailbox<'a> {
    fn print_image<W: Write>(&self, out: &mut W) -> io::Result<()> {
        let bytes = self.image();
        let count = bytes.len();
        writeln!(out, "image: {count} bytes")?;
        print_rows(out, bytes)
    }
}

impl<A: Imaged, B: Imaged> Imaged for Overflow<A, B> {
    fn print_image<W: Write>(&self, out: &mut W) -> io::Result<()> {
        self.first().print_image(out)?;
        self.second().print_image(out)
    }
}

// Lines of 16 bytes. Lines of zero bytes that follow one another are one line.
fn print_rows<W: Write>(out: &mut W, bytes: &[u8]) -> io::Result<()> {
    // A count of zero bytes that are not printed yet: they are one line with those that follow.
    let mut zeros = 0usize;
    for (i, row) in bytes.chunks(ROW).enumerate() {
        let place = i.saturating_mul(ROW);
        if is_zero(row) {
            zeros = zeros.saturating_add(row.len());
        } else {
            print_zeros(out, place, zeros)?;
            zeros = 0;
            writeln!(out, "  {place:04X}: {}", Hex::<u8, 2>(row))?;
        }
    }
    print_zeros(out, bytes.len(), zeros)
}

// So many zero bytes before a place.
fn print_zeros<W: Write>(out: &mut W, end: usize, zeros: usize) -> io::Result<()> {
    if zeros == 0 {
        return Ok(());
    }
    let first = end.saturating_sub(zeros);
    writeln!(out, "  {first:04X} to {:04X}: zero", end.saturating_sub(1))
}
