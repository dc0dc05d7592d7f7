// The lines of a script, one after another.
use crate::failure::Failure;
use scripts::command::Command;
use scripts::store::{MailboxShape, Store};
use scripts::understand::understand;
use std::io::Write;
use std::{fmt, io};

// A run of more lines than this says how far it is.
const MANY: usize = 10_000;

// A script that is carried out, and where its answers go.
#[derive(Drop)]
pub(crate) struct Script<'a, W> {
    rt: &'a HostRuntime,
    pub(crate) out: &'a mut W,
    // What is left of it.
    text: &'a [u8],
    // The number of the line that was read last.
    line: usize,
    // The card image, where one was named on the command line.
    pub(crate) image: Option<&'a [u8]>,
    // How many lines were not understood.
    wrong: usize,
    // The words of the put that was read last stand at the front.
    pub(crate) words: [u32; 255],
}

// Whether a line asks for the image.
fn wants_image(command: Command) -> bool {
    matches!(
        command,
        Command::Mailbox(
            MailboxShape::One(Store::Image)
                | MailboxShape::Overflow(Store::Image, _)
                | MailboxShape::Overflow(_, Store::Image)
        )
    )
}

impl<'a, W: Write> Script<'a, W> {
    pub(crate) fn new(
        rt: &'a HostRuntime,
        out: &'a mut W,
        text: &'a [u8],
        image: Option<&'a [u8]>,
    ) -> Script<'a, W> {
        Script {
            rt,
            out,
            text,
            line: 0,
            image,
            wrong: 0,
            words: [0; 255],
        }
    }

    // The next line, without its newline.
    fn next_line(&mut self) -> Option<&'a [u8]> {
        if self.text.is_empty() {
            return None;
        }
        let mut parts = self.text.splitn(2, |byte| *byte == b'\n');
        let line = parts.next()?;
        self.line = self.line.saturating_add(1);
        self.text = parts.next().unwrap_or(&[]);
        Some(line)
    }

    // The next line that asks for something. Lines before it that are not understood are named.
    pub(crate) fn next(&mut self) -> io::Result<Option<Command>> {
        // A count, since a loop has to end; a measure would be said in more contracts, as in `serve`. Each turn but the last reads a line.
        for _ in 0..=self.text.len() {
            let before = self.line;
            let Some(line) = self.next_line() else {
                return Ok(None);
            };
            if before > 0 && before % MANY == 0 {
                eprintln!(self.rt; "lustrehem: {before} lines")?;
            }
            match understand(line, &mut self.words) {
                Ok(Some(command)) if self.image.is_none() && wants_image(command) => {
                    self.misunderstood("words or pages, since no image was given")?;
                }
                Ok(Some(command)) => return Ok(Some(command)),
                Ok(None) => {}
                Err(expected) => self.misunderstood(expected)?,
            }
        }
        Ok(None)
    }

    // Names the line that was read last.
    pub(crate) fn misunderstood<E: fmt::Display + Drop>(&mut self, expected: E) -> io::Result<()> {
        self.wrong = self.wrong.saturating_add(1);
        let line = self.line;
        writeln!(self.out, "line {line}: not understood, expected {expected}")
    }

    // Whether every line was understood.
    pub(crate) fn verdict(&self) -> Result<(), Failure> {
        if self.wrong > 0 {
            return Err(Failure::NotUnderstood(self.wrong));
        }
        Ok(())
    }
}
