//! `Echoed`: a writer that keeps a copy of what it took.

use std::alloc::Global;
use std::io::{Result, Write};

/// The copy of what a writer took, where one is kept.
#[derive(Drop)]
pub(crate) struct Echo {
    text: Vec<u8>,
    is_kept: bool,
    /// Whether there was memory for all of it.
    is_whole: bool,
}

impl Echo {
    /// An empty copy; what comes is kept only where that is wanted.
    pub(crate) fn new(alloc: Global, is_kept: bool) -> Echo {
        Echo {
            text: Vec::new(alloc),
            is_kept,
            is_whole: true,
        }
    }

    /// Takes what was written. Where memory is refused, it keeps no more.
    fn take(&mut self, bytes: &[u8]) {
        if self.is_kept && self.is_whole && self.text.extend_from_slice(bytes).is_err() {
            self.is_whole = false;
        }
    }

    /// The whole text; none where it was not kept, or where memory was refused.
    pub(crate) fn whole_text(&self) -> Option<&[u8]> {
        if self.is_kept && self.is_whole {
            Some(self.text.as_slice())
        } else {
            None
        }
    }
}

/// A writer, and the copy of what it took. The writer never waits for the copy, nor fails by it.
#[derive(Drop)]
pub(crate) struct Echoed<'a, W: Write + Drop> {
    writer: W,
    echo: &'a mut Echo,
}

impl<'a, W: Write + Drop> Echoed<'a, W> {
    pub(crate) fn new(writer: W, echo: &'a mut Echo) -> Echoed<'a, W> {
        Echoed { writer, echo }
    }
}

impl<W: Write + Drop> Write for Echoed<'_, W> {
    ghost contents = { λ w. W.contents w.writer };

    fn write(&mut self, buf: &[u8]) -> Result<usize> {
        let count = self.writer.write(buf)?;
        self.echo.take(&buf[..count]);
        Ok(count)
    }

    fn flush(&mut self) -> Result<()> {
        self.writer.flush()
    }
}
