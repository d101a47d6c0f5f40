//! `Named`: a file or a standard stream with the name by which its faults are reported.

use std::fmt::Display;
use std::io::{IsTerminal, Read, Result, Write};

/// The name of standard input.
pub(crate) const INPUT: &str = "standard input";

/// The name of standard output.
pub(crate) const OUTPUT: &str = "standard output";

/// Whether standard error tells more than the fixed line of a fault: where that is asked for, or where it is a terminal.
fn explains(rt: &HostRuntime, is_asked: bool) -> bool {
    is_asked || rt.stderr().is_terminal()
}

/// Who tells why a file or a stream failed, in the system's words, before the fixed line of the fault.
#[derive(Clone, Copy)]
pub(crate) struct Reasons {
    rt: HostRuntime,
    are_told: bool,
}

impl Reasons {
    pub(crate) fn new(rt: &HostRuntime, is_asked: bool) -> Reasons {
        Reasons {
            rt: *rt,
            are_told: explains(rt, is_asked),
        }
    }

    pub(crate) fn are_told(&self) -> bool {
        self.are_told
    }

    /// Tells why what has this name failed, where that is wanted.
    pub(crate) fn tell(&self, name: &str, error: &impl Display) {
        if self.are_told {
            let _ = eprintln!(&self.rt; "filing: {name}: {error}");
        }
    }
}

/// A reader or a writer whose faults are reported by its name.
#[derive(Drop)]
pub(crate) struct Named<'a, T: Drop> {
    device: T,
    name: &'a str,
    reasons: Reasons,
}

impl<'a, T: Drop> Named<'a, T> {
    pub(crate) fn new(device: T, name: &'a str, reasons: Reasons) -> Named<'a, T> {
        Named {
            device,
            name,
            reasons,
        }
    }
}

impl<R: Read + Drop> Read for Named<'_, R> {
    ghost remaining = { λ n. R.remaining n.device };

    fn read(&mut self, buf: &mut [u8]) -> Result<usize> {
        match self.device.read(buf) {
            Ok(count) => Ok(count),
            Err(error) => {
                self.reasons.tell(self.name, &error);
                Err(error)
            }
        }
    }
}

impl<W: Write + Drop> Write for Named<'_, W> {
    ghost contents = { λ n. W.contents n.device };

    fn write(&mut self, buf: &[u8]) -> Result<usize> {
        match self.device.write(buf) {
            Ok(count) => Ok(count),
            Err(error) => {
                self.reasons.tell(self.name, &error);
                Err(error)
            }
        }
    }

    fn flush(&mut self) -> Result<()> {
        self.device.flush()
    }
}
