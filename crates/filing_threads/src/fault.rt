//! `ThreadsFault`: why scripts did not run to their ends in threads. `JournaledFault`: the same with a journal.

use std::alloc::{AllocError, AllocFailed};
use thiserror::Error;

/// Why scripts did not run to their ends in threads.
#[derive(Clone, Copy, Debug, PartialEq, Eq, Hash, Error)]
pub enum ThreadsFault {
    #[error("the output could not be written")]
    Write,
    #[error("out of memory")]
    NoMemory,
    #[error("a reviewer was refused a place")]
    NoPlace,
}

/// A line of a script before which its run ended, since the entry of its step would nest too deep for the journal.
#[derive(Clone, Copy, Debug, PartialEq, Eq, Hash)]
pub struct DeepLine {
    /// The place of the script among the others, from 0.
    pub script: usize,
    /// The number of the line in its script, from 1, without blank lines.
    pub line: usize,
}

/// Why scripts with a journal did not run to their ends.
#[derive(Clone, Copy, Debug, PartialEq, Eq, Hash, Error)]
pub enum JournaledFault {
    /// `Write` is also reported where the journal took no more: it has stopped then, or is full.
    #[error("scripts with a journal did not run to their ends")]
    Threads(ThreadsFault),
    /// The journal has what all scripts made before, and their replies are written.
    /// Of several such lines, that of the first script.
    #[error("a line nests too deep for the journal")]
    TooDeep(DeepLine),
}

impl From<AllocError> for ThreadsFault {
    ghost use Rattle.std.specs.Prelude.{◌≡◌};
    ghost use Rattle.filing_threads.specs.declared.fault.ThreadsFault.TheVariants.{NoMemory};

    ghost from_gives = { λ _ e. e ≡ NoMemory };

    fn from(_error: AllocError) -> ThreadsFault {
        ThreadsFault::NoMemory
    }
}

impl<T: Drop> From<AllocFailed<T>> for ThreadsFault {
    ghost use Rattle.std.specs.Prelude.{◌≡◌};
    ghost use Rattle.filing_threads.specs.declared.fault.ThreadsFault.TheVariants.{NoMemory};

    ghost from_gives = { λ _ e. e ≡ NoMemory };

    fn from(_error: AllocFailed<T>) -> ThreadsFault {
        ThreadsFault::NoMemory
    }
}
