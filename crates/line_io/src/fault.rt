//! What can go wrong: in one call of a device, and in a run.

use thiserror::Error;

/// A call of a device failed.
#[derive(Clone, Copy, Debug, PartialEq, Eq, Hash, Error)]
#[error("the device failed")]
pub struct Failed;

/// Why a run over the lines of a source ended before the end of the source.
#[derive(Clone, Copy, Debug, PartialEq, Eq, Hash, Error)]
pub enum ScriptFault {
    #[error("the input could not be read")]
    Read,
    /// Replies could not be written, or what they report could not be kept first.
    #[error("the output could not be written")]
    Write,
    #[error("the input has no end within the reads that are allowed")]
    Endless,
    /// The line, counted from 1, that was being read or answered.
    #[error("out of memory at line {0}")]
    NoMemory(u128),
}
