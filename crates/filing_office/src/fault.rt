//! `FinishFault`: why an office was not ended. `RunFault`: why desks were not run.

use crate::desk::Desk;
use crate::office::Office;
use filing_publish::Naming;
use std::alloc::{AllocError, AllocFailed};
use std::sync::ledger::Ledger;
use thiserror::Error;

/// Why an office was not ended. It is not `Drop`, as an office is not.
pub enum FinishFault<L: Ledger + Naming, M: Ledger> {
    /// The desks are not exactly all of it. Office and desks come back.
    DeskMissing {
        office: Office<L, M>,
        desks: Vec<Desk<L, M>>,
    },
}

/// Why desks were not run: memory for a thread, or for the outcomes. The desks are gone.
#[derive(Clone, Copy, Debug, PartialEq, Eq, Error)]
pub enum RunFault {
    #[error("out of memory")]
    NoMemory,
}

impl From<AllocError> for RunFault {
    fn from(_error: AllocError) -> RunFault {
        RunFault::NoMemory
    }
}

impl<T: Drop> From<AllocFailed<T>> for RunFault {
    fn from(_error: AllocFailed<T>) -> RunFault {
        RunFault::NoMemory
    }
}
