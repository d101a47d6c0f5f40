//! `CoreFault`: why a step was not taken.

use std::alloc::{AllocError, AllocFailed};
use thiserror::Error;

/// Why a step was not taken. Neither changes anything.
#[derive(Clone, Copy, Debug, PartialEq, Eq, Error)]
pub enum CoreFault {
    #[error("the session is not open")]
    NoSession,
    #[error("out of memory")]
    NoMemory,
}

impl From<AllocError> for CoreFault {
    ghost use Rattle.std.specs.Prelude.{◌≡◌};
    ghost use Rattle.filing_core.specs.declared.fault.CoreFault.TheVariants.{NoMemory};

    ghost from_gives = { λ _ e. e ≡ NoMemory };

    fn from(_error: AllocError) -> CoreFault {
        CoreFault::NoMemory
    }
}

impl<T: Drop> From<AllocFailed<T>> for CoreFault {
    ghost use Rattle.std.specs.Prelude.{◌≡◌};
    ghost use Rattle.filing_core.specs.declared.fault.CoreFault.TheVariants.{NoMemory};

    ghost from_gives = { λ _ e. e ≡ NoMemory };

    fn from(_error: AllocFailed<T>) -> CoreFault {
        CoreFault::NoMemory
    }
}

/// Why an engine did not take a step. After any of them it is the engine of the same histories as before.
#[derive(Clone, Copy, Debug, PartialEq, Eq, Error)]
pub enum EngineFault {
    #[error("the session is not open")]
    NoSession,
    #[error("out of memory")]
    NoMemory,
    /// It has taken 2^64 - 1 steps, and can count no more.
    #[error("no step more can be counted")]
    Full,
}
