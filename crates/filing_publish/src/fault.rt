//! `OfficeFault`: why no reviewers could be given a place.

use std::alloc::{AllocError, AllocFailed};
use thiserror::Error;

/// Why an office did not open.
#[derive(Clone, Copy, Debug, PartialEq, Eq, Error)]
pub enum OfficeFault {
    #[error("out of memory")]
    NoMemory,
    #[error("a reviewer was refused a place")]
    NoPlace,
}

impl From<AllocError> for OfficeFault {
    fn from(_error: AllocError) -> OfficeFault {
        OfficeFault::NoMemory
    }
}

impl<T: Drop> From<AllocFailed<T>> for OfficeFault {
    fn from(_error: AllocFailed<T>) -> OfficeFault {
        OfficeFault::NoMemory
    }
}
