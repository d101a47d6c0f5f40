//! Why a text is no report.

use filing_model::Trouble;
use std::alloc::{AllocError, AllocFailed};
use thiserror::Error;

/// Why a text is no report: the first fault that is found.
#[derive(Debug, Drop, Error)]
pub enum ReportFault {
    #[error("not a JSON text")]
    NotJson,
    #[error("not the shape of a report")]
    WrongShape,
    #[error("not the document type of xBRL-JSON 1.0")]
    WrongDocumentType,
    #[error("not a word for allowed duplicates")]
    BadPolicy,
    #[error("two prefixes have one URI")]
    AliasTwice,
    #[error("a number that is not whole")]
    NotWhole,
    #[error("fact {0}: {1}")]
    BadFact(String, Trouble),
    #[error("out of memory")]
    NoMemory,
}

impl From<AllocError> for ReportFault {
    ghost use Rattle.std.specs.Prelude.{◌≡◌};
    ghost use Rattle.oim_report.specs.declared.fault.ReportFault.TheVariants.{NoMemory};

    ghost from_gives = { λ _ e. e ≡ NoMemory };

    fn from(_error: AllocError) -> ReportFault {
        ReportFault::NoMemory
    }
}

impl<T: Drop> From<AllocFailed<T>> for ReportFault {
    ghost use Rattle.std.specs.Prelude.{◌≡◌};
    ghost use Rattle.oim_report.specs.declared.fault.ReportFault.TheVariants.{NoMemory};

    ghost from_gives = { λ _ e. e ≡ NoMemory };

    fn from(_error: AllocFailed<T>) -> ReportFault {
        ReportFault::NoMemory
    }
}
