//! `ReadyStep`: a step that is made ready before the lock is taken.

ghost use Rattle.std.specs.Prelude.{◌≡◌, IfOk};
ghost use Rattle.filing_step.specs.Steps.{step_of};
ghost use Rattle.filing_office.specs.Answers.{step_made_ready};

use filing_core::Step;
use filing_version::IndexedReport;
use std::alloc::{AllocError, Global};

/// A step for which is done what needs no lock. `step_made_ready` says which step it is.
#[derive(Drop)]
pub(crate) enum ReadyStep {
    /// A load, whose report is indexed: while many facts are, other desks go on.
    Load(String, IndexedReport),
    Other(Step),
}

impl ReadyStep {
    pub(crate) fn of(alloc: Global, step: Step) -> Result<ReadyStep, AllocError>
        ensures { IfOk result (λ ready. step_made_ready ready ≡ step_of step) }
    {
        match step {
            Step::Load(name, report) => {
                let report = IndexedReport::of(alloc, report)?;
                Ok(ReadyStep::Load(name, report))
            }
            step => Ok(ReadyStep::Other(step)),
        }
    }
}
