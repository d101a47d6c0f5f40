//! What holds of an office before its first step.

ghost use Rattle.std.specs.Prelude.{◌≡◌, [], IfOk};
ghost use Rattle.filing_office.specs.Sizes.{FitsOffice};

use crate::blanks::Blanks;
use crate::fault::FinishFault;
use crate::office::Office;
use filing_core::{Core, HashKeys};
use filing_publish::{Naming, OfficeFault};
use std::alloc::Global;
use std::sync::Wait;
use std::sync::ledger::Ledger;

/// Opens an office and ends it at once. Nothing is entered: it began with an empty history.
#[tactic(auto, using(crate::proofs::NothingCounted::none_counted, crate::proofs::NothingCounted::none_in))]
pub fn opened_and_finished<L: Ledger + Naming, M: Ledger, R: Wait>(
    rt: &R,
    alloc: Global,
    desks: usize,
    reviewers: usize,
    blanks: Blanks,
) -> Result<Core, OfficeFault>
    requires book { blanks.unopened_log.seen.book ≡ L.book }
    requires desks_fit { FitsOffice desks }
    requires reviewers_fit { FitsOffice reviewers }
    requires steps { (blanks.steps.name ≡ L.name) × (blanks.steps.parts ≡ L.parts) × (blanks.steps.parts ≡ desks) }
    requires receipts { (blanks.receipts.name ≡ M.name) × (blanks.receipts.parts ≡ M.parts)
        × (blanks.receipts.parts ≡ desks) }
    ensures { IfOk result (λ c. c.history ≡ []) }
{
    let (office, desks, reviewers) = Office::<L, M>::open(
        rt,
        alloc,
        HashKeys::Fixed,
        desks,
        reviewers,
        blanks,
    )?;
    drop(reviewers);
    match office.finish(rt, desks) {
        Ok(core) => Ok(core),
        Err(FinishFault::DeskMissing { .. }) => unreachable!(),
    }
}
