//! A history that somebody hands over, judged.

ghost use Rattle.std.specs.Prelude.{◌≡◌, ◌↔◌, IfOk, IsTrue, reverse};
ghost use Rattle.filing_model.specs.Histories.Lawful.{IsLawful};
ghost use Rattle.filing_core.specs.declared.check.Verdict.TheVariants.{Lawful};

use filing_core::{Core, Entry, Verdict, check_run};
use std::alloc::{AllocError, Global};

/// Whether entries, oldest first, are a lawful history: each session has its number, and each step the one reply that it may have.
#[tactic(auto, using(crate::proofs::Departures::departs_not_lawful))]
pub fn is_lawful(alloc: Global, entries: &[Entry]) -> Result<bool, AllocError>
    ensures { IfOk result (λ lawful. IsTrue lawful ↔ IsLawful (reverse entries.now)) }
{
    match check_run(alloc, entries)? {
        Verdict::Lawful => Ok(true),
        Verdict::Departs(_) => Ok(false),
    }
}

/// Judges what a core has in its history, which never departs.
#[tactic(auto, using(crate::proofs::Departures::departs_not_lawful))]
pub fn judge_core(alloc: Global, core: &Core) -> Result<Verdict, AllocError>
    ensures { IfOk result (λ verdict. verdict ≡ Lawful) }
{
    check_run(alloc, core.history())
}
