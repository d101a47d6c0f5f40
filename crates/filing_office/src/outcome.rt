//! `Outcome`: what became of a step that a desk took in a thread of its own.

ghost use Rattle.std.specs.Prelude.{◌≡◌, option_map};
ghost use Rattle.filing_office.specs.Runs.{is_no_memory, receipt_in};

use crate::answer::Answer;
use filing_publish::{Naming, Receipt};

/// What became of a step that a desk took in a thread of its own.
#[derive(Drop)]
pub enum Outcome<J: Naming> {
    /// The office answered, or a review of the desk's own reviewer; that has neither a session nor a receipt.
    Answered(Answer<J>),
    /// The name of an opening is in use.
    NameInUse,
    /// The name is not in use; or it was, and somebody else ended its session. It is free.
    NoSession,
    /// Out of memory. The steps after it were not taken.
    NoMemory,
}

impl<J: Naming> Outcome<J> {
    /// The receipt, if any.
    pub(crate) fn receipt(&self) -> Option<&Receipt<J>>
        ensures { option_map (λ r. r.now) result ≡ receipt_in self.now }
    {
        match self {
            Outcome::Answered(answer) => answer.receipt.as_ref(),
            _ => None,
        }
    }

    pub(crate) fn is_no_memory(&self) -> bool
        ensures { result ≡ is_no_memory self.now }
    {
        match self {
            Outcome::NoMemory => true,
            _ => false,
        }
    }
}
