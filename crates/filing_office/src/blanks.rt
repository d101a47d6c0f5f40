//! `Blanks`: what an office is named by before it opens.

ghost use Rattle.std.specs.Prelude.{◌≡◌};

use filing_publish::UnopenedLog;
use std::sync::ledger::Blank;

/// What an office is named by before it opens: a book of editions at its beginning, and the blanks of two ledgers.
/// One ledger counts steps and the other receipts.
#[derive(Drop)]
pub struct Blanks {
    pub unopened_log: UnopenedLog,
    pub steps: Blank,
    pub receipts: Blank,
}

impl Blanks {
    /// The blanks of an office of this many desks, with one part of each ledger for each desk. It takes no memory.
    pub fn of(desks: usize) -> Blanks
        ensures { (result.steps.parts ≡ desks) × (result.receipts.parts ≡ desks) }
    {
        Blanks {
            unopened_log: UnopenedLog::new(),
            steps: Blank::new(desks as u64),
            receipts: Blank::new(desks as u64),
        }
    }
}
