//! An office: two desks take steps under its lock, and a reviewer reads what they made under none. Each desk may go to a thread
//! of its own, as `filing_office::run_desks` has it.

ghost use Rattle.std.specs.Prelude.{◌≡◌, ◌+◌, length, map, sum, IfOk, OnOk};
ghost use mathlib.Core.List.{IsPrefix};
ghost use Rattle.filing_laws.specs.Serial.WholeRuns.{IsSerial};
ghost use Rattle.filing_publish.specs.Lists.{EndsWith};

use crate::sample::{report, text};
use anyhow::{Result, anyhow};
use filing_core::{Core, HashKeys, Step};
use filing_office::{Answer, Blanks, Desk, FinishFault, Naming, Office, Receipt, Review, Reviewer};
use std::alloc::AllocError;
use std::random::RandomSource;
use std::sync::ledger::Ledger;
use std::sync::{Arc, Wait};

/// Loads the report at a desk, and gives the receipt. It counts as a version that the desk made.
pub fn load_at<L: Ledger + Naming, M: Ledger, R: Wait + AllocGlobal>(
    rt: &R,
    office: &Office<L, M>,
    desk: &mut Desk<L, M>,
    name: &str,
) -> Result<Receipt<L>>
    ensures { OnOk result (desk.new.receipts ≡ desk.old.receipts + 1) }
{
    let report = Arc::new(rt.alloc(), report(rt.alloc())?)?;
    let load = Step::Load(text(rt.alloc(), name)?, report);
    let Answer { reply, receipt, .. } = desk.step(rt, rt.alloc(), office, None, load)?;
    drop(reply);
    match receipt {
        Some(receipt) => Ok(receipt),
        None => Err(anyhow!("the report was refused")),
    }
}

/// Opens a review that sees the version of a receipt: it is of the last version of a list that begins with all versions of the receipt.
pub fn review_after<J: Naming>(
    reviewer: &mut Reviewer<J>,
    receipt: &Receipt<J>,
) -> Result<Review, AllocError>
    ensures newest { IfOk result (λ review. EndsWith reviewer.new review) }
    ensures not_older { OnOk result (IsPrefix receipt.now reviewer.new) }
{
    reviewer.learn(receipt)?;
    reviewer.open()
}

/// Ends an office with all its desks. It has as many entries as its desks were answered steps.
pub fn end<L: Ledger + Naming, M: Ledger, R: Wait>(
    rt: &R,
    office: Office<L, M>,
    desks: Vec<Desk<L, M>>,
) -> Result<Core>
    ensures counted { IfOk result (λ core. length core.history ≡ sum (map (λ desk. desk.steps) desks.items)) }
    ensures serial { IfOk result (λ core. IsSerial core.history) }
{
    match office.finish(rt, desks) {
        Ok(core) => {
            let _entries = core.history();
            Ok(core)
        }
        Err(FinishFault::DeskMissing { office, desks }) => {
            drop(desks);
            office.give_up(rt);
            Err(anyhow!("a desk is missing"))
        }
    }
}

/// Loads a report at each desk, and opens a review that sees both.
fn work<L: Ledger + Naming, M: Ledger, R: Wait + AllocGlobal>(
    rt: &R,
    office: &Office<L, M>,
    desks: &mut Vec<Desk<L, M>>,
    reviewers: &mut Vec<Reviewer<L>>,
) -> Result<Review> {
    if let Some(desk) = desks.first_mut() {
        drop(load_at(rt, office, desk, "first")?);
    }
    match (desks.last_mut(), reviewers.first_mut()) {
        (Some(desk), Some(reviewer)) => {
            let receipt = load_at(rt, office, desk, "second")?;
            Ok(review_after(reviewer, &receipt)?)
        }
        _ => Err(anyhow!("an office has desks and a reviewer")),
    }
}

/// Runs an office of two desks and a reviewer to its end. The review goes on. Its keys are drawn, so that nobody can make the
/// office slow by the names of facts.
pub fn run_office<L: Ledger + Naming, M: Ledger, R: Wait + RandomSource + AllocGlobal>(
    rt: &R,
    blanks: Blanks,
) -> Result<(Core, Review)>
    requires book { blanks.unopened_log.seen.book ≡ L.book }
    requires steps { (blanks.steps.name ≡ L.name) × (blanks.steps.parts ≡ L.parts) × (blanks.steps.parts ≡ 2) }
    requires receipts { (blanks.receipts.name ≡ M.name) × (blanks.receipts.parts ≡ M.parts)
        × (blanks.receipts.parts ≡ 2) }
    ensures { IfOk result (λ left. IsSerial left.0.history) }
{
    let keys = HashKeys::draw(rt)?;
    let (office, desks, reviewers) = Office::<L, M>::open(rt, rt.alloc(), keys, 2, 1, blanks)?;
    let (mut desks, mut reviewers) = (desks, reviewers);
    match work(rt, &office, &mut desks, &mut reviewers) {
        Ok(review) => Ok((end(rt, office, desks)?, review)),
        Err(error) => {
            office.give_up(rt);
            Err(error)
        }
    }
}
