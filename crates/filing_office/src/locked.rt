//! `Locked`: the value under the lock.

ghost use Rattle.std.specs.Prelude.{◌≡◌, ◌+◌, [], cond, length, vec_len, sum, map};
ghost use Rattle.filing_model.specs.Histories.History.{repository};
ghost use Rattle.filing_office.specs.Answers.{StepTold, step_made_ready};
ghost use Rattle.filing_office.specs.Tallies.{Counted};

use crate::answer::Answer;
use crate::desk::Desk;
use crate::ready_step::ReadyStep;
use crate::shared::{Shared, apply_ready};
use filing_core::{Core, CoreFault};
use filing_publish::{Naming, Publisher};
use std::alloc::Global;
use std::sync::Wait;
use std::sync::ledger::{Book, Ledger, Share};

/// Counts a step that was answered.
fn count<L: Ledger, M: Ledger>(
    steps: &mut Book<L>,
    receipts: &mut Book<M>,
    desk: &mut Desk<L, M>,
    received: bool,
)
    ensures steps { steps.new.total ≡ steps.old.total + 1 }
    ensures receipts { receipts.new.total ≡ receipts.old.total + cond received 1 0 }
    ensures desk { desk.new ≡ record { steps = desk.old.steps + 1; receipts = desk.old.receipts + cond received 1 0 } }
{
    steps.add(&mut desk.steps, 1);
    if received {
        receipts.add(&mut desk.receipts, 1);
    }
}

/// The value under the lock: what a step is taken on, with the books of two ledgers.
/// The one counts the entries of the history, the other the versions that they made. Each desk has a share of both.
pub(crate) struct Locked<L: Ledger + Naming, M: Ledger> {
    shared: Shared<L>,
    steps: Book<L>,
    receipts: Book<M>,
    /// A share of no part, to which those of the desks are put together at the end.
    all_steps: Share<L>,
    all_receipts: Share<M>,
    ghost counted: { steps.total ≡ length shared },
    ghost numbered: { receipts.total ≡ (repository shared).count },
    ghost no_parts: { (all_steps.parts ≡ 0) × (all_receipts.parts ≡ 0) },
}

impl<L: Ledger + Naming, M: Ledger> Locked<L, M> {
    pub(crate) fn new(
        shared: Shared<L>,
        steps: Book<L>,
        receipts: Book<M>,
        all_steps: Share<L>,
        all_receipts: Share<M>,
    ) -> Locked<L, M>
        requires nothing_taken { (shared ≡ []) × (steps.total ≡ 0) × (receipts.total ≡ 0) }
        requires no_parts { (all_steps.parts ≡ 0) × (all_receipts.parts ≡ 0) }
    {
        Locked {
            shared,
            steps,
            receipts,
            all_steps,
            all_receipts,
        }
    }

    /// Takes a step for a desk, and counts it.
    pub(crate) fn step<R: Wait>(
        &mut self,
        rt: &R,
        alloc: Global,
        desk: &mut Desk<L, M>,
        session: Option<u64>,
        step: ReadyStep,
    ) -> Result<Answer<L>, CoreFault>
        ensures counted { Counted desk.old desk.new result }
        ensures told { StepTold session (step_made_ready step) result }
    {
        let answer = apply_ready(rt, alloc, &mut self.shared, session, step)?;
        let received = answer.receipt.is_some();
        count(&mut self.steps, &mut self.receipts, desk, received);
        Ok(answer)
    }

    /// Takes back what publishes, and gives the core. The shares of all desks are put together, so that their counts are the books' totals.
    pub(crate) fn close<R: Wait>(self, rt: &R, desks: Vec<Desk<L, M>>) -> Core
        requires { (vec_len desks ≡ L.parts) × (vec_len desks ≡ M.parts) }
        ensures counted { length result.history ≡ sum (map (λ d. d.steps) desks.items) }
        ensures numbered { (repository result.history).count ≡ sum (map (λ d. d.receipts) desks.items) }
    {
        let Locked {
            shared,
            mut steps,
            mut receipts,
            mut all_steps,
            mut all_receipts,
        } = self;
        steps.audit(&mut all_steps);
        receipts.audit(&mut all_receipts);
        merge_shares(desks, &mut all_steps, &mut all_receipts);
        steps.audit(&mut all_steps);
        receipts.audit(&mut all_receipts);
        shared.close(rt)
    }

    pub(crate) fn give_up<R: Wait>(self, rt: &R) {
        let Locked {
            shared,
            steps: _steps,
            receipts: _receipts,
            all_steps: _all_steps,
            all_receipts: _all_receipts,
        } = self;
        shared.close(rt);
    }
}

/// Puts the shares of desks to others.
fn merge_shares<L: Ledger, M: Ledger>(
    mut desks: Vec<Desk<L, M>>,
    steps: &mut Share<L>,
    receipts: &mut Share<M>,
)
    ensures steps { (steps.new.parts ≡ steps.old.parts + vec_len desks)
        × (steps.new.amount ≡ steps.old.amount + sum (map (λ d. d.steps) desks.items)) }
    ensures receipts { (receipts.new.parts ≡ receipts.old.parts + vec_len desks)
        × (receipts.new.amount ≡ receipts.old.amount + sum (map (λ d. d.receipts) desks.items)) }
{
    while let Some(desk) = desks.pop() {
        let Desk {
            steps: taken,
            receipts: received,
        } = desk;
        steps.merge(taken);
        receipts.merge(received);
    }
}
