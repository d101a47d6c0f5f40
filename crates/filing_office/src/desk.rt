//! `Desk`: what takes steps in one thread.

ghost use Rattle.std.specs.Prelude.{◌≡◌};
ghost use Rattle.filing_step.specs.Steps.{step_of};
ghost use Rattle.filing_office.specs.Answers.{StepTold};
ghost use Rattle.filing_office.specs.Tallies.{Counted};

use crate::answer::Answer;
use crate::office::Office;
use crate::ready_step::ReadyStep;
use filing_core::{CoreFault, Step};
use filing_publish::Naming;
use std::alloc::Global;
use std::marker::Model;
use std::sync::ledger::{Ledger, Share};
use std::sync::{MutexGuard, Wait};

/// What takes steps in one thread. Contracts see how many it took, and how many of them made a version.
#[derive(Drop)]
pub struct Desk<L: Ledger, M: Ledger> {
    pub(crate) steps: Share<L>,
    pub(crate) receipts: Share<M>,
}

impl<L: Ledger, M: Ledger> Model for Desk<L, M> {
    ghost use Rattle.filing_office.specs.Tallies.{Tally};

    ghost Value = { Tally };

    ghost use Rattle.std.specs.Prelude.{◌≡◌};

    ghost view = { λ d. record { steps = d.steps.amount; receipts = d.receipts.amount } };

    ghost invariant = { λ d. (d.steps.parts ≡ 1) × (d.receipts.parts ≡ 1) };
}

impl<L: Ledger + Naming, M: Ledger> Desk<L, M> {
    /// Takes one step under the lock of its office. The report of a load is indexed before. The receipt is there exactly with `Committed` and `Loaded`.
    pub fn step<R: Wait>(
        &mut self,
        rt: &R,
        alloc: Global,
        office: &Office<L, M>,
        session: Option<u64>,
        step: Step,
    ) -> Result<Answer<L>, CoreFault>
        ensures counted { Counted self.old self.new result }
        ensures told { StepTold session (step_of step) result }
    {
        let step = ReadyStep::of(alloc, step)?;
        let mut locked = office.locked.lock(rt);
        let answer = locked.step(rt, alloc, self, session, step);
        MutexGuard::unlock(locked);
        answer
    }
}
