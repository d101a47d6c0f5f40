//! `Access`: how a desk comes to the lock of its office.

ghost use Rattle.std.specs.Prelude.{◌≡◌};
ghost use Rattle.filing_step.specs.Steps.{step_of};
ghost use Rattle.filing_office.specs.Answers.{StepTold};
ghost use Rattle.filing_office.specs.Tallies.{Counted};

use crate::answer::Answer;
use crate::desk::Desk;
use crate::locked::Locked;
use crate::office::Office;
use crate::ready_step::ReadyStep;
use filing_core::{CoreFault, Step};
use filing_publish::Naming;
use std::alloc::Global;
use std::sync::ledger::Ledger;
use std::sync::{MutexGuard, Wait};

/// How a desk comes to the lock of its office.
pub trait Access<L: Ledger + Naming, M: Ledger> {
    /// Takes one step of a desk under the lock, as `Desk::step` does.
    fn step(
        &mut self,
        desk: &mut Desk<L, M>,
        session: Option<u64>,
        step: Step,
    ) -> Result<Answer<L>, CoreFault>
        ensures counted { Counted desk.old desk.new result }
        ensures told { StepTold session (step_of step) result };

    /// Gives the lock back, where it is held, before something that needs none.
    fn leave(&mut self);
}

/// When a desk takes the lock.
#[derive(Clone, Copy, Debug, PartialEq, Eq)]
pub enum LockUse {
    /// For each step, as `EachStep`.
    EachStep,
    /// For the first of several steps, until it leaves, as `LockedBatch`.
    Batches,
}

/// The lock is taken for each step.
#[derive(Drop)]
pub struct EachStep<'a, L: Ledger + Naming, M: Ledger, R: Wait> {
    pub rt: &'a R,
    pub alloc: Global,
    pub office: &'a Office<L, M>,
}

impl<'a, L: Ledger + Naming, M: Ledger, R: Wait> Access<L, M> for EachStep<'a, L, M, R> {
    fn step(
        &mut self,
        desk: &mut Desk<L, M>,
        session: Option<u64>,
        step: Step,
    ) -> Result<Answer<L>, CoreFault> {
        desk.step(self.rt, self.alloc, self.office, session, step)
    }

    fn leave(&mut self) {}
}

/// The lock is taken for the first of several steps, and held from one to the next. It is not `Drop`, as what it holds is not: end it by `end`.
pub struct LockedBatch<'a, L: Ledger + Naming, M: Ledger, R: Wait> {
    rt: &'a R,
    alloc: Global,
    office: &'a Office<L, M>,
    held: Option<MutexGuard<'a, Locked<L, M>>>,
}

/// Gives a lock back, if it is held.
fn unlock<L: Ledger + Naming, M: Ledger>(held: Option<MutexGuard<'_, Locked<L, M>>>) {
    if let Some(locked) = held {
        MutexGuard::unlock(locked);
    }
}

impl<'a, L: Ledger + Naming, M: Ledger, R: Wait> LockedBatch<'a, L, M, R> {
    /// A batch before its first step. The lock is not taken yet.
    pub fn new(rt: &'a R, alloc: Global, office: &'a Office<L, M>) -> LockedBatch<'a, L, M, R> {
        LockedBatch {
            rt,
            alloc,
            office,
            held: None,
        }
    }

    /// Gives the lock back.
    pub fn end(self) {
        let LockedBatch {
            rt: _rt,
            alloc: _alloc,
            office: _office,
            held,
        } = self;
        unlock(held);
    }
}

impl<'a, L: Ledger + Naming, M: Ledger, R: Wait> Access<L, M> for LockedBatch<'a, L, M, R> {
    fn step(
        &mut self,
        desk: &mut Desk<L, M>,
        session: Option<u64>,
        step: Step,
    ) -> Result<Answer<L>, CoreFault> {
        if let Step::Load(_, _) = &step {
            self.leave();
        }
        let step = ReadyStep::of(self.alloc, step)?;
        let mut locked = match self.held.take() {
            Some(locked) => locked,
            None => self.office.locked.lock(self.rt),
        };
        let answer = locked.step(self.rt, self.alloc, desk, session, step);
        unlock(self.held.replace(locked));
        answer
    }

    fn leave(&mut self) {
        unlock(self.held.take());
    }
}
