//! `Machine`: what answers lines; and `DurableMachine`, whose replies wait until what they report is kept.
ghost use Rattle.std.specs.Prelude.{ℕ, List, IfOk, OnOk, OnErr, string_bytes};
ghost use Rattle.std.proofs.Common.{◌∙◌, refl};
ghost use Rattle.line_io.specs.Conduct.{Conduct, conduct, plain, KeepsOn};

use crate::fault::Failed;
use std::alloc::{AllocError, Global};

/// What answers the lines of a run.
pub trait Machine {
    /// The machine before, a line that is not blank, its reply without a line feed, and the machine after.
    ghost replies: { Self → List ℕ → List ℕ → Self → Type 0 };

    /// Answers a line, which has this number among all lines of the source, from 1. Where memory is refused, the machine is asked nothing more.
    /// Then nothing is said of it: it may have taken a step for whose reply there is no memory.
    fn answer(&mut self, alloc: Global, number: u128, line: &[u8]) -> Result<String, AllocError>
        ensures { IfOk result (λ reply. replies self.old line.now (string_bytes reply) self.new) };
}

/// What answers the lines of a run, and makes durable what it did before its replies are written.
pub trait DurableMachine {
    /// The machine before, a line that is not blank, its reply without a line feed, and the machine after.
    ghost replies: { Self → List ℕ → List ℕ → Self → Type 0 };

    /// The machine before, a line for which memory was refused, and what that may leave of the machine.
    /// It may have taken a step for whose reply there is no memory. By default nothing is said.
    ghost starves: { Self → List ℕ → Self → Type 0 } = { λ _ _ _. Unit {0} };

    /// What keeping may change of the machine, whether it succeeds or not.
    ghost keeps: { Self → Self → Type 0 };

    /// What has to be so when replies go out.
    ghost may_tell: { Self → Type 0 };

    /// Keeping has failed.
    ghost has_failed: { Self → Type 0 };

    /// Answers a line, which has this number among all lines of the source, from 1.
    /// Where memory is refused, the machine is asked nothing more, but to keep what it did.
    fn answer(&mut self, alloc: Global, number: u128, line: &[u8]) -> Result<String, AllocError>
        ensures replies { IfOk result (λ reply. replies self.old line.now (string_bytes reply) self.new) }
        ensures starves { OnErr result (starves self.old line.now self.new) };

    /// Makes durable what the machine did. It takes no memory. After a failure the machine is asked nothing more.
    /// It is called right before replies are written, and at the end of a run in any case, also where there is nothing new.
    fn keep(&mut self) -> Result<(), Failed>
        ensures keeps { keeps self.old self.new }
        ensures tells { OnOk result (may_tell self.new) }
        ensures failed { OnErr result (has_failed self.new) };

    /// Keeping may change nothing.
    ghost keeps_nothing: { (m : Self) → keeps m m };

    /// To keep twice is to keep.
    ghost keeps_twice: { (a b c : Self) → keeps a b → keeps b c → keeps a c };
}

/// How a run asks a machine for a reply, and to keep what it did.
pub(crate) trait Mode<M> {
    ghost conduct: { Conduct M };

    fn answer(
        machine: &mut M,
        alloc: Global,
        number: u128,
        line: &[u8],
    ) -> Result<String, AllocError>
        ensures replies { IfOk result (λ reply. conduct.replies machine.old line.now (string_bytes reply) machine.new) }
        ensures starves { OnErr result (conduct.starves machine.old line.now machine.new) };

    fn keep(machine: &mut M) -> Result<(), Failed>
        ensures keeps { conduct.keeps machine.old machine.new }
        ensures tells { OnOk result (conduct.may_tell machine.new) }
        ensures failed { OnErr result (conduct.has_failed machine.new) };

    ghost keeps_on: { KeepsOn conduct };
}

/// The machine has nothing to keep.
pub(crate) struct Plain;

impl<M: Machine> Mode<M> for Plain {
    ghost conduct = { plain M.replies };

    ghost keeps_on = { record { nothing = λ m. refl; twice = λ a b c p q. q ∙ p } };

    fn answer(
        machine: &mut M,
        alloc: Global,
        number: u128,
        line: &[u8],
    ) -> Result<String, AllocError> {
        machine.answer(alloc, number, line)
    }

    fn keep(_machine: &mut M) -> Result<(), Failed> {
        Ok(())
    }
}

/// The machine keeps what it did.
pub(crate) struct Durable;

impl<M: DurableMachine> Mode<M> for Durable {
    ghost conduct = { conduct M.replies M.starves M.keeps M.may_tell M.has_failed };

    ghost keeps_on = { record { nothing = M.keeps_nothing; twice = M.keeps_twice } };

    fn answer(
        machine: &mut M,
        alloc: Global,
        number: u128,
        line: &[u8],
    ) -> Result<String, AllocError> {
        machine.answer(alloc, number, line)
    }

    fn keep(machine: &mut M) -> Result<(), Failed> {
        machine.keep()
    }
}
