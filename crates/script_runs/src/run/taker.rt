//! `TakesSteps`: what takes the steps of a script.

ghost use Rattle.std.specs.Prelude.{◌≡◌, IfOk, string_bytes};
ghost use Rattle.filing_model.specs.Histories.History.{History};
ghost use Rattle.filing_step.specs.Steps.{step_of};
ghost use Rattle.filing_core.specs.Engines.{IsEngineOf};
ghost use Rattle.script_runs.specs.StepsTaken.{IsTold, Takes, Tells};

use crate::run::machine::Answer;
use filing_core::{Core, CoreFault, Engine, EngineFault, Reply, Step};
use script_format::no_session_reply;
use std::alloc::{AllocError, Global};

/// What takes one step after another: a core, which keeps their history, or an engine, which keeps none of them.
pub(crate) trait TakesSteps {
    /// Whether these are the steps that it has taken, with their replies.
    ghost has_taken: { Self → History → Type 0 };

    /// What a step may change, whatever it is answered.
    ghost steps_on: { Self → Self → Type 0 };

    /// Takes one step, and gives its reply. Where the session is not open, none is taken, and the answer says so.
    fn take_step(
        &mut self,
        alloc: Global,
        session: Option<u64>,
        step: Step,
    ) -> Result<Answer, AllocError>
        ensures answers { (h : History) → has_taken self.old h → IfOk result
            (λ answer. Tells (has_taken self.new) h session (step_of step) (string_bytes answer.text)) }
        ensures steps_on { steps_on self.old self.new };

    /// Notes the name under which a step opened the session of this number. It changes nothing of what was taken.
    fn note_name(&mut self, alloc: Global, number: u64, name: &str) -> Result<(), AllocError>
        ensures taken { (h : History) → has_taken self.old h → has_taken self.new h }
        ensures steps_on { (before : Self) → steps_on before self.old → steps_on before self.new }
    {
        Ok(())
    }

    /// The engine that took them.
    fn as_engine(&self) -> &Engine
        ensures { (h : History) → has_taken self.now h → IsEngineOf h result.now };

    /// A step may change nothing.
    ghost stays: { (t : Self) → steps_on t t };
}

/// Takes a step of an engine. Where no further step can be counted, it reports out of memory.
pub(crate) fn step_of_engine(
    engine: &mut Engine,
    alloc: Global,
    session: Option<u64>,
    step: Step,
) -> Result<Reply, CoreFault>
    ensures { (h : History) → IsEngineOf h engine.old
        → Takes (λ h. IsEngineOf h engine.new) h session (step_of step) result }
{
    match engine.step(alloc, session, step) {
        Ok(reply) => Ok(reply),
        Err(EngineFault::NoSession) => Err(CoreFault::NoSession),
        Err(EngineFault::NoMemory | EngineFault::Full) => Err(CoreFault::NoMemory),
    }
}

/// Takes a step of a core.
fn step_of_core(
    core: &mut Core,
    alloc: Global,
    session: Option<u64>,
    step: Step,
) -> Result<Reply, CoreFault>
    ensures { (h : History) → core.old.history ≡ h
        → Takes (λ h. core.new.history ≡ h) h session (step_of step) result }
{
    core.step(alloc, session, step)
}

/// The answer that reports what became of a step.
fn answer_of(alloc: Global, outcome: Result<Reply, CoreFault>) -> Result<Answer, AllocError>
    ensures { IfOk result (λ answer. IsTold outcome (string_bytes answer.text)) }
{
    match outcome {
        Ok(reply) => Answer::of_reply(alloc, reply),
        Err(CoreFault::NoSession) => Answer::of_str(alloc, no_session_reply()),
        Err(CoreFault::NoMemory) => Err(AllocError),
    }
}

impl TakesSteps for Core {
    ghost has_taken = { λ c h. c.history ≡ h };

    ghost steps_on = { λ _ _. Unit {0} };

    ghost stays = { λ _. tt };

    fn take_step(
        &mut self,
        alloc: Global,
        session: Option<u64>,
        step: Step,
    ) -> Result<Answer, AllocError> {
        let outcome = step_of_core(self, alloc, session, step);
        answer_of(alloc, outcome)
    }

    fn as_engine(&self) -> &Engine {
        self.engine()
    }
}

impl TakesSteps for Engine {
    ghost has_taken = { λ e h. IsEngineOf h e };

    ghost steps_on = { λ _ _. Unit {0} };

    ghost stays = { λ _. tt };

    fn take_step(
        &mut self,
        alloc: Global,
        session: Option<u64>,
        step: Step,
    ) -> Result<Answer, AllocError> {
        let outcome = step_of_engine(self, alloc, session, step);
        answer_of(alloc, outcome)
    }

    fn as_engine(&self) -> &Engine {
        self
    }
}
