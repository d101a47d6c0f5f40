//! `Shared`: what the lock lends to a step, and the step on it.

ghost use Rattle.std.specs.Prelude.{◌≡◌, ◌<◌, ◌^◌, ◌∷◌, ◌++◌, [], ℕ, Option, true, false, Some, option_map, string_bytes, vec_len, All, IfOk, OnOk, OnErr};
ghost use Rattle.std.specs.Option.{option_map_or};
ghost use Rattle.filing_model.specs.Sessions.Repository.{nothing};
ghost use Rattle.filing_model.specs.Histories.History.{Entry, History, Load};
ghost use Rattle.filing_model.specs.Histories.Versions.{IsChain, versions};
ghost use Rattle.filing_version.specs.StampedReports.{StampedReports, repository_in};
ghost use Rattle.filing_step.specs.Steps.{step_of};
ghost use Rattle.filing_core.specs.Prepared.{MayFollow};
ghost use Rattle.filing_office.specs.Answers.{ApplyAnswers, IsSettled, step_made_ready};

use crate::answer::Answer;
use crate::ready_step::ReadyStep;
use filing_core::{Core, CoreFault, HashKeys, Prepared, Step};
use filing_publish::{
    Naming, OfficeFault, PendingPublish, Publisher, Receipt, Reviewer, UnopenedLog,
};
use filing_version::IndexedReport;
use std::alloc::{AllocError, Global};
use std::marker::Model;
use std::sync::Wait;

/// What the lock lends to a step: the core, and what publishes its versions. The list that is published is that of the versions of the history.
/// Contracts see the history, newest entry first. It is not `Drop`, as what publishes is not: end it by `close`.
pub struct Shared<J: Naming> {
    pub(crate) core: Core,
    pub(crate) publisher: Publisher<J>,
}

impl<J: Naming> Model for Shared<J> {
    ghost use Rattle.std.specs.Prelude.{◌≡◌};
    ghost use Rattle.filing_model.specs.Histories.History.{History};
    ghost use Rattle.filing_model.specs.Histories.Versions.{versions};

    ghost Value = { History };

    ghost view = { λ s. s.core.history };

    ghost invariant = { λ s. s.publisher ≡ versions s.core.history };
}

/// Publishes the version of a prepared step, where it makes one.
fn publish_next<J: Naming, R: Wait>(
    rt: &R,
    publisher: &mut Publisher<J>,
    prepared: &Prepared,
) -> Result<Option<Receipt<J>>, AllocError>
    requires { (v : StampedReports) → prepared.now.next ≡ Some v → IsChain (publisher.old ++ repository_in v ∷ []) }
    ensures published { OnOk result (publisher.new
        ≡ publisher.old ++ option_map_or (λ v. repository_in v ∷ []) prepared.now.next []) }
    ensures told { IfOk result (λ r. r ≡ option_map (λ _. publisher.new) prepared.now.next) }
    ensures err { OnErr result (publisher.new ≡ publisher.old) }
{
    match prepared.next() {
        None => Ok(None),
        Some(version) => {
            let pending = PendingPublish::of(version)?;
            Ok(Some(publisher.publish(rt, pending)))
        }
    }
}

/// The session of the newest entry.
fn last_session(core: &Core) -> Option<u64>
    ensures { (older : History) (e : Entry) → core.now.history ≡ e ∷ older → result ≡ e.session }
{
    match core.history().last() {
        None => None,
        Some(entry) => entry.session,
    }
}

/// Publishes the version that a prepared step makes, and enters the step.
fn publish_and_settle<J: Naming, R: Wait>(
    rt: &R,
    core: &mut Core,
    publisher: &mut Publisher<J>,
    prepared: Prepared,
) -> Result<Answer<J>, AllocError>
    requires room { core.old.has_room ≡ true }
    requires follows { MayFollow core.old.history prepared }
    requires list { publisher.old ≡ versions core.old.history }
    ensures list { publisher.new ≡ versions core.new.history }
    ensures settled { IfOk result (IsSettled core.old.history core.new.history prepared) }
    ensures err { OnErr result (core.new.history ≡ core.old.history) }
{
    let receipt = match publish_next(rt, publisher, &prepared) {
        Ok(receipt) => receipt,
        Err(error) => {
            drop(prepared);
            return Err(error);
        }
    };
    let reply = core.settle(prepared);
    Ok(Answer {
        session: last_session(core),
        reply,
        receipt,
    })
}

/// Takes one step under the lock. A version that it makes is published before the answer.
/// All growths are made before the first change, and publishing cannot fail.
pub fn apply_in<J: Naming, R: Wait>(
    rt: &R,
    alloc: Global,
    shared: &mut Shared<J>,
    session: Option<u64>,
    step: Step,
) -> Result<Answer<J>, CoreFault>
    ensures { ApplyAnswers shared.old shared.new session (step_of step) result }
{
    match step {
        Step::Load(_, _) | Step::Commit => shared.publish(rt, alloc, session, step),
        step => shared.enter(alloc, session, step),
    }
}

/// Takes a step that was made ready, under the lock. A version that it makes is published before the answer.
pub(crate) fn apply_ready<J: Naming, R: Wait>(
    rt: &R,
    alloc: Global,
    shared: &mut Shared<J>,
    session: Option<u64>,
    step: ReadyStep,
) -> Result<Answer<J>, CoreFault>
    ensures { ApplyAnswers shared.old shared.new session (step_made_ready step) result }
{
    match step {
        ReadyStep::Load(name, report) => shared.load(rt, alloc, name, report),
        ReadyStep::Other(step) => apply_in(rt, alloc, shared, session, step),
    }
}

impl<J: Naming> Shared<J> {
    ghost use Rattle.filing_core.specs.Prepared.{is_load_or_commit};

    /// An empty history and what publishes its versions, with this many reviewers, of which each has seen the empty repository alone.
    /// An office lends one under its lock; whoever keeps one, under a lock of their own or none, takes steps on it by `apply_in`.
    pub fn open<R: Wait>(
        rt: &R,
        alloc: Global,
        keys: HashKeys,
        unopened_log: UnopenedLog,
        reviewers: usize,
    ) -> Result<(Shared<J>, Vec<Reviewer<J>>), OfficeFault>
        requires book { unopened_log.seen.book ≡ J.book }
        requires some { (0 < reviewers) × (reviewers < 2 ^ 32) }
        ensures begins { IfOk result (λ o. o.0 ≡ []) }
        ensures reviewers { IfOk result (λ o. vec_len o.1 ≡ reviewers) }
        ensures seen { IfOk result (λ o. All (λ r. r ≡ nothing ∷ []) o.1.items) }
    {
        let core = Core::with_keys(alloc, keys)?;
        match Publisher::open(rt, alloc, unopened_log, reviewers) {
            Ok((publisher, reviewers)) => Ok((Shared { core, publisher }, reviewers)),
            Err(fault) => {
                drop(core);
                Err(fault)
            }
        }
    }

    /// Enters a step that makes no version.
    fn enter(
        &mut self,
        alloc: Global,
        session: Option<u64>,
        step: Step,
    ) -> Result<Answer<J>, CoreFault>
        requires { is_load_or_commit (step_of step) ≡ false }
        ensures { ApplyAnswers self.old self.new session (step_of step) result }
    {
        let reply = self.core.step(alloc, session, step)?;
        Ok(Answer {
            session: last_session(&self.core),
            reply,
            receipt: None,
        })
    }

    /// Enters a load or a commit, and publishes the version that it makes.
    fn publish<R: Wait>(
        &mut self,
        rt: &R,
        alloc: Global,
        session: Option<u64>,
        step: Step,
    ) -> Result<Answer<J>, CoreFault>
        requires { is_load_or_commit (step_of step) ≡ true }
        ensures { ApplyAnswers self.old self.new session (step_of step) result }
    {
        let prepared = self.core.prepare(alloc, session, step)?;
        Ok(publish_and_settle(rt, &mut self.core, &mut self.publisher, prepared)?)
    }

    /// Enters a load, and publishes the version that it makes.
    fn load<R: Wait>(
        &mut self,
        rt: &R,
        alloc: Global,
        name: String,
        report: IndexedReport,
    ) -> Result<Answer<J>, CoreFault>
        ensures { (session : Option ℕ)
            → ApplyAnswers self.old self.new session (Load (string_bytes name) report) result }
    {
        let prepared = self.core.prepare_load(alloc, name, report)?;
        Ok(publish_and_settle(rt, &mut self.core, &mut self.publisher, prepared)?)
    }

    /// Takes back what publishes, and gives the core. It waits for the readers of reviews that are being opened; reviews that are kept go on answering.
    pub fn close<R: Wait>(self, rt: &R) -> Core
        ensures { result.history ≡ self }
    {
        let Shared { core, publisher } = self;
        publisher.give_up(rt);
        core
    }
}
