//! `NamedDesk`: a desk that takes steps under names, and what each of them becomes.

ghost use Rattle.std.specs.Prelude.{◌≡◌, ℕ, List, cond, None, Some, IsSome, IsTrue, All, length, string_bytes, IfOk, OnErr, OnOk};
ghost use mathlib.Core.List.{IsPrefix};
ghost use Rattle.filing_model.specs.Common.TextMap.{empty, get, insert, remove};
ghost use Rattle.filing_model.specs.Sessions.Repository.{Repository};
ghost use Rattle.filing_step.specs.Steps.{reply_of, step_of};
ghost use Rattle.filing_office.specs.Answers.{is_of_session};
ghost use Rattle.filing_office.specs.declared.outcome.Outcome.{Outcome as Told};
ghost use Rattle.filing_office.specs.declared.outcome.Outcome.TheVariants.{Answered};
ghost use Rattle.filing_office.specs.declared.session_place.SessionPlace.TheVariants as place;
ghost use Rattle.filing_office.specs.Runs.{ends_session, names_after, reply_of_review, outcome_of, Loads, OpensUnder, OfficeOpens, ReviewOpens, StepsUnder, GoesOnAt, Goes, IsReviewedFrom, IsLearnt, IsWithin, Learns};

use crate::access::Access;
use crate::answer::Answer;
use crate::desk::Desk;
use crate::outcome::Outcome;
use crate::session_place::SessionPlace;
use crate::work::DeskStep;
use filing_core::{CoreFault, Step};
use filing_publish::{Naming, Review, Reviewer};
use filing_step::{Kind, Reply};
use oim_report::Report;
use std::alloc::{AllocError, Global};
use std::marker::Model;
use std::sync::Arc;
use std::sync::ledger::Ledger;
use text_map::NameMap;

/// A desk that takes steps under names. Contracts see what is known of it, and of how many outcomes its reviewer has learnt the receipts.
#[derive(Drop)]
pub struct NamedDesk<L: Ledger + Naming, M: Ledger> {
    alloc: Global,
    desk: Desk<L, M>,
    reviewer: Option<Reviewer<L>>,
    names: NameMap<SessionPlace>,
    learnt: usize,
}

impl<L: Ledger + Naming, M: Ledger> Model for NamedDesk<L, M> {
    ghost use Rattle.filing_office.specs.Runs.{NamedDeskState};

    ghost Value = { NamedDeskState };

    ghost view = { λ t. record {
      state = record { tally = t.desk; seen = t.reviewer; names = t.names };
      learnt = t.learnt;
    } };
}

/// Whether a session ends by the step.
fn ends_session(step: &Step) -> bool
    ensures { result ≡ ends_session (step_of step.now) }
{
    match step {
        Step::Commit | Step::Close => true,
        _ => false,
    }
}

/// The reply that a review gives to a step of its session.
fn reply_of_review(alloc: Global, review: &Review, step: Step) -> Result<Reply, AllocError>
    ensures { IfOk result (λ r. reply_of r ≡ reply_of_review review.now (step_of step)) }
{
    match step.into_call() {
        Some(call) => review.call(alloc, call),
        None => Ok(Reply::Closed),
    }
}

/// The answer of a review, which has neither a session nor a receipt.
fn review_outcome<J: Naming>(reply: Reply) -> Outcome<J>
    ensures { result ≡ Answered (record { session = None; reply = reply; receipt = None }) }
{
    Outcome::Answered(Answer {
        session: None,
        reply,
        receipt: None,
    })
}

/// Takes in the receipt, if any, of an outcome.
fn learn_one<J: Naming>(reviewer: &mut Reviewer<J>, outcome: &Outcome<J>) -> Result<(), AllocError>
    ensures goes_on { IsPrefix reviewer.old reviewer.new }
    ensures learnt { OnOk result (IsWithin (length reviewer.new) outcome.now) }
{
    match outcome.receipt() {
        Some(receipt) => reviewer.learn(receipt),
        None => Ok(()),
    }
}

/// Takes in the receipts of outcomes.
fn learn_all<J: Naming>(
    reviewer: &mut Reviewer<J>,
    outcomes: &[Outcome<J>],
) -> Result<(), AllocError>
    ensures goes_on { IsPrefix reviewer.old reviewer.new }
    ensures learnt { OnOk result (All (IsWithin (length reviewer.new)) outcomes.now) }
{
    for outcome in outcomes {
        learn_one(reviewer, outcome)?;
    }
    Ok(())
}

impl<L: Ledger + Naming, M: Ledger> NamedDesk<L, M> {
    /// A desk under names before its first step.
    pub fn new(alloc: Global, desk: Desk<L, M>, reviewer: Option<Reviewer<L>>) -> NamedDesk<L, M>
        ensures state { result.state ≡ record { tally = desk; seen = reviewer; names = empty } }
        ensures learnt { (told : List (Told L)) → IsLearnt result told }
    {
        NamedDesk {
            alloc,
            desk,
            reviewer,
            names: NameMap::new(alloc),
            learnt: 0,
        }
    }

    /// The desk and its reviewer.
    pub fn into_parts(self) -> (Desk<L, M>, Option<Reviewer<L>>)
        ensures tally { result.0 ≡ self.state.tally }
        ensures seen { result.1 ≡ self.state.seen }
    {
        let NamedDesk {
            desk,
            reviewer,
            names,
            ..
        } = self;
        drop(names);
        (desk, reviewer)
    }

    /// Takes a load.
    fn load<A: Access<L, M>>(
        &mut self,
        access: &mut A,
        name: String,
        report: Arc<Report>,
    ) -> Result<Outcome<L>, AllocError>
        ensures loads { Loads self.old.state self.new.state (outcome_of result) }
        ensures learnt { self.new.learnt ≡ self.old.learnt }
    {
        match access.step(&mut self.desk, None, Step::Load(name, report)) {
            Ok(answer) => Ok(Outcome::Answered(answer)),
            Err(CoreFault::NoSession) => unreachable!(),
            Err(CoreFault::NoMemory) => Err(AllocError),
        }
    }

    /// Opens a session under the lock. The name is in use before, so that it can be when the session is open.
    fn open_at_office<A: Access<L, M>>(
        &mut self,
        access: &mut A,
        name: String,
        kind: Kind,
    ) -> Result<Outcome<L>, AllocError>
        requires free { get self.old.state.names (string_bytes name) ≡ None }
        ensures opens { OfficeOpens self.old.state self.new.state (string_bytes name) (outcome_of result) }
        ensures learnt { self.new.learnt ≡ self.old.learnt }
    {
        self.names.insert(name.clone()?, SessionPlace::Office(0))?;
        match access.step(&mut self.desk, None, Step::Open(kind)) {
            Ok(answer) => {
                self.set_session(name, &answer);
                Ok(Outcome::Answered(answer))
            }
            Err(_) => {
                self.names.remove(&name);
                Err(AllocError)
            }
        }
    }

    /// Makes a name that is in use mean the session of an answer.
    fn set_session(&mut self, name: String, answer: &Answer<L>)
        requires used { IsSome (get self.old.state.names (string_bytes name)) }
        requires session { IsSome answer.now.session }
        ensures { (n : ℕ) → answer.now.session ≡ Some n → self.new
            ≡ record self.old {
              state =
                  record self.old.state { names = insert self.old.state.names (string_bytes name) (place.Office n) };
            } }
    {
        let Some(number) = answer.session else {
            unreachable!()
        };
        if self
            .names
            .insert(name, SessionPlace::Office(number))
            .is_err()
        {
            unreachable!()
        }
    }

    /// Learns the receipts of outcomes now, so that none of them is needed for a later review.
    pub fn learn(&mut self, told: &[Outcome<L>]) -> Result<(), AllocError>
        requires learnt { IsLearnt self.old told.now }
        ensures learns { Learns self.old.state self.new.state told.now self.old.state.seen result }
        ensures none { OnOk result ((others : List (Told L)) → IsLearnt self.new others) }
        ensures err { OnErr result (IsLearnt self.new told.now) }
    {
        let Some(reviewer) = &mut self.reviewer else {
            self.learnt = 0;
            return Ok(());
        };
        let others = &told[self.learnt..];
        if learn_all(reviewer, others).is_err() {
            return Err(AllocError);
        }
        self.learnt = 0;
        Ok(())
    }

    /// A review of the reviewer, which first learns the receipts of the outcomes.
    fn review(&mut self, told: &[Outcome<L>]) -> Result<Review, AllocError>
        requires there { IsSome self.old.state.seen }
        requires learnt { IsLearnt self.old told.now }
        ensures opened { IsReviewedFrom self.old self.new told.now result }
        ensures learnt { IsLearnt self.new told.now }
    {
        let Some(reviewer) = &mut self.reviewer else {
            unreachable!()
        };
        if learn_all(reviewer, &told[self.learnt..]).is_err() {
            return Err(AllocError);
        }
        self.learnt = told.len();
        reviewer.open()
    }

    /// Opens a session at a version of the reviewer.
    fn open_review(&mut self, name: String, told: &[Outcome<L>]) -> Result<Outcome<L>, AllocError>
        requires there { IsSome self.old.state.seen }
        requires learnt { IsLearnt self.old told.now }
        ensures opens { (seen : List Repository) → self.old.state.seen ≡ Some seen
            → ReviewOpens self.old.state self.new.state told.now (string_bytes name) seen (outcome_of result) }
        ensures learnt { IsLearnt self.new told.now }
    {
        let review = self.review(told)?;
        self.names.insert(name, SessionPlace::Review(review))?;
        Ok(review_outcome(Reply::Opened))
    }

    /// Opens a session under a name. The lock is kept over the opening of a review.
    fn open<A: Access<L, M>>(
        &mut self,
        access: &mut A,
        name: String,
        kind: Kind,
        told: &[Outcome<L>],
    ) -> Result<Outcome<L>, AllocError>
        requires learnt { IsLearnt self.old told.now }
        ensures opens { OpensUnder self.old.state self.new.state told.now (string_bytes name) kind
            (get self.old.state.names (string_bytes name)) (outcome_of result) }
        ensures learnt { IsLearnt self.new told.now }
    {
        if self.names.get(&name).is_some() {
            return Ok(Outcome::NameInUse);
        }
        if self.reviewer.is_none() {
            return self.open_at_office(access, name, kind);
        }
        match kind {
            Kind::Review => self.open_review(name, told),
            Kind::Amend => self.open_at_office(access, name, kind),
        }
    }

    /// Frees a name whose session has ended.
    fn free_name(&mut self, name: &str, ended: bool)
        ensures { self.new ≡ record self.old {
          state = record self.old.state {
            names = cond ended (remove self.old.state.names name.now) self.old.state.names;
          };
        } }
    {
        if ended {
            self.names.remove(name);
        }
    }

    /// Takes a step of a session under the lock.
    fn step_at_office<A: Access<L, M>>(
        &mut self,
        access: &mut A,
        name: &str,
        number: u64,
        step: Step,
    ) -> Result<Outcome<L>, AllocError>
        requires of_session { IsTrue (is_of_session (step_of step)) }
        ensures goes { GoesOnAt self.old.state self.new.state name.now (step_of step) (place.Office number)
            (outcome_of result) }
        ensures learnt { self.new.learnt ≡ self.old.learnt }
    {
        let ended = ends_session(&step);
        match access.step(&mut self.desk, Some(number), step) {
            Ok(answer) => {
                self.free_name(name, ended);
                Ok(Outcome::Answered(answer))
            }
            Err(CoreFault::NoSession) => {
                self.free_name(name, true);
                Ok(Outcome::NoSession)
            }
            Err(CoreFault::NoMemory) => Err(AllocError),
        }
    }

    /// Takes a step of the session of a name. The lock is given back for what a review reads.
    /// It is kept over the end of a review, which takes less than to come by the lock again.
    fn step_in_session<A: Access<L, M>>(
        &mut self,
        access: &mut A,
        name: &str,
        step: Step,
    ) -> Result<Outcome<L>, AllocError>
        requires of_session { IsTrue (is_of_session (step_of step)) }
        ensures goes { StepsUnder self.old.state self.new.state name.now (step_of step)
            (get self.old.state.names name.now) (outcome_of result) }
        ensures learnt { self.new.learnt ≡ self.old.learnt }
    {
        match self.names.get(name) {
            None => {
                drop(step);
                Ok(Outcome::NoSession)
            }
            Some(SessionPlace::Office(number)) => {
                let number = *number;
                self.step_at_office(access, name, number, step)
            }
            Some(SessionPlace::Review(review)) => {
                let is_end = ends_session(&step);
                if !is_end {
                    access.leave();
                }
                let reply = reply_of_review(self.alloc, review, step)?;
                self.free_name(name, is_end);
                Ok(review_outcome(reply))
            }
        }
    }

    /// Takes a step, or reports out of memory.
    fn try_take<A: Access<L, M>>(
        &mut self,
        access: &mut A,
        step: DeskStep,
        told: &[Outcome<L>],
    ) -> Result<Outcome<L>, AllocError>
        requires learnt { IsLearnt self.old told.now }
        ensures goes { Goes self.old.state self.new.state told.now (string_bytes step.name) (step_of step.step)
            (outcome_of result) }
        ensures learnt { IsLearnt self.new told.now }
    {
        let DeskStep { name, step } = step;
        match step {
            Step::Load(report_name, report) => self.load(access, report_name, report),
            Step::Open(kind) => self.open(access, name, kind, told),
            step => self.step_in_session(access, &name, step),
        }
    }

    /// Takes a step, after these outcomes.
    pub fn take<A: Access<L, M>>(
        &mut self,
        access: &mut A,
        step: DeskStep,
        told: &[Outcome<L>],
    ) -> Outcome<L>
        requires learnt { IsLearnt self.old told.now }
        ensures goes { Goes self.old.state self.new.state told.now (string_bytes step.name) (step_of step.step) result }
        ensures learnt { IsLearnt self.new told.now }
    {
        match self.try_take(access, step, told) {
            Ok(outcome) => outcome,
            Err(AllocError) => Outcome::NoMemory,
        }
    }
}
