//! `Session`: what it reads and stages over the version of its opening.
ghost use Rattle.std.specs.Prelude.{◌≡◌, ◌<◌, map, true, option_map, string_bytes, IfOk, OnOk};
ghost use Rattle.std.specs.Arc.{arc_value};
ghost use Rattle.indexmap.specs.IndexSet.{spare};
ghost use Rattle.std.specs.Option.{option_map_or};
ghost use Rattle.filing_model.specs.Sessions.Calls as call;
ghost use Rattle.filing_model.specs.Sessions.Calls.{report_of_call};
ghost use Rattle.filing_model.specs.Sessions.Repository.{report_at};
ghost use Rattle.oim_fact.specs.Texts.{text_view};
ghost use Rattle.filing_step.specs.PeriodFilter.{period_filter_of};
ghost use Rattle.filing_step.specs.Steps.{call_of, reply_of, thing_of};
ghost use Rattle.filing_version.specs.StampedReports.{repository_in};
ghost use Rattle.filing_session.specs.States.{opened, with_thing};
ghost use Rattle.filing_session.specs.Effects.{effect_in, effect_on, effect_of, with_effect};
ghost use Rattle.filing_session.specs.OpenSession.{Answers};
ghost use Rattle.filing_model.specs.Sessions.Sessions.{may_make};

use crate::hash_keys::HashKeys;
use crate::ready::Ready;
use crate::staging::Staging;
use crate::{reads, writes};
use filing_model::Kind;
use filing_step::{Call, Limit, PageQuery, PeriodFilter, Reply, Thing};
use filing_version::{Change, KeyCache, RepoVersion};
use indexmap::IndexSet;
use oim_fact::{Allowed, DimSet, RawFact};
use std::alloc::{AllocError, Global};
use std::marker::Model;
use std::mem;
use std::sync::Arc;

/// What a session has staged and read.
#[derive(Drop)]
struct Work {
    staging: Staging,
    /// It is made by the second put.
    key_cache: Option<Box<KeyCache>>,
    reads: IndexSet<Thing, HashKeys>,
}

/// An open session. Contracts see its state as its calls leave it, and whether it has capacity for one more thing read.
#[derive(Drop)]
pub struct Session {
    alloc: Global,
    kind: Kind,
    base: Arc<RepoVersion>,
    /// It is boxed, so that maps of sessions have small entries.
    work: Box<Work>,
}

impl Model for Session {
    ghost use Rattle.filing_session.specs.OpenSession.{OpenSession};

    ghost Value = { OpenSession };

    ghost use Rattle.std.specs.Prelude.{map, nat_lt};
    ghost use Rattle.std.specs.Arc.{arc_value};
    ghost use Rattle.indexmap.specs.IndexSet.{spare};
    ghost use Rattle.filing_step.specs.Steps.{thing_of};
    ghost use Rattle.filing_version.specs.StampedReports.{repository_in};

    ghost view = { λ s. record {
      state = record {
        kind = s.kind;
        base = repository_in (arc_value s.base);
        copy = s.work.value.staging.0;
        change = s.work.value.staging.1;
        reads = map thing_of s.work.value.reads.keys;
      };
      has_room = nat_lt 0 (spare s.work.value.reads);
    } };
}

/// Whether a session of this kind may make a call: a review may not change anything.
fn may_make(kind: Kind, call: &Call) -> bool
    ensures { result ≡ may_make kind (call_of call.now) }
{
    match kind {
        Kind::Amend => true,
        Kind::Review => match call {
            Call::Get(..) | Call::Cell(..) | Call::Page(..) | Call::Declared(..) => true,
            Call::Add(..) | Call::Remove(..) | Call::Declare(..) => false,
        },
    }
}

/// Applies what is pending to the version, where a call is answered by facts in order and not by one alone.
fn apply_pending_for(alloc: Global, staging: &mut Staging, call: &Call) -> Result<(), AllocError>
    ensures { staging.new ≡ staging.old }
{
    match call {
        Call::Cell(..) | Call::Page(..) => staging.apply_pending(alloc),
        Call::Get(..) | Call::Add(..) | Call::Remove(..) | Call::Declared(..) | Call::Declare(..) =>
            { Ok(()) }
    }
}

/// Prepares a call that may be made: allocates all that it needs.
fn prepare_call(
    alloc: Global,
    staging: &Staging,
    key_cache: &mut Option<Box<KeyCache>>,
    call: Call,
) -> Result<Ready, AllocError>
    ensures { IfOk result (λ r. r ≡ effect_in (call_of call) staging.now.0 staging.now.1
        (report_at staging.now.0 (report_of_call (call_of call)))) }
{
    match call {
        Call::Get(report, id) => reads::get(staging, report, id),
        Call::Cell(report, dims) => reads::cell(alloc, staging, report, dims),
        Call::Page(report, query, limit) => reads::page(alloc, staging, report, query, limit),
        Call::Add(report, id, fact) => writes::add(alloc, staging, key_cache, report, id, fact),
        Call::Remove(report, id) => writes::remove(alloc, staging, key_cache, report, id),
        Call::Declared(report) => Ok(reads::declared(staging, report)),
        Call::Declare(report, allowed) => writes::declare(staging, report, allowed),
    }
}

/// Prepares a call: allocates all that it needs.
pub(crate) fn effect(
    alloc: Global,
    kind: Kind,
    staging: &Staging,
    key_cache: &mut Option<Box<KeyCache>>,
    call: Call,
) -> Result<Ready, AllocError>
    ensures { IfOk result (λ r. r ≡ effect_of kind (call_of call) staging.now.0 staging.now.1) }
{
    if may_make(kind, &call) {
        prepare_call(alloc, staging, key_cache, call)
    } else {
        Ok(Ready::read_only())
    }
}

/// Enters a thing that was read after the others, unless it is among them. They have capacity for it.
fn enter(reads: &mut IndexSet<Thing, HashKeys>, thing: Option<Thing>)
    requires { 0 < spare reads.old }
    ensures { map thing_of reads.new.keys ≡ with_thing (map thing_of reads.old.keys) (option_map thing_of thing) }
{
    if let Some(thing) = thing {
        match reads.insert(thing) {
            Ok(_) => {}
            Err(_) => unreachable!(),
        }
    }
}

/// What is staged now takes the place of what was staged before.
fn put_in_place(staging: &mut Staging, staged: Option<Staging>)
    ensures copied { staging.new.0 ≡ option_map_or (λ s. s.0) staged staging.old.0 }
    ensures changed { staging.new.1 ≡ option_map_or (λ s. s.1) staged staging.old.1 }
{
    if let Some(staged) = staged {
        drop(mem::replace(staging, staged));
    }
}

impl Session {
    /// A session at this version.
    pub fn open(alloc: Global, kind: Kind, base: Arc<RepoVersion>) -> Result<Session, AllocError>
        ensures { IfOk result (λ s. s.state ≡ opened kind (repository_in (arc_value base))) }
    {
        Session::open_with_keys(alloc, HashKeys::Fixed, kind, base)
    }

    /// A session at this version, which hashes what it reads by these keys.
    pub fn open_with_keys(
        alloc: Global,
        keys: HashKeys,
        kind: Kind,
        base: Arc<RepoVersion>,
    ) -> Result<Session, AllocError>
        ensures { IfOk result (λ s. s.state ≡ opened kind (repository_in (arc_value base))) }
    {
        let version = Arc::try_clone(&base)?;
        let work = Work {
            staging: Staging::new(alloc, version),
            key_cache: None,
            reads: IndexSet::with_hasher(alloc, keys),
        };
        Ok(Session {
            alloc,
            kind,
            base,
            work: Box::new(alloc, work)?,
        })
    }

    pub fn kind(&self) -> Kind
        ensures { result ≡ self.now.state.kind }
    {
        self.kind
    }

    /// The version of its opening.
    pub fn base(&self) -> &Arc<RepoVersion>
        ensures { repository_in (arc_value result.now) ≡ self.now.state.base }
    {
        &self.base
    }

    /// The things that it has read, in the order in which it first read each.
    pub fn reads(&self) -> &IndexSet<Thing, HashKeys>
        ensures { map thing_of result.now.keys ≡ self.now.state.reads }
    {
        &self.work.reads
    }

    /// What it has staged.
    pub fn change(&self) -> &Change
        ensures { result.now ≡ self.now.state.change }
    {
        self.work.staging.change()
    }

    /// Prepares a call: allocates all that it needs. No reply changes, and nothing is read or staged.
    pub fn ready(&mut self, call: Call) -> Result<Ready, AllocError>
        ensures effect { IfOk result (λ r. r ≡ effect_on (call_of call) self.old.state) }
        ensures room { OnOk result (self.new.has_room ≡ true) }
        ensures state { self.new.state ≡ self.old.state }
    {
        let work: &mut Work = &mut self.work;
        work.reads.reserve(1)?;
        apply_pending_for(self.alloc, &mut work.staging, &call)?;
        effect(
            self.alloc,
            self.kind,
            &work.staging,
            &mut work.key_cache,
            call,
        )
    }

    /// Does what is ready. It takes no memory. Where nothing but readers was called since it was made ready, this is the call (`each_effect_is_its_call`).
    pub fn take(&mut self, ready: Ready) -> Reply
        requires { self.old.has_room ≡ true }
        ensures reply { reply_of result ≡ ready.reply }
        ensures state { self.new.state ≡ with_effect ready self.old.state }
    {
        let Ready {
            reply,
            thing,
            staged,
        } = ready;
        let work: &mut Work = &mut self.work;
        enter(&mut work.reads, thing);
        put_in_place(&mut work.staging, staged);
        reply
    }

    /// Makes a call.
    pub fn call(&mut self, call: Call) -> Result<Reply, AllocError>
        ensures { Answers (call_of call) self.old.state self.new.state result }
    {
        let ready = self.ready(call)?;
        Ok(self.take(ready))
    }

    /// The fact of an identifier.
    pub fn get(&mut self, report: String, id: String) -> Result<Reply, AllocError>
        ensures { Answers (call.Get (string_bytes report) (string_bytes id)) self.old.state self.new.state result }
    {
        self.call(Call::Get(report, id))
    }

    /// The class of a cell, and the identifiers of its facts.
    pub fn cell(&mut self, report: String, dims: DimSet) -> Result<Reply, AllocError>
        ensures { Answers (call.Cell (string_bytes report) dims) self.old.state self.new.state result }
    {
        self.call(Call::Cell(report, dims))
    }

    /// The first identifiers, as many as the limit, of the facts with a concept and a period that passes the filter.
    /// If `after` is given, they are all greater than it.
    pub fn page(
        &mut self,
        report: String,
        concept: String,
        period: PeriodFilter,
        after: Option<String>,
        limit: Limit,
    ) -> Result<Reply, AllocError>
        ensures { Answers (call.Page (string_bytes report) (record {
          concept = string_bytes concept;
          period = period_filter_of period;
          after = text_view after;
        }) limit) self.old.state self.new.state result }
    {
        let query = PageQuery {
            concept,
            period,
            after,
        };
        self.call(Call::Page(report, query, limit))
    }

    /// A fact goes under an identifier that is not there.
    pub fn add(&mut self, report: String, id: String, fact: RawFact) -> Result<Reply, AllocError>
        ensures { Answers (call.Add (string_bytes report) (string_bytes id) fact) self.old.state self.new.state result }
    {
        self.call(Call::Add(report, id, fact))
    }

    /// The fact of an identifier goes away.
    pub fn remove(&mut self, report: String, id: String) -> Result<Reply, AllocError>
        ensures { Answers (call.Remove (string_bytes report) (string_bytes id)) self.old.state self.new.state result }
    {
        self.call(Call::Remove(report, id))
    }

    /// The allowed duplicates that a report declares.
    pub fn declared(&mut self, report: String) -> Result<Reply, AllocError>
        ensures { Answers (call.Declared (string_bytes report)) self.old.state self.new.state result }
    {
        self.call(Call::Declared(report))
    }

    /// A report declares these allowed duplicates from now on.
    pub fn declare(&mut self, report: String, allowed: Allowed) -> Result<Reply, AllocError>
        ensures { Answers (call.Declare (string_bytes report) allowed) self.old.state self.new.state result }
    {
        self.call(Call::Declare(report, allowed))
    }
}
