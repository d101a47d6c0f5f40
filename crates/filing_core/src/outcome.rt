//! `Outcome`: the reply to a load or a commit, and the version that it makes.
ghost use Rattle.std.specs.Prelude.{◌≡◌, ◌+◌, ◌<◌, ◌^◌, None, Some, true, IfOk, max, option_map};
ghost use Rattle.filing_model.specs.Common.Text.{Text};
ghost use Rattle.filing_model.specs.Common.TextMap.{get as value_at};
ghost use Rattle.filing_model.specs.Sessions.Repository.{report_at};
ghost use Rattle.filing_model.specs.Sessions.Sessions.{repository_obeys};
ghost use Rattle.filing_step.specs.Steps.{reply_of, thing_of};
ghost use Rattle.filing_version.specs.StampedReports.{repository_in, version_in};
ghost use Rattle.filing_core.specs.Outcomes.{Makes, change_told, commit_told};
ghost use Rattle.filing_model.specs.Histories.Lawful.{load_reply};
ghost use Rattle.filing_model.specs.Histories.Stamps.{version_after, version_with};
ghost use Rattle.filing_laws.specs.Stamping.StampedVersions.{first_stamped};
ghost use Rattle.filing_laws.specs.Updating.NetChange.{refusal_at};
ghost use Rattle.filing_model.specs.Sessions.Things as thing;

use filing_session::{Session, period_of, texts_of};
use filing_step::{Kind, PageQuery, Reply, Thing};
use filing_version::{Change, IndexedReport, RepoVersion};
use oim_fact::DimSet;
use std::alloc::{AllocError, Global};
use std::marker::Model;
use std::sync::Arc;

/// A reply, and the version that it leaves, where it leaves another. All memory for both is taken, and to drop it changes nothing.
#[derive(Drop)]
pub(crate) struct Outcome {
    pub(crate) reply: Reply,
    pub(crate) next: Option<Arc<RepoVersion>>,
}

impl Model for Outcome {
    ghost use Rattle.filing_core.specs.Outcomes.{Outcome as PlainOutcome};

    ghost Value = { PlainOutcome };

    ghost use Rattle.std.specs.Prelude.{option_map};
    ghost use Rattle.std.specs.Arc.{arc_value};
    ghost use Rattle.filing_step.specs.Steps.{reply_of};

    ghost view = { λ o. record { reply = reply_of o.reply; next = option_map arc_value o.next } };
}

/// A reply that leaves the version as it is.
fn reply_alone(reply: Reply) -> Outcome
    ensures { result ≡ record { reply = reply_of reply; next = None } }
{
    Outcome { reply, next: None }
}

/// A reply that leaves this version.
fn reply_with(alloc: Global, reply: Reply, next: RepoVersion) -> Result<Outcome, AllocError>
    ensures { IfOk result (λ o. o ≡ record { reply = reply_of reply; next = Some next }) }
{
    match Arc::new(alloc, next) {
        Ok(next) => Ok(Outcome {
            reply,
            next: Some(next),
        }),
        Err(fault) => {
            drop(reply);
            drop(fault);
            Err(AllocError)
        }
    }
}

/// The outcome of a load. A name that is taken comes first. A version that it makes shares the report's facts.
pub(crate) fn load_outcome(
    alloc: Global,
    current: &RepoVersion,
    name: &str,
    report: IndexedReport,
) -> Result<Outcome, AllocError>
    requires { (repository_in current.now).count + 1 < 2 ^ 64 }
    ensures { IfOk result (λ o. Makes o (load_reply (repository_in current.now) name.now report)
        (version_with name.now report (version_in current.now))) }
{
    if current.has(name) {
        return Ok(reply_alone(Reply::NameTaken));
    }
    let next = current.with_indexed_report(alloc, String::from_str(alloc, name)?, report)?;
    match next.disallowed_in(name) {
        None => {
            let reply = Reply::Loaded(next.number());
            reply_with(alloc, reply, next)
        }
        Some(dims) => {
            let reply = disallowed_reply(alloc, &next, name, dims);
            drop(next);
            Ok(reply_alone(reply?))
        }
    }
}

/// The outcome of a change that no conflict refuses.
fn change_outcome(
    alloc: Global,
    current: &RepoVersion,
    change: &Change,
) -> Result<Outcome, AllocError>
    requires there { (name : Text) → report_at (repository_in current.now) name ≡ None
        → value_at change.now name ≡ None }
    requires few { (repository_in current.now).count + 1 < 2 ^ 64 }
    requires obeys { repository_obeys (repository_in current.now) ≡ true }
    ensures { IfOk result (λ o. Makes o (change_told (version_in current.now) change.now)
        (version_after change.now (version_in current.now))) }
{
    let next = current.after(alloc, change)?;
    match next.first_disallowed(change) {
        None => {
            let reply = Reply::Committed(next.number());
            reply_with(alloc, reply, next)
        }
        Some((name, dims)) => {
            let reply = disallowed_reply(alloc, &next, name, dims);
            drop(next);
            Ok(reply_alone(reply?))
        }
    }
}

/// The outcome of a session's commit. A review is closed.
/// An amendment gets its first conflict as the reply, or what its change makes disallowed, or passes.
pub(crate) fn commit_outcome(
    alloc: Global,
    current: &RepoVersion,
    session: &Session,
) -> Result<Outcome, AllocError>
    requires there { (name : Text) → report_at (repository_in current.now) name ≡ None
        → value_at session.now.state.change name ≡ None }
    requires few { (repository_in current.now).count + 1 < 2 ^ 64 }
    requires obeys { repository_obeys (repository_in current.now) ≡ true }
    ensures { IfOk result (λ o. Makes o (commit_told (version_in current.now) session.now.state session.now.state.kind)
        (version_after session.now.state.change (version_in current.now))) }
{
    match session.kind() {
        Kind::Review => Ok(reply_alone(Reply::Closed)),
        Kind::Amend => match conflict(current, session) {
            Some((number, thing)) => Ok(reply_alone(Reply::Conflict(number, thing.clone()?))),
            None => change_outcome(alloc, current, session.change()),
        },
    }
}

/// The number of the last commit that touched a range if it is greater than `since`; otherwise any number up to `since`.
fn stamp_of_range(
    version: &RepoVersion,
    report: &str,
    query: &PageQuery,
    upto: Option<&str>,
    since: u64,
) -> u64
    ensures { max since result ≡ max since ((version_in version.now).stamp
        (thing.Range report.now query.now (option_map (λ t. t.now) upto.entry))) }
{
    let period = period_of(&query.period);
    let after = query.after.as_deref();
    version.stamp_range_since(report, &query.concept, period, after, upto, since)
}

/// The number of the last load or commit that touched a thing if it is greater than `since`; otherwise any number up to `since`.
fn stamp_of(version: &RepoVersion, thing: &Thing, since: u64) -> u64
    ensures { max since result ≡ max since ((version_in version.now).stamp (thing_of thing.now)) }
{
    match thing {
        Thing::Report(report) => version.stamp_report(report),
        Thing::Id(report, id) => version.stamp_id_since(report, id, since),
        Thing::Cell(report, dims) => version.stamp_cell_since(report, dims, since),
        Thing::Range(report, query, upto) => {
            stamp_of_range(version, report, query, upto.as_deref(), since)
        }
        Thing::Policy(report) => version.stamp_policy(report),
    }
}

/// The first thing that a session read whose stamp is greater than the number of its base, with that stamp. The history is not looked at.
pub(crate) fn conflict<'a>(version: &RepoVersion, session: &'a Session) -> Option<(u64, &'a Thing)>
    ensures { option_map (λ c. (c.0, thing_of c.1.now)) result
        ≡ first_stamped session.now.state.base.count (version_in version.now).stamp session.now.state.reads }
{
    let opened_at = session.base().number();
    for thing in session.reads() {
        let stamp = stamp_of(version, thing, opened_at);
        if opened_at < stamp {
            return Some((stamp, thing));
        }
    }
    None
}

/// The reply that reports a cell of a version: its report, its class, and its identifiers in byte order.
pub(crate) fn disallowed_reply(
    alloc: Global,
    version: &RepoVersion,
    name: &str,
    dims: &DimSet,
) -> Result<Reply, AllocError>
    ensures { IfOk result (λ r. reply_of r ≡ refusal_at (repository_in version.now) (name.now, dims.now)) }
{
    match version.cell(name, dims) {
        Some((class, ids)) => Ok(Reply::Disallowed(
            String::from_str(alloc, name)?,
            class,
            texts_of(alloc, ids)?,
        )),
        None => Ok(Reply::NoReport),
    }
}
