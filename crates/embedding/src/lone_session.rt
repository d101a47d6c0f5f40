//! A session by itself, over a version that never changes: no core, and no other session.

ghost use Rattle.std.specs.Prelude.{◌≡◌, [], ◌∷◌, IfOk, string_bytes};
ghost use Rattle.std.specs.Arc.{arc_value};
ghost use Rattle.filing_model.specs.Sessions.Repository.{nothing, with_report};
ghost use Rattle.filing_model.specs.Sessions.Sessions.{solo_replies};
ghost use Rattle.filing_model.specs.declared.kind.Kind.TheVariants.{Amend};
ghost use Rattle.filing_step.specs.Steps.{call_of, reply_of};
ghost use Rattle.filing_version.specs.StampedReports.{repository_in};
ghost use Rattle.filing_session.specs.States.{replies_to};

use filing_session::{Call, Kind, Reply, Session};
use filing_version::RepoVersion;
use oim_report::Report;
use std::alloc::{AllocError, Global};
use std::sync::Arc;

/// The replies to two calls.
#[derive(Drop)]
pub struct Replies {
    pub first: Reply,
    pub second: Reply,
}

/// A version with this report alone.
pub fn version_of(
    alloc: Global,
    name: String,
    report: Report,
) -> Result<Arc<RepoVersion>, AllocError>
    ensures { IfOk result (λ version. repository_in (arc_value version)
        ≡ with_report nothing (string_bytes name) report) }
{
    let version = RepoVersion::empty(alloc).with_report(alloc, name, report)?;
    Ok(Arc::new(alloc, version)?)
}

/// Makes two calls of a session: the second sees what the first has staged.
fn call_twice(session: &mut Session, first: Call, second: Call) -> Result<Replies, AllocError>
    ensures { IfOk result (λ replies. replies_to (call_of first ∷ call_of second ∷ []) session.old.state
        ≡ reply_of replies.first ∷ reply_of replies.second ∷ []) }
{
    let one = session.call(first)?;
    let two = session.call(second)?;
    Ok(Replies {
        first: one,
        second: two,
    })
}

/// Runs a session of two calls at a version. The replies are those of the calls alone at the plain repository of the version.
pub fn run_alone(
    alloc: Global,
    version: Arc<RepoVersion>,
    first: Call,
    second: Call,
) -> Result<Replies, AllocError>
    ensures { IfOk result (λ replies.
        solo_replies Amend (repository_in (arc_value version)) (call_of first ∷ call_of second ∷ [])
        ≡ reply_of replies.first ∷ reply_of replies.second ∷ []) }
{
    let mut session = Session::open(alloc, Kind::Amend, version)?;
    let replies = call_twice(&mut session, first, second)?;
    Ok(replies)
}
