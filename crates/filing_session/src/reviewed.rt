//! What a review is answered at a version, where no session is kept.
ghost use Rattle.std.specs.Prelude.{◌≡◌, IfOk};
ghost use Rattle.std.specs.Arc.{arc_value};
ghost use Rattle.filing_model.specs.Sessions.Sessions.{answer};
ghost use Rattle.filing_model.specs.declared.kind.Kind.TheVariants as kind;
ghost use Rattle.filing_step.specs.Steps.{call_of, reply_of};
ghost use Rattle.filing_version.specs.StampedReports.{repository_in};

use crate::ready::Ready;
use crate::session::effect;
use crate::staging::Staging;
use filing_model::Kind;
use filing_step::{Call, Reply};
use filing_version::RepoVersion;
use std::alloc::{AllocError, Global};
use std::sync::Arc;

fn into_reply(ready: Ready) -> Reply
    ensures { reply_of result ≡ ready.reply }
{
    let Ready {
        reply,
        thing,
        staged,
    } = ready;
    drop(thing);
    drop(staged);
    reply
}

/// The reply to the first call of a review that opens at a version.
pub fn reply_at(alloc: Global, version: &Arc<RepoVersion>, call: Call) -> Result<Reply, AllocError>
    ensures { IfOk result (λ r. reply_of r
        ≡ (answer kind.Review (call_of call) (repository_in (arc_value version.now))).0) }
{
    let staging = Staging::new(alloc, Arc::try_clone(version)?);
    let ready = effect(alloc, Kind::Review, &staging, &mut None, call);
    drop(staging);
    Ok(into_reply(ready?))
}
