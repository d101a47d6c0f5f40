//! `Ready`: what a call is answered and what it leaves, before anything changes.
ghost use Rattle.std.specs.Prelude.{◌≡◌, Some, None, string_bytes};
ghost use Rattle.filing_model.specs.Sessions.Replies as reply;
ghost use Rattle.filing_model.specs.Sessions.Things as thing;
ghost use Rattle.filing_step.specs.Steps.{reply_of, thing_of};
ghost use Rattle.filing_session.specs.Effects.{no_effect};

use crate::staging::Staging;
use filing_step::{Reply, Thing};
use std::marker::Model;

/// A call for which all memory is taken. Contracts see its effect.
#[derive(Drop)]
pub struct Ready {
    pub(crate) reply: Reply,
    pub(crate) thing: Option<Thing>,
    /// What takes the place of what the session staged.
    pub(crate) staged: Option<Staging>,
}

impl Model for Ready {
    ghost use Rattle.filing_session.specs.Effects.{Effect};

    ghost Value = { Effect };

    ghost use Rattle.std.specs.Prelude.{option_map};
    ghost use Rattle.filing_step.specs.Steps.{reply_of, thing_of};

    ghost view = { λ r. record { reply = reply_of r.reply; thing = option_map thing_of r.thing; staged = r.staged } };
}

impl Ready {
    /// What a review is answered that would change something. Nothing is read.
    pub(crate) fn read_only() -> Ready
        ensures { result ≡ no_effect }
    {
        Ready {
            reply: Reply::ReadOnly,
            thing: None,
            staged: None,
        }
    }

    /// The report is not there, which is read.
    pub(crate) fn no_report(report: String) -> Ready
        ensures { result ≡ record {
          reply = reply.NoReport;
          thing = Some (thing.Report (string_bytes report));
          staged = None;
        } }
    {
        Ready {
            reply: Reply::NoReport,
            thing: Some(Thing::Report(report)),
            staged: None,
        }
    }

    /// The thing is read, and nothing is staged.
    pub(crate) fn read(reply: Reply, thing: Thing) -> Ready
        ensures { result ≡ record { reply = reply_of reply; thing = Some (thing_of thing); staged = None } }
    {
        Ready {
            reply,
            thing: Some(thing),
            staged: None,
        }
    }

    /// The reply to the call.
    pub fn reply(&self) -> &Reply
        ensures { reply_of result.now ≡ self.now.reply }
    {
        &self.reply
    }
}
