//! A core by hand: it takes one step after another, and has each in its history with the reply.

ghost use Rattle.std.specs.Prelude.{◌≡◌, Some, IfOk, OnErr, string_bytes};
ghost use Rattle.std.specs.Arc.{arc_value};
ghost use Rattle.filing_model.specs.Histories.History.{History, Live, Commit, repository, status_of};
ghost use Rattle.filing_model.specs.Histories.Lawful.{load_reply};
ghost use Rattle.filing_model.specs.declared.kind.Kind.TheVariants.{Amend};
ghost use Rattle.filing_laws.specs.Serial.WholeRuns.{IsSerial};
ghost use Rattle.filing_step.specs.Steps.{reply_of};
ghost use Rattle.filing_core.specs.Answers.{IsEntered};

use filing_core::{Core, CoreFault, Entry, Kind, Reply, Step};
use oim_report::Report;
use std::alloc::Global;
use std::sync::Arc;

/// Loads a report under a name. The reply is the definition's at the repository as it is; a fault changes nothing.
pub fn load(
    core: &mut Core,
    alloc: Global,
    name: String,
    report: Arc<Report>,
) -> Result<Reply, CoreFault>
    ensures answered { IfOk result (λ reply. reply_of reply
        ≡ load_reply (repository core.old.history) (string_bytes name) (arc_value report)) }
    ensures unchanged { OnErr result (core.new.history ≡ core.old.history) }
{
    core.step(alloc, None, Step::Load(name, report))
}

/// Opens a session to amend, and gives its number. Sessions are numbered from 1 on.
pub fn open(core: &mut Core, alloc: Global) -> Result<u64, CoreFault>
    ensures { IfOk result (λ number. status_of number core.new.history ≡ Live Amend) }
{
    core.step(alloc, None, Step::Open(Kind::Amend))?;
    Ok(core.engine().opened_count())
}

/// Takes an addition of a session, and commits it. The reply to the commit is the one that keeps the history lawful after all that was answered before.
pub fn add_and_commit(
    core: &mut Core,
    alloc: Global,
    number: u64,
    addition: Step,
) -> Result<Reply, CoreFault>
    ensures { IfOk result (λ reply. (before : History)
        × IsEntered before core.new.history (Some number) Commit (reply_of reply)) }
{
    core.step(alloc, Some(number), addition)?;
    core.step(alloc, Some(number), Step::Commit)
}

/// All that was answered, oldest first. In whatever order the steps of sessions came: each that committed was answered as if it
/// had run alone at its commit, and each other as if it had at its opening.
pub fn entries_of(core: &Core) -> &[Entry]
    ensures { IsSerial core.now.history }
{
    core.history()
}
