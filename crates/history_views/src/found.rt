//! A version that is found in a history.

ghost use Rattle.std.specs.Prelude.{◌≡◌, ◌+◌, ◌≤◌, IfOk};
ghost use Rattle.std.specs.Arc.{arc_value};
ghost use Rattle.filing_core.specs.declared.check.Verdict.TheVariants.{Lawful};
ghost use Rattle.filing_model.specs.Histories.History.{History};
ghost use Rattle.script_runs.specs.HistoryRun.{IsHistoryFollowed, IsHistoryJudged};
ghost use Rattle.script_runs.specs.ScriptRun.{most_reads};
ghost use Rattle.history_views.specs.Versions.{version_asked, version_kept};

use crate::sought::SoughtVersion;
use filing_core::{Engine, HashKeys, Verdict};
use filing_version::RepoVersion;
use line_io::{ScriptFault, Source};
use oim_fact::NumericTable;
use script_runs::{ViewedHistory, view_history};
use std::alloc::Global;
use std::sync::Arc;

/// What was found in a history.
#[derive(Drop)]
pub struct FoundVersion {
    pub verdict: Verdict,
    /// What followed its lines, up to the departure. Freeing it takes long, and a caller that ends soon can leave that to the system.
    pub engine: Engine,
    /// The version that was asked for; none where the history has no version of that number.
    pub version: Option<Arc<RepoVersion>>,
}

/// Reads a history to its end, judges it as `judge_history` does, with keys that hash things read, and keeps no entry.
/// It gives the history's version of a number, counted from 0, or the last one where no number is given.
pub fn version_of_history<R: Source>(
    alloc: Global,
    keys: HashKeys,
    input: &mut R,
    table: &Arc<NumericTable>,
    number: Option<u64>,
) -> Result<FoundVersion, ScriptFault>
    ensures judged { IfOk result (λ found. IsHistoryJudged (arc_value table.now) (R.state input.old) (R.state input.new)
        found.verdict) }
    ensures found { IfOk result (λ found. found.verdict ≡ Lawful
        → (h : History) × (IsHistoryFollowed (arc_value table.now)
        (R.state input.old) (R.state input.new) found.engine h
        × (version_kept found.version ≡ version_asked number h))) }
    ensures bounded { (R.state input.new).reads ≤ (R.state input.old).reads + most_reads }
{
    let Ok(sought) = SoughtVersion::new(alloc, number) else {
        return Err(ScriptFault::NoMemory(1));
    };
    let ViewedHistory {
        verdict,
        engine,
        view,
    } = view_history(alloc, keys, input, table, sought)?;
    match view.into_version(&engine) {
        Ok(version) => Ok(FoundVersion {
            verdict,
            engine,
            version,
        }),
        Err(_) => {
            drop(engine);
            Err(ScriptFault::NoMemory(1))
        }
    }
}
