//! What differs between two versions that are found in a history.

ghost use Rattle.std.specs.Prelude.{◌≡◌, ◌+◌, ◌≤◌, Some, option_map, string_bytes, IfOk};
ghost use Rattle.std.specs.Arc.{arc_value};
ghost use Rattle.filing_model.specs.Sessions.Repository.{Repository};
ghost use Rattle.filing_model.specs.Histories.History.{History};
ghost use Rattle.filing_core.specs.declared.check.Verdict.TheVariants.{Lawful};
ghost use Rattle.script_runs.specs.HistoryRun.{IsHistoryFollowed, IsHistoryJudged};
ghost use Rattle.script_runs.specs.ScriptRun.{most_reads};
ghost use Rattle.version_differences.specs.Places.{CoverDifference};
ghost use Rattle.history_views.specs.Differing.{difference_asked, difference_between};
ghost use Rattle.history_views.specs.Shown.{ShowsText};
ghost use Rattle.history_views.specs.Versions.{version_at, version_kept};

use crate::placed::PlacedVersions;
use crate::shown::Shown;
use crate::sought::SoughtVersion;
use filing_core::{Engine, HashKeys, Verdict};
use filing_version::RepoVersion;
use line_io::{ScriptFault, Sink, Source, write_all};
use oim_fact::NumericTable;
use script_runs::{ViewedHistory, view_history};
use std::alloc::{AllocError, Global};
use std::sync::Arc;
use version_differences::{Places, difference_text};

/// What was found in a history.
#[derive(Drop)]
pub struct FoundDifference {
    pub verdict: Verdict,
    /// What followed the history's lines, up to the departure. Freeing it takes long.
    pub engine: Engine,
    /// The version from which the difference leads; none where the history has no version of that number.
    pub from: Option<Arc<RepoVersion>>,
    /// The version to which it leads; none where the history has no version of that number.
    pub to: Option<Arc<RepoVersion>>,
    /// Its lines, where there are both versions; none of a report that neither has.
    pub text: Option<Option<String>>,
}

/// The lines of what differs between two versions, where there are both.
fn found_text(
    alloc: Global,
    from: &Option<Arc<RepoVersion>>,
    to: &Option<Arc<RepoVersion>>,
    places: &Places,
    report: Option<&str>,
) -> Result<Option<Option<String>>, AllocError>
    ensures { ((c d : Repository) → version_kept from.now ≡ Some c → version_kept to.now ≡ Some d
        → CoverDifference places.now c d)
        → IfOk result (λ text. option_map (option_map string_bytes) text
        ≡ difference_between (option_map (λ t. t.now) report.entry) (version_kept from.now) (version_kept to.now)) }
{
    let (Some(from), Some(to)) = (from, to) else {
        return Ok(None);
    };
    Ok(Some(difference_text(alloc, from, to, places, report)?))
}

/// Reads a history as `version_of_history` does, and gives the lines that turn its version of one number into that of another.
/// They are those of all reports, or of the one of a name.
pub fn difference_of_history<R: Source>(
    alloc: Global,
    keys: HashKeys,
    input: &mut R,
    table: &Arc<NumericTable>,
    from: u64,
    to: u64,
    report: Option<&str>,
) -> Result<FoundDifference, ScriptFault>
    ensures judged { IfOk result (λ found. IsHistoryJudged (arc_value table.now) (R.state input.old) (R.state input.new)
        found.verdict) }
    ensures found { IfOk result (λ found. found.verdict ≡ Lawful
        → (h : History) × (IsHistoryFollowed (arc_value table.now)
        (R.state input.old) (R.state input.new) found.engine h
        × (version_kept found.from ≡ version_at h from) × (version_kept found.to ≡ version_at h to)
        × (option_map (option_map string_bytes) found.text
        ≡ difference_asked from to (option_map (λ t. t.now) report.entry) h))) }
    ensures bounded { (R.state input.new).reads ≤ (R.state input.old).reads + most_reads }
{
    let Ok(sought) = PlacedVersions::new(alloc, from, to) else {
        return Err(ScriptFault::NoMemory(1));
    };
    let ViewedHistory {
        verdict,
        engine,
        view,
    } = view_history(alloc, keys, input, table, sought)?;
    let PlacedVersions { from, to, places } = view;
    let SoughtVersion { found: from, .. } = from;
    let SoughtVersion { found: to, .. } = to;
    match found_text(alloc, &from, &to, &places, report) {
        Ok(text) => Ok(FoundDifference {
            verdict,
            engine,
            from,
            to,
            text,
        }),
        Err(_) => {
            drop(engine);
            drop(from);
            drop(to);
            Err(ScriptFault::NoMemory(1))
        }
    }
}

impl FoundDifference {
    /// Writes the lines, or answers what is not there.
    pub fn write<W: Sink>(&self, output: &mut W) -> Result<Shown, ScriptFault>
        ensures { ShowsText (option_map (option_map string_bytes) self.now.text) result
            (W.state output.old) (W.state output.new) }
    {
        let Some(found) = &self.text else {
            return Ok(Shown::NoVersion);
        };
        let Some(text) = found else {
            return Ok(Shown::NoReport);
        };
        let Ok(()) = write_all(output, text.as_bytes()) else {
            return Err(ScriptFault::Write);
        };
        Ok(Shown::Written)
    }
}
