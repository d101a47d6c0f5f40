//! A report of a version that was found.

ghost use Rattle.std.specs.Prelude.{◌≡◌, option_map, string_bytes, IfOk};
ghost use Rattle.filing_model.specs.Sessions.Repository.{report_at};
ghost use Rattle.filing_version.specs.StampedReports.{repository_in};
ghost use Rattle.script_format.specs.ReplyText.{exported_text};
ghost use Rattle.history_views.specs.Shown.{ShowsText, report_shown};
ghost use Rattle.history_views.specs.Versions.{version_kept};

use crate::found::FoundVersion;
use crate::shown::Shown;
use filing_version::RepoVersion;
use line_io::{ScriptFault, Sink, write_all};
use script_format::exported_reply_of;
use std::alloc::{AllocError, Global};

/// A report as an export of that version replies it, or none where it is not there.
fn export_report(
    alloc: Global,
    version: &RepoVersion,
    name: &str,
) -> Result<Option<String>, AllocError>
    ensures { IfOk result (λ o. option_map string_bytes o
        ≡ option_map exported_text (report_at (repository_in version.now) name.now)) }
{
    match (version.info(name), version.entries(name)) {
        (Some(info), Some(entries)) => Ok(Some(exported_reply_of(alloc, info, entries)?)),
        _ => Ok(None),
    }
}

/// A report as an export of that version replies it, in a line with the LF that ends it; none where it is not there.
fn exported_line(
    alloc: Global,
    version: &RepoVersion,
    name: &str,
) -> Result<Option<String>, AllocError>
    ensures { IfOk result (λ o. option_map string_bytes o ≡ report_shown name.now (repository_in version.now)) }
{
    let Some(mut line) = export_report(alloc, version, name)? else {
        return Ok(None);
    };
    let _text = line.as_str();
    line.push_str("\n")?;
    Ok(Some(line))
}

impl FoundVersion {
    /// Writes a report of the version, in a line, as an export replied it while the version was the current one; or answers what is not there.
    pub fn write_report<W: Sink>(
        &self,
        alloc: Global,
        output: &mut W,
        name: &str,
    ) -> Result<Shown, ScriptFault>
        ensures { ShowsText (option_map (report_shown name.now) (version_kept self.now.version)) result
            (W.state output.old) (W.state output.new) }
    {
        let Some(version) = &self.version else {
            return Ok(Shown::NoVersion);
        };
        let Ok(found) = exported_line(alloc, version, name) else {
            return Err(ScriptFault::NoMemory(1));
        };
        let Some(line) = found else {
            return Ok(Shown::NoReport);
        };
        let Ok(()) = write_all(output, line.as_bytes()) else {
            return Err(ScriptFault::Write);
        };
        Ok(Shown::Written)
    }
}
