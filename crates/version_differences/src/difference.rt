//! What differs between two versions, as text.

ghost use Rattle.std.specs.Prelude.{◌≡◌, ◌||◌, is_some, option_map, string_bytes, IfOk};
ghost use Rattle.filing_model.specs.Sessions.Repository.{report_at};
ghost use Rattle.filing_version.specs.StampedReports.{repository_in};
ghost use Rattle.version_differences.specs.Differences.{difference};
ghost use Rattle.version_differences.specs.LineText.{difference_text, lines_text, report_difference_text};
ghost use Rattle.version_differences.specs.Places.{CoverDifference};

use crate::places::Places;
use crate::report_lines::push_report_lines;
use filing_version::RepoVersion;
use std::alloc::{AllocError, Global};

/// The lines of all reports.
fn text_of_all(
    alloc: Global,
    from: &RepoVersion,
    to: &RepoVersion,
    places: &Places,
) -> Result<String, AllocError>
    ensures { CoverDifference places.now (repository_in from.now) (repository_in to.now)
        → IfOk result (λ text. string_bytes text
        ≡ lines_text (difference (repository_in from.now) (repository_in to.now))) }
{
    let mut out = String::new(alloc);
    for entry in places.iter() {
        push_report_lines(&mut out, entry.name(), entry.value(), from, to)?;
    }
    Ok(out)
}

/// Whether either version has a report.
fn is_in_either(from: &RepoVersion, to: &RepoVersion, name: &str) -> bool
    ensures { result ≡ (is_some (report_at (repository_in from.now) name.now)
        || is_some (report_at (repository_in to.now) name.now)) }
{
    from.has(name) || to.has(name)
}

/// The lines of one report, or none where neither version has it.
fn text_of_report(
    alloc: Global,
    from: &RepoVersion,
    to: &RepoVersion,
    places: &Places,
    name: &str,
) -> Result<Option<String>, AllocError>
    ensures { CoverDifference places.now (repository_in from.now) (repository_in to.now)
        → IfOk result (λ o. option_map string_bytes o
        ≡ report_difference_text name.now (repository_in from.now) (repository_in to.now)) }
{
    let Some(ids) = places.get(name) else {
        return Ok(None);
    };
    if !is_in_either(from, to, name) {
        return Ok(None);
    }
    let mut out = String::new(alloc);
    push_report_lines(&mut out, name, ids, from, to)?;
    Ok(Some(out))
}

/// The lines that turn the one version into the other: for all reports, or for the one of a name;
/// none where neither version has that.
/// It looks at the given places alone.
pub fn difference_text(
    alloc: Global,
    from: &RepoVersion,
    to: &RepoVersion,
    places: &Places,
    report: Option<&str>,
) -> Result<Option<String>, AllocError>
    ensures { CoverDifference places.now (repository_in from.now) (repository_in to.now)
        → IfOk result (λ o. option_map string_bytes o
        ≡ difference_text (option_map (λ t. t.now) report.entry) (repository_in from.now) (repository_in to.now)) }
{
    match report {
        None => Ok(Some(text_of_all(alloc, from, to, places)?)),
        Some(name) => text_of_report(alloc, from, to, places, name),
    }
}
