//! The lines of one report.

ghost use Rattle.std.specs.Prelude.{◌≡◌, ◌++◌, option_map, string_bytes, OnOk};
ghost use Rattle.std.specs.List.{flat_map};
ghost use Rattle.filing_model.specs.Common.TextMap.{keys};
ghost use Rattle.filing_model.specs.Sessions.Repository.{fact_at};
ghost use Rattle.filing_version.specs.StampedReports.{repository_in};
ghost use Rattle.version_differences.specs.Differences.{lines_at, lines_at_id};
ghost use Rattle.version_differences.specs.LineText.{lines_text};
ghost use Rattle.version_differences.specs.Places.{CoverFacts};

use crate::lines::{push_declared, push_fact_lines, push_new_report, push_no_report};
use crate::places::Ids;
use filing_version::{Got, RepoVersion};
use oim_fact::Fact;
use std::alloc::AllocError;

/// The fact of an identifier of a report, if there is one.
fn fact_of<'a>(version: &'a RepoVersion, name: &str, id: &str) -> Option<&'a Fact>
    ensures { option_map (λ f. f.now) result ≡ fact_at (repository_in version.now) name.now id.now }
{
    match version.get(name, id) {
        Got::Found(fact) => Some(fact),
        Got::NoReport | Got::Absent => None,
    }
}

/// Appends the line of an identifier, if its fact differs.
fn push_lines_at_id(
    out: &mut String,
    name: &str,
    id: &str,
    from: &RepoVersion,
    to: &RepoVersion,
) -> Result<(), AllocError>
    ensures { OnOk result (string_bytes out.new ≡ string_bytes out.old
        ++ lines_text (lines_at_id (repository_in from.now) (repository_in to.now) name.now id.now)) }
{
    push_fact_lines(
        out,
        name,
        id,
        fact_of(from, name, id),
        fact_of(to, name, id),
    )
}

/// Appends the lines of these identifiers.
fn push_lines_at_ids(
    out: &mut String,
    name: &str,
    ids: &Ids,
    from: &RepoVersion,
    to: &RepoVersion,
) -> Result<(), AllocError>
    ensures { OnOk result (string_bytes out.new ≡ string_bytes out.old
        ++ lines_text (flat_map (lines_at_id (repository_in from.now) (repository_in to.now) name.now)
        (keys ids.now))) }
{
    for entry in ids.iter() {
        push_lines_at_id(out, name, entry.name(), from, to)?;
    }
    Ok(())
}

/// Appends the lines of a report, whose facts differ at no other than these identifiers.
pub(crate) fn push_report_lines(
    out: &mut String,
    name: &str,
    ids: &Ids,
    from: &RepoVersion,
    to: &RepoVersion,
) -> Result<(), AllocError>
    ensures { CoverFacts ids.now (repository_in from.now) (repository_in to.now) name.now
        → OnOk result (string_bytes out.new ≡ string_bytes out.old
        ++ lines_text (lines_at (repository_in from.now) (repository_in to.now) name.now)) }
{
    match (from.allowed(name), to.allowed(name)) {
        (None, None) => Ok(()),
        (None, Some(_)) => push_new_report(out, name),
        (Some(_), None) => push_no_report(out, name),
        (Some(before), Some(after)) => {
            push_declared(out, name, before, after)?;
            push_lines_at_ids(out, name, ids, from, to)
        }
    }
}
