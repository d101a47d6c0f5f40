//! What tests look at, and nothing else asks for.
ghost use Rattle.std.specs.Prelude.{IfOk, length};
ghost use Rattle.std.specs.Option.{option_map_or};
ghost use Rattle.sorted_pages.specs.Pages.{AreSizes};
ghost use Rattle.filing_model.specs.Sessions.Repository.{report_at};
ghost use Rattle.filing_version.specs.StampedReports.{repository_in};

use crate::version::RepoVersion;
use std::alloc::{AllocError, Global};

/// The lengths of the pages in which the facts of a report stand by identifier, or none where the report is not there.
pub fn page_sizes(
    alloc: Global,
    version: &RepoVersion,
    report: &str,
) -> Result<Vec<usize>, AllocError>
    ensures { IfOk result (λ sizes. AreSizes sizes.items
        (option_map_or (λ r. length r.facts.entries) (report_at (repository_in version.now) report.now) 0)) }
{
    match version.facts(report) {
        Some(facts) => facts.page_sizes(alloc),
        None => Ok(Vec::new(alloc)),
    }
}
