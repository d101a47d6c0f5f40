//! A report whose facts stand in indexes.
ghost use Rattle.std.specs.Prelude.{◌≡◌, [], IfOk};
ghost use Rattle.std.specs.Arc.{arc_value};
ghost use Rattle.filing_version.specs.StampedReports.{without_facts};
ghost use Rattle.std.specs.Iterator.{YieldsFirstBy, item_count};
ghost use Rattle.oim_report.specs.Entries.{entry_seen};

use filing_facts::{IndexedFact, KeyCache};
use filing_index::Facts;
use oim_fact::Fact;
use oim_report::{Report, ReportParts};
use sorted_pages::Range;
use std::alloc::{AllocError, Global};
use std::marker::Model;
use std::sync::Arc;
use text_map::NamedValue;

/// A report with all that its load needs and no version changes, so that it can be made before a lock is taken.
/// Contracts see the report.
#[derive(Drop)]
pub struct IndexedReport {
    report: Arc<Report>,
    /// A copy of the report without its facts.
    header: Arc<Report>,
    facts: Facts,
}

impl Model for IndexedReport {
    ghost use Rattle.filing_model.specs.Oim.Reports.{Report as PlainReport};

    ghost Value = { PlainReport };

    ghost use Rattle.std.specs.Prelude.{◌≡◌};
    ghost use Rattle.std.specs.Arc.{arc_value};
    ghost use Rattle.filing_version.specs.StampedReports.{without_facts};

    ghost view = { λ i. arc_value i.report };

    ghost invariant = { λ i. (arc_value i.header ≡ without_facts (arc_value i.report))
        × (i.facts ≡ (arc_value i.report).facts) };
}

/// The facts of a report as an index holds them. Facts are shared, identifiers are copied.
fn held_facts(alloc: Global, report: &Report) -> Result<Vec<NamedValue<IndexedFact>>, AllocError>
    ensures { IfOk result (λ v. v.items ≡ report.now.facts.entries) }
{
    let facts = report.facts();
    let mut key_cache = KeyCache::new(alloc);
    let mut held = Vec::with_capacity(alloc, facts.len())?;
    for (id, fact) in facts {
        let fact = IndexedFact::of(alloc, &mut key_cache, Arc::try_clone(fact)?)?;
        held.push(NamedValue::new(alloc, id.clone()?, fact)?)?;
    }
    Ok(held)
}

/// The indexes of the facts of a report.
fn index_facts(alloc: Global, report: &Report) -> Result<Facts, AllocError>
    ensures { IfOk result (λ f. f.entries ≡ report.now.facts.entries) }
{
    let held = held_facts(alloc, report)?;
    Facts::of_sorted(alloc, held)
}

/// A copy of a report without its facts.
pub(crate) fn without_facts(alloc: Global, report: &Report) -> Result<Report, AllocError>
    ensures { IfOk result (λ r. r ≡ without_facts report.now) }
{
    Ok(Report::of(ReportParts {
        info: String::from_str(alloc, report.info())?,
        names: report.names().clone()?,
        allowed: report.allowed(),
        facts: Vec::new(alloc),
    }))
}

impl IndexedReport {
    /// The facts of the report are shared, all else is copied.
    pub fn of(alloc: Global, report: Arc<Report>) -> Result<IndexedReport, AllocError>
        ensures { IfOk result (λ i. i ≡ arc_value report) }
    {
        let copy = without_facts(alloc, &report)?;
        let header = Arc::new(alloc, copy)?;
        let facts = index_facts(alloc, &report)?;
        Ok(IndexedReport {
            report,
            header,
            facts,
        })
    }

    pub fn report(&self) -> &Arc<Report>
        ensures { arc_value result.now ≡ self.now }
    {
        &self.report
    }

    /// A copy of the report without its facts, and the facts.
    pub(crate) fn into_parts(self) -> (Arc<Report>, Facts)
        ensures header { arc_value result.0 ≡ without_facts self }
        ensures facts { result.1 ≡ self.facts }
    {
        let IndexedReport {
            report: _,
            header,
            facts,
        } = self;
        (header, facts)
    }
}

/// The facts of a report under their identifiers, in byte order of these. It takes no memory.
///
/// Contracts see the list of those still to come.
#[derive(Drop)]
pub struct FactEntries<'a> {
    facts: Range<'a, NamedValue<IndexedFact>>,
}

impl<'a> Model for FactEntries<'a> {
    ghost use Rattle.std.specs.Prelude.{List};
    ghost use Rattle.filing_model.specs.Common.Text.{Text};
    ghost use Rattle.filing_model.specs.Oim.Facts.{Fact as PlainFact};

    ghost Value = { List (Text × PlainFact) };

    ghost view = { λ e. e.facts };
}

impl<'a> FactEntries<'a> {
    pub(crate) fn of(facts: Range<'a, NamedValue<IndexedFact>>) -> FactEntries<'a>
        ensures { result ≡ facts.entry }
    {
        FactEntries { facts }
    }
}

impl<'a> Iterator for FactEntries<'a> {
    type Item = (&'a str, &'a Fact);

    ghost next_gives = { YieldsFirstBy entry_seen (λ entries. entries) };

    ghost remaining = { item_count (λ entries. entries) };

    fn next(&mut self) -> Option<(&'a str, &'a Fact)> {
        let entry = self.facts.next()?;
        Some((entry.name(), entry.value().fact()))
    }
}
