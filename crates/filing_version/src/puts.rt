//! The puts of a change, one by one.
ghost use Rattle.std.specs.Prelude.{◌≡◌, [], ◌∷◌, ◌++◌, MatchOption, option_map, string_bytes, IfOk};
ghost use Rattle.std.specs.List.{flat_map};
ghost use Rattle.std.specs.Iterator.{YieldsFirstBy, item_count};
ghost use Rattle.filing_version.specs.Puts.{put_seen, puts_in, puts_left};
ghost use Rattle.std.specs.Arc.{arc_value};

use crate::change::{ChangedReport, fact_of, index_put};
use filing_facts::{IndexedFact, KeyCache};
use oim_fact::Fact;
use sorted_pages::{PageEntry, Range};
use std::alloc::{AllocError, Global};
use std::marker::Model;
use std::sync::Arc;
use text_map::NamedValue;

/// A report, an identifier, and the fact that is put there, or none where it is removed.
pub type Put<'a> = (&'a str, &'a str, Option<&'a Arc<Fact>>);

/// Puts of one report. Contracts see the list of those still to come.
#[derive(Drop)]
struct InReport<'a> {
    report: &'a str,
    facts: Range<'a, NamedValue<Option<IndexedFact>>>,
}

impl<'a> Model for InReport<'a> {
    ghost use Rattle.std.specs.Prelude.{List};
    ghost use Rattle.filing_version.specs.Puts.{PlainPut, puts_under};

    ghost Value = { List PlainPut };

    ghost view = { λ r. puts_under r.report.now r.facts };
}

impl<'a> InReport<'a> {
    fn of(report: &'a NamedValue<ChangedReport>) -> InReport<'a>
        ensures { result ≡ puts_in report.now }
    {
        InReport {
            report: report.name(),
            facts: report.value().facts().iter(),
        }
    }
}

impl<'a> Iterator for InReport<'a> {
    type Item = Put<'a>;

    ghost next_gives = { YieldsFirstBy put_seen (λ puts. puts) };

    ghost remaining = { item_count (λ puts. puts) };

    fn next(&mut self) -> Option<Put<'a>> {
        let fact = self.facts.next()?;
        Some((self.report, fact.name(), fact_of(fact.value())))
    }
}

/// The puts of a change in byte order of reports, then of identifiers. It takes no memory.
///
/// Contracts see the list of those still to come.
#[derive(Drop)]
pub struct Puts<'a> {
    current: Option<InReport<'a>>,
    reports: Range<'a, NamedValue<ChangedReport>>,
}

impl<'a> Model for Puts<'a> {
    ghost use Rattle.std.specs.Prelude.{List, ◌++◌};
    ghost use Rattle.std.specs.List.{flat_map};
    ghost use Rattle.filing_version.specs.Puts.{PlainPut, puts_in, puts_left};

    ghost Value = { List PlainPut };

    ghost view = { λ p. puts_left p.current ++ flat_map puts_in p.reports };
}

impl<'a> Puts<'a> {
    /// The puts of these reports.
    pub(crate) fn of(reports: Range<'a, NamedValue<ChangedReport>>) -> Puts<'a>
        ensures { result ≡ flat_map puts_in reports.entry }
    {
        Puts {
            current: None,
            reports,
        }
    }
}

/// The next put of a report, where one has begun.
fn next_of<'a>(current: &mut Option<InReport<'a>>) -> Option<Put<'a>>
    ensures { YieldsFirstBy put_seen puts_left current.old result current.new }
{
    match current {
        Some(puts) => puts.next(),
        None => None,
    }
}

/// The first put of these reports, and those that follow it in its report.
fn first_of<'a>(
    reports: &mut Range<'a, NamedValue<ChangedReport>>,
) -> Option<(Put<'a>, InReport<'a>)>
    ensures { MatchOption result
        ((flat_map puts_in reports.old ≡ []) × (flat_map puts_in reports.new ≡ []))
        (λ first. flat_map puts_in reports.old ≡ put_seen first.0 ∷ (first.1 ++ flat_map puts_in reports.new)) }
{
    while let Some(report) = reports.next() {
        let mut puts = InReport::of(report);
        if let Some(put) = puts.next() {
            return Some((put, puts));
        }
    }
    None
}

impl<'a> Iterator for Puts<'a> {
    type Item = Put<'a>;

    ghost next_gives = { YieldsFirstBy put_seen (λ puts. puts) };

    ghost remaining = { item_count (λ puts. puts) };

    fn next(&mut self) -> Option<Put<'a>> {
        if let Some(put) = next_of(&mut self.current) {
            return Some(put);
        }
        let (put, puts) = first_of(&mut self.reports)?;
        self.current = Some(puts);
        Some(put)
    }
}

/// An identifier with the fact that is put there, or none where it is removed. Several changes may hold it.
/// Contracts see the two.
#[derive(Drop)]
pub struct PutRecord {
    entry: NamedValue<Option<IndexedFact>>,
}

impl Model for PutRecord {
    ghost use Rattle.std.specs.Prelude.{Option};
    ghost use Rattle.filing_model.specs.Common.Text.{Text};
    ghost use Rattle.filing_model.specs.Oim.Facts.{Fact as PlainFact};

    ghost Value = { Text × Option PlainFact };

    ghost view = { λ p. p.entry };
}

impl PutRecord {
    /// A put by itself.
    pub fn of(alloc: Global, id: String, fact: Option<Arc<Fact>>) -> Result<PutRecord, AllocError>
        ensures { IfOk result (λ p. p ≡ (string_bytes id, option_map arc_value fact)) }
    {
        PutRecord::of_shared_keys(alloc, &mut KeyCache::new(alloc), id, fact)
    }

    /// A put among others, which shares what its fact has in common with those before it.
    pub fn of_shared_keys(
        alloc: Global,
        key_cache: &mut KeyCache,
        id: String,
        fact: Option<Arc<Fact>>,
    ) -> Result<PutRecord, AllocError>
        ensures { IfOk result (λ p. p ≡ (string_bytes id, option_map arc_value fact)) }
    {
        let put = index_put(alloc, key_cache, fact)?;
        let entry = NamedValue::new(alloc, id, put)?;
        Ok(PutRecord { entry })
    }

    /// Another owner of the put, for one more change.
    pub fn share(&self) -> Result<PutRecord, AllocError>
        ensures { IfOk result (λ p. p ≡ self.now) }
    {
        let entry = self.entry.share()?;
        Ok(PutRecord { entry })
    }

    pub(crate) fn into_entry(self) -> NamedValue<Option<IndexedFact>>
        ensures { result ≡ self }
    {
        let PutRecord { entry } = self;
        entry
    }
}
