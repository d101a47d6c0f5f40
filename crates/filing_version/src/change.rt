//! `Change`: what a session puts, removes and declares, by report.
ghost use Rattle.std.specs.Prelude.{◌≡◌, ◌↔◌, option_copied, option_map, string_bytes, unwrap_or, IfOk, IsTrue, OnOk, OnErr, Some};
ghost use Rattle.std.specs.Arc.{arc_value};
ghost use Rattle.filing_model.specs.Common.TextMap.{empty, get, insert};
ghost use Rattle.filing_model.specs.Sessions.Changes.{change_at, declared_in, with_change, with_declared, no_change};
ghost use Rattle.filing_version.specs.Puts.{fact_seen, puts_of};

use crate::puts::{PutRecord, Puts};
use filing_facts::{IndexedFact, KeyCache};
use oim_fact::{Allowed, Fact};
use sorted_pages::{Edit, Range};
use std::alloc::{AllocError, Global};
use std::marker::Model;
use std::mem;
use std::sync::Arc;
use text_map::{NamedValue, PagedValue, TextPages};

/// What is put, removed and declared, by report. Contracts see the plain change.
#[derive(Drop)]
pub struct Change {
    alloc: Global,
    reports: TextPages<ChangedReport>,
}

impl Model for Change {
    ghost use Rattle.filing_model.specs.Sessions.Changes.{Change as PlainChange};

    ghost Value = { PlainChange };

    ghost view = { λ c. c.reports };
}

/// A put or a declaration that needs no more memory. Contracts see the change as it is to be.
#[derive(Drop)]
pub struct ReadyChange {
    change: Change,
}

impl Model for ReadyChange {
    ghost use Rattle.filing_model.specs.Sessions.Changes.{Change as PlainChange};

    ghost Value = { PlainChange };

    ghost view = { λ r. r.change };
}

impl Change {
    /// The change of nothing. It takes no memory.
    pub fn new(alloc: Global) -> Change
        ensures { result ≡ empty }
    {
        Change {
            alloc,
            reports: TextPages::new(alloc),
        }
    }

    /// What changes in a report, or this.
    fn report_or<'a>(&'a self, name: &str, none: &'a ChangedReport) -> &'a ChangedReport
        ensures { result.now ≡ unwrap_or (get self.now name.now) none.now }
    {
        self.reports.get(name).unwrap_or(none)
    }

    /// The change with another change of one report.
    fn with_report(&self, name: &str, report: ChangedReport) -> Result<Change, AllocError>
        ensures { IfOk result (λ next. next ≡ insert self.now name.now report) }
    {
        let name = String::from_str(self.alloc, name)?;
        let reports = self.reports.with(self.alloc, name, report)?;
        Ok(Change {
            alloc: self.alloc,
            reports,
        })
    }

    /// A copy with a put into a report, in the place of an earlier put of its identifier.
    pub fn with_record(&self, report: &str, put: PutRecord) -> Result<Change, AllocError>
        ensures { IfOk result (λ next. next ≡ with_change self.now report.now put.0 put.1) }
    {
        let none = ChangedReport::new(self.alloc);
        let changed = self
            .report_or(report, &none)
            .with_entry(self.alloc, put.into_entry())?;
        self.with_report(report, changed)
    }

    /// A copy with a fact put, or removed, at an identifier, in the place of an earlier put of it.
    pub fn with_fact(
        &self,
        report: &str,
        id: String,
        fact: Option<Arc<Fact>>,
    ) -> Result<Change, AllocError>
        ensures { IfOk result (λ next. next
            ≡ with_change self.now report.now (string_bytes id) (option_map arc_value fact)) }
    {
        let put = PutRecord::of(self.alloc, id, fact)?;
        self.with_record(report, put)
    }

    /// Allocates all that `put` needs. The change stays as it is.
    pub fn ready(
        &self,
        report: &str,
        id: String,
        fact: Option<Arc<Fact>>,
    ) -> Result<ReadyChange, AllocError>
        ensures { IfOk result (λ next. next
            ≡ with_change self.now report.now (string_bytes id) (option_map arc_value fact)) }
    {
        let change = self.with_fact(report, id, fact)?;
        Ok(ReadyChange { change })
    }

    /// Makes a put or a declaration that is ready. It takes no memory.
    pub fn take(&mut self, ready: ReadyChange)
        ensures { self.new ≡ ready }
    {
        drop(mem::replace(self, ready.change));
    }

    /// Puts a fact, or removes what stands there, in the place of an earlier put of the identifier.
    pub fn put(
        &mut self,
        report: &str,
        id: String,
        fact: Option<Arc<Fact>>,
    ) -> Result<(), AllocError>
        ensures ok { OnOk result (self.new
            ≡ with_change self.old report.now (string_bytes id) (option_map arc_value fact)) }
        ensures err { OnErr result (self.new ≡ self.old) }
    {
        let ready = self.ready(report, id, fact)?;
        self.take(ready);
        Ok(())
    }

    /// A copy with a value declared, in the place of the one that it declared before.
    pub fn with_declared(&self, report: &str, allowed: Allowed) -> Result<Change, AllocError>
        ensures { IfOk result (λ next. next ≡ with_declared self.now report.now allowed) }
    {
        let none = ChangedReport::new(self.alloc);
        let changed = self
            .report_or(report, &none)
            .with_declared(self.alloc, allowed)?;
        self.with_report(report, changed)
    }

    /// Allocates all that `declare` needs. The change stays as it is.
    pub fn ready_declare(&self, report: &str, allowed: Allowed) -> Result<ReadyChange, AllocError>
        ensures { IfOk result (λ next. next ≡ with_declared self.now report.now allowed) }
    {
        let change = self.with_declared(report, allowed)?;
        Ok(ReadyChange { change })
    }

    /// Makes a declaration that is ready. It takes no memory.
    pub fn take_declare(&mut self, ready: ReadyChange)
        ensures { self.new ≡ ready }
    {
        self.take(ready);
    }

    /// Declares a value, in the place of the one that the change declared before.
    pub fn declare(&mut self, report: &str, allowed: Allowed) -> Result<(), AllocError>
        ensures ok { OnOk result (self.new ≡ with_declared self.old report.now allowed) }
        ensures err { OnErr result (self.new ≡ self.old) }
    {
        let ready = self.ready_declare(report, allowed)?;
        self.take_declare(ready);
        Ok(())
    }

    /// Whether nothing is put, removed or declared. It takes no memory.
    pub fn is_empty(&self) -> bool
        ensures { IsTrue result ↔ (self.now ≡ empty) }
    {
        match self.reports.iter().next() {
            None => true,
            Some(_) => false,
        }
    }

    /// What is put at an identifier, or none where it is removed. It takes no memory.
    pub fn staged(&self, report: &str, id: &str) -> Option<Option<&Arc<Fact>>>
        ensures { option_map fact_seen result ≡ change_at self.now report.now id.now }
    {
        let changed = self.reports.get(report)?;
        let put = changed.facts().get(id)?;
        Some(fact_of(put))
    }

    /// The value that a report is to declare. It takes no memory.
    pub fn declared(&self, report: &str) -> Option<Allowed>
        ensures { result ≡ declared_in self.now report.now }
    {
        self.reports.get(report)?.declared()
    }

    /// The changed reports in byte order of their names. It takes no memory.
    pub(crate) fn reports(&self) -> Range<'_, NamedValue<ChangedReport>>
        ensures { result ≡ self.now.entries }
    {
        self.reports.iter()
    }

    /// The puts in byte order of reports, then of identifiers. It takes no memory.
    pub fn puts(&self) -> Puts<'_>
        ensures { result ≡ puts_of self.now }
    {
        Puts::of(self.reports())
    }
}

/// The value that a report is to declare, if any, and by identifier the fact that is put there,
/// or none where it is removed.
#[derive(Drop)]
pub(crate) struct ChangedReport {
    declared: Option<Allowed>,
    facts: TextPages<Option<IndexedFact>>,
}

impl Model for ChangedReport {
    ghost use Rattle.filing_model.specs.Sessions.Changes.{ReportChange};

    ghost Value = { ReportChange };

    ghost view = { λ r. record { declared = r.declared; facts = r.facts } };
}

impl PagedValue for ChangedReport {}

/// The fact that is put, or none where it is removed.
pub(crate) fn fact_of(put: &Option<IndexedFact>) -> Option<&Arc<Fact>>
    ensures { fact_seen result ≡ put.now }
{
    put.as_ref().map(IndexedFact::fact)
}

/// The fact that is put, as an index holds it, or none.
pub(crate) fn index_put(
    alloc: Global,
    key_cache: &mut KeyCache,
    fact: Option<Arc<Fact>>,
) -> Result<Option<IndexedFact>, AllocError>
    ensures { IfOk result (λ put. put ≡ option_map arc_value fact) }
{
    match fact {
        None => Ok(None),
        Some(fact) => Ok(Some(IndexedFact::of(alloc, key_cache, fact)?)),
    }
}

impl ChangedReport {
    /// Nothing. It takes no memory.
    pub(crate) fn new(alloc: Global) -> ChangedReport
        ensures { result ≡ no_change }
    {
        ChangedReport {
            declared: None,
            facts: TextPages::new(alloc),
        }
    }

    pub(crate) fn declared(&self) -> Option<Allowed>
        ensures { result ≡ self.now.declared }
    {
        self.declared
    }

    pub(crate) fn facts(&self) -> &TextPages<Option<IndexedFact>>
        ensures { result.now ≡ self.now.facts }
    {
        &self.facts
    }

    /// A copy with a fact put, or removed, at an identifier.
    pub(crate) fn with_entry(
        &self,
        alloc: Global,
        entry: NamedValue<Option<IndexedFact>>,
    ) -> Result<ChangedReport, AllocError>
        ensures { IfOk result (λ r. r ≡ record self.now { facts = insert self.now.facts entry.0 entry.1 }) }
    {
        let facts = self.facts.after(alloc, &[Edit::Put(entry)])?;
        Ok(ChangedReport {
            declared: self.declared,
            facts,
        })
    }

    /// A copy with a value declared.
    pub(crate) fn with_declared(
        &self,
        alloc: Global,
        allowed: Allowed,
    ) -> Result<ChangedReport, AllocError>
        ensures { IfOk result (λ r. r ≡ record self.now { declared = Some allowed }) }
    {
        let facts = self.facts.share(alloc)?;
        Ok(ChangedReport {
            declared: Some(allowed),
            facts,
        })
    }
}
