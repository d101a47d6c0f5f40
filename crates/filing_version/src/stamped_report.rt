//! One report of a version, with the stamps of its parts.
ghost use Rattle.std.specs.Prelude.{◌≡◌, ◌≤◌, [], ◌∷◌, cond, is_some, map, option_map, IfOk};
ghost use Rattle.std.specs.Arc.{arc_value};
ghost use Rattle.std.specs.List.{filter_map};
ghost use Rattle.filing_model.specs.Reading.DeclaredValue.{report_declaring};
ghost use Rattle.filing_model.specs.Sessions.Changes.{changed, declaring_if, least_among, least_changed};
ghost use Rattle.filing_model.specs.Oim.Duplicates.{least_disallowed};
ghost use Rattle.oim_report.specs.Parts.{facts_view};
ghost use Rattle.filing_facts.specs.FactChanges.{Part, fact_changes_of, stamped_by, with_changes};
ghost use Rattle.filing_stamps.specs.Stamps.{stamp_in};
ghost use Rattle.filing_version.specs.StampedReports.{stamped_report_of, new_stamped_report, changed_stamped_report};
ghost use Rattle.filing_version.specs.StampedReports.{without_facts};

use crate::change::ChangedReport;
use crate::indexed_report::{IndexedReport, without_facts};
use filing_facts::IndexedFact;
use filing_index::Facts;
use filing_stamps::Stamps;
use oim_fact::{Allowed, DimSet, Fact, Names};
use oim_report::{Report, ReportParts};
use std::alloc::{AllocError, Global};
use std::marker::Model;
use std::sync::Arc;
use text_map::{PagedValue, TextPages};

/// A report whose facts stand in indexes, with its stamps: the number of its load,
/// that of the last commit that declared its value, and those of its parts. Contracts see these.
#[derive(Drop)]
pub(crate) struct StampedReport {
    /// A copy of the report without its facts. They stand in the indexes, so facts that no version has are freed.
    header: Arc<Report>,
    facts: Facts,
    loaded: u64,
    declared: u64,
    stamps: Stamps,
}

impl Model for StampedReport {
    ghost use Rattle.std.specs.Arc.{arc_value};
    ghost use Rattle.filing_version.specs.StampedReports.{StampedReportValue};

    ghost Value = { StampedReportValue };

    ghost view = { λ f. record {
      report = record (arc_value f.header) { facts = f.facts };
      loaded = f.loaded;
      declared = f.declared;
      stamps = f.stamps;
    } };
}

impl PagedValue for StampedReport {}

/// A copy of a report without its facts, which declares this value.
fn copy_declaring(alloc: Global, header: &Report, allowed: Allowed) -> Result<Report, AllocError>
    ensures { IfOk result (λ r. r ≡ report_declaring (without_facts header.now) allowed) }
{
    let copy = without_facts(alloc, header)?;
    copy.with_allowed(alloc, allowed)
}

/// A report that declares this value, if one is given; else another owner of this report. Its facts are not looked at.
fn share_declaring(
    alloc: Global,
    header: &Arc<Report>,
    declared: Option<Allowed>,
) -> Result<Arc<Report>, AllocError>
    ensures { IfOk result (λ r. without_facts (arc_value r)
        ≡ without_facts (declaring_if declared (arc_value header.now))) }
{
    match declared {
        None => Arc::try_clone(header),
        Some(allowed) => {
            let changed = copy_declaring(alloc, header, allowed)?;
            Ok(Arc::new(alloc, changed)?)
        }
    }
}

/// Facts with puts laid over them, in place where no others hold what changes.
fn facts_with(
    alloc: Global,
    facts: Facts,
    puts: &TextPages<Option<IndexedFact>>,
) -> Result<Facts, AllocError>
    ensures { IfOk result (λ after. after ≡ with_changes puts.now.entries facts) }
{
    match facts.fact_changes(alloc, puts) {
        Ok(fact_changes) => facts.into_after(alloc, &fact_changes),
        Err(error) => {
            drop(facts);
            Err(error)
        }
    }
}

impl StampedReport {
    /// A report that is loaded as this version. It takes no memory.
    pub(crate) fn new(alloc: Global, report: IndexedReport, number: u64) -> StampedReport
        ensures { stamped_report_of result ≡ new_stamped_report number report }
    {
        let (header, facts) = report.into_parts();
        StampedReport {
            header,
            facts,
            loaded: number,
            declared: 0,
            stamps: Stamps::new(alloc),
        }
    }

    /// The facts with puts laid over them, and the stamps of their parts: this number where the puts touch one.
    fn facts_and_stamps_after(
        &self,
        alloc: Global,
        puts: &TextPages<Option<IndexedFact>>,
        number: u64,
    ) -> Result<(Facts, Stamps), AllocError>
        requires { (part : Part) → stamp_in self.now.stamps part ≤ number }
        ensures facts { IfOk result (λ after. after.0 ≡ with_changes puts.now.entries self.now.report.facts) }
        ensures stamps { IfOk result (λ after. stamp_in after.1
            ≡ stamped_by (fact_changes_of puts.now.entries self.now.report.facts) number (stamp_in self.now.stamps)) }
    {
        let fact_changes = self.facts.fact_changes(alloc, puts)?;
        let stamps = self.stamps.after(alloc, &fact_changes, number)?;
        let facts = self.facts.after(alloc, &fact_changes)?;
        Ok((facts, stamps))
    }

    /// The report with a change laid over it, stamped with this number.
    pub(crate) fn after(
        &self,
        alloc: Global,
        change: &ChangedReport,
        number: u64,
    ) -> Result<StampedReport, AllocError>
        requires { (part : Part) → stamp_in self.now.stamps part ≤ number }
        ensures { IfOk result (λ f. stamped_report_of f
            ≡ changed_stamped_report number change.now (stamped_report_of self.now)) }
    {
        let declared = match change.declared() {
            Some(_) => number,
            None => self.declared,
        };
        let header = share_declaring(alloc, &self.header, change.declared())?;
        let (facts, stamps) = self.facts_and_stamps_after(alloc, change.facts(), number)?;
        Ok(StampedReport {
            header,
            facts,
            loaded: self.loaded,
            declared,
            stamps,
        })
    }

    /// The facts with puts laid over them.
    fn facts_after(
        &self,
        alloc: Global,
        puts: &TextPages<Option<IndexedFact>>,
    ) -> Result<Facts, AllocError>
        ensures { IfOk result (λ facts. facts ≡ with_changes puts.now.entries self.now.report.facts) }
    {
        let fact_changes = self.facts.fact_changes(alloc, puts)?;
        self.facts.after(alloc, &fact_changes)
    }

    /// A copy of the stamps, which shares all that they hold.
    fn stamps_again(&self, alloc: Global, number: u64) -> Result<Stamps, AllocError>
        requires { (part : Part) → stamp_in self.now.stamps part ≤ number }
        ensures { IfOk result (λ stamps. stamp_in stamps ≡ stamp_in self.now.stamps) }
    {
        self.stamps.after(alloc, &[], number)
    }

    /// The report with a change laid over it. No stamp is greater than the number, and all stay.
    pub(crate) fn with_change(
        &self,
        alloc: Global,
        change: &ChangedReport,
        number: u64,
    ) -> Result<StampedReport, AllocError>
        requires { (part : Part) → stamp_in self.now.stamps part ≤ number }
        ensures { IfOk result (λ f. stamped_report_of f
            ≡ record (stamped_report_of self.now) { report = changed change.now self.now.report }) }
    {
        let header = share_declaring(alloc, &self.header, change.declared())?;
        let stamps = self.stamps_again(alloc, number)?;
        let facts = self.facts_after(alloc, change.facts())?;
        Ok(StampedReport {
            header,
            facts,
            loaded: self.loaded,
            declared: self.declared,
            stamps,
        })
    }

    /// The report with a change laid over it, in place where no other version holds what changes. All stamps stay.
    pub(crate) fn into_with_change(
        self,
        alloc: Global,
        change: &ChangedReport,
    ) -> Result<StampedReport, AllocError>
        ensures { IfOk result (λ f. stamped_report_of f
            ≡ record (stamped_report_of self) { report = changed change.now self.report }) }
    {
        let header = share_declaring(alloc, &self.header, change.declared())?;
        let StampedReport {
            header: _,
            facts: before,
            loaded,
            declared,
            stamps,
        } = self;
        let facts = facts_with(alloc, before, change.facts())?;
        Ok(StampedReport {
            header,
            facts,
            loaded,
            declared,
            stamps,
        })
    }

    /// The facts, which are shared.
    fn shared_facts(&self, alloc: Global) -> Result<Vec<(String, Arc<Fact>)>, AllocError>
        ensures { IfOk result (λ v. facts_view v.items ≡ self.now.report.facts.entries) }
    {
        let mut facts = Vec::new(alloc);
        for entry in self.facts.iter() {
            let id = String::from_str(alloc, entry.name())?;
            facts.push((id, Arc::try_clone(entry.value().fact())?))?;
        }
        Ok(facts)
    }

    /// The report. Its facts are shared.
    pub(crate) fn report(&self, alloc: Global) -> Result<Report, AllocError>
        ensures { IfOk result (λ r. r ≡ self.now.report) }
    {
        let facts = self.shared_facts(alloc)?;
        let names = self.header.names().clone()?;
        let info = String::from_str(alloc, self.header.info())?;
        Ok(Report::of(ReportParts {
            info,
            names,
            allowed: self.header.allowed(),
            facts,
        }))
    }

    /// The compact text of `documentInfo`.
    pub(crate) fn info(&self) -> &str
        ensures { result.now ≡ self.now.report.info }
    {
        self.header.info()
    }

    pub(crate) fn facts(&self) -> &Facts
        ensures { result.now ≡ self.now.report.facts }
    {
        &self.facts
    }

    pub(crate) fn stamps(&self) -> &Stamps
        ensures { result.now ≡ self.now.stamps }
    {
        &self.stamps
    }

    pub(crate) fn names(&self) -> &Names
        ensures { result.now ≡ self.now.report.names }
    {
        self.header.names()
    }

    pub(crate) fn allowed(&self) -> Allowed
        ensures { result ≡ self.now.report.allowed }
    {
        self.header.allowed()
    }

    /// The least dimensions whose cell a changed report does not allow.
    /// All its cells are looked at where the change declares a value, else those of the facts that it puts.
    pub(crate) fn least_changed<'a>(&'a self, change: &'a ChangedReport) -> Option<&'a DimSet>
        ensures { option_map (λ d. d.now) result ≡ least_changed change.now self.now.report }
    {
        match change.declared() {
            Some(_) => self.least_disallowed(),
            None => self.least_among(change.facts()),
        }
    }

    /// The least dimensions of facts that are put whose cell is not allowed. A fact that is put stands in the report.
    /// A cell is looked at once for all facts of it that are put one after another.
    fn least_among<'a>(&self, puts: &'a TextPages<Option<IndexedFact>>) -> Option<&'a DimSet>
        ensures { option_map (λ d. d.now) result
            ≡ least_among (filter_map (λ e. e.1) puts.now.entries) self.now.report }
    {
        let allowed = self.allowed();
        let mut least = None;
        let mut before = None;
        for put in puts.iter() {
            if let Some(held) = put.value() {
                least = self.facts.lesser_disallowed(allowed, least, before, held);
                before = Some(&held.fact().dims);
            }
        }
        least
    }

    /// The least dimensions whose cell is not allowed.
    pub(crate) fn least_disallowed(&self) -> Option<&DimSet>
        ensures { option_map (λ d. d.now) result
            ≡ least_disallowed self.now.report.allowed self.now.report.facts.entries }
    {
        self.facts.least_disallowed(self.allowed())
    }

    /// The number of its load.
    pub(crate) fn load_stamp(&self) -> u64
        ensures { result ≡ self.now.loaded }
    {
        self.loaded
    }

    /// The number of the last commit that declared its value, or 0.
    pub(crate) fn policy_stamp(&self) -> u64
        ensures { result ≡ self.now.declared }
    {
        self.declared
    }
}
