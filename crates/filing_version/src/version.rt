//! `RepoVersion`: one unchanging state of the repository.
ghost use Rattle.std.specs.Prelude.{◌≡◌, ◌≤◌, ◌+◌, ◌<◌, ◌^◌, [], ◌∷◌, max, None, Some, Ok, true, Option, is_some, option_map, option_and_then, string_bytes, unwrap_or, IfOk, IfSome};
ghost use Rattle.std.specs.Arc.{arc_value};
ghost use Rattle.std.specs.Option.{option_map_or};
ghost use Rattle.filing_model.specs.Common.Text.{Text};
ghost use Rattle.filing_model.specs.Common.TextMap.{get as value_at, insert, remove};
ghost use Rattle.filing_model.specs.Sessions.Repository.{Repository, report_at, fact_in, with_report_at};
ghost use Rattle.filing_model.specs.Histories.Stamps.{first_version, version_after, version_with};
ghost use Rattle.filing_model.specs.Sessions.Changes.{after_change, changed, changed_at, first_disallowed, laid_over};
ghost use Rattle.filing_model.specs.Oim.Duplicates.{class_of, least_disallowed};
ghost use Rattle.filing_model.specs.Sessions.Queries.{cell_facts, cell_ids, ids_for};
ghost use Rattle.filing_model.specs.Sessions.Sessions.{repository_obeys, refusal_of};
ghost use Rattle.filing_laws.specs.Updating.NetChange.{refusal_at};
ghost use Rattle.filing_facts.specs.FactChanges.{Part};
ghost use Rattle.oim_fact.specs.PeriodFilterRef.{period_filter_of};
ghost use Rattle.filing_stamps.specs.Stamps.{stamp_in as part_stamp};
ghost use Rattle.filing_version.specs.Found.{got_of};
ghost use Rattle.filing_version.specs.StampedReports.{StampedReportValue, KeepsItsStamps, version_in, repository_in, mapped, stamped_report_of, stamped_reports_after, thing_in, IsStampedUpTo};
ghost use Rattle.filing_model.specs.Sessions.Things as thing;

use crate::change::{Change, ChangedReport};
use crate::indexed_report::{FactEntries, IndexedReport};
use crate::stamped_report::StampedReport;
use filing_index::{Facts, Ids};
use filing_stamps::Stamps;
use oim_fact::{Allowed, Class, DimSet, Fact, Names, PeriodFilterRef};
use oim_report::Report;
use std::alloc::{AllocError, Global};
use std::marker::Model;
use std::sync::Arc;
use text_map::{NamedValue, TextPages};

/// One state of the repository, which never changes: its reports, and the stamp of each thing,
/// the number of the last load or commit that touched it. Reports and facts are shared with other versions.
/// Contracts see the plain repository with its stamps, by `version_in`.
#[derive(Drop)]
pub struct RepoVersion {
    number: u64,
    reports: TextPages<StampedReport>,
}

impl Model for RepoVersion {
    ghost use Rattle.filing_version.specs.StampedReports.{mapped, stamped_report_of, IsStampedUpTo, StampedReports};

    ghost Value = { StampedReports };

    ghost view = { λ v. record { number = v.number; reports = v.reports } };

    ghost invariant = { λ v. IsStampedUpTo v.number (mapped stamped_report_of v.reports) };
}

/// A report under its name with a change laid over it, in place where no other version holds what changes.
fn changed_entry(
    alloc: Global,
    name: String,
    stamped: StampedReport,
    change: &ChangedReport,
) -> Result<NamedValue<StampedReport>, AllocError>
    ensures name { IfOk result (λ n. n.0 ≡ string_bytes name) }
    ensures report { IfOk result (λ n. stamped_report_of n.1
        ≡ record (stamped_report_of stamped) { report = changed change.now stamped.report }) }
{
    let changed = stamped.into_with_change(alloc, change)?;
    NamedValue::new(alloc, name, changed)
}

/// Takes the report of a name out of a few reports, where nothing else holds it.
fn take_alone(
    alloc: Global,
    reports: TextPages<StampedReport>,
    name: &str,
) -> Result<(TextPages<StampedReport>, Option<(String, StampedReport)>), AllocError>
    ensures none { IfOk result (λ r. r.1 ≡ None → r.0 ≡ reports) }
    ensures some { IfOk result (λ r. IfSome r.1 (λ taken. (string_bytes taken.0 ≡ name.now)
        × (value_at reports name.now ≡ Some taken.1) × (r.0 ≡ remove reports name.now))) }
{
    let (reports, taken) = reports.take(alloc, name);
    let Some(named) = taken else {
        return Ok((reports, None));
    };
    match named.into_parts() {
        Ok(parts) => Ok((reports, Some(parts))),
        Err(named) => {
            let reports = reports.put_back(alloc, named)?;
            Ok((reports, None))
        }
    }
}

/// The reports with an entry, where it could be made.
fn with_entry(
    alloc: Global,
    reports: TextPages<StampedReport>,
    entry: Result<NamedValue<StampedReport>, AllocError>,
) -> Result<TextPages<StampedReport>, AllocError>
    ensures { IfOk result (λ next. (made : Text × StampedReportValue) × (entry ≡ Ok made)
        × (next ≡ insert reports made.0 made.1)) }
{
    match entry {
        Ok(entry) => reports.put_back(alloc, entry),
        Err(error) => {
            drop(reports);
            Err(error)
        }
    }
}

/// The reports with the change of one of them laid over it, stamped with this number; none if it is not there.
fn with_stamped_part(
    alloc: Global,
    reports: &TextPages<StampedReport>,
    part: &NamedValue<ChangedReport>,
    number: u64,
) -> Result<Option<TextPages<StampedReport>>, AllocError>
    requires { IsStampedUpTo number (mapped stamped_report_of reports.now) }
    ensures { IfOk result (λ o. unwrap_or (option_map (mapped stamped_report_of) o)
        (mapped stamped_report_of reports.now)
        ≡ stamped_reports_after number (part.now ∷ []) (mapped stamped_report_of reports.now)) }
{
    let Some(stamped) = reports.get(part.name()) else {
        return Ok(None);
    };
    let name = String::from_str(alloc, part.name())?;
    let next = stamped.after(alloc, part.value(), number)?;
    let reports = reports.with(alloc, name, next)?;
    Ok(Some(reports))
}

/// The reports with the change of one of them laid over it, stamped with this number; unchanged if it is not there.
fn into_stamped_part(
    alloc: Global,
    reports: TextPages<StampedReport>,
    part: &NamedValue<ChangedReport>,
    number: u64,
) -> Result<TextPages<StampedReport>, AllocError>
    requires { IsStampedUpTo number (mapped stamped_report_of reports) }
    ensures { IfOk result (λ next. mapped stamped_report_of next
        ≡ stamped_reports_after number (part.now ∷ []) (mapped stamped_report_of reports)) }
{
    match with_stamped_part(alloc, &reports, part, number) {
        Ok(None) => Ok(reports),
        Ok(Some(next)) => {
            drop(reports);
            Ok(next)
        }
        Err(error) => {
            drop(reports);
            Err(error)
        }
    }
}

#[tactic(auto, using(crate::proofs::StampedReports::reported))]
impl RepoVersion {
    /// The version before the first load. It takes no memory.
    pub fn empty(alloc: Global) -> RepoVersion
        ensures { version_in result ≡ first_version }
    {
        RepoVersion {
            number: 0,
            reports: TextPages::new(alloc),
        }
    }

    /// How many loads and commits were accepted.
    pub fn number(&self) -> u64
        ensures { result ≡ (repository_in self.now).count }
    {
        self.number
    }

    /// What stands at an identifier. It takes no memory, nor do the look-ups below.
    pub fn get(&self, report: &str, id: &str) -> Got<'_>
        ensures { got_of result ≡ option_map (λ r. fact_in r id.now) (report_at (repository_in self.now) report.now) }
    {
        let Some(stamped) = self.reports.get(report) else {
            return Got::NoReport;
        };
        match stamped.facts().get(id) {
            Some(fact) => Got::Found(fact),
            None => Got::Absent,
        }
    }

    /// The facts of a report, or none where it is not there.
    pub(crate) fn facts(&self, report: &str) -> Option<&Facts>
        ensures { option_map (λ f. f.now) result
            ≡ option_map (λ r. r.facts) (report_at (repository_in self.now) report.now) }
    {
        Some(self.reports.get(report)?.facts())
    }

    /// The class of a cell, and the identifiers of its facts in byte order, or none where the report is not there.
    pub fn cell<'a>(&'a self, report: &str, dims: &'a DimSet) -> Option<(Class, Ids<'a>)>
        ensures { result ≡ option_map (λ r. (class_of (cell_facts dims.now r.facts), cell_ids dims.now r.facts))
            (report_at (repository_in self.now) report.now) }
    {
        let facts = self.reports.get(report)?.facts();
        Some(facts.cell(dims))
    }

    /// The identifiers, in byte order, of the facts with a concept and a period that passes the filter;
    /// if `after` is given, only those greater than it. None if the report is not there.
    pub fn query<'a>(
        &'a self,
        report: &str,
        concept: &'a str,
        period: PeriodFilterRef<'a>,
        after: Option<&str>,
    ) -> Option<Ids<'a>>
        ensures { result ≡ option_map (λ r. ids_for (record {
          concept = concept.now;
          period = period_filter_of period.entry;
          after = option_map (λ t. t.now) after.entry;
        }) r.facts) (report_at (repository_in self.now) report.now) }
    {
        let facts = self.reports.get(report)?.facts();
        Some(facts.ids_of_query(concept, period, after))
    }

    /// The facts of a report under their identifiers, in byte order of these, or none where it is not there.
    pub fn entries(&self, report: &str) -> Option<FactEntries<'_>>
        ensures { result ≡ option_map (λ r. r.facts.entries) (report_at (repository_in self.now) report.now) }
    {
        Some(FactEntries::of(self.reports.get(report)?.facts().iter()))
    }

    /// The compact text of the `documentInfo` of a report, or none where it is not there.
    pub fn info(&self, report: &str) -> Option<&str>
        ensures { option_map (λ t. t.now) result
            ≡ option_map (λ r. r.info) (report_at (repository_in self.now) report.now) }
    {
        Some(self.reports.get(report)?.info())
    }

    /// The prefixes of a report with its numeric table, or none where it is not there.
    pub fn names(&self, report: &str) -> Option<&Names>
        ensures { option_map (λ n. n.now) result
            ≡ option_map (λ r. r.names) (report_at (repository_in self.now) report.now) }
    {
        Some(self.reports.get(report)?.names())
    }

    /// The version with a change laid over it, which counts one more. What the change touches has that number.
    pub fn after(&self, alloc: Global, change: &Change) -> Result<RepoVersion, AllocError>
        requires there { (name : Text) → report_at (repository_in self.now) name ≡ None
            → value_at change.now name ≡ None }
        requires few { (repository_in self.now).count + 1 < 2 ^ 64 }
        ensures { IfOk result (λ v. version_in v ≡ version_after change.now (version_in self.now)) }
    {
        let number = self.number + 1;
        let mut reports = self.reports.share(alloc)?;
        for part in change.reports() {
            reports = into_stamped_part(alloc, reports, part, number)?;
        }
        Ok(RepoVersion { number, reports })
    }

    /// The version with one report more, which counts one more and stamps its name.
    pub fn with_indexed_report(
        &self,
        alloc: Global,
        name: String,
        report: IndexedReport,
    ) -> Result<RepoVersion, AllocError>
        requires new { report_at (repository_in self.now) (string_bytes name) ≡ None }
        requires few { (repository_in self.now).count + 1 < 2 ^ 64 }
        ensures { IfOk result (λ v. version_in v ≡ version_with (string_bytes name) report (version_in self.now)) }
    {
        let number = self.number + 1;
        let stamped = StampedReport::new(alloc, report, number);
        let reports = self.reports.with(alloc, name, stamped)?;
        Ok(RepoVersion { number, reports })
    }

    /// The version with one report more, which is not indexed yet. It counts one more and stamps the report's name.
    pub fn with_report(
        &self,
        alloc: Global,
        name: String,
        report: Report,
    ) -> Result<RepoVersion, AllocError>
        requires new { report_at (repository_in self.now) (string_bytes name) ≡ None }
        requires few { (repository_in self.now).count + 1 < 2 ^ 64 }
        ensures { IfOk result (λ v. version_in v ≡ version_with (string_bytes name) report (version_in self.now)) }
    {
        let report = Arc::new(alloc, report)?;
        let indexed = IndexedReport::of(alloc, report)?;
        self.with_indexed_report(alloc, name, indexed)
    }

    /// A copy of the version, which shares its reports.
    fn share(&self, alloc: Global) -> Result<RepoVersion, AllocError>
        ensures { IfOk result (λ v. version_in v ≡ version_in self.now) }
    {
        let reports = self.reports.share(alloc)?;
        Ok(RepoVersion {
            number: self.number,
            reports,
        })
    }

    /// The version with another report of a name that it has, whose stamps are as they were.
    fn with_stamped_report(
        &self,
        alloc: Global,
        name: String,
        stamped: StampedReport,
    ) -> Result<RepoVersion, AllocError>
        requires { (old : StampedReportValue) × KeepsItsStamps self.now.reports (string_bytes name) old stamped }
        ensures { IfOk result (λ v. version_in v ≡ record (version_in self.now) {
          repository = with_report_at (repository_in self.now) (string_bytes name) stamped.report;
        }) }
    {
        let reports = self.reports.with(alloc, name, stamped)?;
        Ok(RepoVersion {
            number: self.number,
            reports,
        })
    }

    /// The version with the change of one report laid over it; unchanged if the report is not there.
    fn with_part(
        &self,
        alloc: Global,
        part: &NamedValue<ChangedReport>,
    ) -> Result<RepoVersion, AllocError>
        ensures { IfOk result (λ v. version_in v
            ≡ record (version_in self.now) { repository = changed_at (repository_in self.now) part.now }) }
    {
        let Some(stamped) = self.reports.get(part.name()) else {
            return self.share(alloc);
        };
        let name = String::from_str(alloc, part.name())?;
        let changed = stamped.with_change(alloc, part.value(), self.number)?;
        self.with_stamped_report(alloc, name, changed)
    }

    /// The version with a change laid over it, but for reports that are not there. Its number and its stamps stay.
    /// It is what a session makes of the version of its opening, and no version that was accepted.
    pub fn with_change(&self, alloc: Global, change: &Change) -> Result<RepoVersion, AllocError>
        ensures { IfOk result (λ v. version_in v
            ≡ record (version_in self.now) { repository = laid_over change.now (repository_in self.now) }) }
    {
        let version = self.share(alloc)?;
        version.into_with_change(alloc, change)
    }

    /// The version with the change of one report laid over a copy of it. This version is dropped.
    fn into_with_copied_part(
        self,
        alloc: Global,
        part: &NamedValue<ChangedReport>,
    ) -> Result<RepoVersion, AllocError>
        ensures { IfOk result (λ v. version_in v
            ≡ record (version_in self) { repository = changed_at (repository_in self) part.now }) }
    {
        let next = self.with_part(alloc, part);
        drop(self);
        next
    }

    /// The version with the change of one report laid over it, in place where no other version holds what changes.
    fn into_with_part(
        self,
        alloc: Global,
        part: &NamedValue<ChangedReport>,
    ) -> Result<RepoVersion, AllocError>
        ensures { IfOk result (λ v. version_in v
            ≡ record (version_in self) { repository = changed_at (repository_in self) part.now }) }
    {
        let RepoVersion { number, reports } = self;
        let (reports, taken) = take_alone(alloc, reports, part.name())?;
        match taken {
            Some((name, stamped)) => {
                let changed = changed_entry(alloc, name, stamped, part.value());
                let reports = with_entry(alloc, reports, changed)?;
                Ok(RepoVersion { number, reports })
            }
            None => {
                let same = RepoVersion { number, reports };
                same.into_with_copied_part(alloc, part)
            }
        }
    }

    /// The version with a change laid over it, but for reports that are not there. Its number and its stamps stay.
    /// What no other version holds is changed in place.
    pub fn into_with_change(self, alloc: Global, change: &Change) -> Result<RepoVersion, AllocError>
        ensures { IfOk result (λ v. version_in v
            ≡ record (version_in self) { repository = laid_over change.now (repository_in self) }) }
    {
        let mut version = self;
        for part in change.reports() {
            version = version.into_with_part(alloc, part)?;
        }
        Ok(version)
    }

    /// The report of this name. Its facts are shared.
    pub fn report(&self, alloc: Global, name: &str) -> Result<Option<Report>, AllocError>
        ensures { IfOk result (λ o. o ≡ report_at (repository_in self.now) name.now) }
    {
        match self.reports.get(name) {
            None => Ok(None),
            Some(stamped) => Ok(Some(stamped.report(alloc)?)),
        }
    }

    /// Whether there is a report of this name.
    pub fn has(&self, name: &str) -> bool
        ensures { result ≡ is_some (report_at (repository_in self.now) name.now) }
    {
        self.reports.get(name).is_some()
    }

    /// The allowed duplicates that a report declares, or none where it is not there.
    pub fn allowed(&self, report: &str) -> Option<Allowed>
        ensures { result ≡ option_map (λ r. r.allowed) (report_at (repository_in self.now) report.now) }
    {
        Some(self.reports.get(report)?.allowed())
    }

    /// In the version that a change made: the least report with a disallowed cell, with the least such cell.
    /// It looks at the cells of the facts that are put, and at all cells of a report for which a value is declared.
    ///
    /// Where the version before obeyed, this decides the commit: it is the least of all.
    pub fn first_disallowed<'a>(&'a self, change: &'a Change) -> Option<(&'a str, &'a DimSet)>
        ensures first { option_map (λ d. (d.0.now, d.1.now)) result
            ≡ first_disallowed (repository_in self.now) change.now }
        ensures decides { (base : Repository) → repository_obeys base ≡ true
            → (repository_in self.now) ≡ after_change change.now base
            → refusal_of (repository_in self.now)
            ≡ option_map (λ d. refusal_at (repository_in self.now) (d.0.now, d.1.now)) result }
    {
        for part in change.reports() {
            if let Some(stamped) = self.reports.get(part.name()) {
                if let Some(dims) = stamped.least_changed(part.value()) {
                    return Some((part.name(), dims));
                }
            }
        }
        None
    }

    /// The least dimensions whose cell a report does not allow.
    pub fn disallowed_in(&self, report: &str) -> Option<&DimSet>
        ensures { option_map (λ d. d.now) result
            ≡ option_and_then (λ r. least_disallowed r.allowed r.facts.entries)
            (report_at (repository_in self.now) report.now) }
    {
        self.reports.get(report)?.least_disallowed()
    }

    /// The number of the load of this name, or 0.
    pub fn stamp_report(&self, name: &str) -> u64
        ensures { result ≡ (version_in self.now).stamp (thing.Report name.now) }
    {
        match self.reports.get(name) {
            Some(stamped) => stamped.load_stamp(),
            None => 0,
        }
    }

    /// The stamps of a report if any of them can be newer than `since`. None where the report is not there.
    fn stamps_since(&self, report: &str, since: u64) -> Option<&Stamps>
        ensures { (part : Part) → max since (option_map_or (λ s. part_stamp s.now part) result 0)
            ≡ max since ((version_in self.now).stamp (thing_in report.now part)) }
    {
        if self.number <= since {
            return None;
        }
        let Some(stamped) = self.reports.get(report) else {
            return None;
        };
        Some(stamped.stamps())
    }

    /// The number of the last commit that touched an identifier, or 0.
    pub fn stamp_id(&self, report: &str, id: &str) -> u64
        ensures { result ≡ (version_in self.now).stamp (thing.Id report.now id.now) }
    {
        self.stamp_id_since(report, id, 0)
    }

    /// The identifier's stamp if it is newer than `since`; otherwise any number up to `since`.
    pub fn stamp_id_since(&self, report: &str, id: &str, since: u64) -> u64
        ensures { max since result ≡ max since ((version_in self.now).stamp (thing.Id report.now id.now)) }
    {
        match self.stamps_since(report, since) {
            Some(stamps) => stamps.of_id_since(id, since),
            None => 0,
        }
    }

    /// The number of the last commit that touched a cell, or 0.
    pub fn stamp_cell(&self, report: &str, dims: &DimSet) -> u64
        ensures { result ≡ (version_in self.now).stamp (thing.Cell report.now dims.now) }
    {
        self.stamp_cell_since(report, dims, 0)
    }

    /// The cell's stamp if it is newer than `since`; otherwise any number up to `since`.
    pub fn stamp_cell_since(&self, report: &str, dims: &DimSet, since: u64) -> u64
        ensures { max since result ≡ max since ((version_in self.now).stamp (thing.Cell report.now dims.now)) }
    {
        match self.stamps_since(report, since) {
            Some(stamps) => stamps.of_cell_since(dims, since),
            None => 0,
        }
    }

    /// The number of the last commit that touched what a query finds, up to an identifier if one is given, or 0.
    pub fn stamp_range(
        &self,
        report: &str,
        concept: &str,
        period: PeriodFilterRef<'_>,
        after: Option<&str>,
        upto: Option<&str>,
    ) -> u64
        ensures { result ≡ (version_in self.now).stamp (thing.Range report.now (record {
          concept = concept.now;
          period = period_filter_of period.entry;
          after = option_map (λ t. t.now) after.entry;
        }) (option_map (λ t. t.now) upto.entry)) }
    {
        self.stamp_range_since(report, concept, period, after, upto, 0)
    }

    /// The stamp of what a query finds, up to an identifier if one is given, if it is newer than `since`;
    /// otherwise any number up to `since`.
    pub fn stamp_range_since(
        &self,
        report: &str,
        concept: &str,
        period: PeriodFilterRef<'_>,
        after: Option<&str>,
        upto: Option<&str>,
        since: u64,
    ) -> u64
        ensures { max since result ≡ max since ((version_in self.now).stamp (thing.Range report.now (record {
          concept = concept.now;
          period = period_filter_of period.entry;
          after = option_map (λ t. t.now) after.entry;
        }) (option_map (λ t. t.now) upto.entry))) }
    {
        match self.stamps_since(report, since) {
            Some(stamps) => stamps.of_range_since(concept, period, after, upto, since),
            None => 0,
        }
    }

    /// The number of the last commit that declared the allowed duplicates of a report, or 0.
    pub fn stamp_policy(&self, report: &str) -> u64
        ensures { result ≡ (version_in self.now).stamp (thing.Policy report.now) }
    {
        match self.reports.get(report) {
            Some(stamped) => stamped.policy_stamp(),
            None => 0,
        }
    }
}

/// What stands at an identifier of a report.
#[derive(Clone, Copy)]
pub enum Got<'a> {
    NoReport,
    Absent,
    Found(&'a Arc<Fact>),
}
