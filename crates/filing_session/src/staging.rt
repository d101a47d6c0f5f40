//! `Staging`: what a session has staged, and the copy of its version in which that shows.
ghost use Rattle.std.specs.Prelude.{◌≡◌, Some, option_map, string_bytes, unwrap_or, IfOk};
ghost use Rattle.std.specs.Arc.{arc_value};
ghost use Rattle.filing_model.specs.Common.TextMap.{empty};
ghost use Rattle.filing_model.specs.Sessions.Changes.{laid_over, with_change, with_declared};
ghost use Rattle.filing_model.specs.Sessions.Repository.{report_at, fact_in, with_fact_at, declaring_at};
ghost use Rattle.filing_version.specs.StampedReports.{repository_in};
ghost use Rattle.filing_version.specs.Found.{got_of};
ghost use Rattle.filing_version.specs.Puts.{fact_seen};

use filing_version::{Change, Got, PutRecord, RepoVersion};
use oim_fact::{Allowed, Fact, Names};
use std::alloc::{AllocError, Global};
use std::marker::Model;
use std::mem;
use std::sync::Arc;

/// What is pending, in a box: few sessions have it, and all would pay for its size. Contracts see the plain change.
#[derive(Drop)]
struct Pending {
    alloc: Global,
    change: Box<Change>,
}

impl Model for Pending {
    ghost use Rattle.filing_model.specs.Sessions.Changes.{Change as PlainChange};

    ghost Value = { PlainChange };

    ghost view = { λ p. p.change.value };
}

impl Pending {
    fn of(alloc: Global, change: Change) -> Result<Pending, AllocError>
        ensures { IfOk result (λ p. p ≡ change) }
    {
        Ok(Pending {
            alloc,
            change: Box::new(alloc, change)?,
        })
    }

    fn change(&self) -> &Change
        ensures { result.now ≡ self.now }
    {
        &self.change
    }

    fn with_record(&self, report: &str, put: PutRecord) -> Result<Pending, AllocError>
        ensures { IfOk result (λ p. p ≡ with_change self.now report.now put.0 put.1) }
    {
        Pending::of(self.alloc, self.change().with_record(report, put)?)
    }

    fn with_declared(&self, report: &str, allowed: Allowed) -> Result<Pending, AllocError>
        ensures { IfOk result (λ p. p ≡ with_declared self.now report.now allowed) }
    {
        Pending::of(self.alloc, self.change().with_declared(report, allowed)?)
    }
}

/// What is staged, and a version that has some of it. Contracts see the copy with all that is staged, and the change.
/// What the version does not have yet is applied to it all at once, when a cell or a page is read; what stands at an identifier is read from both.
#[derive(Drop)]
pub(crate) struct Staging {
    /// The version of the opening, where the other one has some of what is staged.
    base: Option<Arc<RepoVersion>>,
    /// The version of the opening with what is no more pending.
    version: Arc<RepoVersion>,
    /// What the version does not have yet, where that is not all that is staged.
    pending: Option<Pending>,
    change: Change,
}

impl Model for Staging {
    ghost use Rattle.filing_model.specs.Sessions.Repository.{Repository};
    ghost use Rattle.filing_model.specs.Sessions.Changes.{Change as PlainChange};

    ghost Value = { Repository × PlainChange };

    ghost use Rattle.std.specs.Prelude.{◌≡◌, unwrap_or};
    ghost use Rattle.std.specs.Arc.{arc_value};
    ghost use Rattle.filing_model.specs.Sessions.Changes.{laid_over};
    ghost use Rattle.filing_version.specs.StampedReports.{repository_in};

    ghost view = { λ s. (laid_over (unwrap_or s.pending s.change) (repository_in (arc_value s.version)), s.change) };

    ghost invariant = { λ s. laid_over (unwrap_or s.pending s.change) (repository_in (arc_value s.version))
        ≡ laid_over s.change (repository_in (arc_value (unwrap_or s.base s.version))) };
}

/// What is pending, where that is not all that is staged, or all.
fn pending_of<'a>(pending: &'a Option<Pending>, change: &'a Change) -> &'a Change
    ensures { result.now ≡ unwrap_or pending.now change.now }
{
    match pending {
        None => change,
        Some(pending) => pending.change(),
    }
}

/// What stands where a fact is put, or where one is removed.
fn get_put(put: Option<&Arc<Fact>>) -> Got<'_>
    ensures { got_of result ≡ Some (fact_seen put.entry) }
{
    match put {
        None => Got::Absent,
        Some(fact) => Got::Found(fact),
    }
}

/// What stands at an identifier of a version with a change laid over it.
fn get_with_pending<'a>(
    version: &'a RepoVersion,
    pending: &'a Change,
    report: &str,
    id: &str,
) -> Got<'a>
    ensures { got_of result ≡ option_map (λ r. fact_in r id.now)
        (report_at (laid_over pending.now (repository_in version.now)) report.now) }
{
    match version.get(report, id) {
        Got::NoReport => Got::NoReport,
        there => match pending.staged(report, id) {
            None => there,
            Some(put) => get_put(put),
        },
    }
}

/// The value that a report of a version with a change laid over it declares, or none where it is not there.
#[tactic(auto, using(crate::proofs::PendingChanges::value_laid))]
fn value_of(version: &RepoVersion, pending: &Change, report: &str) -> Option<Allowed>
    ensures { result ≡ option_map (λ r. r.allowed)
        (report_at (laid_over pending.now (repository_in version.now)) report.now) }
{
    let before = version.allowed(report)?;
    Some(pending.declared(report).unwrap_or(before))
}

/// A version with a change laid over it, or another owner of the same where the change is of nothing.
fn with_pending(
    alloc: Global,
    version: &Arc<RepoVersion>,
    pending: &Change,
) -> Result<Arc<RepoVersion>, AllocError>
    ensures { IfOk result (λ v. repository_in (arc_value v)
        ≡ laid_over pending.now (repository_in (arc_value version.now))) }
{
    if pending.is_empty() {
        return Arc::try_clone(version);
    }
    let changed = version.with_change(alloc, pending)?;
    Ok(Arc::new(alloc, changed)?)
}

/// A version with a change laid over it, in place where nobody else holds what changes. The version is given up for it.
fn into_with_pending(
    alloc: Global,
    version: Arc<RepoVersion>,
    pending: &Change,
) -> Result<Arc<RepoVersion>, AllocError>
    ensures { IfOk result (λ v. repository_in (arc_value v)
        ≡ laid_over pending.now (repository_in (arc_value version))) }
{
    let changed = match Arc::try_unwrap(version) {
        Ok(version) => version.into_with_change(alloc, pending)?,
        Err(version) => version.with_change(alloc, pending)?,
    };
    Ok(Arc::new(alloc, changed)?)
}

/// Another owner of a version, if any.
fn share(version: &Option<Arc<RepoVersion>>) -> Result<Option<Arc<RepoVersion>>, AllocError>
    ensures { IfOk result (λ o. option_map arc_value o ≡ option_map arc_value version.now) }
{
    match version {
        None => Ok(None),
        Some(version) => Ok(Some(Arc::try_clone(version)?)),
    }
}

impl Staging {
    /// Nothing is staged over this version.
    pub(crate) fn new(alloc: Global, version: Arc<RepoVersion>) -> Staging
        ensures { result ≡ (repository_in (arc_value version), empty) }
    {
        Staging {
            base: None,
            version,
            pending: None,
            change: Change::new(alloc),
        }
    }

    /// What is staged.
    pub(crate) fn change(&self) -> &Change
        ensures { result.now ≡ self.now.1 }
    {
        &self.change
    }

    /// What stands at an identifier. It takes no memory, nor do the two below.
    pub(crate) fn get(&self, report: &str, id: &str) -> Got<'_>
        ensures { got_of result ≡ option_map (λ r. fact_in r id.now) (report_at self.now.0 report.now) }
    {
        let pending = pending_of(&self.pending, &self.change);
        get_with_pending(&self.version, pending, report, id)
    }

    /// The prefixes of a report with its numeric table, or none where it is not there.
    pub(crate) fn names(&self, report: &str) -> Option<&Names>
        ensures { option_map (λ n. n.now) result ≡ option_map (λ r. r.names) (report_at self.now.0 report.now) }
    {
        self.version.names(report)
    }

    /// The allowed duplicates that a report declares, or none where it is not there.
    pub(crate) fn allowed(&self, report: &str) -> Option<Allowed>
        ensures { result ≡ option_map (λ r. r.allowed) (report_at self.now.0 report.now) }
    {
        let pending = pending_of(&self.pending, &self.change);
        value_of(&self.version, pending, report)
    }

    /// A version with all that is staged.
    pub(crate) fn copy(&self, alloc: Global) -> Result<Arc<RepoVersion>, AllocError>
        ensures { IfOk result (λ v. repository_in (arc_value v) ≡ self.now.0) }
    {
        let pending = pending_of(&self.pending, &self.change);
        with_pending(alloc, &self.version, pending)
    }

    /// Applies what is pending to the version, so that cells and pages are looked up in it. It changes nothing that is staged.
    pub(crate) fn apply_pending(&mut self, alloc: Global) -> Result<(), AllocError>
        ensures { self.new ≡ self.old }
    {
        if pending_of(&self.pending, &self.change).is_empty() {
            return Ok(());
        }
        let nothing = Pending::of(alloc, Change::new(alloc))?;
        let copy = match share(&self.base)? {
            None => self.copy(alloc)?,
            Some(base) => {
                // Where we run out of memory below, all that is staged is pending over the version of the opening.
                let version = mem::replace(&mut self.version, base);
                let pending = mem::replace(&mut self.pending, None);
                self.base = None;
                into_with_pending(alloc, version, pending_of(&pending, &self.change))?
            }
        };
        let base = mem::replace(&mut self.version, copy);
        self.base = Some(base);
        self.pending = Some(nothing);
        Ok(())
    }

    /// What is staged with a fact put, or removed, at an identifier.
    pub(crate) fn with_fact(&self, report: &str, put: PutRecord) -> Result<Staging, AllocError>
        ensures { IfOk result (λ s. s ≡ (
          with_fact_at self.now.0 report.now put.0 put.1,
          with_change self.now.1 report.now put.0 put.1,
        )) }
    {
        let base = share(&self.base)?;
        let version = Arc::try_clone(&self.version)?;
        let pending = match &self.pending {
            None => None,
            Some(pending) => Some(pending.with_record(report, put.share()?)?),
        };
        let change = self.change.with_record(report, put)?;
        Ok(Staging {
            base,
            version,
            pending,
            change,
        })
    }

    /// What is staged with a value declared.
    pub(crate) fn with_declared(
        &self,
        report: &str,
        allowed: Allowed,
    ) -> Result<Staging, AllocError>
        ensures { IfOk result (λ s. s
            ≡ (declaring_at self.now.0 report.now allowed, with_declared self.now.1 report.now allowed)) }
    {
        let base = share(&self.base)?;
        let version = Arc::try_clone(&self.version)?;
        let pending = match &self.pending {
            None => None,
            Some(pending) => Some(pending.with_declared(report, allowed)?),
        };
        let change = self.change.with_declared(report, allowed)?;
        Ok(Staging {
            base,
            version,
            pending,
            change,
        })
    }
}
