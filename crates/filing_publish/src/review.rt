//! `Review`: replies at one version, for as long as it is kept.

ghost use Rattle.std.specs.Prelude.{◌≡◌, string_bytes, IfOk};
ghost use Rattle.std.specs.Arc.{arc_value};
ghost use Rattle.filing_model.specs.Sessions.Calls as call;
ghost use Rattle.filing_model.specs.Sessions.Sessions.{answer};
ghost use Rattle.filing_model.specs.declared.kind.Kind.TheVariants as kind;
ghost use Rattle.oim_fact.specs.Texts.{text_view};
ghost use Rattle.filing_step.specs.PeriodFilter.{period_filter_of};
ghost use Rattle.filing_step.specs.Steps.{call_of, reply_of};
ghost use Rattle.filing_version.specs.StampedReports.{repository_in};

use filing_session::reply_at;
use filing_step::{Call, Limit, PageQuery, PeriodFilter, Reply};
use filing_version::RepoVersion;
use oim_fact::DimSet;
use std::alloc::{AllocError, Global};
use std::marker::Model;
use std::sync::Arc;

/// Replies at one version, for as long as it is kept. Contracts see the plain repository.
#[derive(Drop)]
pub struct Review {
    version: Arc<RepoVersion>,
}

impl Model for Review {
    ghost use Rattle.filing_model.specs.Sessions.Repository.{Repository};

    ghost Value = { Repository };

    ghost use Rattle.std.specs.Arc.{arc_value};
    ghost use Rattle.filing_version.specs.StampedReports.{repository_in};

    ghost view = { λ r. repository_in (arc_value r.version) };
}

impl Review {
    pub(crate) fn of(version: &Arc<RepoVersion>) -> Result<Review, AllocError>
        ensures { IfOk result (λ r. r ≡ repository_in (arc_value version.now)) }
    {
        Ok(Review {
            version: Arc::try_clone(version)?,
        })
    }

    /// Answers a call as a review that opened at this version.
    pub fn call(&self, alloc: Global, call: Call) -> Result<Reply, AllocError>
        ensures { IfOk result (λ r. reply_of r ≡ (answer kind.Review (call_of call) self.now).0) }
    {
        reply_at(alloc, &self.version, call)
    }

    /// The fact of an identifier.
    pub fn get(&self, alloc: Global, report: String, id: String) -> Result<Reply, AllocError>
        ensures { IfOk result (λ r. reply_of r
            ≡ (answer kind.Review (call.Get (string_bytes report) (string_bytes id)) self.now).0) }
    {
        self.call(alloc, Call::Get(report, id))
    }

    /// The class of a cell, and the identifiers of its facts.
    pub fn cell(&self, alloc: Global, report: String, dims: DimSet) -> Result<Reply, AllocError>
        ensures { IfOk result (λ r. reply_of r
            ≡ (answer kind.Review (call.Cell (string_bytes report) dims) self.now).0) }
    {
        self.call(alloc, Call::Cell(report, dims))
    }

    /// The first identifiers, as many as the limit, of the facts with a concept and a period that passes the filter.
    /// If `after` is given, they are all greater than it.
    pub fn page(
        &self,
        alloc: Global,
        report: String,
        concept: String,
        period: PeriodFilter,
        after: Option<String>,
        limit: Limit,
    ) -> Result<Reply, AllocError>
        ensures { IfOk result (λ r. reply_of r ≡ (answer kind.Review (call.Page (string_bytes report) (record {
          concept = string_bytes concept;
          period = period_filter_of period;
          after = text_view after;
        }) limit) self.now).0) }
    {
        let query = PageQuery {
            concept,
            period,
            after,
        };
        self.call(alloc, Call::Page(report, query, limit))
    }

    /// The allowed duplicates that a report declares. It takes no memory.
    pub fn declared(&self, report: &str) -> Reply
        ensures { reply_of result ≡ (answer kind.Review (call.Declared report.now) self.now).0 }
    {
        match self.version.allowed(report) {
            Some(allowed) => Reply::Declared(allowed),
            None => Reply::NoReport,
        }
    }
}
