//! The calls that read an identifier, a cell or a declared value.
ghost use Rattle.std.specs.Prelude.{◌≡◌, map, string_bytes, IfOk};
ghost use Rattle.filing_model.specs.Sessions.Changes.{Change};
ghost use Rattle.filing_model.specs.Sessions.Repository.{report_at};
ghost use Rattle.filing_session.specs.Effects.{effect_in};
ghost use Rattle.filing_model.specs.Sessions.Queries.{page_ids, first_cut};
ghost use Rattle.oim_fact.specs.Texts.{text_view};
ghost use Rattle.filing_step.specs.PeriodFilter.{period_filter_of};
ghost use Rattle.filing_model.specs.Sessions.Calls as call;
ghost use Rattle.oim_fact.specs.PeriodFilterRef as borrowed;

use crate::ready::Ready;
use crate::staging::Staging;
use filing_step::{Limit, PageQuery, PeriodFilter, Reply, Thing};
use filing_version::{Got, Ids};
use oim_fact::{DimSet, PeriodFilterRef};
use std::alloc::{AllocError, Global};

pub(crate) fn get(staging: &Staging, report: String, id: String) -> Result<Ready, AllocError>
    ensures { (change : Change) → IfOk result (λ r. r ≡ effect_in (call.Get (string_bytes report) (string_bytes id))
        staging.now.0 change (report_at staging.now.0 (string_bytes report))) }
{
    let reply = match staging.get(&report, &id) {
        Got::NoReport => return Ok(Ready::no_report(report)),
        Got::Absent => Reply::Absent,
        Got::Found(fact) => Reply::Found(fact.clone()?),
    };
    Ok(Ready::read(reply, Thing::Id(report, id)))
}

/// The identifiers as texts of their own.
pub fn texts_of(alloc: Global, ids: Ids<'_>) -> Result<Vec<String>, AllocError>
    ensures { IfOk result (λ v. map string_bytes v.items ≡ ids.entry) }
{
    let mut texts = Vec::new(alloc);
    for id in ids {
        texts.push(String::from_str(alloc, id)?)?;
    }
    Ok(texts)
}

pub(crate) fn cell(
    alloc: Global,
    staging: &Staging,
    report: String,
    dims: DimSet,
) -> Result<Ready, AllocError>
    ensures { (change : Change) → IfOk result (λ r. r ≡ effect_in (call.Cell (string_bytes report) dims)
        staging.now.0 change (report_at staging.now.0 (string_bytes report))) }
{
    let copy = staging.copy(alloc)?;
    let reply = match copy.cell(&report, &dims) {
        None => return Ok(Ready::no_report(report)),
        Some((class, ids)) => Reply::Cell(class, texts_of(alloc, ids)?),
    };
    Ok(Ready::read(reply, Thing::Cell(report, dims)))
}

pub(crate) fn declared(staging: &Staging, report: String) -> Ready
    ensures { (change : Change) → result ≡ effect_in (call.Declared (string_bytes report))
        staging.now.0 change (report_at staging.now.0 (string_bytes report)) }
{
    match staging.allowed(&report) {
        None => Ready::no_report(report),
        Some(allowed) => Ready::read(Reply::Declared(allowed), Thing::Policy(report)),
    }
}

/// A period filter, without a text of its own. It takes no memory.
pub fn period_of(asked: &PeriodFilter) -> PeriodFilterRef<'_>
    ensures { borrowed.period_filter_of result ≡ period_filter_of asked.now }
{
    match asked {
        PeriodFilter::Any => PeriodFilterRef::Any,
        PeriodFilter::Without => PeriodFilterRef::Without,
        PeriodFilter::Text(period) => PeriodFilterRef::Text(period),
    }
}

/// The first identifiers, as many as the limit, and the first one that it cuts.
fn page_of(
    alloc: Global,
    ids: Ids<'_>,
    limit: u64,
) -> Result<(Vec<String>, Option<String>), AllocError>
    ensures ids { IfOk result (λ page. map string_bytes page.0.items ≡ page_ids limit ids.entry) }
    ensures cut { IfOk result (λ page. text_view page.1 ≡ first_cut limit ids.entry) }
{
    let mut texts = Vec::new(alloc);
    let mut left = limit;
    for id in ids {
        if left == 0 {
            let cut = String::from_str(alloc, id)?;
            return Ok((texts, Some(cut)));
        }
        texts.push(String::from_str(alloc, id)?)?;
        left -= 1;
    }
    Ok((texts, None))
}

pub(crate) fn page(
    alloc: Global,
    staging: &Staging,
    report: String,
    query: PageQuery,
    limit: Limit,
) -> Result<Ready, AllocError>
    ensures { (change : Change) → IfOk result (λ r. r ≡ effect_in (call.Page (string_bytes report) query limit)
        staging.now.0 change (report_at staging.now.0 (string_bytes report))) }
{
    let copy = staging.copy(alloc)?;
    let period = period_of(&query.period);
    let (ids, cut) = match copy.query(&report, &query.concept, period, query.after.as_deref()) {
        None => return Ok(Ready::no_report(report)),
        Some(ids) => page_of(alloc, ids, limit.number())?,
    };
    let reply = Reply::Page(ids, cut.is_some());
    let query = Box::new(alloc, query)?;
    Ok(Ready::read(reply, Thing::Range(report, query, cut)))
}
