//! The step that a line asks of a session.

ghost use Rattle.std.specs.Prelude.{◌≡◌, ◌+◌, ◌<◌, ◌^◌, Ok, Some, is_some, option_map, IfOk, IfSome, string_bytes};
ghost use Rattle.serde_json.specs.View.{view};
ghost use Rattle.oim_fact.specs.PeriodFilterRef as borrowed;
ghost use Rattle.oim_fact.specs.Texts.{text_view};
ghost use Rattle.filing_model.specs.Sessions.Calls as call;
ghost use Rattle.filing_model.specs.Histories.History.{Ask};
ghost use Rattle.filing_step.specs.PeriodFilter.{period_filter_of};
ghost use Rattle.filing_step.specs.Steps.{step_of};
ghost use Rattle.script_format.specs.ScriptLines as model;
ghost use Rattle.script_format.specs.ReplyText.{told_fault};
ghost use Rattle.script_format.specs.LineView.{asking_view, is_plain};
ghost use Rattle.script_format.specs.Script.{bad_dims_text, call_read};
ghost use Rattle.script_format.specs.AskedStep.{AreAsked, IsAsked, asking_in};

use crate::json_array::JsonArray;
use crate::line::{Asking, asking_from, taken_at};
use crate::texts::{bad_fact_reply, bad_line_reply};
use filing_model::Trouble;
use filing_step::{Limit, PeriodFilter, Step};
use oim_fact::{PeriodFilterRef, own_text};
use oim_report::{dimensions, dimensions_from, raw_fact, raw_fact_from};
use serde_json::Value;
use std::alloc::{AllocError, Global};

/// The reply to dimensions that are refused. A line whose dimensions are not texts and nulls is a bad one. Out of memory is no reply.
fn bad_dims_reply(alloc: Global, fault: Trouble) -> Result<String, AllocError>
    ensures { IfOk result (λ text. Some (string_bytes text) ≡ option_map bad_dims_text (told_fault fault)) }
{
    match fault {
        Trouble::WrongShape => String::from_str(alloc, bad_line_reply()),
        fault => bad_fact_reply(alloc, fault),
    }
}

/// The period that is asked for, with a text of its own.
pub fn own_period(alloc: Global, period: &PeriodFilterRef<'_>) -> Result<PeriodFilter, AllocError>
    ensures { IfOk result (λ asked. period_filter_of asked ≡ borrowed.period_filter_of period.now) }
{
    match period {
        PeriodFilterRef::Any => Ok(PeriodFilter::Any),
        PeriodFilterRef::Without => Ok(PeriodFilter::Without),
        PeriodFilterRef::Text(text) => Ok(PeriodFilter::Text(String::from_str(alloc, text)?)),
    }
}

/// The step that reads a page.
fn page_step(
    alloc: Global,
    report: &str,
    concept: &str,
    period: &PeriodFilterRef<'_>,
    after: Option<&str>,
    limit: Limit,
) -> Result<Step, AllocError>
    ensures { IfOk result (λ s. step_of s ≡ Ask (call.Page report.now (record {
      concept = concept.now;
      period = borrowed.period_filter_of period.now;
      after = option_map (λ t. t.now) after.entry;
    }) limit)) }
{
    Ok(Step::Page {
        report: String::from_str(alloc, report)?,
        concept: String::from_str(alloc, concept)?,
        period: own_period(alloc, period)?,
        after: own_text(alloc, after)?,
        limit,
    })
}

/// The step that reads a cell, or the reply to its dimensions.
#[tactic(auto, using(crate::proofs::ToldFaults::cell_is_refused))]
fn cell_asked(alloc: Global, report: &str, dims: &Value) -> Result<Result<Step, String>, AllocError>
    ensures { IfOk result (λ asked. IsAsked asked (call_read (model.Cell report.now (view dims.now)))) }
{
    match dimensions(alloc, dims) {
        Ok(dims) => Ok(Ok(Step::Cell {
            report: String::from_str(alloc, report)?,
            dims: dims.into_shared(alloc)?,
        })),
        Err(fault) => Ok(Err(bad_dims_reply(alloc, fault)?)),
    }
}

/// The step that adds a fact, or the reply to it.
#[tactic(auto, using(crate::proofs::ToldFaults::addition_is_refused))]
fn add_asked(
    alloc: Global,
    report: &str,
    id: &str,
    fact: &Value,
) -> Result<Result<Step, String>, AllocError>
    ensures { IfOk result (λ asked. IsAsked asked (call_read (model.Add report.now id.now (view fact.now)))) }
{
    match raw_fact(alloc, fact) {
        Ok(fact) => Ok(Ok(Step::Add {
            report: String::from_str(alloc, report)?,
            id: String::from_str(alloc, id)?,
            fact: fact.into_shared(alloc)?,
        })),
        Err(fault) => Ok(Err(bad_fact_reply(alloc, fault)?)),
    }
}

/// The step that a line asks of a session; none where a part of it is an object, which is not read yet.
pub(crate) fn plain_step<V: JsonArray>(
    alloc: Global,
    asking: &Asking<'_, V::Part>,
) -> Result<Option<Step>, AllocError>
    ensures step { IfOk result
        (λ o. IfSome o (λ s. IsAsked (Ok s) (call_read (asking_view V.part_seen asking.now)))) }
    ensures none { IfOk result (λ o. is_some o ≡ is_plain asking.now) }
{
    match asking {
        Asking::Get { report, id } => Ok(Some(Step::Get {
            report: String::from_str(alloc, report)?,
            id: String::from_str(alloc, id)?,
        })),
        Asking::Page {
            report,
            concept,
            period,
            after,
            limit,
        } => Ok(Some(page_step(alloc, report, concept, period, *after, *limit)?)),
        Asking::Remove { report, id } => Ok(Some(Step::Remove {
            report: String::from_str(alloc, report)?,
            id: String::from_str(alloc, id)?,
        })),
        Asking::Declared { report } => Ok(Some(Step::Declared {
            report: String::from_str(alloc, report)?,
        })),
        Asking::Declare { report, allowed } => Ok(Some(Step::Declare {
            report: String::from_str(alloc, report)?,
            allowed: *allowed,
        })),
        Asking::Cell { .. } | Asking::Add { .. } => Ok(None),
    }
}

/// The step that a line asks of a session, or the reply that refuses its parts in reading.
pub fn step_asked(alloc: Global, asking: &Asking<'_>) -> Result<Result<Step, String>, AllocError>
    ensures { IfOk result (λ asked. IsAsked asked (call_read (asking_view view asking.now))) }
{
    match asking {
        Asking::Cell { report, dims } => cell_asked(alloc, report, dims),
        Asking::Add { report, id, fact } => add_asked(alloc, report, id, fact),
        plain => match plain_step::<Value>(alloc, plain)? {
            Some(step) => Ok(Ok(step)),
            None => unreachable!(),
        },
    }
}

/// The step that reads a cell of these dimensions, which are given up, or the reply to them.
#[tactic(auto, using(crate::proofs::ToldFaults::cell_is_refused))]
fn cell_from(alloc: Global, report: String, dims: Value) -> Result<Result<Step, String>, AllocError>
    ensures { IfOk result (λ asked. IsAsked asked (call_read (model.Cell (string_bytes report) (view dims)))) }
{
    match dimensions_from(alloc, dims) {
        Ok(dims) => Ok(Ok(Step::Cell {
            report,
            dims: dims.into_shared(alloc)?,
        })),
        Err(fault) => Ok(Err(bad_dims_reply(alloc, fault)?)),
    }
}

/// The step that adds a fact, which is given up, or the reply to it.
#[tactic(auto, using(crate::proofs::ToldFaults::addition_is_refused))]
fn add_from(
    alloc: Global,
    report: String,
    id: String,
    fact: Value,
) -> Result<Result<Step, String>, AllocError>
    ensures { IfOk result (λ asked. IsAsked asked
        (call_read (model.Add (string_bytes report) (string_bytes id) (view fact)))) }
{
    match raw_fact_from(alloc, fact) {
        Ok(fact) => Ok(Ok(Step::Add {
            report,
            id,
            fact: fact.into_shared(alloc)?,
        })),
        Err(fault) => Ok(Err(bad_fact_reply(alloc, fault)?)),
    }
}

/// The step that an array asks of a session, by its first text. Dimensions and a fact move out of it.
fn step_in(
    alloc: Global,
    value: &mut Value,
    place: usize,
) -> Result<Option<Result<Step, String>>, AllocError>
    requires { place + 6 < 2 ^ 64 }
    ensures { IfOk result (λ asked. AreAsked asked (asking_in place (view value.old))) }
{
    let Some(word) = value.text_at(0) else {
        return Ok(None);
    };
    let Some(asking) = asking_from(word, value, place) else {
        return Ok(None);
    };
    match asking {
        Asking::Cell { report, .. } => {
            let report = String::from_str(alloc, report)?;
            let dims = taken_at(value, place + 1);
            Ok(Some(cell_from(alloc, report, dims)?))
        }
        Asking::Add { report, id, .. } => {
            let report = String::from_str(alloc, report)?;
            let id = String::from_str(alloc, id)?;
            let fact = taken_at(value, place + 2);
            Ok(Some(add_from(alloc, report, id, fact)?))
        }
        asking => Ok(Some(step_asked(alloc, &asking)?)),
    }
}

/// The step that an array asks of a session by its first text, as `step_asked` has it; none where `asking_from` reads none.
/// The array is given up: dimensions and a fact move out of it.
pub fn step_from(
    alloc: Global,
    value: Value,
    place: usize,
) -> Result<Option<Result<Step, String>>, AllocError>
    requires { place + 6 < 2 ^ 64 }
    ensures { IfOk result (λ asked. AreAsked asked (asking_in place (view value))) }
{
    let mut value = value;
    let step = step_in(alloc, &mut value, place);
    drop(value);
    step
}
