//! What is wrong with a report: all of it, first what the reply tells.

ghost use Rattle.std.specs.Prelude.{◌≡◌, IfOk, OnOk, is_some, nat_lt, option_map, vec_len};
ghost use Rattle.serde_json.specs.Data.{string};
ghost use Rattle.serde_json.specs.Find.{get, get_member};
ghost use Rattle.serde_json.specs.View.{view, members_view};
ghost use Rattle.filing_model.specs.Reading.JsonText.{without_mark};
ghost use Rattle.script_reasons.specs.ToldFacts.{KeepsTo, has_fact, has_loaded_fact, is_refused};

use crate::facts::tell_fact_faults;
use crate::fits::tell_fit_faults;
use crate::gathered::Gathered;
use crate::info::tell_info_faults;
use crate::json_fault::{JsonFault, json_fault};
use crate::shown::kind_of;
use crate::told::Told;
use filing_model::{DimFault, Trouble};
use oim_fact::{Names, NumericTable, fit};
use oim_report::{json_value, raw_fact};
use serde_json::{Map, Value};
use std::alloc::{AllocError, Global};
use std::str::from_utf8;
use std::sync::Arc;

/// What is wrong with a fact of a report, as it is read and by these names, where they are in order: something where it is refused, and nothing else.
pub fn faults_of_fact(
    alloc: Global,
    names: Option<&Names>,
    fact: &Value,
) -> Result<Told, AllocError>
    ensures { IfOk result (λ t. nat_lt 0 (vec_len t.said)
        ≡ is_refused (option_map (λ n. n.now) names.entry) (view fact.now)) }
{
    let mut told = Told::new(alloc);
    let raw = match raw_fact(alloc, fact) {
        Ok(raw) => raw,
        Err(Trouble::NoMemory | Trouble::Dims(DimFault::NoMemory)) => return Err(AllocError),
        Err(trouble) => {
            tell_fact_faults(alloc, &mut told, fact)?;
            told.tell_unless_told(alloc, trouble)?;
            return Ok(told);
        }
    };
    let Some(names) = names else {
        return Ok(told);
    };
    if let Err(fault) = fit(names, raw) {
        tell_fit_faults(alloc, &mut told, names, fault, fact)?;
        told.tell_unless_told(alloc, Trouble::Fit(fault))?;
    }
    Ok(told)
}

/// Gathers what is wrong with each fact, in byte order of the identifiers.
fn gather_facts(
    alloc: Global,
    gathered: &mut Gathered,
    names: &Option<Names>,
    members: &Map<String, Value>,
) -> Result<(), AllocError>
    ensures { OnOk result (KeepsTo (λ id. is_some (get_member id (members_view members.now.entries)))
        gathered.old.reasons.items gathered.new.reasons.items) }
{
    for (id, fact) in members {
        gathered.add(
            alloc,
            Some(id.as_str()),
            faults_of_fact(alloc, names.as_ref(), fact)?,
        )?;
    }
    Ok(())
}

/// What is wrong with the facts of a report as a whole.
pub fn faults_of_facts(alloc: Global, facts: &Value) -> Result<Told, AllocError> {
    let mut told = Told::new(alloc);
    let kind = kind_of(facts);
    told.tell(format!(in alloc; "\"facts\" is {kind}, not an object")?)?;
    Ok(told)
}

/// Gathers all that is wrong with a report that is JSON.
fn gather_report(
    alloc: Global,
    gathered: &mut Gathered,
    report: &Value,
    table: &Arc<NumericTable>,
) -> Result<(), AllocError>
    ensures { OnOk result (KeepsTo (λ id. has_fact id (view report.now))
        gathered.old.reasons.items gathered.new.reasons.items) }
{
    let mut told = Told::new(alloc);
    let names = tell_info_faults(alloc, &mut told, report, table)?;
    gathered.add(alloc, None, told)?;
    match report.get("facts") {
        None => Ok(()),
        Some(facts) => match facts.as_object() {
            Some(members) => gather_facts(alloc, gathered, &names, members),
            None => gathered.add(alloc, None, faults_of_facts(alloc, facts)?),
        },
    }
}

/// The row and the column, in characters, of a place in a text, both from 1.
fn row_and_column(text: &str, place: usize) -> (u64, u64) {
    let mut row = 1u64;
    let mut column = 1u64;
    for byte in text.as_bytes().iter().take(place) {
        if *byte == b'\n' {
            row = row.saturating_add(1);
            column = 1;
        } else if *byte & 0xc0 != 0x80 {
            column = column.saturating_add(1);
        }
    }
    (row, column)
}

/// The bytes without one byte order mark before them.
pub fn without_mark(bytes: &[u8]) -> &[u8]
    ensures { result.now ≡ without_mark bytes.now }
{
    match bytes {
        [0xef, 0xbb, 0xbf, rest @ ..] => rest,
        _ => bytes,
    }
}

/// What is wrong with the text of a report that is no JSON.
pub fn faults_of_text(alloc: Global, bytes: &[u8]) -> Result<Told, AllocError> {
    let mut told = Told::new(alloc);
    if let Ok(text) = from_utf8(bytes) {
        let JsonFault { place, said } = json_fault(alloc, text)?;
        let (row, column) = row_and_column(text, place);
        told.tell(format!(in alloc;
            "the text of the report, its line {row}, column {column}: {said}"
        )?)?;
    }
    Ok(told)
}

/// Gathers all that is wrong with the text of a report, after one byte order mark.
fn gather_text(
    alloc: Global,
    gathered: &mut Gathered,
    text: &str,
    table: &Arc<NumericTable>,
) -> Result<(), AllocError>
    ensures { OnOk result (KeepsTo (λ id. has_loaded_fact id (string text.now))
        gathered.old.reasons.items gathered.new.reasons.items) }
{
    let bytes = without_mark(text.as_bytes());
    match json_value(alloc, bytes)? {
        Some(report) => gather_report(alloc, gathered, &report, table),
        None => gathered.add(alloc, None, faults_of_text(alloc, bytes)?),
    }
}

/// Gathers all that is wrong with the report of a load, an object or the text of one.
pub(crate) fn gather_load(
    alloc: Global,
    gathered: &mut Gathered,
    report: &Value,
    table: &Arc<NumericTable>,
) -> Result<(), AllocError>
    ensures { OnOk result (KeepsTo (λ id. has_loaded_fact id (view report.now))
        gathered.old.reasons.items gathered.new.reasons.items) }
{
    match report {
        Value::String(text) => gather_text(alloc, gathered, text, table),
        report => gather_report(alloc, gathered, report, table),
    }
}
