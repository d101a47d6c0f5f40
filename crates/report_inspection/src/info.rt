//! `Head`: what a report says of itself, and what is wrong with that.

ghost use Rattle.std.specs.Prelude.{◌≡◌, ◌≤◌, None, Some, IfOk, OnOk, IsTrue, codes, is_some, option_and_then, option_map};
ghost use Rattle.std.specs.Arc.{arc_value};
ghost use Rattle.serde_json.specs.Data.{depth};
ghost use Rattle.serde_json.specs.Find.{as_object, get};
ghost use Rattle.serde_json.specs.Read.{max_depth};
ghost use Rattle.serde_json.specs.View.{view};
ghost use Rattle.filing_model.specs.Reading.JsonText.{an_object};
ghost use Rattle.filing_model.specs.Reading.ReadReport.{whole_text_of};
ghost use Rattle.oim_report.specs.Borrowed.{IsInRange, data_of};
ghost use Rattle.oim_report.specs.Readings.{declared_names, document_info_at};
ghost use Rattle.report_inspection.specs.EachFault.{allowed_declared, fault_in, value_in};
ghost use Rattle.report_inspection.specs.Heads.{IsHead};
ghost use Rattle.report_inspection.specs.Inspections.{AddsFaults};

use crate::fault::{Fault, push_told};
use filing_model::Allowed;
use oim_fact::{Names, NumericTable};
use oim_report::{
    ReportFault, allowed_of_info, copy_of, has_document_type, names_of_info, owned_at, whole_text,
};
use script_reasons::{
    Told, names_of, tell_features_fault, tell_info_faults, tell_not_whole, tell_type_fault,
};
use serde_json::{Map, Value};
use std::alloc::{AllocError, Global};
use std::sync::Arc;

/// What a report says of itself, whatever is wrong with it.
#[derive(Drop)]
pub(crate) struct Head {
    pub(crate) faults: Vec<Fault>,
    pub(crate) names: Option<Names>,
    pub(crate) allowed: Allowed,
}

/// Tells a document type that is missing or another one.
fn check_type(alloc: Global, faults: &mut Vec<Fault>, info: &Value) -> Result<(), AllocError>
    requires { IsTrue (is_some (as_object (view info.now))) }
    ensures { OnOk result (AddsFaults (fault_in (document_info_at (Some (view info.now))))
        faults.old.items faults.new.items) }
{
    if has_document_type(info) {
        return Ok(());
    }
    let mut told = Told::new(alloc);
    tell_type_fault(alloc, &mut told, info.get("documentType"))?;
    push_told(alloc, faults, ReportFault::WrongDocumentType, told)
}

/// The allowed duplicates that it declares, or all; tells what is wrong with the features.
fn check_features(
    alloc: Global,
    faults: &mut Vec<Fault>,
    info: &Value,
) -> Result<Option<Allowed>, AllocError>
    ensures allowed { IfOk result (λ o. o ≡ value_in (allowed_declared (view info.now))) }
    ensures faults { OnOk result (AddsFaults (fault_in (allowed_declared (view info.now)))
        faults.old.items faults.new.items) }
{
    match allowed_of_info(info) {
        Ok(allowed) => Ok(Some(allowed)),
        Err(fault) => {
            let mut told = Told::new(alloc);
            tell_features_fault(alloc, &mut told, info.get("features"))?;
            push_told(alloc, faults, fault, told)?;
            Ok(None)
        }
    }
}

/// The names that it binds, where they are in order; tells what is wrong with them.
fn check_names(
    alloc: Global,
    faults: &mut Vec<Fault>,
    info: &Value,
    table: &Arc<NumericTable>,
) -> Result<Option<Names>, AllocError>
    ensures names { IfOk result (λ o. o ≡ value_in (declared_names (arc_value table.now) (view info.now))) }
    ensures faults { OnOk result (AddsFaults (fault_in (declared_names (arc_value table.now) (view info.now)))
        faults.old.items faults.new.items) }
{
    match names_of_info(alloc, info, table) {
        Ok(names) => Ok(Some(names)),
        Err(fault) => {
            let mut told = Told::new(alloc);
            drop(names_of(alloc, &mut told, info.get("namespaces"), table)?);
            push_told(alloc, faults, fault, told)?;
            Ok(None)
        }
    }
}

/// Tells each number in it that is not whole.
fn check_numbers(alloc: Global, faults: &mut Vec<Fault>, info: &Value) -> Result<(), AllocError>
    requires { depth (view info.now) ≤ max_depth }
    ensures { OnOk result (AddsFaults (fault_in (whole_text_of (view info.now))) faults.old.items faults.new.items) }
{
    if whole_text(alloc, info)?.is_some() {
        return Ok(());
    }
    let mut told = Told::new(alloc);
    tell_not_whole(alloc, &mut told, "documentInfo", info)?;
    push_told(alloc, faults, ReportFault::NotWhole, told)
}

/// What a `documentInfo` that is an object says, each check of it by itself.
fn head_of(alloc: Global, info: &Value, table: &Arc<NumericTable>) -> Result<Head, AllocError>
    requires object { IsTrue (is_some (as_object (view info.now))) }
    requires shallow { depth (view info.now) ≤ max_depth }
    ensures { IfOk result (IsHead (arc_value table.now) (Some (view info.now))) }
{
    let mut faults = Vec::new(alloc);
    check_type(alloc, &mut faults, info)?;
    let allowed = check_features(alloc, &mut faults, info)?;
    let names = check_names(alloc, &mut faults, info, table)?;
    check_numbers(alloc, &mut faults, info)?;
    Ok(Head {
        faults,
        names,
        allowed: allowed.unwrap_or(Allowed::All),
    })
}

/// A report with this member `documentInfo` alone; any other value stays.
fn report_of_info(
    alloc: Global,
    value: &json::Value<'_>,
    info: Option<Value>,
) -> Result<Value, AllocError> {
    if !matches!(value, json::Value::Object(_)) {
        return match copy_of(alloc, value)? {
            Some(value) => Ok(value),
            None => Ok(Value::Null),
        };
    }
    let mut members = Map::new(alloc);
    if let Some(info) = info {
        drop(members.insert(String::from_str(alloc, "documentInfo")?, info)?);
    }
    Ok(Value::Object(members))
}

/// Tells that there is no `documentInfo` that is an object.
fn no_head(
    alloc: Global,
    value: &json::Value<'_>,
    info: Option<Value>,
    table: &Arc<NumericTable>,
) -> Result<Head, AllocError>
    requires { option_and_then an_object (option_map view info) ≡ None }
    ensures { IfOk result (IsHead (arc_value table.now) (option_map view info)) }
{
    let report = report_of_info(alloc, value, info)?;
    let mut told = Told::new(alloc);
    drop(tell_info_faults(alloc, &mut told, &report, table)?);
    drop(report);
    let mut faults = Vec::new(alloc);
    push_told(alloc, &mut faults, ReportFault::WrongShape, told)?;
    Ok(Head {
        faults,
        names: None,
        allowed: Allowed::All,
    })
}

/// What a report says of itself, each check by itself.
pub(crate) fn head_in(
    alloc: Global,
    value: &json::Value<'_>,
    table: &Arc<NumericTable>,
) -> Result<Head, AllocError>
    requires range { IsInRange value.now }
    requires shallow { depth (data_of value.now) ≤ max_depth }
    ensures { IfOk result (IsHead (arc_value table.now) (get (codes "documentInfo") (data_of value.now))) }
{
    let Some(info) = owned_at(alloc, value, "documentInfo")? else {
        return no_head(alloc, value, None, table);
    };
    if info.is_object() {
        head_of(alloc, &info, table)
    } else {
        no_head(alloc, value, Some(info), table)
    }
}
