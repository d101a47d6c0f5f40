//! The names that are warned of in a report, and in one fact.

ghost use Rattle.std.specs.Prelude.{IfOk, OnOk};
ghost use Rattle.json.specs.Value.{value_view};
ghost use Rattle.report_inspection.specs.MemberNames.{Adds, is_repeated, is_repeated_in, is_unknown};
ghost use Rattle.report_inspection.specs.Warnings.{Has, is_repeated_in_report, is_unknown_in_fact, is_unknown_in_report, names_in};

use crate::known_names::{ObjectKind, add_unknown};
use crate::repeats::{add_repeated, add_repeated_in};
use std::alloc::{AllocError, Global};
use std::collections::BTreeSet;

/// Adds each name that stands more than once in this value itself, where it is an object.
fn add_repeated_of<'a>(
    alloc: Global,
    repeated: &mut BTreeSet<&'a str>,
    value: &json::Value<'a>,
) -> Result<(), AllocError>
    ensures { OnOk result (Adds (is_repeated (names_in (value_view value.now))) repeated.old repeated.new) }
{
    match value {
        json::Value::Object(members) => add_repeated(alloc, repeated, members),
        _ => Ok(()),
    }
}

/// Adds the names of the members of this value that are not known, where it is an object of this kind.
fn add_unknown_of<'a>(
    unknown: &mut BTreeSet<&'a str>,
    kind: ObjectKind,
    value: &json::Value<'a>,
) -> Result<(), AllocError>
    ensures { OnOk result (Adds (is_unknown kind (names_in (value_view value.now))) unknown.old unknown.new) }
{
    match value {
        json::Value::Object(members) => add_unknown(unknown, kind, members),
        _ => Ok(()),
    }
}

/// The names that stand more than once in the report itself, in an object of `documentInfo`, or in `facts`.
pub(crate) fn repeated_names_in_report<'a>(
    alloc: Global,
    report: &json::Value<'a>,
) -> Result<BTreeSet<&'a str>, AllocError>
    ensures { IfOk result (Has (is_repeated_in_report (value_view report.now))) }
{
    let mut repeated = BTreeSet::new(alloc);
    add_repeated_of(alloc, &mut repeated, report)?;
    if let Some(info) = report.get("documentInfo") {
        add_repeated_in(alloc, &mut repeated, info)?;
    }
    if let Some(facts) = report.get("facts") {
        add_repeated_of(alloc, &mut repeated, facts)?;
    }
    Ok(repeated)
}

/// The members of a report and of `documentInfo` that are not known.
pub(crate) fn unknown_names_in_report<'a>(
    alloc: Global,
    report: &json::Value<'a>,
) -> Result<BTreeSet<&'a str>, AllocError>
    ensures { IfOk result (Has (is_unknown_in_report (value_view report.now))) }
{
    let mut unknown = BTreeSet::new(alloc);
    add_unknown_of(&mut unknown, ObjectKind::Report, report)?;
    if let Some(info) = report.get("documentInfo") {
        add_unknown_of(&mut unknown, ObjectKind::DocumentInfo, info)?;
    }
    Ok(unknown)
}

/// The names that stand more than once in an object of a fact.
pub(crate) fn repeated_names_in_fact<'a>(
    alloc: Global,
    fact: &json::Value<'a>,
) -> Result<BTreeSet<&'a str>, AllocError>
    ensures { IfOk result (Has (is_repeated_in (value_view fact.now))) }
{
    let mut repeated = BTreeSet::new(alloc);
    add_repeated_in(alloc, &mut repeated, fact)?;
    Ok(repeated)
}

/// The members of a fact that a reading passes over.
pub(crate) fn unknown_names_in_fact<'a>(
    alloc: Global,
    fact: &json::Value<'a>,
) -> Result<BTreeSet<&'a str>, AllocError>
    ensures { IfOk result (Has (is_unknown_in_fact (value_view fact.now))) }
{
    let mut unknown = BTreeSet::new(alloc);
    add_unknown_of(&mut unknown, ObjectKind::Fact, fact)?;
    Ok(unknown)
}
