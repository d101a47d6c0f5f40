//! Warnings: what loads but is probably a mistake.

ghost use Rattle.std.specs.Prelude.{◌≡◌, ◌++◌, map, IfOk, OnOk, Some, option_map};
ghost use Rattle.json.specs.Value.{value_view};
ghost use Rattle.report_inspection.specs.KeptFacts.{members_seen};
ghost use Rattle.report_inspection.specs.MemberNames.{has_name};
ghost use Rattle.report_inspection.specs.Warnings.{AreOf, AreOfFact, AreOfFacts, AreOfNames, AreOfReport, Tells, has_idle_decimals, kept_facts, of_decimals, told};

use crate::concepts::warn_of_concepts;
use crate::part_names::{
    repeated_names_in_fact, repeated_names_in_report, unknown_names_in_fact,
    unknown_names_in_report,
};
use crate::warning::{Warning, WarningKind, add_warning};
use oim_fact::{Names, NumericTable};
use std::alloc::{AllocError, Global};
use std::collections::{BTreeMap, BTreeSet};

/// Warns of each of these names.
fn warn_of_names(
    alloc: Global,
    warnings: &mut Vec<Warning>,
    kind: WarningKind,
    fact: Option<&str>,
    names: &BTreeSet<&str>,
) -> Result<(), AllocError>
    ensures { OnOk result (Tells (AreOfNames kind (option_map (λ t. t.now) fact.entry) (has_name names.now))
        warnings.old.items warnings.new.items) }
{
    for name in names.iter() {
        add_warning(alloc, warnings, kind, fact, name)?;
    }
    Ok(())
}

/// Warns of the names in a report apart from those in its facts.
fn warn_of_report_names(
    alloc: Global,
    warnings: &mut Vec<Warning>,
    report: &json::Value<'_>,
) -> Result<(), AllocError>
    ensures { OnOk result (Tells (AreOfReport (value_view report.now)) warnings.old.items warnings.new.items) }
{
    let repeated = repeated_names_in_report(alloc, report)?;
    warn_of_names(alloc, warnings, WarningKind::NameTwice, None, &repeated)?;
    let unknown = unknown_names_in_report(alloc, report)?;
    warn_of_names(alloc, warnings, WarningKind::NotRead, None, &unknown)
}

/// Whether a fact has a number of decimals, and a value that is null.
fn has_idle_decimals(fact: &json::Value<'_>) -> bool
    ensures { result ≡ has_idle_decimals (value_view fact.now) }
{
    matches!(fact.get("value"), Some(json::Value::Null))
        && matches!(fact.get("decimals"), Some(json::Value::Number(_)))
}

/// Warns of decimals of a value that is null.
fn warn_of_decimals(
    alloc: Global,
    warnings: &mut Vec<Warning>,
    id: &str,
    fact: &json::Value<'_>,
) -> Result<(), AllocError>
    ensures { OnOk result (map told warnings.new.items ≡ map told warnings.old.items
        ++ of_decimals id.now (value_view fact.now)) }
{
    if !has_idle_decimals(fact) {
        return Ok(());
    }
    add_warning(
        alloc,
        warnings,
        WarningKind::DecimalsBesideNull,
        Some(id),
        "decimals",
    )
}

/// Warns of the names in a fact, and of decimals of a value that is null.
fn warn_of_fact(
    alloc: Global,
    warnings: &mut Vec<Warning>,
    id: &str,
    fact: &json::Value<'_>,
) -> Result<(), AllocError>
    ensures { OnOk result (Tells (AreOfFact id.now (value_view fact.now)) warnings.old.items warnings.new.items) }
{
    let repeated = repeated_names_in_fact(alloc, fact)?;
    warn_of_names(alloc, warnings, WarningKind::NameTwice, Some(id), &repeated)?;
    let unknown = unknown_names_in_fact(alloc, fact)?;
    warn_of_names(alloc, warnings, WarningKind::NotRead, Some(id), &unknown)?;
    warn_of_decimals(alloc, warnings, id, fact)
}

/// Warns of each of these facts.
fn warn_of_facts(
    alloc: Global,
    warnings: &mut Vec<Warning>,
    facts: &BTreeMap<&str, &json::Value<'_>>,
) -> Result<(), AllocError>
    ensures { OnOk result (Tells (AreOfFacts (members_seen facts.now.entries)) warnings.old.items warnings.new.items) }
{
    for (id, fact) in facts {
        warn_of_fact(alloc, warnings, id, fact)?;
    }
    Ok(())
}

/// What is warned of in a report, of whose facts these are kept, by its names where they are known.
pub(crate) fn warnings_of<'a>(
    alloc: Global,
    report: &json::Value<'_>,
    kept: &BTreeMap<&'a str, &json::Value<'a>>,
    names: &Option<Names>,
    table: &NumericTable,
) -> Result<Vec<Warning>, AllocError>
    requires { members_seen kept.now.entries ≡ kept_facts (value_view report.now) }
    ensures { IfOk result (λ v. AreOf (value_view report.now) (map told v.items)) }
{
    let mut warnings = Vec::new(alloc);
    warn_of_report_names(alloc, &mut warnings, report)?;
    warn_of_facts(alloc, &mut warnings, kept)?;
    warn_of_concepts(alloc, &mut warnings, report, kept, names, table)?;
    Ok(warnings)
}
