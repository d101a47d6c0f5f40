//! Whole reports as JSON says them.

ghost use Rattle.std.specs.Prelude.{◌≡◌, T, codes, Option, option_map, IfErr, IfOk, Err, Ok};
ghost use Rattle.std.specs.FinMap.Entries.{is_sorted};
ghost use Rattle.std.specs.Arc.{arc_value};
ghost use Rattle.serde_json.specs.Find.{get};
ghost use Rattle.serde_json.specs.View.{view};
ghost use Rattle.filing_model.specs.Common.Text.{text_cmp};
ghost use Rattle.filing_model.specs.Common.TextMap.{from_entries};
ghost use Rattle.filing_model.specs.Common.Try.{Gives};
ghost use Rattle.filing_model.specs.Reading.ReadReport.{read_report_of, report_of};
ghost use Rattle.oim_report.specs.Borrowed.{IsInRange, data_of};
ghost use Rattle.oim_report.specs.Faults.{report_fault};
ghost use Rattle.oim_report.specs.Parts.{IsInfo, facts_view};
ghost use Rattle.oim_report.specs.Readable.{AreFitted, IsReadable};
ghost use Rattle.oim_report.specs.Readings.{declared_by, of_declared, report_of_members, same};

use crate::borrowed::{owned_at, text_value};
use crate::facts::{facts, facts_in_text};
use crate::fault::ReportFault;
use crate::info::{allowed_of_info, document_info, info_text, names_of_info};
use crate::report::{Report, ReportParts};
use crate::values::{take_member, without_mark};
use filing_model::Allowed;
use json::Scratch;
use oim_fact::{Fact, Names, NumericTable};
use serde_json::Value;
use std::alloc::Global;
use std::marker::Model;
use std::sync::Arc;

/// The members at the top of a report that are read.
#[derive(Drop)]
struct TopMembers {
    document_info: Option<Value>,
    facts: Option<Value>,
}

/// The members that are read, out of a value; none of one that is no object. The others are dropped.
fn top_members(value: Value) -> TopMembers
    ensures document_info { option_map view result.document_info
        ≡ get (codes "documentInfo") (view value) }
    ensures facts { option_map view result.facts ≡ get (codes "facts") (view value) }
{
    match value {
        Value::Object(members) => {
            let mut members = members;
            TopMembers {
                document_info: take_member(&mut members, "documentInfo"),
                facts: take_member(&mut members, "facts"),
            }
        }
        _ => TopMembers {
            document_info: None,
            facts: None,
        },
    }
}

/// What a report says of itself.
#[derive(Drop)]
struct Declared {
    info: String,
    names: Names,
    allowed: Allowed,
}

impl Model for Declared {
    ghost use Rattle.std.specs.Prelude.{string_bytes};
    ghost use Rattle.oim_report.specs.Readings.{Declaration};

    ghost Value = { Declaration };

    ghost view = { λ d. record { info = string_bytes d.info; names = d.names; allowed = d.allowed } };
}

/// What the member `documentInfo` declares.
fn declaration(
    alloc: Global,
    value: Option<Value>,
    table: &Arc<NumericTable>,
) -> Result<Declared, ReportFault>
    ensures declared { Gives report_fault same result
        (declared_by (arc_value table.now) (option_map view value)) }
    ensures info { IfOk result (λ d. IsInfo d.info d.names.prefixes d.allowed) }
{
    let document_info = document_info(value)?;
    let allowed = allowed_of_info(&document_info)?;
    let names = names_of_info(alloc, &document_info, table)?;
    let info = info_text(alloc, &document_info)?;
    Ok(Declared {
        info,
        names,
        allowed,
    })
}

/// The report of what it says of itself and of its facts.
fn assemble(declared: Declared, facts: Vec<(String, Arc<Fact>)>) -> Report
    requires info { IsInfo declared.info declared.names.prefixes declared.allowed }
    requires rise { T (is_sorted text_cmp (facts_view facts.items)) }
    requires fitted { AreFitted declared.names (facts_view facts.items) }
    ensures report { result ≡ of_declared declared (from_entries (facts_view facts.items)) }
    ensures readable { IsReadable result }
{
    let Declared {
        info,
        names,
        allowed,
    } = declared;
    Report::of(ReportParts {
        info,
        names,
        allowed,
        facts,
    })
}

/// The report of what it says of itself and of its facts, or the fault for which they were not read.
fn with_facts_read(
    declared: Declared,
    facts: Result<Vec<(String, Arc<Fact>)>, ReportFault>,
) -> Result<Report, ReportFault>
    requires info { IsInfo declared.info declared.names.prefixes declared.allowed }
    requires rise { IfOk facts (λ v. T (is_sorted text_cmp (facts_view v.items))) }
    requires fitted { IfOk facts (λ v. AreFitted declared.names (facts_view v.items)) }
    ensures ok { IfOk facts (λ v. result ≡ Ok (of_declared declared (from_entries (facts_view v.items)))) }
    ensures err { IfErr facts (λ fault. result ≡ Err fault) }
    ensures readable { IfOk result IsReadable }
{
    match facts {
        Ok(facts) => Ok(assemble(declared, facts)),
        Err(fault) => {
            drop(declared);
            Err(fault)
        }
    }
}

/// The report of these members: each part of them is dropped as soon as it is read.
fn report_of_members(
    alloc: Global,
    members: TopMembers,
    table: &Arc<NumericTable>,
) -> Result<Report, ReportFault>
    ensures report { Gives report_fault same result
        (report_of_members (arc_value table.now)
        (option_map view members.document_info) (option_map view members.facts)) }
    ensures readable { IfOk result IsReadable }
{
    let TopMembers {
        document_info,
        facts: stated,
    } = members;
    match declaration(alloc, document_info, table) {
        Ok(declared) => {
            let facts = facts(alloc, &declared.names, stated);
            with_facts_read(declared, facts)
        }
        Err(fault) => {
            drop(stated);
            Err(fault)
        }
    }
}

/// The report that a JSON value is, or the first fault, as `report_of` has it. The value is given up: the texts of the report move out of it.
#[tactic(auto, using(crate::proofs::ReportsByParts::report_by_members))]
pub fn report_from(
    alloc: Global,
    value: Value,
    table: &Arc<NumericTable>,
) -> Result<Report, ReportFault>
    ensures report { Gives report_fault same result (report_of (arc_value table.now) (view value)) }
    ensures readable { IfOk result IsReadable }
{
    report_of_members(alloc, top_members(value), table)
}

/// The report that a JSON value is (xBRL-JSON 1.0) by this numeric table, or the first fault. Faults are found in this order:
///
/// - not the shape of a report, the document type, the features, the namespaces;
/// - `documentInfo` that nests deeper than a JSON text may, a number in it that is not whole;
/// - the shape of `facts`, and the first refused fact in byte order of the identifiers.
pub fn report_of(
    alloc: Global,
    value: &Value,
    table: &Arc<NumericTable>,
) -> Result<Report, ReportFault>
    ensures report { Gives report_fault same result
        (report_of (arc_value table.now) (view value.now)) }
    ensures readable { IfOk result IsReadable }
{
    report_from(alloc, value.clone()?, table)
}

/// What a report declares, of a value whose texts are those that were read.
fn declaration_in_text(
    alloc: Global,
    value: &json::Value<'_>,
    table: &Arc<NumericTable>,
) -> Result<Declared, ReportFault>
    requires { IsInRange value.now }
    ensures declared { Gives report_fault same result
        (declared_by (arc_value table.now) (get (codes "documentInfo") (data_of value.now))) }
    ensures info { IfOk result (λ d. IsInfo d.info d.names.prefixes d.allowed) }
{
    let document_info = owned_at(alloc, value, "documentInfo")?;
    declaration(alloc, document_info, table)
}

/// The report that a JSON value is, or the first fault, as `report_of` has it.
/// The texts of the value are those that were read: each that the report keeps is copied once.
#[tactic(auto, using(crate::proofs::ReportsByParts::report_by_members))]
pub fn report_in_text(
    alloc: Global,
    value: json::Value<'_>,
    table: &Arc<NumericTable>,
) -> Result<Report, ReportFault>
    requires { IsInRange value }
    ensures report { Gives report_fault same result
        (report_of (arc_value table.now) (data_of value.entry)) }
    ensures readable { IfOk result IsReadable }
{
    match declaration_in_text(alloc, &value, table) {
        Ok(declared) => {
            let facts = facts_in_text(alloc, &declared.names, value);
            with_facts_read(declared, facts)
        }
        Err(fault) => {
            drop(value);
            Err(fault)
        }
    }
}

/// The report that a text is, after one byte order mark, or the first fault: no JSON, or as `report_of`.
pub fn read_report(
    alloc: Global,
    bytes: &[u8],
    table: &Arc<NumericTable>,
) -> Result<Report, ReportFault>
    ensures report { Gives report_fault same result
        (read_report_of (arc_value table.now) bytes.now) }
    ensures readable { IfOk result IsReadable }
{
    let mut room = Scratch::new(alloc);
    match text_value(alloc, without_mark(bytes), &mut room)? {
        Some(value) => report_in_text(alloc, value, table),
        None => Err(ReportFault::NotJson),
    }
}
