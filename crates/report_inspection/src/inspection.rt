//! `inspect`: all that an inspection reports.

ghost use Rattle.std.specs.Prelude.{◌≡◌, ◌≤◌, ◌∷◌, [], false, map, IfOk};
ghost use Rattle.std.specs.Arc.{arc_value};
ghost use Rattle.json.specs.Value.{value_view};
ghost use Rattle.serde_json.specs.Data.{depth};
ghost use Rattle.serde_json.specs.Read.{max_depth};
ghost use Rattle.filing_model.specs.Reading.ReadReport.{NotJson};
ghost use Rattle.oim_report.specs.Borrowed.{IsInRange, data_of};
ghost use Rattle.report_inspection.specs.Inspections.{AreFaults, IsInspection, TellsOf};
ghost use Rattle.report_inspection.specs.Warnings.{AreOf, told};

use crate::cell::Cell;
use crate::cells::{are_allowed, cells_of};
use crate::facts::{Found, kept_facts, take_facts};
use crate::fault::{Fault, push_told};
use crate::info::{Head, head_in};
use crate::warning::Warning;
use crate::warnings::warnings_of;
use filing_model::Allowed;
use json::Scratch;
use oim_fact::NumericTable;
use oim_report::{ReportFault, text_value};
use script_reasons::{Told, faults_of_text, without_mark};
use std::alloc::{AllocError, Global};
use std::str::from_utf8;
use std::sync::Arc;

/// All that an inspection reports.
#[derive(Debug, Drop)]
pub struct Inspection {
    /// How many facts it has, whether they can be read or not; of those under one identifier the last.
    pub facts: u64,
    /// What is wrong with it, first what a load would report.
    pub faults: Vec<Fault>,
    /// Its cells of more than one fact, in the order of their dimension sets; of the facts that can be read.
    pub cells: Vec<Cell>,
    /// Warnings: what loads but is probably a mistake, each once, in this order:
    ///
    /// - of the report, then of each fact in byte order of the identifiers: in byte order the names that stand twice,
    ///   then the members that are not read, then decimals of a value that is null;
    /// - the concepts that the table lacks;
    /// - the numbers at other URIs.
    pub warnings: Vec<Warning>,
    /// Whether a load under a free name would be answered `loaded`,
    /// as if the report declared the value that was asked for, where one was.
    pub would_load_as_asked: bool,
}

/// What is wrong with a text that is no JSON.
fn faults_of_bytes(alloc: Global, bytes: &[u8]) -> Result<Told, AllocError> {
    let mut told = faults_of_text(alloc, bytes)?;
    if let Err(fault) = from_utf8(bytes) {
        let place = fault.valid_up_to();
        told.tell(format!(in alloc;
            "the text of the report is not UTF-8: of its bytes the first {place} are"
        )?)?;
    }
    Ok(told)
}

/// All that is reported of bytes that are no JSON.
fn no_json(alloc: Global, bytes: &[u8]) -> Result<Inspection, AllocError>
    ensures faults { IfOk result (λ i. AreFaults (NotJson ∷ []) i.faults.items) }
    ensures facts { IfOk result (λ i. i.facts ≡ 0) }
    ensures cells { IfOk result (λ i. i.cells.items ≡ []) }
    ensures loads { IfOk result (λ i. i.would_load_as_asked ≡ false) }
{
    let told = faults_of_bytes(alloc, bytes)?;
    let mut faults = Vec::new(alloc);
    push_told(alloc, &mut faults, ReportFault::NotJson, told)?;
    Ok(Inspection {
        facts: 0,
        faults,
        cells: Vec::new(alloc),
        warnings: Vec::new(alloc),
        would_load_as_asked: false,
    })
}

/// All that is reported of a value.
fn inspect_value(
    alloc: Global,
    value: &json::Value<'_>,
    table: &Arc<NumericTable>,
    asked: Option<Allowed>,
) -> Result<Inspection, AllocError>
    requires range { IsInRange value.now }
    requires shallow { depth (data_of value.now) ≤ max_depth }
    ensures told { IfOk result (TellsOf (arc_value table.now) asked (data_of value.now)) }
    ensures warned { IfOk result (λ i. AreOf (value_view value.now) (map told i.warnings.items)) }
{
    let Head {
        faults,
        names,
        allowed,
    } = head_in(alloc, value, table)?;
    let mut found = Found {
        facts: Vec::new(alloc),
        faults,
    };
    let kept = kept_facts(alloc, value)?;
    let count = take_facts(alloc, &mut found, &names, value, &kept)?;
    let warnings = warnings_of(alloc, value, &kept, &names, table)?;
    let Found { facts, faults } = found;
    let cells = cells_of(alloc, asked.unwrap_or(allowed), facts)?;
    let would_load_as_asked = faults.is_empty() && are_allowed(&cells);
    Ok(Inspection {
        facts: count,
        faults,
        cells,
        warnings,
        would_load_as_asked,
    })
}

/// Inspects the text of a report, after one byte order mark, by this numeric table.
/// Where an allowed value is asked for, it takes the place of the declared one.
///
/// Each check of a reading is made, whatever the others say, and each fact is read by itself.
/// Out of memory is an error, and says nothing of the report.
pub fn inspect(
    alloc: Global,
    bytes: &[u8],
    table: &Arc<NumericTable>,
    asked: Option<Allowed>,
) -> Result<Inspection, AllocError>
    ensures { IfOk result (IsInspection (arc_value table.now) asked bytes.now) }
{
    let text = without_mark(bytes);
    let mut room = Scratch::new(alloc);
    match text_value(alloc, text, &mut room)? {
        Some(value) => inspect_value(alloc, &value, table, asked),
        None => no_json(alloc, text),
    }
}
