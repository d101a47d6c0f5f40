//! What an inspection reports, as lines for people.

use crate::cell::Cell;
use crate::fault::Fault;
use crate::inspection::Inspection;
use crate::lines::{count_disallowed, fault_id};
use crate::warning::{Warning, WarningKind};
use oim_report::{push_dims, push_quoted};
use script_format::class_word;
use std::alloc::AllocError;

/// Appends the file that a line is of, and the fact, where it is of one.
fn push_place(out: &mut String, file: &str, id: Option<&str>) -> Result<(), AllocError> {
    out.push_str(file)?;
    if let Some(id) = id {
        out.push_str(", fact ")?;
        push_quoted(out, id)?;
    }
    out.push_str(": ")
}

/// Appends a line for each reason of a fault.
fn push_plain_fault(out: &mut String, file: &str, fault: &Fault) -> Result<(), AllocError> {
    let id = fault_id(&fault.fault);
    for reason in &fault.reasons {
        push_place(out, file, id)?;
        out.push_str(reason)?;
        out.push_str("\n")?;
    }
    if fault.more > 0 {
        push_place(out, file, id)?;
        write!(out, "and {} more\n", fault.more)?;
    }
    Ok(())
}

/// Appends the line of a cell.
fn push_plain_cell(out: &mut String, file: &str, cell: &Cell) -> Result<(), AllocError> {
    push_place(out, file, None)?;
    out.push_str(class_word(cell.class()))?;
    out.push_str(" duplicates")?;
    for id in cell.ids() {
        out.push_str(" ")?;
        push_quoted(out, id)?;
    }
    out.push_str(" of ")?;
    push_dims(out, cell.dims())?;
    out.push_str(if cell.is_allowed() {
        "\n"
    } else {
        ", which are not allowed\n"
    })
}

/// What is said of a name before it, and after it.
fn words_around(kind: WarningKind) -> (&'static str, &'static str) {
    match kind {
        WarningKind::NameTwice => ("the name ", " stands twice: the last counts"),
        WarningKind::NotRead => ("the member ", " is not read"),
        WarningKind::DecimalsBesideNull => ("", " beside null is dropped"),
        WarningKind::NotInTable => (
            "the concept ",
            " has a unit, and is not in the numeric table",
        ),
        WarningKind::OtherNamespace => (
            "no fact has the numeric concept ",
            ", though a number has its local name in another namespace",
        ),
    }
}

/// Appends the line of a warning.
fn push_plain_warning(out: &mut String, file: &str, warning: &Warning) -> Result<(), AllocError> {
    let (before, behind) = words_around(warning.kind);
    push_place(out, file, warning.fact.as_deref())?;
    out.push_str("warning: ")?;
    out.push_str(before)?;
    push_quoted(out, &warning.name)?;
    out.push_str(behind)?;
    out.push_str("\n")
}

/// Appends an inspection as lines for people: its faults, its cells of more than one fact, its warnings,
/// and how many of each there are.
pub fn push_plain(out: &mut String, file: &str, inspection: &Inspection) -> Result<(), AllocError> {
    for fault in &inspection.faults {
        push_plain_fault(out, file, fault)?;
    }
    for cell in &inspection.cells {
        push_plain_cell(out, file, cell)?;
    }
    for warning in &inspection.warnings {
        push_plain_warning(out, file, warning)?;
    }
    push_place(out, file, None)?;
    write!(
        out,
        "{} facts, {} faults, {} cells of duplicates, {} of them not allowed, {} warnings\n",
        inspection.facts,
        inspection.faults.len(),
        inspection.cells.len(),
        count_disallowed(&inspection.cells),
        inspection.warnings.len()
    )
}
