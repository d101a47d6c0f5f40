//! The lines of an inspection.

ghost use Rattle.std.specs.Prelude.{◌≡◌, ◌++◌, IfOk, OnOk, map, not, option_and_then, option_map, string_bytes, codes, decimal};
ghost use Rattle.std.specs.List.{flat_map};
ghost use Rattle.filing_model.specs.Reading.Writing.{nullable_text};
ghost use Rattle.oim_report.specs.Faults.{report_fault};
ghost use Rattle.script_format.specs.ReplyText.{bool_text, texts_text};
ghost use Rattle.report_inspection.specs.Lines.{cell_end, cell_head, cell_line, count_disallowed, count_text, fault_end, fault_head, fault_id, fault_lines, head_text, inspection_text, more_reason, reason_line, summary_line, warning_end, warning_head, warning_line};

use crate::cell::Cell;
use crate::fault::Fault;
use crate::inspection::Inspection;
use crate::warning::Warning;
use crate::words::{fault_word, kind_word};
use oim_report::{ReportFault, push_dims, push_quoted};
use script_format::{class_word, push_texts, push_word};
use std::alloc::{AllocError, Global};

/// Appends what each line begins with.
fn push_head(out: &mut String, word: &str, file: &str) -> Result<(), AllocError>
    ensures { OnOk result (string_bytes out.new ≡ string_bytes out.old ++ head_text word.now file.now) }
{
    out.push_str("[\"")?;
    out.push_str(word)?;
    out.push_str("\",")?;
    push_quoted(out, file)
}

/// The identifier of the fact that a fault is of, where it is of one.
pub(crate) fn fault_id(fault: &ReportFault) -> Option<&str>
    ensures { option_map (λ t. t.now) result ≡ option_and_then fault_id (report_fault fault.now) }
{
    match fault {
        ReportFault::BadFact(id, _) => Some(id),
        _ => None,
    }
}

/// Appends an identifier, or null.
fn push_id(out: &mut String, id: Option<&str>) -> Result<(), AllocError>
    ensures { OnOk result (string_bytes out.new ≡ string_bytes out.old
        ++ nullable_text (option_map (λ t. t.now) id.entry)) }
{
    match id {
        Some(id) => push_quoted(out, id),
        None => out.push_str("null"),
    }
}

/// Appends the beginning of the line of a fault.
fn push_fault_head(out: &mut String, file: &str, id: Option<&str>) -> Result<(), AllocError>
    ensures { OnOk result (string_bytes out.new ≡ string_bytes out.old
        ++ fault_head file.now (option_map (λ t. t.now) id.entry)) }
{
    push_head(out, "fault", file)?;
    out.push_str(",")?;
    push_id(out, id)
}

/// Appends the end of the line of a fault.
fn push_fault_end(out: &mut String, word: &str, reason: &str) -> Result<(), AllocError>
    ensures { OnOk result (string_bytes out.new ≡ string_bytes out.old ++ fault_end word.now reason.now) }
{
    out.push_str(",")?;
    push_word(out, word)?;
    out.push_str(",")?;
    push_quoted(out, reason)?;
    out.push_str("]\n")
}

/// Appends the line of one reason.
fn push_reason(
    out: &mut String,
    file: &str,
    id: Option<&str>,
    word: &str,
    reason: &str,
) -> Result<(), AllocError>
    ensures { OnOk result (string_bytes out.new ≡ string_bytes out.old
        ++ reason_line file.now (option_map (λ t. t.now) id.entry) word.now reason.now) }
{
    push_fault_head(out, file, id)?;
    push_fault_end(out, word, reason)
}

/// Appends the lines of these reasons.
fn push_reasons(
    out: &mut String,
    file: &str,
    id: Option<&str>,
    word: &str,
    reasons: &[String],
) -> Result<(), AllocError>
    ensures { OnOk result (string_bytes out.new ≡ string_bytes out.old
        ++ flat_map (reason_line file.now (option_map (λ t. t.now) id.entry) word.now) (map string_bytes reasons.now)) }
{
    for reason in reasons {
        push_reason(out, file, id, word, reason)?;
    }
    Ok(())
}

/// How much more is wrong.
fn more_reason(alloc: Global, more: u64) -> Result<String, AllocError>
    ensures { IfOk result (λ t. string_bytes t ≡ codes "and " ++ (decimal more ++ codes " more")) }
{
    format!(in alloc; "and {more} more")
}

/// Appends the line of how much more is wrong, where it is.
fn push_more(
    out: &mut String,
    file: &str,
    id: Option<&str>,
    word: &str,
    more: u64,
) -> Result<(), AllocError>
    ensures { OnOk result (string_bytes out.new ≡ string_bytes out.old
        ++ flat_map (reason_line file.now (option_map (λ t. t.now) id.entry) word.now) (more_reason more)) }
{
    if more == 0 {
        return Ok(());
    }
    let reason = more_reason(*out.allocator(), more)?;
    push_reason(out, file, id, word, &reason)
}

/// Appends the lines of a fault: one for each of its reasons.
fn push_fault(out: &mut String, file: &str, fault: &Fault) -> Result<(), AllocError>
    ensures { OnOk result (string_bytes out.new ≡ string_bytes out.old ++ fault_lines file.now fault.now) }
{
    let Some(word) = fault_word(&fault.fault) else {
        return Ok(());
    };
    let id = fault_id(&fault.fault);
    push_reasons(out, file, id, word, &fault.reasons)?;
    push_more(out, file, id, word, fault.more)?;
    Ok(())
}

/// Appends `true` or `false`.
fn push_bool(out: &mut String, value: bool) -> Result<(), AllocError>
    ensures { OnOk result (string_bytes out.new ≡ string_bytes out.old ++ bool_text value) }
{
    out.push_str(if value { "true" } else { "false" })
}

/// Appends the beginning of the line of a cell.
fn push_cell_head(out: &mut String, file: &str, cell: &Cell) -> Result<(), AllocError>
    ensures { OnOk result (string_bytes out.new ≡ string_bytes out.old ++ cell_head file.now cell.now) }
{
    push_head(out, "cell", file)?;
    out.push_str(",")?;
    push_word(out, class_word(cell.class()))?;
    out.push_str(",")?;
    push_dims(out, cell.dims())
}

/// Appends the end of the line of a cell.
fn push_cell_end(out: &mut String, cell: &Cell) -> Result<(), AllocError>
    ensures { OnOk result (string_bytes out.new ≡ string_bytes out.old ++ cell_end cell.now) }
{
    out.push_str(",")?;
    push_texts(out, cell.ids())?;
    out.push_str(",")?;
    push_bool(out, cell.is_allowed())?;
    out.push_str("]\n")
}

/// Appends the line of a cell.
fn push_cell(out: &mut String, file: &str, cell: &Cell) -> Result<(), AllocError>
    ensures { OnOk result (string_bytes out.new ≡ string_bytes out.old ++ cell_line file.now cell.now) }
{
    push_cell_head(out, file, cell)?;
    push_cell_end(out, cell)
}

/// Appends the beginning of the line of a warning.
fn push_warning_head(out: &mut String, file: &str, word: &str) -> Result<(), AllocError>
    ensures { OnOk result (string_bytes out.new ≡ string_bytes out.old ++ warning_head file.now word.now) }
{
    push_head(out, "warning", file)?;
    out.push_str(",")?;
    push_word(out, word)
}

/// Appends the end of the line of a warning.
fn push_warning_end(out: &mut String, id: Option<&str>, name: &str) -> Result<(), AllocError>
    ensures { OnOk result (string_bytes out.new ≡ string_bytes out.old
        ++ warning_end (option_map (λ t. t.now) id.entry) name.now) }
{
    out.push_str(",")?;
    push_id(out, id)?;
    out.push_str(",")?;
    push_quoted(out, name)?;
    out.push_str("]\n")
}

/// Appends the line of a warning.
fn push_warning(out: &mut String, file: &str, warning: &Warning) -> Result<(), AllocError>
    ensures { OnOk result (string_bytes out.new ≡ string_bytes out.old ++ warning_line file.now warning.now) }
{
    push_warning_head(out, file, kind_word(warning.kind))?;
    push_warning_end(out, warning.fact.as_deref(), &warning.name)
}

/// Whether a cell may not stand.
fn is_disallowed(cell: &Cell) -> bool
    ensures { result ≡ not cell.now.allowed }
{
    !cell.is_allowed()
}

/// How many cells may not stand.
pub(crate) fn count_disallowed(cells: &[Cell]) -> usize
    ensures { result ≡ count_disallowed cells.now }
{
    let mut count = 0;
    for cell in cells {
        if is_disallowed(cell) {
            count += 1;
        }
    }
    count
}

/// Appends a comma and a count.
fn push_count(out: &mut String, count: u64) -> Result<(), AllocError>
    ensures { OnOk result (string_bytes out.new ≡ string_bytes out.old ++ count_text count) }
{
    write!(out, ",{count}")
}

/// Appends the first counts of an inspection.
fn push_first_counts(out: &mut String, facts: u64, cells: u64) -> Result<(), AllocError>
    ensures { OnOk result (string_bytes out.new ≡ string_bytes out.old ++ (count_text facts ++ count_text cells)) }
{
    push_count(out, facts)?;
    push_count(out, cells)
}

/// Appends the last counts of an inspection, and the end of the line.
fn push_last_counts(
    out: &mut String,
    faults: u64,
    disallowed: u64,
    warnings: u64,
) -> Result<(), AllocError>
    ensures { OnOk result (string_bytes out.new ≡ string_bytes out.old
        ++ (count_text faults ++ (count_text disallowed ++ (count_text warnings ++ codes "]\n")))) }
{
    push_count(out, faults)?;
    push_count(out, disallowed)?;
    push_count(out, warnings)?;
    out.push_str("]\n")
}

/// Appends the line that ends an inspection: how many facts, cells, faults, disallowed cells and warnings there are.
fn push_summary(out: &mut String, file: &str, inspection: &Inspection) -> Result<(), AllocError>
    ensures { OnOk result (string_bytes out.new ≡ string_bytes out.old ++ summary_line file.now inspection.now) }
{
    push_head(out, "inspected", file)?;
    push_first_counts(out, inspection.facts, inspection.cells.len() as u64)?;
    push_last_counts(
        out,
        inspection.faults.len() as u64,
        count_disallowed(&inspection.cells) as u64,
        inspection.warnings.len() as u64,
    )?;
    Ok(())
}

/// Appends the lines of all faults.
fn push_faults(out: &mut String, file: &str, faults: &[Fault]) -> Result<(), AllocError>
    ensures { OnOk result (string_bytes out.new ≡ string_bytes out.old ++ flat_map (fault_lines file.now) faults.now) }
{
    for fault in faults {
        push_fault(out, file, fault)?;
    }
    Ok(())
}

/// Appends the lines of all cells.
fn push_cells(out: &mut String, file: &str, cells: &[Cell]) -> Result<(), AllocError>
    ensures { OnOk result (string_bytes out.new ≡ string_bytes out.old ++ flat_map (cell_line file.now) cells.now) }
{
    for cell in cells {
        push_cell(out, file, cell)?;
    }
    Ok(())
}

/// Appends the lines of all warnings.
fn push_warnings(out: &mut String, file: &str, warnings: &[Warning]) -> Result<(), AllocError>
    ensures { OnOk result (string_bytes out.new
        ≡ string_bytes out.old ++ flat_map (warning_line file.now) warnings.now) }
{
    for warning in warnings {
        push_warning(out, file, warning)?;
    }
    Ok(())
}

/// Appends all lines of an inspection, under the name of its file.
pub fn push_inspection(
    out: &mut String,
    file: &str,
    inspection: &Inspection,
) -> Result<(), AllocError>
    ensures { OnOk result (string_bytes out.new ≡ string_bytes out.old ++ inspection_text file.now inspection.now) }
{
    push_faults(out, file, &inspection.faults)?;
    push_cells(out, file, &inspection.cells)?;
    push_warnings(out, file, &inspection.warnings)?;
    push_summary(out, file, inspection)?;
    Ok(())
}
