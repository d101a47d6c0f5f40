//! Numeric tables: lines of a URI, one space and a local name.

ghost use Rattle.std.specs.Prelude.{◌≡◌, ◌<◌, ◌∷◌, Option, None, Some, option_map, if◌then◌else◌, length, IfSome};
ghost use Rattle.std.specs.List.{slice_split};
ghost use Rattle.std.specs.Char.{is_newline};
ghost use Rattle.std.specs.Str.Lines.{strip_carriage_return};
ghost use Rattle.filing_model.specs.Common.Try.{Gives, each};
ghost use Rattle.filing_model.specs.Common.Faults.{table_fault};
ghost use Rattle.filing_model.specs.Oim.Tables.{is_row, numbered_lines, read_table_of, row_at, split_at_space};
ghost use Rattle.oim_fact.specs.Texts.{row_of, rows_view};
ghost use Rattle.oim_report.specs.Lines.{lines_left};
ghost use Rattle.oim_report.specs.Readings.{same};

use filing_model::TableFault;
use oim_fact::NumericTable;
use std::alloc::Global;

/// The first line, and the text after its line feed.
fn first_line(text: &str) -> (&str, Option<&str>)
    ensures split { slice_split is_newline text.now
        ≡ result.0.now ∷ lines_left (option_map (λ t. t.now) result.1) }
    ensures shorter { IfSome result.1 (λ rest. length rest.now < length text.now) }
{
    match text.split_once('\n') {
        Some((line, rest)) => (line, Some(rest)),
        None => (text, None),
    }
}

/// The line without the one carriage return at its end, if it has one.
fn without_return(line: &str) -> &str
    ensures { result.now ≡ strip_carriage_return line.now }
{
    match line.strip_suffix('\r') {
        Some(rest) => rest,
        None => line,
    }
}

/// The URI and the local name of a line.
fn parts(line: &str) -> Option<(&str, &str)>
    ensures { option_map (λ p. (p.0.now, p.1.now)) result
        ≡ (if is_row (split_at_space line.now) then Some (split_at_space line.now) else None) }
{
    let (uri, local) = line.split_once(' ')?;
    if uri.is_empty() || local.is_empty() || local.contains(' ') {
        return None;
    }
    Some((uri, local))
}

/// The row of the line with this number.
fn row(alloc: Global, number: u64, line: &str) -> Result<(String, String), TableFault>
    ensures { Gives table_fault row_of result (row_at (number, line.now)) }
{
    let Some((uri, local)) = parts(line) else {
        return Err(TableFault::BadLine(number));
    };
    let Ok(uri) = String::from_str(alloc, uri) else {
        return Err(TableFault::NoMemory);
    };
    match String::from_str(alloc, local) {
        Ok(local) => Ok((uri, local)),
        Err(_) => Err(TableFault::NoMemory),
    }
}

/// The rows of a text, or its first bad line.
fn rows(alloc: Global, text: &str) -> Result<Vec<(String, String)>, TableFault>
    ensures { Gives table_fault (λ v. rows_view v.items) result
        (each row_at (numbered_lines text.now)) }
{
    let mut rows = Vec::new(alloc);
    let mut number = 1;
    let mut left = Some(text);
    while let Some(rest) = left {
        let (line, later) = first_line(rest);
        let line = without_return(line);
        if !line.is_empty() {
            let Ok(()) = rows.push(row(alloc, number, line)?) else {
                return Err(TableFault::NoMemory);
            };
        }
        number += 1;
        left = later;
    }
    Ok(rows)
}

/// The numeric table of a text, or its first bad line, counted from 1: each line is a URI, one space and a local name.
/// Empty lines are passed over, and a carriage return at the end of a line is dropped.
pub fn read_table(alloc: Global, text: &str) -> Result<NumericTable, TableFault>
    ensures { Gives table_fault same result (read_table_of text.now) }
{
    match NumericTable::of(rows(alloc, text)?) {
        Ok(table) => Ok(table),
        Err(_) => Err(TableFault::NoMemory),
    }
}
