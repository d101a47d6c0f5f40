//! The numeric table of the command line, and the bytes of a file.

ghost use Rattle.std.specs.Prelude.{◌≡◌, [], Ok};
ghost use Rattle.filing_model.specs.Reading.JsonText.{without_mark};
ghost use Rattle.filing.specs.Faults.{AddsTable, IsTableOf};

use crate::fault::{Fault, read_fault};
use crate::files::named::{INPUT, Named, Reasons};
use oim_fact::NumericTable;
use oim_report::read_table;
use script_reasons::without_mark;
use std::alloc::Global;
use std::io::Read;
use std::rt::Files;
use std::{fs, str};

/// The numeric table that a file's bytes are.
fn table_of(alloc: Global, bytes: &[u8]) -> Result<NumericTable, Fault>
    ensures { IsTableOf bytes.now result }
{
    match str::from_utf8(bytes) {
        Ok(text) => Ok(read_table(alloc, text)?),
        Err(_) => Err(Fault::TableNotText),
    }
}

/// Tells what is wrong with the numeric table at a path.
fn tell_table_fault(path: &str, fault: Fault, reasons: Reasons) {
    match fault {
        Fault::TableLine(number) => reasons.tell(
            path,
            &format_args!("line {number} is not a URI, one space and a local name"),
        ),
        Fault::TableNotText => reasons.tell(path, &"save it as UTF-8"),
        _ => {}
    }
}

/// The bytes of the file at a path.
pub(crate) fn bytes_of<R: Files + AllocGlobal>(
    rt: &R,
    path: &str,
    reasons: Reasons,
) -> Result<Vec<u8>, Fault> {
    match fs::read(rt, path) {
        Ok(bytes) => Ok(bytes),
        Err(error) => {
            reasons.tell(path, &error);
            Err(read_fault(&error))
        }
    }
}

/// The bytes of a file that the words name, or of standard input for `-`.
pub(crate) fn bytes_given(
    rt: &HostRuntime,
    path: &str,
    reasons: Reasons,
) -> Result<Vec<u8>, Fault> {
    if path != "-" {
        return bytes_of(rt, path, reasons);
    }
    let mut bytes = Vec::new(rt.alloc());
    match Named::new(rt.stdin(), INPUT, reasons).read_to_end(&mut bytes) {
        Ok(_) => Ok(bytes),
        Err(error) => Err(read_fault(&error)),
    }
}

/// The bytes after one byte order mark, of which it warns.
fn skip_mark_with_warning<'a>(rt: &impl Eprint, path: &str, bytes: &'a [u8]) -> &'a [u8]
    ensures { result.now ≡ without_mark bytes.now }
{
    let rest = without_mark(bytes);
    if rest.len() < bytes.len() {
        let _ = eprintln!(rt;
            "filing: warning: the byte order mark at the head of {path:?} is dropped"
        );
    }
    rest
}

/// Adds the lines of a numeric table to those of others. They are read for their faults: the number of a line is that in its own file.
fn add_lines(alloc: Global, lines: &mut Vec<u8>, bytes: &[u8]) -> Result<(), Fault>
    ensures { AddsTable bytes.now lines.old.items lines.new.items result }
{
    let _table = table_of(alloc, bytes)?;
    lines.extend_from_slice(bytes)?;
    lines.push(b'\n')?;
    Ok(())
}

/// Adds the lines of the numeric table in a file to those of others.
fn add_file(
    rt: &HostRuntime,
    lines: &mut Vec<u8>,
    path: &str,
    reasons: Reasons,
) -> Result<(), Fault> {
    let bytes = bytes_given(rt, path, reasons)?;
    let added = add_lines(rt.alloc(), lines, skip_mark_with_warning(rt, path, &bytes));
    if let Err(fault) = &added {
        tell_table_fault(path, *fault, reasons);
    }
    added
}

/// The rows of the lines of a numeric table, in byte order, each once.
fn rows_of(alloc: Global, lines: &[u8]) -> Result<Vec<String>, Fault> {
    let Ok(text) = str::from_utf8(lines) else {
        return Err(Fault::TableNotText);
    };
    let mut rows = Vec::new(alloc);
    for line in text.lines() {
        if !line.is_empty() {
            rows.push(String::from_str(alloc, line)?)?;
        }
    }
    rows.sort_unstable();
    rows.dedup();
    Ok(rows)
}

/// The rows of the numeric tables in the files at these paths, in byte order, each once; none where no path is given.
pub(crate) fn rows_given(
    rt: &HostRuntime,
    paths: &[&str],
    reasons: Reasons,
) -> Result<Option<Vec<String>>, Fault> {
    if paths.is_empty() {
        return Ok(None);
    }
    let mut lines = Vec::new(rt.alloc());
    for path in paths {
        add_file(rt, &mut lines, path, reasons)?;
    }
    Ok(Some(rows_of(rt.alloc(), &lines)?))
}

/// The numeric table of all lines of the files at these paths; without one, the empty table.
pub(crate) fn numeric_table(
    rt: &HostRuntime,
    paths: &[&str],
    reasons: Reasons,
) -> Result<NumericTable, Fault>
    ensures { paths.entry.now ≡ [] → result ≡ Ok [] }
{
    if paths.is_empty() {
        return Ok(NumericTable::of(Vec::new(rt.alloc()))?);
    }
    let mut lines = Vec::new(rt.alloc());
    for path in paths {
        add_file(rt, &mut lines, path, reasons)?;
    }
    table_of(rt.alloc(), &lines)
}
