//! Files of `data/`, and lines of bytes, each of which ends with a line feed.

use anyhow::Result;
use oim_fact::NumericTable;
use oim_report::read_table;
use std::alloc::AllocError;
use std::fs;
use std::rt::Files;
use std::sync::Arc;

/// The bytes of the file NAME.ENDING.
pub(crate) fn read_data<R: Files + AllocGlobal>(
    rt: &R,
    name: &str,
    ending: &str,
) -> Result<Vec<u8>> {
    let file = format!(in rt.alloc(); "{name}.{ending}")?;
    Ok(fs::read(rt, file)?)
}

/// The text of the file NAME.txt.
pub(crate) fn read_text<R: Files + AllocGlobal>(rt: &R, name: &str) -> Result<String> {
    let file = format!(in rt.alloc(); "{name}.txt")?;
    Ok(fs::read_to_string(rt, file)?)
}

/// The numeric table of the file NAME.txt.
pub(crate) fn read_numeric<R: Files + AllocGlobal>(
    rt: &R,
    name: &str,
) -> Result<Arc<NumericTable>> {
    let text = read_text(rt, name)?;
    let table = read_table(rt.alloc(), &text)?;
    Ok(Arc::new(rt.alloc(), table)?)
}

/// Whether a byte ends a line.
pub(crate) fn is_end(byte: &u8) -> bool {
    *byte == b'\n'
}

/// How many line feeds there are in bytes.
pub(crate) fn ends_in(bytes: &[u8]) -> usize {
    bytes.split(is_end).count().saturating_sub(1)
}

/// Appends a line with its end.
pub(crate) fn push_line(lines: &mut Vec<u8>, line: &[u8]) -> Result<(), AllocError> {
    lines.extend_from_slice(line)?;
    lines.extend_from_slice(b"\n")
}

/// How many whole lines are the same before the first that differ.
pub(crate) fn same_lines(one: &[u8], other: &[u8]) -> usize {
    let mut lines = 0usize;
    for (byte, against) in one.iter().zip(other.iter()) {
        if byte != against {
            return lines;
        }
        if is_end(byte) {
            lines = lines.saturating_add(1);
        }
    }
    lines
}
