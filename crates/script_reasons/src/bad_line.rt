//! What is no line of a script: its encoding, its JSON, its form.

ghost use Rattle.std.specs.Prelude.{IfOk, IfSome};
ghost use Rattle.script_reasons.specs.Explained.{IsColumnOf, IsStopOf};

use crate::forms::line_fault;
use crate::json_fault::{JsonFault, json_fault};
use oim_report::json_value;
use std::alloc::{AllocError, Global};
use std::str::from_utf8;

/// What a line is written in, where its beginning shows that it is not plain UTF-8.
fn other_encoding(line: &[u8]) -> Option<&'static str> {
    match line {
        [0xef, 0xbb, 0xbf, ..] => Some(
            "a byte order mark stands before the line, which is no JSON: save the script as UTF-8 without one",
        ),
        [0xff, 0xfe, ..] | [0xfe, 0xff, ..] | [0, b'[', ..] | [b'[', 0, ..] | [0] => {
            Some("the line is UTF-16: save the script as UTF-8")
        }
        _ => None,
    }
}

/// The column of a byte of a line: how many characters begin before it, from 1.
fn column_of(line: &[u8], place: usize) -> u64
    ensures { IsColumnOf line.now result }
{
    let front = if place < line.len() {
        &line[..place]
    } else {
        line
    };
    let mut column = 1;
    for byte in front {
        if *byte & 0xc0 != 0x80 {
            column += 1;
        }
    }
    column
}

/// What is reported about a byte that is not UTF-8.
fn reason_of_no_utf8(alloc: Global, line: &[u8], place: usize) -> Result<String, AllocError> {
    let Some(byte) = line.get(place).copied() else {
        return String::from_str(alloc, "the line is not UTF-8");
    };
    if byte < 0xa0 {
        return format!(in alloc; "the byte {byte:#04x} is not UTF-8: save the script as UTF-8");
    }
    let letter = char::from(byte);
    format!(in alloc;
        "the byte {byte:#04x} is not UTF-8; in Latin-1 it is \"{letter}\": save the script as UTF-8"
    )
}

/// The column at which the reading of a line that is no JSON stopped, and why.
fn stop_in(alloc: Global, line: &[u8], text: &str) -> Result<(u64, String), AllocError>
    ensures { IfOk result (λ r. IsColumnOf line.now r.0) }
{
    let JsonFault { place, said } = json_fault(alloc, text)?;
    Ok((column_of(line, place), said))
}

/// What is wrong with a line that is UTF-8, with the column at which its reading stopped.
fn text_fault(alloc: Global, line: &[u8], text: &str) -> Result<(Option<u64>, String), AllocError>
    ensures { IfOk result (λ r. IfSome r.0 (IsStopOf line.now)) }
{
    match json_value(alloc, line)? {
        Some(value) => Ok((None, line_fault(alloc, &value)?)),
        None => {
            let (column, said) = stop_in(alloc, line, text)?;
            Ok((Some(column), said))
        }
    }
}

/// What is wrong with a line that is none of a script, with the column at which its reading stopped.
pub(crate) fn explain_bad_line(
    alloc: Global,
    line: &[u8],
) -> Result<(Option<u64>, String), AllocError>
    ensures { IfOk result (λ r. IfSome r.0 (IsStopOf line.now)) }
{
    if let Some(said) = other_encoding(line) {
        return Ok((None, String::from_str(alloc, said)?));
    }
    match from_utf8(line) {
        Ok(text) => text_fault(alloc, line, text),
        Err(fault) => {
            let place = fault.valid_up_to();
            Ok((
                Some(column_of(line, place)),
                reason_of_no_utf8(alloc, line, place)?,
            ))
        }
    }
}

/// Where a line of any kind stops to be JSON, in words, with the column; none of a line that is JSON.
pub fn reading_stop(alloc: Global, line: &[u8]) -> Result<Option<(u64, String)>, AllocError>
    ensures { IfOk result (λ o. IfSome o (λ r. IsStopOf line.now r.0)) }
{
    if json_value(alloc, line)?.is_some() {
        return Ok(None);
    }
    match from_utf8(line) {
        Ok(text) => Ok(Some(stop_in(alloc, line, text)?)),
        Err(fault) => {
            let place = fault.valid_up_to();
            Ok(Some((
                column_of(line, place),
                reason_of_no_utf8(alloc, line, place)?,
            )))
        }
    }
}
