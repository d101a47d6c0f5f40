//! Rows are the lines of a file NAME.rows. One that begins with `#` says what comes.
//!
//! Bytes that are no text stand in a row with `\n` for a line feed and `\xNN` for any other byte.

use anyhow::{Result, anyhow};
use std::alloc::Global;
use std::fs;

/// The text of the file NAME.rows.
pub(crate) fn read_rows(rt: &HostRuntime, name: &str) -> Result<String> {
    let file = format!(in rt.alloc(); "{name}.rows")?;
    Ok(fs::read_to_string(rt, file)?)
}

/// Prints a row that begins with `#`; any other is an error.
pub(crate) fn show_title(rt: &HostRuntime, row: &str) -> Result<()> {
    if !row.starts_with("#") {
        return Err(anyhow!("no row: {row}"));
    }
    println!(rt; "{row}")?;
    Ok(())
}

/// Prints bytes after a word, as a text with escapes.
pub(crate) fn show_bytes(rt: &HostRuntime, word: &str, bytes: &[u8]) -> Result<()> {
    let text = String::from_utf8_lossy(rt.alloc(), bytes)?;
    println!(rt; "{word} {text:?}")?;
    Ok(())
}

/// The byte that stands at the start of an escape without its backslash, and what is after it.
fn split_escape(piece: &str) -> Option<(u8, &str)> {
    if let Some(rest) = piece.strip_prefix("n") {
        return Some((b'\n', rest));
    }
    let piece = piece.strip_prefix("x")?;
    let (digits, rest) = piece.split_at_checked(2)?;
    match u8::from_str_radix(digits, 16) {
        Ok(byte) => Some((byte, rest)),
        Err(_) => None,
    }
}

/// The bytes that a text with escapes is.
pub(crate) fn bytes_of(alloc: Global, text: &str) -> Result<Vec<u8>> {
    let mut bytes = Vec::new(alloc);
    let mut pieces = text.split('\\');
    if let Some(first) = pieces.next() {
        bytes.extend_from_slice(first.as_bytes())?;
    }
    for piece in pieces {
        let Some((byte, rest)) = split_escape(piece) else {
            return Err(anyhow!("no escape: {piece}"));
        };
        bytes.push(byte)?;
        bytes.extend_from_slice(rest.as_bytes())?;
    }
    Ok(bytes)
}
