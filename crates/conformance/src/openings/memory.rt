//! Journals over files in memory.
//!
//! The bytes of a file stand with escapes after `> `, or there are none after `>`: it is opened. `+ ` puts a batch into a journal
//! of that file, and `! ` does so with each call of the device failing in turn, and puts it again.

ghost use Rattle.journal.specs.Standing.{IsKept};

use crate::openings::rows::{bytes_of, show_bytes, show_title};
use anyhow::{Result, anyhow};
use journal::{Device, Journal, MemoryFile, PutFault, are_lines, open, read_lines};

// The calls that open a file at rest: a cut, a write, and a sync after each.
const OPENING_CALLS: u64 = 4;

// The calls of one batch: its second byte, its rest, three further pieces and the gate are written, with a sync; then its first byte, with a sync.
const PUT_CALLS: u64 = 9;

/// Prints the lines that a file opens to, or why it does not, what is in it then, and how often it was changed.
fn show_opening(rt: &HostRuntime, bytes: &[u8]) -> Result<()> {
    let alloc = rt.alloc();
    let mut file = MemoryFile::new(alloc, bytes.to_vec(alloc)?);
    match open(&mut file, bytes.to_vec(alloc)?) {
        Ok(lines) => show_bytes(rt, "lines", &lines)?,
        Err(fault) => println!(rt; "{fault}")?,
    }
    show_bytes(rt, "file", file.bytes())?;
    println!(rt; "changes {}", file.past().len())?;
    Ok(())
}

/// How a put ended.
fn word_of(ended: Result<(), PutFault>) -> &'static str {
    match ended {
        Ok(()) => "put",
        Err(PutFault::Failed) => "failed",
        Err(PutFault::Full) => "full",
    }
}

/// Puts whole lines in one piece, and says how that ended.
fn put<D: Device>(journal: &mut Journal<D>, batch: &[u8]) -> Result<&'static str>
    requires { IsKept D.seen D.may_leave D.has_failed journal.old }
    ensures { IsKept D.seen D.may_leave D.has_failed journal.new }
{
    if batch.len() < 2 || !are_lines(batch) {
        return Err(anyhow!("no lines"));
    }
    Ok(word_of(journal.put(batch, &[], &[], &[])))
}

/// Puts a batch, and prints what is in the file then, and the lines of each content before.
fn show_batch(rt: &HostRuntime, bytes: &[u8], batch: &[u8]) -> Result<()> {
    let alloc = rt.alloc();
    let mut file = MemoryFile::new(alloc, bytes.to_vec(alloc)?);
    let lines = open(&mut file, bytes.to_vec(alloc)?)?;
    let mut journal = Journal::new(file, lines.len());
    println!(rt; "{}", put(&mut journal, batch)?)?;
    show_bytes(rt, "file", journal.device().bytes())?;
    // The last write opens the gate, so no earlier content has any of the batch.
    for past in journal.device().past() {
        let lines = read_lines(past.to_vec(alloc)?)?;
        show_bytes(rt, "before it", &lines)?;
    }
    Ok(())
}

/// Puts a batch while the call of the device with this number fails, and then again.
fn show_failure(rt: &HostRuntime, bytes: &[u8], batch: &[u8], call: u64) -> Result<()> {
    let alloc = rt.alloc();
    let file = MemoryFile::new(alloc, bytes.to_vec(alloc)?);
    let mut file = file.failing_at(OPENING_CALLS.saturating_add(call));
    let lines = open(&mut file, bytes.to_vec(alloc)?)?;
    let mut journal = Journal::new(file, lines.len());
    let first = put(&mut journal, batch)?;
    let (stopped, changes) = (journal.has_stopped(), journal.device().past().len());
    println!(rt; "call {call}: {first}, stopped {stopped}, {changes} changes")?;
    let again = put(&mut journal, batch)?;
    let changes = journal.device().past().len();
    println!(rt; "again: {again}, {changes} changes")?;
    Ok(())
}

/// Puts a batch while each call of the device fails in turn.
fn show_failures(rt: &HostRuntime, bytes: &[u8], batch: &[u8]) -> Result<()> {
    for call in 1..=PUT_CALLS {
        show_failure(rt, bytes, batch, call)?;
    }
    Ok(())
}

/// Shows rows, and counts what is opened and put.
pub(crate) fn show_journals(rt: &HostRuntime, rows: &str) -> Result<u64> {
    let alloc = rt.alloc();
    let mut count = 0u64;
    let mut bytes = Vec::new(alloc);
    for row in rows.lines() {
        if row.starts_with("#") {
            show_title(rt, row)?;
            continue;
        }
        println!(rt; "{row}")?;
        count = count.saturating_add(1);
        if let Some(file) = row.strip_prefix(">") {
            bytes = bytes_of(alloc, file.strip_prefix(" ").unwrap_or(file))?;
            show_opening(rt, &bytes)?;
        } else if let Some(batch) = row.strip_prefix("+ ") {
            show_batch(rt, &bytes, &bytes_of(alloc, batch)?)?;
        } else if let Some(batch) = row.strip_prefix("! ") {
            show_failures(rt, &bytes, &bytes_of(alloc, batch)?)?;
        } else {
            return Err(anyhow!("no row: {row}"));
        }
    }
    Ok(count)
}
