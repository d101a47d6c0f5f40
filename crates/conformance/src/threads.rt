//! The stored scripts, each run in a thread, alone and with a journal in memory.

ghost use Rattle.std.specs.Prelude.{length};
ghost use Rattle.filing_office.specs.Sizes.{FitsOffice};

use crate::journals::{engine_of, marked_entries};
use crate::lines::{ends_in, is_end, read_data, read_numeric, read_text};
use anyhow::{Result, anyhow};
use embedding::marked_journal::{new_file, open_on};
use filing_core::HashKeys;
use filing_threads::{Unwatched, run_threads, run_threads_with_journal};
use journal::{MemoryFile, read_lines};
use journal_marks::entries_of;
use line_io::MemoryOut;
use oim_fact::NumericTable;
use script_runs::entries_of_history;
use std::alloc::Global;
use std::marker::Sync;
use std::rt::Files;
use std::sync::{Arc, Wait};
use std::thread::Threads;

/// Bytes that the sink holds before it grows.
const ROOM: usize = 65536;

/// Bytes that a write moves at most.
const PIECE: usize = 4096;

/// What is written for scripts that run at once.
fn written_in_threads<R: AllocGlobal + Threads + Wait + Sync>(
    rt: &R,
    table: &Arc<NumericTable>,
    scripts: &[Vec<u8>],
) -> Result<Vec<u8>>
    requires fit { FitsOffice (length scripts.now) }
{
    let mut sink = MemoryOut::new(rt.alloc(), ROOM, PIECE)?;
    run_threads(rt, rt.alloc(), scripts, &mut sink, table)?;
    Ok(Vec::from_slice(rt.alloc(), sink.contents())?)
}

/// The replies to a script in a thread.
fn replies_in_thread<R: AllocGlobal + Threads + Wait + Sync>(
    rt: &R,
    table: &Arc<NumericTable>,
    script: Vec<u8>,
) -> Result<Vec<u8>> {
    let scripts = [script];
    written_in_threads(rt, table, &scripts)
}

/// What scripts in threads are answered, and the file of the journal that they keep.
#[derive(Drop)]
struct Kept {
    told: Vec<u8>,
    file: Vec<u8>,
}

/// Runs scripts at once from the history that a journal in memory has, and keeps it there.
fn keep_in_threads<R: AllocGlobal + Threads + Wait + Sync>(
    rt: &R,
    table: &Arc<NumericTable>,
    found: &[u8],
    scripts: &[Vec<u8>],
) -> Result<Kept>
    requires fit { FitsOffice (length scripts.now) }
{
    let alloc = rt.alloc();
    let lines = read_lines(found.to_vec(alloc)?)?;
    let entries = entries_of(alloc, &lines)?;
    let Ok(first) = entries_of_history(alloc, HashKeys::Fixed, &entries, table) else {
        return Err(anyhow!("the journal has no history"));
    };
    let file = MemoryFile::new(alloc, found.to_vec(alloc)?);
    let journal = open_on(file, found.to_vec(alloc)?)?;
    let mut sink = MemoryOut::new(alloc, ROOM, PIECE)?;
    let run = run_threads_with_journal(
        rt,
        alloc,
        HashKeys::Fixed,
        scripts,
        &first,
        journal,
        &mut sink,
        table,
        &Unwatched,
    );
    run.ended?;
    let told = Vec::from_slice(alloc, sink.contents())?;
    let file = run.journal.device().bytes().to_vec(alloc)?;
    Ok(Kept { told, file })
}

/// What a script in a thread is answered that keeps a journal, and the file of that.
fn keep_in_thread<R: AllocGlobal + Threads + Wait + Sync>(
    rt: &R,
    table: &Arc<NumericTable>,
    found: &[u8],
    script: Vec<u8>,
) -> Result<Kept> {
    let scripts = [script];
    keep_in_threads(rt, table, found, &scripts)
}

/// Whether what a journal keeps is a history, and how many entries that has.
fn count_entries(alloc: Global, table: &Arc<NumericTable>, file: &[u8]) -> Result<(bool, usize)> {
    let lines = read_lines(file.to_vec(alloc)?)?;
    let Some(entries) = marked_entries(alloc, &lines)? else {
        return Ok((false, 0));
    };
    let engine = engine_of(alloc, table, &entries)?;
    let is_history = engine.is_some();
    drop(engine);
    Ok((is_history, ends_in(&entries)))
}

/// How many lines are the same at their places.
fn same_at_places(one: &[u8], other: &[u8]) -> usize {
    let mut same = 0usize;
    for (line, against) in one.split(is_end).zip(other.split(is_end)) {
        if line == against && !line.is_empty() {
            same = same.saturating_add(1);
        }
    }
    same
}

/// Runs a script in a thread with a new journal, and once more from what that keeps then.
fn compare_kept<R: Print + AllocGlobal + Threads + Wait + Sync>(
    rt: &R,
    table: &Arc<NumericTable>,
    name: &str,
    script: &[u8],
    told: &[u8],
) -> Result<()> {
    let alloc = rt.alloc();
    let mut found = new_file(alloc)?;
    for _ in 0..2 {
        let kept = keep_in_thread(rt, table, &found, script.to_vec(alloc)?)?;
        let (is_history, entries) = count_entries(alloc, table, &kept.file)?;
        let same = same_at_places(&kept.told, told);
        println!(rt;
            "{name} with a journal: {same} replies as without, {entries} entries, a history: {is_history}"
        )?;
        found = kept.file;
    }
    Ok(())
}

/// Compares the replies to the scripts that `stored.txt` names with those that are stored. In threads an export is a bad line.
pub(crate) fn compare_in_threads<R: Print + AllocGlobal + Files + Threads + Wait + Sync>(
    rt: &R,
) -> Result<()> {
    let names = read_text(rt, "stored")?;
    let table = &read_numeric(rt, "numeric")?;
    for name in names.lines() {
        let replies = read_data(rt, name, "replies")?;
        let script = read_data(rt, name, "jsonl")?;
        let told = replies_in_thread(rt, table, script.to_vec(rt.alloc())?)?;
        let (all, same) = (ends_in(&told), same_at_places(&told, &replies));
        println!(rt; "{name} in a thread: {all} replies, {same} as stored")?;
        compare_kept(rt, table, name, &script, &told)?;
    }
    Ok(())
}
