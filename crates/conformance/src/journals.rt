//! Scripts that keep a journal in memory, what a crash would leave of it, and its marks.

use crate::devices::{Done, Ended, Trial, Work, do_work};
use crate::lines::{is_end, read_numeric};
use crate::scripts::stored_script;
use anyhow::{Result, anyhow};
use embedding::marked_journal::{chain_of, new_file};
use filing_core::{Engine, HashKeys};
use journal::{MemoryFile, open, read_lines};
use journal_marks::{MarkedJournal, entries_of};
use line_io::{ScriptFault, Sink, Source};
use oim_fact::NumericTable;
use script_runs::{
    OpenHistoryFault, Unobserved, engine_of_history, run_script_with_journal_observed,
};
use std::alloc::{AllocError, Global};
use std::rt::Files;
use std::sync::Arc;

// The bytes that a call moves: few enough that a script has several batches, and enough that the file is not copied for each line.
const PIECE: usize = 1000;

// The scripts whose journals' marks are shown, and whether each reply waits for its entry.
const MARKED: [(&str, bool); 3] = [("review", false), ("write_skew", false), ("numbers", true)];

/// How a script keeps a journal.
#[derive(Clone, Copy)]
pub(crate) struct Keeping<'a> {
    /// The bytes of the file that it opens.
    pub(crate) found: &'a [u8],
    /// The number, from 1, of the change or sync of that file that fails; 0 for none.
    pub(crate) failing: u64,
    /// Whether each reply waits for its entry.
    pub(crate) every_reply: bool,
}

/// The entries among the lines of a journal, where its marks are as they must be.
pub(crate) fn marked_entries(alloc: Global, lines: &[u8]) -> Result<Option<Vec<u8>>, AllocError> {
    match chain_of(lines) {
        Ok(chain) => {
            drop(chain);
            Ok(Some(entries_of(alloc, lines)?))
        }
        Err(_) => Ok(None),
    }
}

/// The engine of the history that lines are, if they are one.
pub(crate) fn engine_of(
    alloc: Global,
    table: &Arc<NumericTable>,
    lines: &[u8],
) -> Result<Option<Engine>, AllocError> {
    match engine_of_history(alloc, HashKeys::Fixed, lines, table) {
        Ok(engine) => Ok(Some(engine)),
        Err(OpenHistoryFault::Departs(_)) => Ok(None),
        Err(OpenHistoryFault::NoMemory) => Err(AllocError),
    }
}

/// Runs a script from the history that a journal in memory has, and keeps it there.
pub(crate) fn keep_script<R: Source, W: Sink>(
    alloc: Global,
    source: &mut R,
    sink: &mut W,
    table: &Arc<NumericTable>,
    keeping: Keeping<'_>,
) -> Result<Ended, AllocError> {
    let bytes = keeping.found.to_vec(alloc)?;
    let mut file = MemoryFile::new(alloc, bytes.to_vec(alloc)?).failing_at(keeping.failing);
    let Ok(lines) = open(&mut file, bytes) else {
        return Ok(Ended::Stopped(file, ScriptFault::Write));
    };
    let Ok(chain) = chain_of(&lines) else {
        return Ok(Ended::Unopened);
    };
    let Some(engine) = engine_of(alloc, table, &entries_of(alloc, &lines)?)? else {
        return Ok(Ended::Unopened);
    };
    let journal = MarkedJournal::new(file, lines.len(), chain);
    let (run, _) = run_script_with_journal_observed(
        alloc,
        engine,
        journal,
        Unobserved,
        source,
        sink,
        table,
        keeping.every_reply,
    );
    let file = run.journal.into_device();
    match run.ended {
        Ok(()) => Ok(Ended::Kept(file)),
        Err(fault) => Ok(Ended::Stopped(file, fault)),
    }
}

/// The entries of a file, where its marks are as they must be.
fn entries_in(alloc: Global, file: &[u8]) -> Result<Option<Vec<u8>>> {
    let lines = read_lines(file.to_vec(alloc)?)?;
    Ok(marked_entries(alloc, &lines)?)
}

/// Whether a file keeps a first part of a history. All its marks are as they must be.
fn has_part(alloc: Global, file: &[u8], history: &[u8]) -> Result<bool> {
    match entries_in(alloc, file)? {
        Some(entries) => Ok(history.starts_with(&entries)),
        None => Ok(false),
    }
}

/// Whether a file keeps a history, and kept a first part of it before each change.
fn has_history(alloc: Global, file: &MemoryFile, history: &[u8]) -> Result<bool> {
    for past in file.past() {
        if !has_part(alloc, past, history)? {
            return Ok(false);
        }
    }
    match entries_in(alloc, file.bytes())? {
        Some(entries) => Ok(entries.as_slice() == history),
        None => Ok(false),
    }
}

/// Whether a script that keeps a journal gets these replies, and has this history in it. Nothing stops it but being out of memory.
fn is_kept(
    alloc: Global,
    table: &Arc<NumericTable>,
    work: Work<'_>,
    replies: &[u8],
    history: &[u8],
) -> Result<bool> {
    let Done { ended, written } = do_work(alloc, table, work, Trial::sound(PIECE))?;
    match ended {
        Ended::Kept(file) => {
            let has_history = has_history(alloc, &file, history);
            drop(file);
            Ok(has_history? && written.as_slice() == replies)
        }
        other => {
            drop(other);
            Err(AllocError.into())
        }
    }
}

/// The run of a script that keeps a journal from what a file has. No call of that fails.
fn kept_from<'a>(script: &'a [u8], found: &'a [u8], every_reply: bool) -> Work<'a> {
    let keeping = Keeping {
        found,
        failing: 0,
        every_reply,
    };
    Work::Journal(script, keeping)
}

/// Whether a script is kept well, both where each reply waits for its entry and where those of accepted loads and passed commits alone do.
pub(crate) fn is_kept_both_ways(
    alloc: Global,
    table: &Arc<NumericTable>,
    script: &[u8],
    replies: &[u8],
    history: &[u8],
) -> Result<bool> {
    let found = new_file(alloc)?;
    for every_reply in [true, false] {
        let work = kept_from(script, &found, every_reply);
        if !is_kept(alloc, table, work, replies, history)? {
            return Ok(false);
        }
    }
    Ok(true)
}

/// The file of a journal that a script keeps from its beginning.
fn file_of(
    alloc: Global,
    table: &Arc<NumericTable>,
    script: &[u8],
    every_reply: bool,
) -> Result<Vec<u8>> {
    let found = new_file(alloc)?;
    let work = kept_from(script, &found, every_reply);
    let Done { ended, written } = do_work(alloc, table, work, Trial::sound(PIECE))?;
    drop(written);
    match ended {
        Ended::Kept(file) => {
            let bytes = file.bytes().to_vec(alloc);
            drop(file);
            Ok(bytes?)
        }
        other => {
            drop(other);
            Err(anyhow!("the script was not run"))
        }
    }
}

/// Prints the marks of journals that stored scripts keep.
pub(crate) fn show_marks<R: Files + Print + AllocGlobal>(rt: &R) -> Result<()> {
    let alloc = rt.alloc();
    let table = &read_numeric(rt, "numeric")?;
    for (name, every_reply) in MARKED {
        let sheet = stored_script(rt, name)?;
        let file = file_of(alloc, table, sheet.script(), every_reply)?;
        println!(rt; "the marks of {name}, each reply waits: {every_reply}")?;
        for line in file.split(is_end) {
            if line.starts_with(b"{") {
                println!(rt; "{}", String::from_utf8_lossy(alloc, line)?)?;
            }
        }
    }
    Ok(())
}
