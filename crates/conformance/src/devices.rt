//! Works over devices of memory, of which one call may go wrong: scripts are run, histories written and judged, and verdicts written.

use crate::journals::{Keeping, keep_script};
use anyhow::{Result, anyhow};
use filing_core::{Core, Verdict};
use journal::MemoryFile;
use line_io::{MemoryIn, MemoryOut, ScriptFault, Sink, Source};
use oim_fact::NumericTable;
use script_runs::{
    READS, judge_history, run_script, run_script_within, write_history, write_verdict,
};
use std::alloc::{AllocError, Global};
use std::sync::Arc;

// The bytes that a sink holds before it grows.
const ROOM: usize = 65536;

/// A work that reads or writes.
#[derive(Clone, Copy)]
pub(crate) enum Work<'a> {
    /// A script is run.
    Script(&'a [u8]),
    /// A script is run that keeps a journal.
    Journal(&'a [u8], Keeping<'a>),
    /// The history of a core is written.
    History(&'a Core),
    /// That is judged.
    Judging(&'a [u8]),
    /// A verdict is written.
    Verdict(Verdict),
}

/// How many bytes a call of a device moves at most, the bound of reads, and the numbers, from 1, of the calls that go wrong; 0 for none.
#[derive(Clone, Copy)]
pub(crate) struct Trial {
    pub(crate) piece: usize,
    pub(crate) reads: u64,
    pub(crate) failing_read: u64,
    pub(crate) failing_write: u64,
    pub(crate) idle_write: u64,
}

impl Trial {
    /// No call goes wrong, and so many bytes are moved at once.
    pub(crate) fn sound(piece: usize) -> Trial {
        Trial {
            piece,
            reads: READS,
            failing_read: 0,
            failing_write: 0,
            idle_write: 0,
        }
    }
}

/// How a work ended.
#[derive(Drop)]
pub(crate) enum Ended {
    /// A script left a core.
    Left(Core),
    /// A script left all that it made in a journal.
    Kept(MemoryFile),
    /// The run of one that keeps a journal, or its opening, ended with a fault.
    Stopped(MemoryFile, ScriptFault),
    /// The lines of a journal are no history.
    Unopened,
    /// A history was judged.
    Judged(Verdict),
    /// A history was written, or a verdict, with this status.
    Written(u8),
    Failed(ScriptFault),
}

/// How a work ended, and what is written.
pub(crate) struct Done {
    pub(crate) ended: Ended,
    pub(crate) written: Vec<u8>,
}

/// How a work ended, with what is written where that could be kept.
fn ended_with(ended: Ended, written: Result<Vec<u8>, AllocError>) -> Result<Done, AllocError> {
    match written {
        Ok(written) => Ok(Done { ended, written }),
        Err(error) => {
            drop(ended);
            Err(error)
        }
    }
}

/// Runs a script with at most so many reads.
fn run_with_reads<R: Source, W: Sink>(
    alloc: Global,
    source: &mut R,
    sink: &mut W,
    table: &Arc<NumericTable>,
    reads: u64,
) -> Result<Core, ScriptFault> {
    if reads == READS {
        run_script(alloc, source, sink, table)
    } else {
        run_script_within(alloc, source, sink, table, reads)
    }
}

/// Does a work, of which one call may go wrong.
pub(crate) fn do_work(
    alloc: Global,
    table: &Arc<NumericTable>,
    work: Work<'_>,
    trial: Trial,
) -> Result<Done, AllocError> {
    let piece = trial.piece.max(1);
    let read = match work {
        Work::Script(bytes) | Work::Journal(bytes, _) | Work::Judging(bytes) => bytes,
        Work::History(_) | Work::Verdict(_) => b"",
    };
    let mut sink = MemoryOut::new(alloc, ROOM, piece)?
        .failing_at(trial.failing_write)
        .idle_at(trial.idle_write);
    let mut source = MemoryIn::new(read, piece).failing_at(trial.failing_read);
    let ended = match work {
        Work::Script(_) => {
            match run_with_reads(alloc, &mut source, &mut sink, table, trial.reads) {
                Ok(core) => Ended::Left(core),
                Err(fault) => Ended::Failed(fault),
            }
        }
        Work::Journal(_, keeping) => keep_script(alloc, &mut source, &mut sink, table, keeping)?,
        Work::History(core) => match write_history(alloc, &mut sink, core.history()) {
            Ok(()) => Ended::Written(0),
            Err(fault) => Ended::Failed(fault),
        },
        Work::Judging(_) => match judge_history(alloc, &mut source, table) {
            Ok(verdict) => Ended::Judged(verdict),
            Err(fault) => Ended::Failed(fault),
        },
        Work::Verdict(verdict) => match write_verdict(alloc, &mut sink, &verdict) {
            Ok(status) => Ended::Written(status),
            Err(fault) => Ended::Failed(fault),
        },
    };
    drop(source);
    let written = Vec::from_slice(alloc, sink.contents());
    drop(sink);
    ended_with(ended, written)
}

/// What is written where a work ends so: the lines of a history, or the line of a verdict with the status after it, or the replies to a script.
pub(crate) fn written_in(
    alloc: Global,
    table: &Arc<NumericTable>,
    work: Work<'_>,
    piece: usize,
) -> Result<Vec<u8>> {
    let Done { ended, written } = do_work(alloc, table, work, Trial::sound(piece))?;
    match ended {
        Ended::Failed(fault) => Err(fault.into()),
        other => {
            drop(other);
            Ok(written)
        }
    }
}

/// The verdict on the lines of a history, of which so many bytes are read at once.
pub(crate) fn verdict_on(
    alloc: Global,
    table: &Arc<NumericTable>,
    lines: &[u8],
    piece: usize,
) -> Result<Verdict> {
    let Done { ended, written } = do_work(alloc, table, Work::Judging(lines), Trial::sound(piece))?;
    drop(written);
    match ended {
        Ended::Judged(verdict) => Ok(verdict),
        Ended::Failed(fault) => Err(fault.into()),
        other => {
            drop(other);
            Err(anyhow!("a history was not judged"))
        }
    }
}

/// Appends the line of a verdict, with the status after it.
pub(crate) fn push_verdict(
    alloc: Global,
    table: &Arc<NumericTable>,
    verdict: Verdict,
    told: &mut Vec<u8>,
) -> Result<()> {
    let Done { ended, written } = do_work(alloc, table, Work::Verdict(verdict), Trial::sound(7))?;
    match ended {
        Ended::Written(status) => {
            told.extend_from_slice(written.strip_suffix(b"\n").unwrap_or(&written))?;
            let status = format!(in alloc; " {status}\n")?;
            Ok(told.extend_from_slice(status.as_bytes())?)
        }
        Ended::Failed(fault) => Err(fault.into()),
        other => {
            drop(other);
            Err(anyhow!("a verdict was not written"))
        }
    }
}
