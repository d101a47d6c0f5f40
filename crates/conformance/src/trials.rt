//! Runs a script, writes its history, judges that, and writes the verdict, over devices of memory that give and take one byte at
//! a time, of which each call fails in turn.

use crate::devices::{Done, Ended, Trial, Work, do_work};
use crate::lines::{ends_in, is_end, read_data};
use anyhow::{Result, anyhow};
use filing_core::{Core, Verdict};
use line_io::ScriptFault;
use oim_fact::NumericTable;
use oim_report::read_table;
use std::alloc::{AllocError, Global};
use std::rt::Files;
use std::sync::Arc;

/// What goes wrong at a call.
#[derive(Clone, Copy)]
enum Wrong {
    ReadFails,
    /// The bound of reads comes at the call: as many are made before, and no more are allowed.
    ReadsEnd,
    WriteFails,
    /// A write takes nothing.
    WriteIdles,
}

/// A script with its replies and its history, and what it leaves.
#[derive(Drop)]
struct Given {
    script: Vec<u8>,
    replies: Vec<u8>,
    history: Vec<u8>,
    table: Arc<NumericTable>,
    core: Core,
}

/// A work with the bytes that it reads, those that it writes, and the replies to lines that are read.
#[derive(Clone, Copy)]
struct Course<'a> {
    work: Work<'a>,
    read: &'a [u8],
    written: &'a [u8],
    replies: &'a [u8],
}

// What goes wrong in which work.
const TRIALS: [(&str, usize, Wrong); 9] = [
    ("a script, each read fails", 0, Wrong::ReadFails),
    ("a script, each number of reads", 0, Wrong::ReadsEnd),
    ("a script, each write fails", 0, Wrong::WriteFails),
    ("a script, each write takes nothing", 0, Wrong::WriteIdles),
    ("a history, each write fails", 1, Wrong::WriteFails),
    ("a history, each write takes nothing", 1, Wrong::WriteIdles),
    (
        "a history that is judged, each read fails",
        2,
        Wrong::ReadFails,
    ),
    ("a verdict, each write fails", 3, Wrong::WriteFails),
    ("a verdict, each write takes nothing", 3, Wrong::WriteIdles),
];

impl Given {
    /// The script is run, its history written, that judged, or the verdict written.
    fn course_at(&self, number: usize) -> Course<'_> {
        let (script, replies, history) = (&self.script, &self.replies, &self.history);
        let (work, read, written, replies): (Work<'_>, &[u8], &[u8], &[u8]) = match number {
            0 => (Work::Script(script), script, replies, replies),
            1 => (Work::History(&self.core), b"", history, b""),
            2 => (Work::Judging(history), history, b"", b""),
            _ => (Work::Verdict(Verdict::Lawful), b"", b"[\"lawful\"]\n", b""),
        };
        Course {
            work,
            read,
            written,
            replies,
        }
    }
}

/// The first lines of a text, at most this many.
fn first_lines(text: &[u8], count: usize) -> &[u8] {
    let mut left = count;
    for (place, byte) in text.iter().enumerate() {
        if left == 0 {
            return text.get(..place).unwrap_or(text);
        }
        if is_end(byte) {
            left = left.saturating_sub(1);
        }
    }
    text
}

/// The trial in which the call of this number, from 0, goes wrong.
fn trial_where(wrong: Wrong, number: usize) -> Trial {
    let mut trial = Trial::sound(1);
    let call = (number as u64).saturating_add(1);
    match wrong {
        Wrong::ReadFails => trial.failing_read = call,
        Wrong::ReadsEnd => trial.reads = number as u64,
        Wrong::WriteFails => trial.failing_write = call,
        Wrong::WriteIdles => trial.idle_write = call,
    }
    trial
}

/// Whether a work ends with a fault or without, and what is written then is this. Being out of memory ends the program.
fn comes_to(
    alloc: Global,
    given: &Given,
    work: Work<'_>,
    trial: Trial,
    (fault, wanted): (Option<ScriptFault>, &[u8]),
) -> Result<bool, AllocError> {
    let Done { ended, written } = do_work(alloc, &given.table, work, trial)?;
    let is_written = written.as_slice() == wanted;
    match ended {
        Ended::Failed(ScriptFault::NoMemory(_)) => Err(AllocError),
        Ended::Failed(other) => Ok(is_written && fault == Some(other)),
        other => {
            drop(other);
            Ok(is_written && fault.is_none())
        }
    }
}

/// The fault of a work whose call of this number, from 0, goes wrong, and what is written then.
fn expected_end<'a>(
    course: Course<'a>,
    wrong: Wrong,
    number: usize,
) -> (Option<ScriptFault>, &'a [u8]) {
    let read = course.read.get(..number).unwrap_or(&[]);
    let told = first_lines(course.replies, ends_in(read));
    match wrong {
        Wrong::ReadFails => (Some(ScriptFault::Read), told),
        Wrong::ReadsEnd => (Some(ScriptFault::Endless), told),
        Wrong::WriteFails | Wrong::WriteIdles => {
            let written = course.written.get(..number).unwrap_or(&[]);
            (Some(ScriptFault::Write), written)
        }
    }
}

/// Has each call of a work go wrong in turn: one for each byte, and for reads the one that finds the end. One that is not made
/// leaves all as it is. How many trials there were, and how many came to something else.
fn try_each(
    alloc: Global,
    given: &Given,
    course: Course<'_>,
    wrong: Wrong,
) -> Result<(usize, u64), AllocError> {
    let calls = match wrong {
        Wrong::ReadFails | Wrong::ReadsEnd => course.read.len().saturating_add(1),
        Wrong::WriteFails | Wrong::WriteIdles => course.written.len(),
    };
    let mut differing = 0u64;
    for number in 0..calls.saturating_add(1) {
        let wanted = if number < calls {
            expected_end(course, wrong, number)
        } else {
            (None, course.written)
        };
        let is_so = comes_to(
            alloc,
            given,
            course.work,
            trial_where(wrong, number),
            wanted,
        )?;
        differing = differing.saturating_add(u64::from(!is_so));
    }
    Ok((calls.saturating_add(1), differing))
}

/// What lies beside the program.
fn read_given<R: Files + AllocGlobal>(rt: &R) -> Result<Given> {
    let table = Arc::new(rt.alloc(), read_table(rt.alloc(), "")?)?;
    let script = read_data(rt, "run", "jsonl")?;
    let replies = read_data(rt, "run", "replies")?;
    let history = read_data(rt, "run", "history")?;
    let Done { ended, written } = do_work(
        rt.alloc(),
        &table,
        Work::Script(&script),
        Trial::sound(1),
    )?;
    drop(written);
    match ended {
        Ended::Left(core) => Ok(Given {
            script,
            replies,
            history,
            table,
            core,
        }),
        other => {
            drop(other);
            Err(anyhow!("the script was not run"))
        }
    }
}

/// Has each call of each work go wrong in turn.
fn try_all<R: Print + AllocGlobal>(rt: &R, given: &Given) -> Result<()> {
    for (title, number, wrong) in TRIALS {
        let (count, differing) = try_each(rt.alloc(), given, given.course_at(number), wrong)?;
        println!(rt; "{title}: {count}, {differing} differ")?;
    }
    Ok(())
}

/// Has each call of each work go wrong in turn.
pub(crate) fn try_devices<R: Files + Print + AllocGlobal>(rt: &R) -> Result<()> {
    let given = read_given(rt)?;
    let tried = try_all(rt, &given);
    drop(given);
    tried
}
