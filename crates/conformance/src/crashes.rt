//! Opens what a crash may leave of the journal of a worked script, at each call of its file.
//!
//! The script is stopped at each change and each sync. At a change the file is as it was, or has all of the change. At a sync it
//! may be torn since the sync before, as a device may tear it: that is each file which a crash at those changes may leave too. Each opens to a
//! prefix of the history that has all that was answered, under marks that are as they must be, and so does what a crash leaves while it is opened.

use crate::devices::{Done, Ended, Trial, Work, do_work};
use crate::journals::{Keeping, engine_of, marked_entries};
use crate::lines::{ends_in, is_end, read_data, read_numeric};
use crate::scripts::stored_script;
use anyhow::{Result, anyhow};
use embedding::marked_journal::new_file;
use journal::{MemoryFile, OpenFault, open, read_lines};
use journal_marks::entries_of;
use line_io::ScriptFault;
use oim_fact::NumericTable;
use std::alloc::{AllocError, Global};
use std::cmp::Ordering;
use std::mem;
use std::rt::Files;
use std::sync::Arc;

// The scripts that are stopped, and the one that goes on after what is left of them. It has an entry for each line.
const STOPPED: [&str; 2] = ["write_skew", "review"];

const GOING_ON: &str = "run";

// Which replies wait for their entries.
const WAITING: [(&str, bool); 2] = [("each reply", true), ("what was accepted", false)];

// What may stand in the part of a write that is not on the disk, again and again: nothing, zeroes, lines of others.
const UNWRITTEN: [&[u8]; 3] = [b"", b"\0", b"[1,[\"close\"],[\"closed\"]]\n[x\n\n"];

// One byte is moved at once, so that each line is a batch where its reply waits.
const PIECE: usize = 1;

// No script makes so many calls.
const CALLS: u64 = 1000;

/// A script that keeps a journal, the file that it opens, its replies and its history, and a script that goes on after it.
#[derive(Clone, Copy)]
struct Course<'a> {
    table: &'a Arc<NumericTable>,
    found: &'a [u8],
    script: &'a [u8],
    replies: &'a [u8],
    history: &'a [u8],
    going_on: &'a [u8],
    every_reply: bool,
}

/// The replies to a script that was stopped at a call of its file, and what is there then.
#[derive(Drop)]
struct Stop {
    told: Vec<u8>,
    bytes: Vec<u8>,
    changes: usize,
    /// Whether it was not stopped, since it makes no such call.
    is_whole: bool,
}

/// A file that was opened, its lines, and the entries among them.
#[derive(Drop)]
struct Opened {
    file: MemoryFile,
    lines: Vec<u8>,
    entries: Vec<u8>,
}

/// How many stops and files were looked at, from how many a script went on, and how many were not as they are to be.
#[derive(Clone, Copy)]
struct Tally {
    stops: u64,
    files: u64,
    gone_on: u64,
    differing: u64,
}

impl Tally {
    const NOTHING: Tally = Tally {
        stops: 0,
        files: 0,
        gone_on: 0,
        differing: 0,
    };

    /// Tells what was seen of a script.
    fn tell<R: Print>(self, rt: &R, name: &str, waiting: &str) -> Result<()> {
        let (stops, files) = (self.stops, self.files);
        let (gone_on, differing) = (self.gone_on, self.differing);
        println!(rt;
            "crashes of {name}, {waiting} waits: {stops} stops, {files} files, {gone_on} gone on from, {differing} differ"
        )?;
        Ok(())
    }

    /// Counts what is not as it is to be.
    fn count_unless(&mut self, is_so: bool) {
        self.differing = self.differing.saturating_add(u64::from(!is_so));
    }
}

/// The crashes of a script that keeps a journal.
#[derive(Drop)]
struct Crashes<'a> {
    alloc: Global,
    course: Course<'a>,
    /// What was in the file at the last sync.
    sure: Vec<u8>,
    /// The number of entries that have to be there.
    least: usize,
    /// The lines from which the script went on last.
    gone_on: Option<Vec<u8>>,
    tally: Tally,
}

/// The replies to a script that has come to an end, and what it left.
fn end_of_run(
    alloc: Global,
    file: MemoryFile,
    told: Vec<u8>,
    is_whole: bool,
) -> Result<Stop, AllocError> {
    let changes = file.past().len();
    let bytes = file.bytes().to_vec(alloc);
    drop(file);
    Ok(Stop {
        told,
        bytes: bytes?,
        changes,
        is_whole,
    })
}

/// Runs a script until the call of its file that has this number, from 1.
fn stopped_at(alloc: Global, course: Course<'_>, call: u64) -> Result<Stop> {
    let keeping = Keeping {
        found: course.found,
        failing: call,
        every_reply: course.every_reply,
    };
    let work = Work::Journal(course.script, keeping);
    let Done { ended, written } = do_work(alloc, course.table, work, Trial::sound(PIECE))?;
    match ended {
        Ended::Kept(file) => Ok(end_of_run(alloc, file, written, true)?),
        Ended::Stopped(file, ScriptFault::Write) => Ok(end_of_run(alloc, file, written, false)?),
        other => {
            drop(other);
            Err(anyhow!("the script was not run"))
        }
    }
}

/// What stands after the first line, where that is an entry with this reply.
fn behind_entry<'a>(lines: &'a [u8], reply: &[u8]) -> Option<&'a [u8]> {
    let end = lines.iter().position(|byte| *byte == b'\n')?;
    let entry = lines.get(..end)?.strip_suffix(b"]")?;
    if reply.is_empty() || !entry.ends_with(reply) {
        return None;
    }
    lines.get(end..)?.get(1..)
}

/// How many first entries have to be in a journal that has given these replies.
fn entries_due(history: &[u8], told: &[u8], every_reply: bool) -> usize {
    let mut rest = history;
    let mut met = 0usize;
    let mut due = 0usize;
    for reply in told.split(is_end) {
        if let Some(others) = behind_entry(rest, reply) {
            rest = others;
            met = met.saturating_add(1);
            let is_load = reply.starts_with(b"[\"loaded\"");
            if every_reply || is_load || reply.starts_with(b"[\"committed\"") {
                due = met;
            }
        }
    }
    due
}

/// Whether a file is at rest with these lines.
fn is_at_rest(file: &[u8], lines: &[u8]) -> bool {
    match file.strip_suffix(b"\n") {
        Some(rest) => rest == lines,
        None => false,
    }
}

/// A file with others in place of the bytes between two places, again and again; where there are none, it ends there.
fn overwritten(
    alloc: Global,
    file: &[u8],
    (from, to): (usize, usize),
    others: &[u8],
) -> Result<Vec<u8>, AllocError> {
    let mut torn = Vec::from_slice(alloc, file.get(..from).unwrap_or(file))?;
    for place in from..to {
        let turn = place.checked_rem(others.len()).unwrap_or(0);
        if let Some(byte) = others.get(turn) {
            torn.push(*byte)?;
        }
    }
    torn.extend_from_slice(file.get(to..).unwrap_or(&[]))?;
    Ok(torn)
}

/// What was opened, where its marks are as they must be.
fn with_marks(
    alloc: Global,
    file: MemoryFile,
    lines: Vec<u8>,
) -> Result<Option<Opened>, AllocError> {
    match marked_entries(alloc, &lines)? {
        Some(entries) => Ok(Some(Opened {
            file,
            lines,
            entries,
        })),
        None => Ok(None),
    }
}

/// Opens a file of these bytes. None where it is refused, or its marks are not as they must be.
fn reopen(alloc: Global, bytes: &[u8]) -> Result<Option<Opened>, AllocError> {
    let mut file = MemoryFile::new(alloc, bytes.to_vec(alloc)?);
    match open(&mut file, bytes.to_vec(alloc)?) {
        Ok(lines) => with_marks(alloc, file, lines),
        Err(fault) => {
            drop(file);
            match fault {
                OpenFault::Damaged => Ok(None),
                OpenFault::Failed => Err(AllocError),
            }
        }
    }
}

/// Whether a file has these lines and then, for each reply to the script that went on, its entry, and all its entries are a history.
/// All its marks are as they must be.
fn has_gone_on(
    alloc: Global,
    course: Course<'_>,
    file: &[u8],
    lines: &[u8],
    replies: &[u8],
) -> Result<bool> {
    let all = read_lines(file.to_vec(alloc)?)?;
    let Some(entries) = marked_entries(alloc, &all)? else {
        return Ok(false);
    };
    let added = entries_of(alloc, all.get(lines.len()..).unwrap_or(&[]))?;
    let count = ends_in(course.going_on);
    let has_all = is_at_rest(file, &all)
        && all.starts_with(lines)
        && ends_in(&added) == count
        && entries_due(&added, replies, true) == count;
    let engine = engine_of(alloc, course.table, &entries)?;
    let is_history = engine.is_some();
    drop(engine);
    Ok(has_all && is_history)
}

/// Goes on from a file that a crash may leave, and from the engine of the lines that it opens to.
fn goes_on(alloc: Global, course: Course<'_>, found: &[u8], lines: &[u8]) -> Result<bool> {
    let keeping = Keeping {
        found,
        failing: 0,
        every_reply: course.every_reply,
    };
    let work = Work::Journal(course.going_on, keeping);
    let Done { ended, written } = do_work(alloc, course.table, work, Trial::sound(PIECE))?;
    match ended {
        Ended::Kept(file) => {
            let has_gone_on = has_gone_on(alloc, course, file.bytes(), lines, &written);
            drop(file);
            has_gone_on
        }
        other => {
            drop(other);
            Ok(false)
        }
    }
}

impl Crashes<'_> {
    /// Whether a script goes on from a file that opens to these lines. What an opening leaves depends on the lines alone, so that
    /// is tried once for the same.
    fn goes_on(&mut self, found: &[u8], lines: &[u8]) -> Result<bool> {
        if let Some(last) = &self.gone_on {
            if last.as_slice() == lines {
                return Ok(true);
            }
        }
        let is_so = goes_on(self.alloc, self.course, found, lines)?;
        self.tally.gone_on = self.tally.gone_on.saturating_add(1);
        self.gone_on = if is_so {
            Some(lines.to_vec(self.alloc)?)
        } else {
            None
        };
        Ok(is_so)
    }

    /// Whether a file was opened as it is to be.
    fn is_sound(&mut self, bytes: &[u8], opened: &Opened) -> Result<bool> {
        let (lines, entries) = (opened.lines.as_slice(), opened.entries.as_slice());
        let has_due = self.course.history.starts_with(entries) && ends_in(entries) >= self.least;
        let is_at_rest = is_at_rest(opened.file.bytes(), lines);
        Ok(has_due && is_at_rest && self.goes_on(bytes, lines)?)
    }

    /// Opens a file that a crash may leave.
    fn look(&mut self, bytes: &[u8]) -> Result<()> {
        self.tally.files = self.tally.files.saturating_add(1);
        let is_so = match reopen(self.alloc, bytes)? {
            Some(opened) => {
                let is_sound = self.is_sound(bytes, &opened);
                drop(opened);
                is_sound?
            }
            None => false,
        };
        self.tally.count_unless(is_so);
        Ok(())
    }

    /// A write of one byte after a place, and others behind it: nothing is there, or the byte or a zero,
    /// a part of the rest, or of its end, and anything in the place of the other part.
    fn tear_write(&mut self, start: usize, written: &[u8]) -> Result<()> {
        self.look(written.get(..start).unwrap_or(written))?;
        for place in start.saturating_add(1)..written.len().saturating_add(1) {
            for others in UNWRITTEN {
                let torn = overwritten(self.alloc, written, (place, written.len()), others)?;
                self.look(&torn)?;
                let blank = (start, start.saturating_add(1));
                self.look(&overwritten(self.alloc, &torn, blank, b"\0")?)?;
            }
            let torn = overwritten(self.alloc, written, (start, place), b"\0")?;
            self.look(&torn)?;
        }
        Ok(())
    }

    /// A write of one byte: it was made or not.
    fn tear_byte(&mut self, old: &[u8], new: &[u8]) -> Result<()> {
        self.look(old)?;
        self.look(new)
    }

    /// A cut to a length: the file has some length between.
    fn tear_cut(&mut self, len: usize, cut: &[u8]) -> Result<()> {
        for len in len..cut.len().saturating_add(1) {
            self.look(cut.get(..len).unwrap_or(cut))?;
        }
        Ok(())
    }

    /// The ways from one content of a file to the next at which a crash may leave it.
    fn tear(&mut self, old: &[u8], new: &[u8]) -> Result<()> {
        match new.len().cmp(&old.len()) {
            Ordering::Greater => self.tear_write(old.len(), new),
            Ordering::Less => self.tear_cut(new.len(), old),
            Ordering::Equal => self.tear_byte(old, new),
        }
    }

    /// Has the opening of a file crash too.
    fn crash_opening(&mut self, bytes: &[u8]) -> Result<()> {
        let Some(
            Opened {
                file,
                lines,
                entries,
            },
        ) = reopen(self.alloc, bytes)?
        else {
            return Ok(());
        };
        drop(lines);
        drop(entries);
        let mut old = bytes;
        for past in file.past() {
            self.tear(old, past.as_slice())?;
            old = past.as_slice();
        }
        self.tear(old, file.bytes())
    }

    /// Looks at what a crash may leave at a stop. The next one tells whether the call that failed was a change.
    fn crash_at(&mut self, stop: &Stop, next: &Stop) -> Result<()> {
        let course = self.course;
        self.tally.stops = self.tally.stops.saturating_add(1);
        self.tally
            .count_unless(course.replies.starts_with(&stop.told));
        let due = entries_due(course.history, &stop.told, course.every_reply);
        self.least = self.least.max(due);
        if stop.changes < next.changes {
            self.look(&stop.bytes)?;
            return self.look(&next.bytes);
        }
        let sure = mem::replace(&mut self.sure, stop.bytes.to_vec(self.alloc)?);
        let lines = read_lines(sure.to_vec(self.alloc)?)?;
        let entries = entries_of(self.alloc, &lines)?;
        self.least = self.least.max(ends_in(&entries));
        self.tear(&sure, &stop.bytes)?;
        self.crash_opening(&stop.bytes)
    }

    /// Looks at what is left where nothing stops the script.
    fn look_at_end(&mut self, stop: &Stop) -> Result<()> {
        self.least = ends_in(self.course.history);
        self.tally.count_unless(stop.is_whole && stop.told.as_slice() == self.course.replies);
        self.look(&stop.bytes)
    }
}

/// Stops a script at each call of its file in turn, and looks at what a crash may leave there.
fn try_each(alloc: Global, course: Course<'_>) -> Result<Tally> {
    let mut crashes = Crashes {
        alloc,
        course,
        sure: course.found.to_vec(alloc)?,
        least: 0,
        gone_on: None,
        tally: Tally::NOTHING,
    };
    let mut stop = stopped_at(alloc, course, 1)?;
    for call in 2..CALLS {
        if !stop.is_whole {
            let next = stopped_at(alloc, course, call)?;
            crashes.crash_at(&stop, &next)?;
            stop = next;
        }
    }
    crashes.look_at_end(&stop)?;
    Ok(crashes.tally)
}

/// Tries the crashes of each script, both ways, and tells how many files were looked at.
pub(crate) fn try_crashes<R: Files + Print + AllocGlobal>(rt: &R) -> Result<()> {
    let table = &read_numeric(rt, "numeric")?;
    let found = new_file(rt.alloc())?;
    let going_on = read_data(rt, GOING_ON, "jsonl")?;
    for name in STOPPED {
        let sheet = stored_script(rt, name)?;
        for (waiting, every_reply) in WAITING {
            let course = Course {
                table,
                found: &found,
                script: sheet.script(),
                replies: &sheet.replies,
                history: &sheet.history,
                going_on: &going_on,
                every_reply,
            };
            let tally = try_each(rt.alloc(), course)?;
            tally.tell(rt, name, waiting)?;
        }
    }
    Ok(())
}
