//! How far long work is, printed on standard error where that is a terminal: after two seconds, and then each ten. Replies never see it.

ghost use Rattle.std.specs.Prelude.{◌≡◌};

use filing_cli::Watch;
use std::fs;
use std::fs::Metadata;
use std::io::{IsTerminal, Read, Result, Write};
use std::mem::forget;
use std::sync::atomic::{AtomicU64, Ordering};
use std::time::Instant;

// Seconds before the first line.
const FIRST: u64 = 2;

// Seconds at least between two lines.
const BETWEEN: u64 = 10;

// Bytes of a line that takes long to be answered.
const LONG: u64 = 16 << 20;

/// The share of what is done in all of it, in %.
fn percent_of(done: u64, whole: u64) -> u128 {
    if whole == 0 {
        return 100;
    }
    let hundredths = u128::from(done) * 100 / u128::from(whole);
    hundredths.min(100)
}

/// How many bytes there are to read, where it is a file.
pub(crate) fn length_in(found: &Result<Metadata>) -> Option<u64> {
    match found {
        Ok(found) if found.is_file() => Some(found.len()),
        _ => None,
    }
}

/// How many bytes standard input has, where it is a file.
pub(crate) fn input_length(rt: &HostRuntime) -> Option<u64> {
    length_in(&fs::metadata(rt, "/dev/stdin"))
}

/// When the next line is due.
#[derive(Drop)]
pub(crate) struct Progress {
    rt: HostRuntime,
    /// None where nobody waits at a terminal, or no clock can be read.
    started: Option<Instant>,
    due: AtomicU64,
}

impl Progress {
    /// That of work which begins now.
    pub(crate) fn new(rt: &HostRuntime) -> Progress {
        let started = if rt.stderr().is_terminal() {
            Instant::now(rt).ok()
        } else {
            None
        };
        Progress {
            rt: *rt,
            started,
            due: AtomicU64::new(FIRST),
        }
    }

    /// The seconds since the beginning, where a line is due. Of threads that ask at once one is answered.
    fn claim_due_line(&self) -> Option<u64> {
        let passed = self.started?.elapsed(&self.rt).ok()?.as_secs();
        let due = self.due.load(Ordering::Relaxed);
        if passed < due {
            return None;
        }
        let next = passed.saturating_add(BETWEEN);
        let set = self
            .due
            .compare_exchange(due, next, Ordering::Relaxed, Ordering::Relaxed);
        if set.is_ok() { Some(passed) } else { None }
    }

    /// Tells how much is done, and which share, where all of it is known, once a line is due. A line that cannot be written is passed over.
    pub(crate) fn tell(&self, done: u64, whole: Option<u64>, what: &str) {
        let Some(seconds) = self.claim_due_line() else {
            return;
        };
        let _ = match whole {
            Some(whole) => {
                let share = percent_of(done, whole);
                eprintln!(&self.rt; "filing: {done} {what}, {share} %, {seconds} s")
            }
            None => eprintln!(&self.rt; "filing: {done} {what}, {seconds} s"),
        };
    }

    /// Tells that a long line begins to be answered, where somebody waits.
    fn tell_line(&self, bytes: u64) {
        if self.started.is_some() {
            let _ = eprintln!(&self.rt; "filing: a line of {bytes} bytes is being answered");
        }
    }
}

/// A reader that tells how many bytes it gave.
#[derive(Drop)]
pub(crate) struct Watched<R: Read + Drop> {
    reader: R,
    /// How many bytes there are, where that is known.
    whole: Option<u64>,
    given: u64,
    /// How many of them are of the line that has not ended.
    in_line: u64,
    progress: Progress,
}

impl<R: Read + Drop> Watched<R> {
    pub(crate) fn new(rt: &HostRuntime, reader: R, whole: Option<u64>) -> Watched<R> {
        Watched {
            reader,
            whole,
            given: 0,
            in_line: 0,
            progress: Progress::new(rt),
        }
    }

    /// Counts bytes that were given, and reports a long line that they end.
    fn count(&mut self, bytes: &[u8])
        ensures { self.new.reader ≡ self.old.reader }
    {
        self.given = self.given.saturating_add(bytes.len() as u64);
        if !bytes.contains(&b'\n') {
            self.in_line = self.in_line.saturating_add(bytes.len() as u64);
            return;
        }
        if self.in_line >= LONG {
            self.progress.tell_line(self.in_line);
        }
        self.in_line = 0;
    }
}

impl<R: Read + Drop> Read for Watched<R> {
    ghost remaining = { λ w. R.remaining w.reader };

    fn read(&mut self, buf: &mut [u8]) -> Result<usize> {
        let count = self.reader.read(buf)?;
        if let Some(given) = buf.get(..count) {
            self.count(given);
        }
        self.progress.tell(self.given, self.whole, "bytes read");
        Ok(count)
    }
}

/// A writer that tells how many bytes it took.
#[derive(Drop)]
pub(crate) struct WatchedWriter<W: Write + Drop> {
    writer: W,
    taken: u64,
    progress: Progress,
}

impl<W: Write + Drop> WatchedWriter<W> {
    pub(crate) fn new(rt: &HostRuntime, writer: W) -> WatchedWriter<W> {
        WatchedWriter {
            writer,
            taken: 0,
            progress: Progress::new(rt),
        }
    }

    pub(crate) fn into_inner(self) -> W {
        self.writer
    }
}

impl<W: Write + Drop> Write for WatchedWriter<W> {
    ghost contents = { λ w. W.contents w.writer };

    fn write(&mut self, buf: &[u8]) -> Result<usize> {
        let count = self.writer.write(buf)?;
        self.taken = self.taken.saturating_add(count as u64);
        self.progress
            .tell(self.taken, None, "bytes of the history written");
        Ok(count)
    }

    fn flush(&mut self) -> Result<()> {
        self.writer.flush()
    }
}

/// The steps that desks have taken.
#[derive(Drop)]
pub(crate) struct Steps {
    taken: AtomicU64,
    progress: Progress,
}

impl Steps {
    pub(crate) fn new(rt: &HostRuntime) -> Steps {
        Steps {
            taken: AtomicU64::new(0),
            progress: Progress::new(rt),
        }
    }
}

impl Watch for Steps {
    fn step_taken(&self) {
        let before = self.taken.fetch_add(1, Ordering::Relaxed);
        self.progress
            .tell(before.saturating_add(1), None, "steps taken");
    }

    // The process ends soon. To give the core back fact by fact takes long; the system takes all of it at once.
    fn free_core<T: Drop>(&self, remains: T) {
        forget(remains);
    }
}
