//! Why a history departs.

ghost use Rattle.std.specs.Prelude.{◌≡◌, ◌≤◌};

use crate::fault::Fault;
use crate::files::history::open_source;
use crate::files::named::Reasons;
use crate::keys::drawn_keys;
use crate::progress::length_in;
use crate::reasons::damage::explain_damage;
use filing_cli::{FromReader, Machine, Nowhere, READS, entry_of, run};
use filing_core::{Engine, EngineFault, HashKeys};
use filing_step::{Entry, Reply, Step};
use oim_fact::NumericTable;
use oim_report::json_value;
use script_format::{JsonArray, reply_text};
use script_reasons::reading_stop;
use std::alloc::{AllocError, Global};
use std::fs;
use std::io::Read;
use std::mem::forget;
use std::sync::Arc;

/// Follows the lines of a history, and keeps in words why the first that departs does.
#[derive(Drop)]
struct Follower {
    /// What is counted: the lines of a history, or the entries of a journal.
    word: &'static str,
    table: Arc<NumericTable>,
    engine: Engine,
    /// The number of the last line that was followed.
    last: u128,
    reason: Option<String>,
}

/// Whether an entry has the number that its session has, or has none where none is to be.
fn number_fault(
    alloc: Global,
    engine: &Engine,
    entry: &Entry,
) -> Result<Option<String>, AllocError> {
    match (&entry.step, entry.session) {
        (Step::Load(_, _), Some(_)) => {
            let told = String::from_str(
                alloc,
                "a load is of no session, and has null in its place",
            )?;
            Ok(Some(told))
        }
        (Step::Open(_), session) => {
            let due = engine.opened_count().saturating_add(1);
            if session == Some(due) {
                return Ok(None);
            }
            let told = format!(in alloc; "this opening is that of session {due}")?;
            Ok(Some(told))
        }
        _ => Ok(None),
    }
}

/// What is reported where another reply was due.
fn other_reply(
    alloc: Global,
    word: &str,
    number: u128,
    due: &Reply,
    stands: &Reply,
) -> Result<Option<String>, AllocError> {
    let due = reply_text(alloc, due)?;
    let stands = reply_text(alloc, stands)?;
    if due == stands {
        return Ok(None);
    }
    let told = format!(in alloc;
        "{word} {number}: the reply that is due is {due}, and {stands} stands there"
    )?;
    Ok(Some(told))
}

/// Whether a line has a load where its step is to be.
fn is_load(alloc: Global, line: &[u8]) -> Result<bool, AllocError> {
    let Some(value) = json_value(alloc, line)? else {
        return Ok(false);
    };
    match value.get(1) {
        Some(step) => Ok(step.text_at(0) == Some("load")),
        None => Ok(false),
    }
}

impl Follower {
    fn new(
        alloc: Global,
        keys: HashKeys,
        word: &'static str,
        table: &Arc<NumericTable>,
    ) -> Result<Follower, AllocError> {
        Ok(Follower {
            word,
            table: table.clone()?,
            engine: Engine::with_keys(alloc, keys)?,
            last: 0,
            reason: None,
        })
    }

    /// Takes an entry, and tells why it may not follow, if it may not.
    fn take_entry(
        &mut self,
        alloc: Global,
        number: u128,
        entry: Entry,
    ) -> Result<Option<String>, AllocError> {
        let word = self.word;
        if let Some(told) = number_fault(alloc, &self.engine, &entry)? {
            return Ok(Some(format!(in alloc; "{word} {number}: {told}")?));
        }
        let Entry {
            session,
            step,
            reply,
        } = entry;
        match self.engine.step(alloc, session, step) {
            Ok(due) => other_reply(alloc, word, number, &due, &reply),
            Err(EngineFault::NoSession) => {
                let told = format!(in alloc; "{word} {number}: its session is not open")?;
                Ok(Some(told))
            }
            Err(EngineFault::NoMemory | EngineFault::Full) => Err(AllocError),
        }
    }

    /// What is reported of a line that is no entry.
    fn no_entry(&self, alloc: Global, number: u128, line: &[u8]) -> Result<String, AllocError> {
        let word = self.word;
        match reading_stop(alloc, line)? {
            Some((column, said)) => {
                format!(in alloc; "{word} {number}, column {column}: {said}")
            }
            None if is_load(alloc, line)? => format!(in alloc;
                "{word} {number}: its report is refused, or is not as a run writes it: is the numeric table that of the run?"
            ),
            None => format!(in alloc;
                "{word} {number}: it is no entry, which is [session,step,reply] as a run writes it"
            ),
        }
    }

    /// Follows a line, unless one before it departs.
    fn follow(&mut self, alloc: Global, number: u128, line: &[u8]) -> Result<(), AllocError> {
        if self.reason.is_some() {
            return Ok(());
        }
        self.last = number;
        self.reason = match entry_of(alloc, &self.table, &self.engine, line)? {
            Some(entry) => self.take_entry(alloc, number, entry)?,
            None => Some(self.no_entry(alloc, number, line)?),
        };
        Ok(())
    }
}

impl Machine for Follower {
    ghost replies = { λ _ _ _ _. Unit {0} };

    fn answer(&mut self, alloc: Global, number: u128, line: &[u8]) -> Result<String, AllocError> {
        self.follow(alloc, number, line)?;
        Ok(String::new(alloc))
    }
}

/// Why the history that a reader gives departs, in words; none where it does not, or cannot be read.
fn reason_of<R: Read + Drop>(
    alloc: Global,
    keys: HashKeys,
    reader: R,
    word: &'static str,
    table: &Arc<NumericTable>,
) -> Result<Option<String>, AllocError> {
    let mut source = FromReader::new(reader);
    let mut follower = Follower::new(alloc, keys, word, table)?;
    let ended = run(alloc, &mut follower, &mut source, &mut Nowhere, READS);
    let Follower { engine, reason, .. } = follower;
    forget(engine);
    match ended {
        Ok(()) => Ok(reason),
        Err(_) => Ok(None),
    }
}

/// Reads the history at a path once more, and tells on standard error why it departs.
/// Only a regular file is explained: a pipe has given all that it had, and to open it again would wait for another writer.
pub(crate) fn explain_departure(
    rt: &HostRuntime,
    path: &str,
    reasons: Reasons,
    word: &'static str,
    table: &Arc<NumericTable>,
) {
    if length_in(&fs::metadata(rt, path)).is_none() {
        return;
    }
    let Ok(keys) = drawn_keys(rt, reasons) else {
        return;
    };
    let Ok((reader, _)) = open_source(rt, path, &[], reasons) else {
        return;
    };
    if let Ok(Some(reason)) = reason_of(rt.alloc(), keys, reader, word, table) {
        let _ = eprintln!(rt; "{reason}");
    }
}

/// Tells why a history or a journal departs, where this is its fault and reasons are wanted, and gives the fault back.
pub(crate) fn explain_fault(
    rt: &HostRuntime,
    path: &str,
    reasons: Reasons,
    table: &Arc<NumericTable>,
    fault: Fault,
) -> Fault
    ensures { result ≡ fault }
{
    match fault {
        Fault::HistoryLine(_) if reasons.are_told() => {
            explain_departure(rt, path, reasons, "line", table);
        }
        Fault::JournalEntry(_) if reasons.are_told() => {
            explain_departure(rt, path, reasons, "entry", table);
        }
        _ => {}
    }
    fault
}

/// Reads the entries of the journal at a path once more, and tells why they depart.
fn explain_entries(rt: &HostRuntime, path: &str, reasons: Reasons) {
    if let Ok((_, table)) = open_source(rt, path, &[], reasons) {
        explain_departure(rt, path, reasons, "entry", &table);
    }
}

/// Tells why the journal at a path, which has these bytes, is refused, and gives the fault back.
pub(crate) fn explain_refusal(
    rt: &HostRuntime,
    path: &str,
    reasons: Reasons,
    bytes: &[u8],
    fault: Fault,
) -> Fault
    ensures { result ≡ fault }
{
    match fault {
        Fault::JournalEntry(_) if reasons.are_told() => {
            explain_entries(rt, path, reasons);
            fault
        }
        _ => explain_damage(rt, path, bytes, fault),
    }
}
