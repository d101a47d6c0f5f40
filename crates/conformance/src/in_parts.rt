//! The steps of a history, taken by a core. A load or a commit is made ready and dropped, then made ready once more and entered:
//! that leaves the same history.

ghost use Rattle.std.specs.Prelude.{◌≡◌, true};
ghost use Rattle.filing_step.specs.Steps.{step_of};
ghost use Rattle.filing_core.specs.Prepared.{is_load_or_commit};

use crate::devices::{Work, written_in};
use crate::lines::is_end;
use anyhow::{Result, anyhow};
use filing_core::{Core, Reply, Step};
use history_format::{PartialEntry, partial_entry_in};
use oim_fact::NumericTable;
use oim_report::json_value;
use serde_json::Value;
use std::alloc::{AllocError, Global};
use std::sync::Arc;

fn is_load_or_commit(step: &Step) -> bool
    ensures { result ≡ is_load_or_commit (step_of step.now) }
{
    matches!(step, Step::Load(_, _) | Step::Commit)
}

/// The session and the step of a line.
pub(crate) fn session_and_step(
    alloc: Global,
    table: &Arc<NumericTable>,
    line: &[u8],
) -> Result<Option<(Option<u64>, Step)>, AllocError> {
    let value = json_value(alloc, line)?.unwrap_or(Value::Null);
    match partial_entry_in(alloc, value, table)? {
        Some(entry) => {
            let PartialEntry {
                session,
                step,
                reply,
                text,
            } = entry;
            drop(reply);
            drop(text);
            Ok(Some((session, step)))
        }
        None => Ok(None),
    }
}

/// Takes a load or a commit in two parts, or makes it ready and drops it. A version is to be made ready exactly where the reply reports one.
fn take_parts(
    alloc: Global,
    core: &mut Core,
    session: Option<u64>,
    step: Step,
    is_let_go: bool,
) -> Result<()>
    requires { is_load_or_commit (step_of step) ≡ true }
{
    let prepared = core.prepare(alloc, session, step)?;
    if is_let_go {
        drop(prepared);
        return Ok(());
    }
    let made = prepared.next().map(|version| version.number());
    let reply = core.settle(prepared);
    let is_as_told = match &reply {
        Reply::Loaded(number) | Reply::Committed(number) => made == Some(*number),
        _ => made.is_none(),
    };
    drop(reply);
    if is_as_told {
        Ok(())
    } else {
        Err(anyhow!("another version was made ready"))
    }
}

/// Takes the step of a line, or, where it is to be dropped, makes ready what can be.
fn take(
    alloc: Global,
    table: &Arc<NumericTable>,
    core: &mut Core,
    line: &[u8],
    is_let_go: bool,
) -> Result<()> {
    match session_and_step(alloc, table, line)? {
        Some((session, step)) if is_load_or_commit(&step) => {
            take_parts(alloc, core, session, step, is_let_go)
        }
        Some((_, step)) if is_let_go => {
            drop(step);
            Ok(())
        }
        Some((session, step)) => {
            drop(core.step(alloc, session, step)?);
            Ok(())
        }
        None => Ok(()),
    }
}

/// What a step that is not taken leaves as it was, as far as numbers show it.
fn state(core: &Core) -> (usize, u64) {
    (core.history().len(), core.current().number())
}

/// Takes the step of a line, once it was made ready and dropped. Where it is not taken it changes nothing, and is taken again.
fn take_line(alloc: Global, table: &Arc<NumericTable>, core: &mut Core, line: &[u8]) -> Result<()> {
    let before = state(core);
    take(alloc, table, core, line, true)?;
    if state(core) == before && take(alloc, table, core, line, false).is_ok() {
        return Ok(());
    }
    if state(core) != before {
        return Err(anyhow!("changed where nothing was to change"));
    }
    take(alloc, table, core, line, false)
}

/// The history of a new core that takes the steps of lines.
pub(crate) fn history_taken_in_parts(
    alloc: Global,
    table: &Arc<NumericTable>,
    lines: &[u8],
) -> Result<Vec<u8>> {
    let mut core = Core::new(alloc)?;
    let mut taken = Ok(());
    for line in lines.split(is_end) {
        if taken.is_ok() && !line.is_empty() {
            taken = take_line(alloc, table, &mut core, line);
        }
    }
    let history = written_in(alloc, table, Work::History(&core), 65536);
    drop(core);
    taken?;
    history
}
