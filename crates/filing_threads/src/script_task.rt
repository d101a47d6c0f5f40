//! `ScriptTask`: a script that is run at a desk, some lines at a time.

ghost use Rattle.std.specs.Prelude.{◌≡◌, List, IfOk, OnOk, string_bytes};
ghost use Rattle.std.specs.Arc.{arc_value};
ghost use Rattle.filing_office.specs.declared.outcome.Outcome.{Outcome as Told};
ghost use Rattle.filing_office.specs.Runs.{IsLearnt};
ghost use Rattle.filing_threads.specs.FoundHistories.{IsScriptRunTo};
ghost use Rattle.filing_threads.specs.UnderWay.{KeptBy, TakesBatch};

use crate::batch::Batch;
use crate::opened::OpenedSessions;
use crate::replies::{Ending, Replies, push_replies};
use filing_office::{Access, DeskTask, Gate, NamedDesk, Naming, Outcome, take_steps};
use oim_fact::NumericTable;
use std::alloc::{AllocError, Global};
use std::sync::Arc;
use std::sync::ledger::Ledger;

/// A script that is to be run at a desk.
#[derive(Drop)]
pub(crate) struct ScriptTask<'a> {
    pub(crate) script: &'a [u8],
    pub(crate) table: &'a Arc<NumericTable>,
    /// Whether a journal is to have the entries of its steps.
    pub(crate) journaled: bool,
}

/// Drops the outcomes of steps, each of which may keep a version, if their receipts are learnt. If not, all are kept.
fn drop_if_learnt<J: Naming>(learnt: Result<(), AllocError>, outcomes: &mut Vec<Outcome<J>>)
    ensures { KeptBy learnt outcomes.old.items outcomes.new.items }
{
    match learnt {
        Ok(()) => outcomes.clear(),
        Err(AllocError) => {}
    }
}

/// Runs a batch, appends its replies, and notes the sessions that it opened. Returns false if a step ran out of memory.
/// The receipts are learnt before the lock is given back:
/// the reviewer then drops a version with pages that other threads asked for,
/// and would hold these up while they have the lock.
fn take_batch<L: Ledger + Naming, M: Ledger, A: Access<L, M>, G: Gate>(
    access: &mut A,
    gate: &G,
    place: usize,
    batch: Batch,
    named_desk: &mut NamedDesk<L, M>,
    outcomes: &mut Vec<Outcome<L>>,
    text: &mut String,
    opened: &mut OpenedSessions,
) -> Result<bool, AllocError>
    requires { IsLearnt named_desk.old outcomes.old.items }
    ensures learnt { OnOk result (IsLearnt named_desk.new outcomes.new.items) }
    ensures taken { IfOk result (TakesBatch batch.told.items batch.steps.items named_desk.old.state named_desk.new.state
        outcomes.old.items outcomes.new.items (string_bytes text.old) (string_bytes text.new)) }
{
    let before = outcomes.len();
    if let Err(error) = outcomes.reserve(batch.steps.len()) {
        drop(batch);
        return Err(error);
    }
    let Batch {
        told,
        steps,
        names,
        ..
    } = batch;
    take_steps(access, gate, place, named_desk, steps, outcomes);
    let learnt = named_desk.learn(outcomes);
    access.leave();
    let whole = push_replies(text, &told, &outcomes[before..]);
    drop(told);
    let whole = whole?;
    opened.note(names, &outcomes[before..])?;
    drop_if_learnt(learnt, outcomes);
    Ok(whole)
}

/// Classifies the lines of a script and takes their steps, some at a time.
///
/// While the steps of other scripts are taken, lines are classified and replies are put together.
fn take_lines<L: Ledger + Naming, M: Ledger, A: Access<L, M>, G: Gate>(
    alloc: Global,
    table: &Arc<NumericTable>,
    journaled: bool,
    script: &[u8],
    access: &mut A,
    gate: &G,
    place: usize,
    named_desk: &mut NamedDesk<L, M>,
) -> Result<Replies, AllocError>
    requires { (told : List (Told L)) → IsLearnt named_desk.old told }
    ensures { IfOk result (IsScriptRunTo L journaled (arc_value table.now) script.now named_desk.old.state
        named_desk.new.state.tally) }
{
    let mut outcomes = Vec::new(alloc);
    let mut text = String::new(alloc);
    let mut opened = OpenedSessions::new(alloc);
    let mut rest = script;
    let mut answered = 0usize;
    let ending = loop {
        let Ok(read) = Batch::read(alloc, rest, table, journaled) else {
            break Ending::LineStarved;
        };
        let Some((batch, others)) = read else {
            break Ending::Whole;
        };
        rest = others;
        answered += batch.told.len();
        let ends_deep = batch.ends_deep;
        if !take_batch(
            access,
            gate,
            place,
            batch,
            named_desk,
            &mut outcomes,
            &mut text,
            &mut opened,
        )? {
            break Ending::StepStarved;
        }
        if ends_deep {
            break Ending::TooDeep(answered + 1);
        }
    };
    Ok(Replies {
        text,
        ending,
        opened,
    })
}

impl<'a, L: Ledger + Naming, M: Ledger> DeskTask<L, M, Result<Replies, AllocError>>
    for ScriptTask<'a> {
    ghost use Rattle.std.specs.Prelude.{IfOk};
    ghost use Rattle.std.specs.Arc.{arc_value};
    ghost use Rattle.filing_threads.specs.FoundHistories.{IsScriptRunTo};

    ghost leaves = { λ task s t replies.
        IfOk replies (IsScriptRunTo L task.journaled (arc_value task.table.now) task.script.now s t.tally) };

    fn run<A: Access<L, M>, G: Gate>(
        self,
        alloc: Global,
        access: &mut A,
        gate: &G,
        place: usize,
        named_desk: &mut NamedDesk<L, M>,
    ) -> Result<Replies, AllocError> {
        take_lines(
            alloc,
            self.table,
            self.journaled,
            self.script,
            access,
            gate,
            place,
            named_desk,
        )
    }
}
