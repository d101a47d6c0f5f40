//! The tasks of an office: each script at a desk with a reviewer, in a thread of its own.

ghost use Rattle.std.specs.Prelude.{◌≡◌, [], ◌∷◌, All, length, map, vec_len, IfOk};
ghost use Rattle.std.specs.Arc.{arc_value};
ghost use Rattle.filing_model.specs.Sessions.Repository.{nothing};
ghost use Rattle.filing_threads.specs.Replaying.{HasSeen, known_by};
ghost use Rattle.filing_threads.specs.Tasks.{AreAtDesks, AreLeft, AreTasks, IsTask};

use crate::replies::Replies;
use crate::script_task::ScriptTask;
use crate::watch::Watch;
use filing_office::{
    Desk, Gate, LockUse, Naming, Office, Receipt, Reviewer, TaskAtDesk, run_tasks,
};
use oim_fact::NumericTable;
use std::alloc::{AllocError, Global};
use std::marker::{Send, Sync};
use std::sync::ledger::Ledger;
use std::sync::{Arc, Wait};
use std::thread::Threads;

/// A gate that lets every step pass, and reports each.
#[derive(Drop)]
struct Open<'a, V: Watch> {
    watch: &'a V,
}

impl<'a, V: Watch> Gate for Open<'a, V> {
    fn before(&self, _desk: usize, _step: usize) {}

    fn after(&self, _desk: usize, _step: usize) {
        self.watch.step_taken();
    }
}

/// What the thread of a script leaves: its desk and reviewer, and the replies to its lines.
type TaskResult<L, M> = (Desk<L, M>, Option<Reviewer<L>>, Result<Replies, AllocError>);

/// The desks, and the replies to each script.
pub(crate) type AllResults<L, M> = (Vec<Desk<L, M>>, Vec<Result<Replies, AllocError>>);

/// Has a reviewer learn the newest receipt, if there is one, and gives it back.
fn teach<L: Naming>(
    reviewer: Reviewer<L>,
    newest: &Option<Receipt<L>>,
) -> Result<Reviewer<L>, AllocError>
    requires { reviewer ≡ nothing ∷ [] }
    ensures { IfOk result (HasSeen (known_by newest.now)) }
{
    let mut reviewer = reviewer;
    let Some(receipt) = newest else {
        return Ok(reviewer);
    };
    let _number = receipt.number();
    reviewer.learn(receipt)?;
    Ok(reviewer)
}

/// Gives each script a desk, and a reviewer that has learnt the newest receipt.
pub(crate) fn tasks_of<'a, L: Ledger + Naming, M: Ledger>(
    alloc: Global,
    desks: Vec<Desk<L, M>>,
    reviewers: Vec<Reviewer<L>>,
    newest: &Option<Receipt<L>>,
    scripts: &'a [Vec<u8>],
    table: &'a Arc<NumericTable>,
    journaled: bool,
) -> Result<Vec<TaskAtDesk<L, M, ScriptTask<'a>>>, AllocError>
    requires desks { vec_len desks ≡ length scripts.now }
    requires reviewers { (vec_len reviewers ≡ length scripts.now) × All (λ r. r ≡ nothing ∷ []) reviewers.items }
    ensures tasks { IfOk result (λ at_desks. AreTasks (IsTask (known_by newest.now) journaled (arc_value table.now))
        scripts.now at_desks.items) }
    ensures at_desks { IfOk result (λ at_desks. AreAtDesks desks.items at_desks.items) }
{
    let mut desks = desks;
    let mut reviewers = reviewers;
    let mut at_desks = Vec::with_capacity(alloc, scripts.len())?;
    for script in scripts {
        let Some(desk) = desks.pop() else {
            unreachable!()
        };
        let Some(reviewer) = reviewers.pop() else {
            unreachable!()
        };
        let reviewer = teach(reviewer, newest)?;
        let task = ScriptTask {
            script: script.as_slice(),
            table,
            journaled,
        };
        at_desks.push(TaskAtDesk {
            desk,
            reviewer: Some(reviewer),
            task,
        })?;
    }
    Ok(at_desks)
}

/// Puts the desks apart from the replies.
fn part_results<L: Ledger + Naming, M: Ledger>(
    alloc: Global,
    all_left: Vec<TaskResult<L, M>>,
) -> Result<AllResults<L, M>, AllocError>
    ensures desks { IfOk result (λ all. all.0.items ≡ map (λ left. left.0) all_left.items) }
    ensures replies { IfOk result (λ all. all.1.items ≡ map (λ left. left.2) all_left.items) }
{
    let mut desks = Vec::with_capacity(alloc, all_left.len())?;
    let mut all_replies = Vec::with_capacity(alloc, all_left.len())?;
    for left in all_left {
        let (desk, _reviewer, replies) = left;
        desks.push(desk)?;
        all_replies.push(replies)?;
    }
    Ok((desks, all_replies))
}

/// Does each task in a thread of its own.
pub(crate) fn run_each<
    L: Ledger + Naming + Send + Sync,
    M: Ledger + Send + Sync,
    R: Threads + Wait + Sync,
    V: Watch,
>(
    rt: &R,
    alloc: Global,
    watch: &V,
    office: &Office<L, M>,
    at_desks: Vec<TaskAtDesk<L, M, ScriptTask<'_>>>,
) -> Result<AllResults<L, M>, AllocError>
    ensures { IfOk result (λ all. AreLeft at_desks.entry.items all.0.items all.1.items) }
{
    let gate = Open { watch };
    match run_tasks(rt, alloc, office, at_desks, LockUse::Batches, &gate) {
        Ok(all_left) => part_results(alloc, all_left),
        Err(_) => Err(AllocError),
    }
}
