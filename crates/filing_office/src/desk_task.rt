//! `DeskTask`: what a desk does in a thread of its own. `run_tasks`: a thread for each.

ghost use Rattle.std.specs.Prelude.{◌≡◌, List, map, IfOk};
ghost use denote.Param.Send.{IsSync};
ghost use Rattle.filing_office.specs.declared.outcome.Outcome.{Outcome as Told};
ghost use Rattle.filing_office.specs.Runs.{RunState, IsLearnt};
ghost use Rattle.filing_office.specs.Rans.{IsResultOf, EachResult};

use crate::access::{Access, EachStep, LockUse, LockedBatch};
use crate::desk::Desk;
use crate::fault::RunFault;
use crate::named_desk::NamedDesk;
use crate::office::Office;
use crate::work::Gate;
use filing_publish::{Naming, Reviewer};
use std::alloc::{AllocError, Global};
use std::marker::{Send, Sync};
use std::sync::Wait;
use std::sync::ledger::Ledger;
use std::thread;
use std::thread::Threads;

/// What a desk does in a thread of its own, from its first step to its last.
pub trait DeskTask<L: Ledger + Naming, M: Ledger, T> {
    /// The task, the state of the desk before and after it, and what it leaves.
    ghost leaves: { Self → RunState → RunState → T → Type 0 };

    /// Does it at a desk that has taken no step yet. `place` is that of the desk among the others, from 0, and the gate is called around each step.
    fn run<A: Access<L, M>, G: Gate>(
        self,
        alloc: Global,
        access: &mut A,
        gate: &G,
        place: usize,
        named_desk: &mut NamedDesk<L, M>,
    ) -> T
        requires { (told : List (Told L)) → IsLearnt named_desk.old told }
        ensures { leaves self named_desk.old.state named_desk.new.state result };
}

/// A desk with its reviewer, where it has one, and its task.
#[derive(Drop)]
pub struct TaskAtDesk<L: Ledger + Naming, M: Ledger, E: Drop> {
    pub desk: Desk<L, M>,
    pub reviewer: Option<Reviewer<L>>,
    pub task: E,
}

/// What comes back of a task at a desk: desk and reviewer, and what the task left.
pub type TaskResult<L, M, T> = (Desk<L, M>, Option<Reviewer<L>>, T);

/// A task at a desk, with its place.
#[derive(Drop)]
struct Placed<L: Ledger + Naming, M: Ledger, E: Drop> {
    place: usize,
    at_desk: TaskAtDesk<L, M, E>,
}

/// The tasks with their places.
fn with_places<L: Ledger + Naming, M: Ledger, E: Drop>(
    alloc: Global,
    at_desks: Vec<TaskAtDesk<L, M, E>>,
) -> Result<Vec<Placed<L, M, E>>, AllocError>
    ensures { IfOk result (λ all. map (λ p. p.at_desk) all.items ≡ at_desks.items) }
{
    let mut all = Vec::with_capacity(alloc, at_desks.len())?;
    for (place, at_desk) in at_desks.into_iter().enumerate() {
        all.push(Placed { place, at_desk })?;
    }
    Ok(all)
}

/// Does a task, with the lock taken so.
fn run_with<L: Ledger + Naming, M: Ledger, T, E: DeskTask<L, M, T> + Drop, G: Gate, R: Wait>(
    rt: &R,
    alloc: Global,
    office: &Office<L, M>,
    lock_use: LockUse,
    gate: &G,
    place: usize,
    task: E,
    named_desk: &mut NamedDesk<L, M>,
) -> T
    requires { (told : List (Told L)) → IsLearnt named_desk.old told }
    ensures { E.leaves task named_desk.old.state named_desk.new.state result }
{
    match lock_use {
        LockUse::EachStep => {
            let mut access = EachStep { rt, alloc, office };
            task.run(alloc, &mut access, gate, place, named_desk)
        }
        LockUse::Batches => {
            let mut locked_batch = LockedBatch::new(rt, alloc, office);
            let left = task.run(alloc, &mut locked_batch, gate, place, named_desk);
            locked_batch.end();
            left
        }
    }
}

/// Does one task at its desk.
fn run_task<L: Ledger + Naming, M: Ledger, T, E: DeskTask<L, M, T> + Drop, G: Gate, R: Wait>(
    rt: &R,
    alloc: Global,
    office: &Office<L, M>,
    lock_use: LockUse,
    gate: &G,
    placed: Placed<L, M, E>,
) -> TaskResult<L, M, T>
    ensures { IsResultOf E.leaves placed.at_desk result }
{
    let Placed { place, at_desk } = placed;
    let TaskAtDesk {
        desk,
        reviewer,
        task,
    } = at_desk;
    let mut named_desk = NamedDesk::new(alloc, desk, reviewer);
    let left = run_with(
        rt,
        alloc,
        office,
        lock_use,
        gate,
        place,
        task,
        &mut named_desk,
    );
    let (desk, reviewer) = named_desk.into_parts();
    (desk, reviewer, left)
}

/// Has each desk do its task in a thread of its own, and gives back what is left in their places.
/// Where no more threads can be made, tasks are done one after the other.
/// Where memory for a thread is refused, the desks are gone: end the office by `Office::give_up`.
pub fn run_tasks<
    L: Ledger + Naming + Send + Sync,
    M: Ledger + Send + Sync,
    T: Drop + Send,
    E: DeskTask<L, M, T> + Drop + Send,
    G: Gate + Sync,
    R: Threads + Wait + Sync,
>(
    rt: &R,
    alloc: Global,
    office: &Office<L, M>,
    at_desks: Vec<TaskAtDesk<L, M, E>>,
    lock_use: LockUse,
    gate: &G,
) -> Result<Vec<TaskResult<L, M, T>>, RunFault>
    ensures { IfOk result (λ left. EachResult E.leaves at_desks.items left.items) }
{
    let all = with_places(alloc, at_desks)?;
    let run = |placed: Placed<L, M, E>| -> TaskResult<L, M, T>
        requires { IsSync R.row }
        ensures { IsResultOf E.leaves placed.at_desk result }
    { run_task(rt, alloc, office, lock_use, gate, placed) };
    Ok(thread::map_vec(rt, all, &run)?)
}
