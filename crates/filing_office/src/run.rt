//! `run_desks`: each desk takes a list of steps in a thread of its own.

ghost use Rattle.std.specs.Prelude.{◌≡◌, ◌≤◌, [], map, vec_len, vec_capacity, IfOk};
ghost use Rattle.filing_office.specs.Rans.{EachRan};

use crate::access::{Access, LockUse};
use crate::desk_task::{DeskTask, TaskAtDesk, run_tasks};
use crate::fault::RunFault;
use crate::named_desk::NamedDesk;
use crate::office::Office;
use crate::outcome::Outcome;
use crate::steps::take_steps;
use crate::work::{DeskStep, Gate, Ran, Work};
use filing_publish::Naming;
use std::alloc::{AllocError, Global};
use std::marker::{Send, Sync};
use std::sync::Wait;
use std::sync::ledger::Ledger;
use std::thread::Threads;

/// A list of steps, with capacity for an outcome of each.
#[derive(Drop)]
struct StepList<L: Naming> {
    steps: Vec<DeskStep>,
    outcomes: Vec<Outcome<L>>,
    ghost empty: { outcomes.items ≡ [] },
    ghost room: { vec_len steps ≤ vec_capacity outcomes },
}

impl<L: Ledger + Naming, M: Ledger> DeskTask<L, M, Vec<Outcome<L>>> for StepList<L> {
    ghost use Rattle.std.specs.Prelude.{[]};
    ghost use Rattle.filing_office.specs.Runs.{Runs};

    ghost leaves = { λ list s t outcomes. Runs s t [] list.steps.items outcomes.items };

    fn run<A: Access<L, M>, G: Gate>(
        self,
        _alloc: Global,
        access: &mut A,
        gate: &G,
        place: usize,
        named_desk: &mut NamedDesk<L, M>,
    ) -> Vec<Outcome<L>> {
        let StepList {
            steps,
            mut outcomes,
        } = self;
        take_steps(access, gate, place, named_desk, steps, &mut outcomes);
        outcomes
    }
}

/// The task of a work, at its desk.
fn task_of<L: Ledger + Naming, M: Ledger>(
    alloc: Global,
    work: Work<L, M>,
) -> Result<TaskAtDesk<L, M, StepList<L>>, AllocError>
    ensures { IfOk result (λ t. record { desk = t.desk; reviewer = t.reviewer; steps = t.task.steps } ≡ work) }
{
    let outcomes = match Vec::with_capacity(alloc, work.steps.len()) {
        Ok(outcomes) => outcomes,
        Err(error) => {
            drop(work);
            return Err(error);
        }
    };
    let Work {
        desk,
        reviewer,
        steps,
    } = work;
    Ok(TaskAtDesk {
        desk,
        reviewer,
        task: StepList { steps, outcomes },
    })
}

/// The tasks of works, in their places.
fn tasks_of<L: Ledger + Naming, M: Ledger>(
    alloc: Global,
    works: Vec<Work<L, M>>,
) -> Result<Vec<TaskAtDesk<L, M, StepList<L>>>, AllocError>
    ensures { IfOk result (λ all. map (λ t.
        record { desk = t.desk; reviewer = t.reviewer; steps = t.task.steps }) all.items ≡ works.items) }
{
    let mut at_desks = Vec::with_capacity(alloc, works.len())?;
    for work in works {
        at_desks.push(task_of(alloc, work)?)?;
    }
    Ok(at_desks)
}

/// Has each desk take its steps in a thread of its own, and gives the works back in their places.
/// Where no more threads can be made, desks take their steps one after the other.
/// Where memory for a thread or for the outcomes is refused, the desks are gone: end the office by `Office::give_up`.
pub fn run_desks<
    L: Ledger + Naming + Send + Sync,
    M: Ledger + Send + Sync,
    G: Gate + Sync,
    R: Threads + Wait + Sync,
>(
    rt: &R,
    alloc: Global,
    office: &Office<L, M>,
    works: Vec<Work<L, M>>,
    gate: &G,
) -> Result<Vec<Ran<L, M>>, RunFault>
    ensures { IfOk result (λ ran. EachRan works.items ran.items) }
{
    let at_desks = tasks_of(alloc, works)?;
    run_tasks(rt, alloc, office, at_desks, LockUse::EachStep, gate)
}
