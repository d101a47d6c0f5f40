//! `take_steps`: the steps of a desk, one after the other.

ghost use Rattle.std.specs.Prelude.{◌≡◌, ◌+◌, ◌∷◌, ◌++◌, ◌<◌, ◌≤◌, [], not, vec_len, vec_capacity, string_bytes};
ghost use Rattle.filing_step.specs.Steps.{step_of};
ghost use Rattle.filing_office.specs.declared.outcome.Outcome.{Outcome as Told};
ghost use Rattle.filing_office.specs.Runs.{Goes, RanAfter, IsLearnt, is_no_memory};

use crate::access::Access;
use crate::named_desk::NamedDesk;
use crate::outcome::Outcome;
use crate::work::{DeskStep, Gate};
use filing_publish::Naming;
use std::sync::ledger::Ledger;

/// Takes one step between the calls of the gate, and keeps its outcome. Returns whether the desk goes on.
fn take_one<L: Ledger + Naming, M: Ledger, A: Access<L, M>, G: Gate>(
    access: &mut A,
    gate: &G,
    at: (usize, usize),
    named_desk: &mut NamedDesk<L, M>,
    step: DeskStep,
    outcomes: &mut Vec<Outcome<L>>,
) -> bool
    requires learnt { IsLearnt named_desk.old outcomes.old.items }
    requires room { vec_len outcomes.old < vec_capacity outcomes.old }
    ensures goes { (o : Told L)
        × Goes named_desk.old.state named_desk.new.state outcomes.old.items (string_bytes step.name)
        (step_of step.step) o
        × (outcomes.new.items ≡ outcomes.old.items ++ o ∷ []) × (result ≡ not (is_no_memory o)) }
    ensures learnt { IsLearnt named_desk.new outcomes.new.items }
    ensures len { vec_len outcomes.new ≡ vec_len outcomes.old + 1 }
    ensures room { vec_capacity outcomes.new ≡ vec_capacity outcomes.old }
{
    let (place, k) = at;
    gate.before(place, k);
    let outcome = named_desk.take(access, step, outcomes.as_slice());
    gate.after(place, k);
    let goes_on = !outcome.is_no_memory();
    outcomes.push_reserved(outcome);
    goes_on
}

/// Takes steps of the desk at this place one after the other, up to the first that runs out of memory.
/// The outcome of each is appended to those of earlier steps, which have capacity for it.
/// The gate is called for each step with its place among these steps.
pub fn take_steps<L: Ledger + Naming, M: Ledger, A: Access<L, M>, G: Gate>(
    access: &mut A,
    gate: &G,
    place: usize,
    named_desk: &mut NamedDesk<L, M>,
    steps: Vec<DeskStep>,
    outcomes: &mut Vec<Outcome<L>>,
)
    requires learnt { IsLearnt named_desk.old outcomes.old.items }
    requires room { vec_len outcomes.old + vec_len steps ≤ vec_capacity outcomes.old }
    ensures ran { RanAfter named_desk.old.state named_desk.new.state outcomes.old.items steps.items outcomes.new.items }
    ensures learnt { IsLearnt named_desk.new outcomes.new.items }
{
    for (k, step) in steps.into_iter().enumerate() {
        if !take_one(access, gate, (place, k), named_desk, step, outcomes) {
            break;
        }
    }
}
