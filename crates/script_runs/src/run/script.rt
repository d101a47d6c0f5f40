//! A run over a script, from its source to its sink.

ghost use Rattle.std.specs.Prelude.{◌+◌, ◌≤◌, [], OnOk};
ghost use Rattle.std.specs.Arc.{arc_value};
ghost use Rattle.filing_model.specs.Histories.History.{History};
ghost use Rattle.filing_core.specs.Engines.{IsEngineOf};
ghost use Rattle.script_runs.specs.Observed.{IsShown};
ghost use Rattle.script_runs.specs.Resumed.{GoesOn};
ghost use Rattle.script_runs.specs.Serial.{GoesOnSerially};
ghost use Rattle.script_runs.specs.ScriptRun.{most_reads, ScriptRuns, ScriptRunsWithin, TakerRuns};

use crate::run::machine::{Observed, Observes, ScriptMachine, Unobserved};
use crate::run::taker::TakesSteps;
use filing_core::{Core, Engine};
use line_io::{ScriptFault, Sink, Source, run};
use oim_fact::NumericTable;
use std::alloc::Global;
use std::sync::Arc;

/// Reads of a source that are made at most.
pub const READS: u64 = 1 << 32;

/// Runs a script from where the taker of its steps left off, with no name in use, shows its lines and their replies to an observer, and gives both back.
pub(crate) fn run_observed<T: TakesSteps + Drop, O: Observes + Drop, R: Source, W: Sink>(
    alloc: Global,
    taker: T,
    observer: O,
    input: &mut R,
    output: &mut W,
    table: &Arc<NumericTable>,
    reads: u64,
) -> (T, O, Result<(), ScriptFault>)
    ensures script { (h : History) → T.has_taken taker h → GoesOn R.state reads (arc_value table.now) h
        T.has_taken result.0 result.2 input.old input.new (W.state output.old) (W.state output.new) }
    ensures shown { OnOk result.2 (IsShown R.state O.sees input.old input.new (W.state output.old) (W.state output.new)
        observer result.1) }
    ensures bounded { (R.state input.new).reads ≤ (R.state input.old).reads + reads }
{
    let Ok(table) = table.clone() else {
        return (taker, observer, Err(ScriptFault::NoMemory(1)));
    };
    let machine = ScriptMachine::before_lines(alloc, table, taker);
    let mut observed = Observed { machine, observer };
    let ended = run(alloc, &mut observed, input, output, reads);
    let Observed { machine, observer } = observed;
    (machine.into_taker(), observer, ended)
}

/// Runs a script from where the taker of its steps left off, with no name in use, and gives the taker back.
pub(crate) fn run_on<T: TakesSteps + Drop, R: Source, W: Sink>(
    alloc: Global,
    taker: T,
    input: &mut R,
    output: &mut W,
    table: &Arc<NumericTable>,
    reads: u64,
) -> (T, Result<(), ScriptFault>)
    ensures script { (h : History) → T.has_taken taker h → GoesOn R.state reads (arc_value table.now) h
        T.has_taken result.0 result.1 input.old input.new (W.state output.old) (W.state output.new) }
    ensures bounded { (R.state input.new).reads ≤ (R.state input.old).reads + reads }
{
    let (taker, _, ended) = run_observed(alloc, taker, Unobserved, input, output, table, reads);
    (taker, ended)
}

/// Runs a script, whose steps are taken by what has taken none yet, and gives that back.
fn run_with<T: TakesSteps + Drop, R: Source, W: Sink>(
    alloc: Global,
    taker: T,
    input: &mut R,
    output: &mut W,
    table: &Arc<NumericTable>,
    reads: u64,
) -> Result<T, ScriptFault>
    requires { T.has_taken taker [] }
    ensures script { TakerRuns T.has_taken R.state reads (arc_value table.now) result input.old input.new
        (W.state output.old) (W.state output.new) }
    ensures bounded { (R.state input.new).reads ≤ (R.state input.old).reads + reads }
{
    let (taker, ended) = run_on(alloc, taker, input, output, table, reads);
    match ended {
        Ok(()) => Ok(taker),
        Err(fault) => {
            drop(taker);
            Err(fault)
        }
    }
}

/// Runs a script: takes the step of each line that has one, in their order, and writes a reply to each line that is not blank.
/// Reports are read by the numeric table. It gives back the core with the steps that were taken. At most 2^32 reads are made.
pub fn run_script<R: Source, W: Sink>(
    alloc: Global,
    input: &mut R,
    output: &mut W,
    table: &Arc<NumericTable>,
) -> Result<Core, ScriptFault>
    ensures script { ScriptRuns R.state (arc_value table.now) result input.old input.new
        (W.state output.old) (W.state output.new) }
    ensures bounded { (R.state input.new).reads ≤ (R.state input.old).reads + most_reads }
{
    run_script_within(alloc, input, output, table, READS)
}

/// Runs a script as `run_script` does, with at most this many reads. `Endless` is answered where all of them were made, and none met the end or failed.
pub fn run_script_within<R: Source, W: Sink>(
    alloc: Global,
    input: &mut R,
    output: &mut W,
    table: &Arc<NumericTable>,
    reads: u64,
) -> Result<Core, ScriptFault>
    ensures script { ScriptRunsWithin R.state reads (arc_value table.now) result input.old input.new
        (W.state output.old) (W.state output.new) }
    ensures bounded { (R.state input.new).reads ≤ (R.state input.old).reads + reads }
{
    match Core::new(alloc) {
        Ok(core) => run_with(alloc, core, input, output, table, reads),
        Err(_) => Err(ScriptFault::NoMemory(1)),
    }
}

/// Runs a script as `run_script` does, from where an engine left off, with no name in use.
/// An observer is shown each line with its reply. Engine and observer are given back.
#[tactic(auto, using(crate::proofs::SerialScripts::goes_on_serially))]
pub fn resume_script_observed<O: Observes + Drop, R: Source, W: Sink>(
    alloc: Global,
    engine: Engine,
    observer: O,
    input: &mut R,
    output: &mut W,
    table: &Arc<NumericTable>,
) -> (Engine, O, Result<(), ScriptFault>)
    ensures script { (h : History) → IsEngineOf h engine → GoesOn R.state most_reads (arc_value table.now) h
        (λ e h. IsEngineOf h e) result.0 result.2 input.old input.new (W.state output.old) (W.state output.new) }
    ensures serial { GoesOnSerially (arc_value table.now) engine }
    ensures shown { OnOk result.2 (IsShown R.state O.sees input.old input.new (W.state output.old) (W.state output.new)
        observer result.1) }
    ensures bounded { (R.state input.new).reads ≤ (R.state input.old).reads + most_reads }
{
    run_observed(alloc, engine, observer, input, output, table, READS)
}
