//! Scripts that begin with an empty repository, or go on from a history.

ghost use Rattle.std.specs.Prelude.{◌≡◌, option_map, OnOk};
ghost use Rattle.std.specs.Arc.{arc_value};
ghost use Rattle.line_io.specs.Devices.{new_source};
ghost use Rattle.filing_core.specs.Engines.{IsEngineOf};
ghost use Rattle.filing.specs.Mistakes.{NotesMistakes};
ghost use Rattle.filing.specs.Runs.{Over, RunsFrom};

use crate::fault::Fault;
use crate::files::named::{INPUT, Named, OUTPUT, Reasons};
use crate::keys::drawn_keys;
use crate::progress::{Watched, input_length};
use crate::reasons::explainer::Explainer;
use crate::runs::beginning::{begin_fault, begin_from, history_given, source_of};
use crate::runs::between::{Between, ResumedRun};
use filing_args::RunWords;
use filing_cli::{FromReader, Sink, Source, ToWriter, resume_script_observed};
use filing_core::{Engine, HashKeys};
use oim_fact::NumericTable;
use script_runs::NoView;
use std::alloc::Global;
use std::io::{Read, Write};
use std::mem::forget;
use std::sync::Arc;

/// Runs a script from a source, writes its replies to a sink, and has both explained.
/// It goes on from the history that another source gives, or from none.
/// That source and the explainer are given back.
fn resume_script<H: Source + Drop, R: Source, W: Sink>(
    alloc: Global,
    keys: HashKeys,
    from: Option<H>,
    explainer: Explainer,
    source: &mut R,
    sink: &mut W,
    table: &Arc<NumericTable>,
) -> ResumedRun<H, Engine>
    ensures ran { RunsFrom H.state R.state (arc_value table.now) (λ e h. IsEngineOf h e) from result.from result.ended
        source.old source.new (W.state sink.old) (W.state sink.new) }
    ensures noted { OnOk result.ended
        (NotesMistakes (W.state sink.old).written (W.state sink.new).written explainer result.explainer) }
{
    let (from, found) = begin_from(alloc, keys, from, table, NoView);
    let engine = match found {
        Ok((engine, _)) => engine,
        Err(fault) => {
            return ResumedRun {
                from,
                explainer,
                ended: Err(fault),
            };
        }
    };
    let (engine, explainer, ended) = resume_script_observed(
        alloc, engine, explainer, source, sink, table,
    );
    match ended {
        Ok(()) => ResumedRun {
            from,
            explainer,
            ended: Ok(engine),
        },
        Err(fault) => {
            // The process ends soon, and the system takes the memory back at once: fact by fact takes a third of the time of a load.
            forget(engine);
            ResumedRun {
                from,
                explainer,
                ended: Err(Fault::from(fault)),
            }
        }
    }
}

/// Runs a script as `resume_script` does, from a reader to a writer. Both are given back.
fn resume_between<H: Read + Drop, R: Read + Drop, W: Write + Drop>(
    alloc: Global,
    keys: HashKeys,
    from: Option<H>,
    explainer: Explainer,
    reader: R,
    writer: W,
    table: &Arc<NumericTable>,
) -> Between<R, W, ResumedRun<FromReader<H>, Engine>>
    ensures ran { (first : _) × ((option_map ⟦<FromReader<H> as Source>⟧.state first
        ≡ option_map (λ r. new_source (H.remaining r)) from)
        × Over ⟦<FromReader<R> as Source>⟧.state ⟦<ToWriter<W> as Sink>⟧.state
        (R.remaining reader) (R.remaining result.reader) (W.contents writer) (W.contents result.writer)
        (RunsFrom ⟦<FromReader<H> as Source>⟧.state ⟦<FromReader<R> as Source>⟧.state (arc_value table.now)
        (λ e h. IsEngineOf h e) first result.left.from result.left.ended)) }
    ensures noted { OnOk result.left.ended (NotesMistakes (W.contents writer) (W.contents result.writer)
        explainer result.left.explainer) }
{
    let from = source_of(from);
    let mut source = FromReader::new(reader);
    let mut sink = ToWriter::new(writer);
    let left = resume_script(alloc, keys, from, explainer, &mut source, &mut sink, table);
    Between {
        reader: source.into_inner(),
        writer: sink.into_inner(),
        left,
    }
}

/// Runs the script on standard input, and keeps no step.
pub(crate) fn run_alone(
    rt: &HostRuntime,
    given: &RunWords<'_>,
    reasons: Reasons,
) -> Result<u8, Fault> {
    let (from, table) = history_given(rt, given.from, given.numeric.as_slice(), reasons)?;
    let table = &table;
    let explainer = Explainer::new(rt, table, reasons.are_told())?;
    let Between { left, .. } = resume_between(
        rt.alloc(),
        drawn_keys(rt, reasons)?,
        from,
        explainer,
        Watched::new(rt, Named::new(rt.stdin(), INPUT, reasons), input_length(rt)),
        Named::new(rt.stdout(), OUTPUT, reasons),
        table,
    );
    let ResumedRun {
        explainer,
        ended,
        ..
    } = left;
    match ended {
        Ok(engine) => forget(engine),
        Err(fault) => return Err(begin_fault(rt, given.from, reasons, table, fault)),
    }
    explainer.tell_end();
    Ok(explainer.status(given.strict))
}
