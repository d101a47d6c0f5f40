//! Scripts whose history goes to a file.

ghost use Rattle.std.specs.Prelude.{◌≡◌, [], false, option_map, OnOk};
ghost use Rattle.std.specs.Arc.{arc_value};
ghost use Rattle.line_io.specs.Devices.{new_source};
ghost use Rattle.filing_core.specs.Engines.{IsEngineOf};
ghost use Rattle.script_runs.specs.Recorded.{HasLines};
ghost use Rattle.filing.specs.Mistakes.{NotesMistakes};
ghost use Rattle.filing.specs.Runs.{Over, RunsFrom};

use crate::fault::Fault;
use crate::files::errors::FileErrors;
use crate::files::history::{HistorySource, begin_history};
use crate::files::named::{INPUT, Named, OUTPUT, Reasons};
use crate::keys::drawn_keys;
use crate::progress::{Watched, input_length};
use crate::reasons::explainer::Explainer;
use crate::runs::beginning::{begin_fault, begin_from, history_given, source_of};
use crate::runs::between::{Between, ResumedRun};
use filing_args::RunWords;
use filing_cli::{
    EntryFile, FromReader, RecordedRun, Sink, Source, ToWriter, record_script_observed,
};
use filing_core::{Engine, HashKeys};
use journal::Device;
use journal_file::JournalFile;
use oim_fact::NumericTable;
use std::alloc::Global;
use std::io::{Read, Write};
use std::mem::forget;
use std::sync::Arc;

/// Runs a script from a source, writes its replies to a sink, and has lines and replies explained.
/// It goes on from the history that another source gives, or from none.
/// The lines of all entries are written to a file. That source and the explainer are given back.
fn record_script<D: Device + Drop, H: Source + Drop, R: Source, W: Sink>(
    alloc: Global,
    keys: HashKeys,
    from: Option<H>,
    entries: EntryFile<D>,
    explainer: Explainer,
    source: &mut R,
    sink: &mut W,
    table: &Arc<NumericTable>,
) -> ResumedRun<H, (Engine, EntryFile<D>)>
    requires { HasLines D.seen entries [] }
    ensures ran { RunsFrom H.state R.state (arc_value table.now) (λ t h. IsEngineOf h t.0 × HasLines D.seen t.1 h)
        from result.from result.ended source.old source.new (W.state sink.old) (W.state sink.new) }
    ensures noted { OnOk result.ended
        (NotesMistakes (W.state sink.old).written (W.state sink.new).written explainer result.explainer) }
{
    let (from, found) = begin_from(alloc, keys, from, table, entries);
    let (engine, entries) = match found {
        Ok(found) => found,
        Err(fault) => {
            return ResumedRun {
                from,
                explainer,
                ended: Err(fault),
            };
        }
    };
    let (run, explainer) = record_script_observed(
        alloc, engine, entries, explainer, source, sink, table,
    );
    let RecordedRun {
        ended,
        engine,
        entries,
    } = run;
    match ended {
        Ok(()) => ResumedRun {
            from,
            explainer,
            ended: Ok((engine, entries)),
        },
        Err(fault) => {
            forget(engine);
            drop(entries);
            ResumedRun {
                from,
                explainer,
                ended: Err(Fault::from(fault)),
            }
        }
    }
}

/// Runs a script as `record_script` does, from a reader to a writer. Both are given back.
fn record_between<D: Device + Drop, H: Read + Drop, R: Read + Drop, W: Write + Drop>(
    alloc: Global,
    keys: HashKeys,
    from: Option<H>,
    entries: EntryFile<D>,
    explainer: Explainer,
    reader: R,
    writer: W,
    table: &Arc<NumericTable>,
) -> Between<R, W, ResumedRun<FromReader<H>, (Engine, EntryFile<D>)>>
    requires empty { HasLines D.seen entries [] }
    ensures ran { (first : _) × ((option_map ⟦<FromReader<H> as Source>⟧.state first
        ≡ option_map (λ r. new_source (H.remaining r)) from)
        × Over ⟦<FromReader<R> as Source>⟧.state ⟦<ToWriter<W> as Sink>⟧.state
        (R.remaining reader) (R.remaining result.reader) (W.contents writer) (W.contents result.writer)
        (RunsFrom ⟦<FromReader<H> as Source>⟧.state ⟦<FromReader<R> as Source>⟧.state (arc_value table.now)
        (λ t h. IsEngineOf h t.0 × HasLines D.seen t.1 h) first result.left.from result.left.ended)) }
    ensures noted { OnOk result.left.ended (NotesMistakes (W.contents writer) (W.contents result.writer)
        explainer result.left.explainer) }
{
    let from = source_of(from);
    let mut source = FromReader::new(reader);
    let mut sink = ToWriter::new(writer);
    let left = record_script(
        alloc,
        keys,
        from,
        entries,
        explainer,
        &mut source,
        &mut sink,
        table,
    );
    Between {
        reader: source.into_inner(),
        writer: sink.into_inner(),
        left,
    }
}

/// Runs the script on standard input, and gives the file with the whole history, and the status. That a write to it failed is a fault at the end.
fn history_of_input(
    rt: &HostRuntime,
    given: &RunWords<'_>,
    reasons: Reasons,
    from: Option<HistorySource<'_>>,
    table: &Arc<NumericTable>,
    device: JournalFile<FileErrors>,
) -> Result<(JournalFile<FileErrors>, u8), Fault>
    requires empty { ⟦<JournalFile<FileErrors> as Device>⟧.seen device ≡ [] }
    requires works { ⟦<JournalFile<FileErrors> as Device>⟧.has_failed device ≡ false }
{
    let keys = drawn_keys(rt, reasons)?;
    let explainer = Explainer::new(rt, table, reasons.are_told())?;
    let Between { left, .. } = record_between(
        rt.alloc(),
        keys,
        from,
        EntryFile::new(rt.alloc(), device),
        explainer,
        Watched::new(rt, Named::new(rt.stdin(), INPUT, reasons), input_length(rt)),
        Named::new(rt.stdout(), OUTPUT, reasons),
        table,
    );
    let ResumedRun {
        explainer,
        ended,
        ..
    } = left;
    let (engine, entries) = match ended {
        Ok(kept) => kept,
        Err(fault) => return Err(begin_fault(rt, given.from, reasons, table, fault)),
    };
    forget(engine);
    explainer.tell_end();
    match entries.into_device() {
        Some(device) => Ok((device, explainer.status(given.strict))),
        None => Err(Fault::Write),
    }
}

/// Runs the script on standard input, from a history or from nothing, and puts the whole history to where a path leads once it has ended.
pub(crate) fn run_to_history(
    rt: &HostRuntime,
    given: &RunWords<'_>,
    path: &str,
    reasons: Reasons,
) -> Result<u8, Fault> {
    let (from, table) = history_given(rt, given.from, given.numeric.as_slice(), reasons)?;
    let (draft, device) = begin_history(rt, path, reasons)?;
    match history_of_input(rt, given, reasons, from, &table, device) {
        Ok((device, status)) => {
            draft.keep(rt, device.into_file())?;
            Ok(status)
        }
        Err(fault) => {
            draft.give_up(rt);
            Err(fault)
        }
    }
}
