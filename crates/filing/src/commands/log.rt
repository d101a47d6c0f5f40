//! The sessions and the loads of a history, as lines or drawn.

ghost use Rattle.std.specs.Prelude.{IfOk};
ghost use Rattle.std.specs.Arc.{arc_value};
ghost use Rattle.history_views.specs.Log.{log_of};
ghost use Rattle.filing.specs.Runs.{AreShown, ShowsPicture};

use crate::commands::fact_log::write_fact_log;
use crate::fault::Fault;
use crate::files::batches::batches_in;
use crate::files::history::{OpenedHistory, open_lines};
use crate::files::named::{Named, OUTPUT, Reasons};
use crate::keys::drawn_keys;
use crate::reasons::departure::explain_fault;
use crate::runs::beginning::departure_fault;
use filing_args::{LogWords, number_given, refuse_misfit_of_log};
use filing_cli::{FromReader, ToWriter};
use filing_core::{HashKeys, Verdict};
use history_views::{Batches, log_of_history};
use oim_fact::NumericTable;
use std::alloc::Global;
use std::io::{Read, Write};
use std::mem::forget;
use std::sync::Arc;

/// Writes a line for each session and each load of the history that a reader gives to a writer. It gives both back.
fn write_log<R: Read + Drop, W: Write + Drop>(
    alloc: Global,
    keys: HashKeys,
    reader: R,
    writer: W,
    table: &Arc<NumericTable>,
    batches: Batches,
) -> Result<(R, W), Fault>
    ensures { IfOk result (λ back. AreShown (arc_value table.now) (log_of batches) (R.remaining reader) (R.remaining back.0)
        (W.contents writer) (W.contents back.1)) }
{
    let mut source = FromReader::new(reader);
    let mut sink = ToWriter::new(writer);
    let found = log_of_history(alloc, keys, &mut source, table, batches)?;
    match found.verdict {
        Verdict::Lawful => {
            let written = found.write(alloc, &mut sink);
            // The process ends soon, as after a script.
            forget(found);
            written?;
            Ok((source.into_inner(), sink.into_inner()))
        }
        Verdict::Departs(place) => {
            forget(found);
            Err(departure_fault(place))
        }
    }
}

/// Writes the picture of the sessions, from this number on, of the history that a reader gives to a writer.
/// It gives both back.
fn write_picture<R: Read + Drop, W: Write + Drop>(
    alloc: Global,
    keys: HashKeys,
    reader: R,
    writer: W,
    table: &Arc<NumericTable>,
    batches: Batches,
    first: u64,
) -> Result<(R, W), Fault>
    ensures { IfOk result (λ back. ShowsPicture (arc_value table.now) batches first (R.remaining reader)
        (R.remaining back.0) (W.contents writer) (W.contents back.1)) }
{
    let mut source = FromReader::new(reader);
    let mut sink = ToWriter::new(writer);
    let found = log_of_history(alloc, keys, &mut source, table, batches)?;
    match found.verdict {
        Verdict::Lawful => {
            let written = found.write_picture(alloc, first, &mut sink);
            // The process ends soon.
            forget(found);
            written?;
            Ok((source.into_inner(), sink.into_inner()))
        }
        Verdict::Departs(place) => {
            forget(found);
            Err(departure_fault(place))
        }
    }
}

/// Prints the sessions and the loads of the history that the words name, or the changes of a fact.
pub(crate) fn show_sessions(rt: &HostRuntime, given: &LogWords<'_>) -> Result<u8, Fault> {
    refuse_misfit_of_log(rt, given)?;
    let first = number_given(rt, "--first <SESSION>", given.first)?.unwrap_or(1);
    let reasons = Reasons::new(rt, false);
    let keys = drawn_keys(rt, reasons)?;
    let OpenedHistory {
        source,
        table,
        lines,
    } = open_lines(rt, given.history, given.numeric.as_slice(), reasons)?;
    let batches = batches_in(rt.alloc(), &lines)?;
    let output = Named::new(rt.stdout(), OUTPUT, reasons);
    let written = match (given.report, given.identifier) {
        (Some(report), Some(id)) => write_fact_log(
            rt.alloc(),
            keys,
            source,
            output,
            &table,
            batches,
            report,
            id,
        ),
        _ if given.svg => write_picture(rt.alloc(), keys, source, output, &table, batches, first),
        _ => write_log(rt.alloc(), keys, source, output, &table, batches),
    };
    match written {
        Ok(_) => Ok(0),
        Err(fault) => Err(explain_fault(rt, given.history, reasons, &table, fault)),
    }
}
