//! Histories that are judged.

ghost use Rattle.std.specs.Prelude.{IfOk};
ghost use Rattle.std.specs.Arc.{arc_value};
ghost use Rattle.filing.specs.Runs.{WritesVerdict};

use crate::fault::Fault;
use crate::files::history::open_history;
use crate::files::named::{Named, OUTPUT, Reasons};
use crate::files::table::numeric_table;
use crate::keys::drawn_keys;
use crate::reasons::departure::explain_departure;
use crate::runs::between::Between;
use filing_args::CheckWords;
use filing_cli::{FromReader, ToWriter, judge_history_keeping, write_verdict};
use filing_core::{Engine, HashKeys};
use oim_fact::NumericTable;
use std::alloc::Global;
use std::io::{Read, Write};
use std::mem::forget;
use std::sync::Arc;

/// The status of a verdict, and the engine that followed the history.
#[derive(Drop)]
pub(crate) struct JudgedHistory {
    pub(crate) status: u8,
    pub(crate) engine: Engine,
}

/// Judges the history in a file, tells the verdict, and gives its status.
pub(crate) fn check_file(rt: &HostRuntime, given: &CheckWords<'_>) -> Result<u8, Fault> {
    let reasons = Reasons::new(rt, given.explain);
    let table = Arc::new(
        rt.alloc(),
        numeric_table(rt, given.numeric.as_slice(), reasons)?,
    )?;
    let back = check(
        rt.alloc(),
        drawn_keys(rt, reasons)?,
        open_history(rt, given.history, reasons)?,
        Named::new(rt.stdout(), OUTPUT, reasons),
        &table,
    )?;
    let status = back.left.status;
    if reasons.are_told() {
        explain_verdict(
            rt,
            given.history,
            reasons,
            &table,
            &back.left.engine,
            status,
        );
    }
    // The process ends soon, as after a script.
    forget(back);
    Ok(status)
}

/// Judges a history from a reader by a numeric table, and writes the verdict to a writer.
/// It gives both back.
pub(crate) fn check<R: Read + Drop, W: Write + Drop>(
    alloc: Global,
    keys: HashKeys,
    reader: R,
    writer: W,
    table: &Arc<NumericTable>,
) -> Result<Between<R, W, JudgedHistory>, Fault>
    ensures { IfOk result (λ back. WritesVerdict (arc_value table.now) (R.remaining reader) (R.remaining back.reader)
        (W.contents writer) (W.contents back.writer) back.left.status) }
{
    let mut source = FromReader::new(reader);
    let mut sink = ToWriter::new(writer);
    let (verdict, engine) = judge_history_keeping(alloc, keys, &mut source, table)?;
    let status = match write_verdict(alloc, &mut sink, &verdict) {
        Ok(status) => status,
        Err(fault) => {
            drop(engine);
            return Err(fault.into());
        }
    };
    Ok(Between {
        reader: source.into_inner(),
        writer: sink.into_inner(),
        left: JudgedHistory { status, engine },
    })
}

/// Tells on standard error what a verdict rests on: how much is lawful, or why the history departs.
fn explain_verdict(
    rt: &HostRuntime,
    path: &str,
    reasons: Reasons,
    table: &Arc<NumericTable>,
    engine: &Engine,
    status: u8,
) {
    if status == 0 {
        let _ = eprintln!(rt;
            "filing: {} entries are lawful, and make version {}",
            engine.step_count(),
            engine.current().number()
        );
    } else {
        explain_departure(rt, path, reasons, "line", table);
    }
}
