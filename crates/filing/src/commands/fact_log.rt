//! The changes of a fact of a history, as lines.

ghost use Rattle.std.specs.Prelude.{IfOk};
ghost use Rattle.std.specs.Arc.{arc_value};
ghost use Rattle.history_views.specs.FactLog.{fact_log_of};
ghost use Rattle.filing.specs.Runs.{AreShown};

use crate::fault::Fault;
use crate::runs::beginning::departure_fault;
use filing_cli::{FromReader, ToWriter};
use filing_core::{HashKeys, Verdict};
use history_views::{Batches, fact_log_of_history};
use oim_fact::NumericTable;
use std::alloc::Global;
use std::io::{Read, Write};
use std::mem::forget;
use std::sync::Arc;

/// Writes a line for each change of the fact at an identifier of a report, in the history that a reader gives, to a
/// writer. It gives both back.
pub(crate) fn write_fact_log<R: Read + Drop, W: Write + Drop>(
    alloc: Global,
    keys: HashKeys,
    reader: R,
    writer: W,
    table: &Arc<NumericTable>,
    batches: Batches,
    report: &str,
    id: &str,
) -> Result<(R, W), Fault>
    ensures { IfOk result (λ back. AreShown (arc_value table.now) (fact_log_of batches report.now id.now)
        (R.remaining reader) (R.remaining back.0) (W.contents writer) (W.contents back.1)) }
{
    let mut source = FromReader::new(reader);
    let mut sink = ToWriter::new(writer);
    let found = fact_log_of_history(alloc, keys, &mut source, table, batches, report, id)?;
    match found.verdict {
        Verdict::Lawful => {
            let written = found.write(&mut sink);
            // The process ends soon.
            forget(found);
            written?;
            Ok((source.into_inner(), sink.into_inner()))
        }
        Verdict::Departs(place) => {
            forget(found);
            Err(departure_fault(place))
        }
    }
}
