//! What differs between two versions of a history.

ghost use Rattle.std.specs.Prelude.{IfOk, option_map};
ghost use Rattle.std.specs.Arc.{arc_value};
ghost use Rattle.history_views.specs.Differing.{difference_asked};
ghost use Rattle.filing.specs.Runs.{ShowsFound};

use crate::fault::Fault;
use crate::files::history::open_source;
use crate::files::named::{Named, OUTPUT, Reasons};
use crate::keys::drawn_keys;
use crate::reasons::departure::explain_fault;
use crate::runs::beginning::departure_fault;
use crate::runs::between::Between;
use filing_args::{DiffWords, number_of};
use filing_cli::{FromReader, ToWriter};
use filing_core::{HashKeys, Verdict};
use history_views::{FoundDifference, Shown, difference_of_history};
use oim_fact::NumericTable;
use std::alloc::Global;
use std::io::{Read, Write};
use std::mem::forget;
use std::sync::Arc;

/// What was shown, and the number of the version that is not there, if one is not.
#[derive(Drop)]
struct ShownDifference {
    shown: Shown,
    missing: Option<u64>,
}

/// The number of the version that is not there, if one is not.
fn missing_version(found: &FoundDifference, from: u64, to: u64) -> Option<u64> {
    if found.from.is_none() {
        Some(from)
    } else if found.to.is_none() {
        Some(to)
    } else {
        None
    }
}

/// Writes what differs between two versions of the history that a reader gives, in all reports or in one, to a writer, if both are there.
/// It gives both back.
fn write_difference<R: Read + Drop, W: Write + Drop>(
    alloc: Global,
    keys: HashKeys,
    reader: R,
    writer: W,
    table: &Arc<NumericTable>,
    from: u64,
    to: u64,
    report: Option<&str>,
) -> Result<Between<R, W, ShownDifference>, Fault>
    ensures { IfOk result (λ back. ShowsFound (arc_value table.now)
        (difference_asked from to (option_map (λ t. t.now) report.entry)) (R.remaining reader)
        (R.remaining back.reader) (W.contents writer) (W.contents back.writer) back.left.shown) }
{
    let mut source = FromReader::new(reader);
    let mut sink = ToWriter::new(writer);
    let found = difference_of_history(alloc, keys, &mut source, table, from, to, report)?;
    match found.verdict {
        Verdict::Lawful => {
            let shown = found.write(&mut sink);
            let missing = missing_version(&found, from, to);
            // The process ends soon, as after a script.
            forget(found);
            let shown = shown?;
            Ok(Between {
                reader: source.into_inner(),
                writer: sink.into_inner(),
                left: ShownDifference { shown, missing },
            })
        }
        Verdict::Departs(place) => {
            forget(found);
            Err(departure_fault(place))
        }
    }
}

/// Tells what is not there, and gives the status.
fn tell_missing(
    rt: &impl Eprint,
    given: &DiffWords<'_>,
    shown: Shown,
    missing: Option<u64>,
) -> Result<u8, Fault> {
    let name = given.report.unwrap_or("");
    let number = missing.unwrap_or(0);
    let _ = match shown {
        Shown::Written => return Ok(0),
        Shown::NoVersion => eprintln!(rt; "filing: no version {number}"),
        Shown::NoReport => eprintln!(rt; "filing: no report \"{name}\""),
    };
    Err(Fault::Words)
}

/// Shows what differs between the versions that the words name.
pub(crate) fn show_difference(rt: &HostRuntime, given: &DiffWords<'_>) -> Result<u8, Fault> {
    let from = number_of(rt, "<FROM>", given.from)?;
    let to = number_of(rt, "<TO>", given.to)?;
    let reasons = Reasons::new(rt, false);
    let (reader, table) = open_source(rt, given.history, given.numeric.as_slice(), reasons)?;
    let found = write_difference(
        rt.alloc(),
        drawn_keys(rt, reasons)?,
        reader,
        Named::new(rt.stdout(), OUTPUT, reasons),
        &table,
        from,
        to,
        given.report,
    );
    match found {
        Ok(back) => {
            let ShownDifference { shown, missing } = back.left;
            tell_missing(rt, given, shown, missing)
        }
        Err(fault) => Err(explain_fault(rt, given.history, reasons, &table, fault)),
    }
}
