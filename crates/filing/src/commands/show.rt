//! What a version of a history has: a report, or the list of all.

ghost use Rattle.std.specs.Prelude.{IfOk};
ghost use Rattle.std.specs.Arc.{arc_value};
ghost use Rattle.history_views.specs.Listing.{listing_shown};
ghost use Rattle.history_views.specs.Shown.{report_shown};
ghost use Rattle.filing.specs.Runs.{ShowsVersion};

use crate::fault::Fault;
use crate::files::history::open_source;
use crate::files::named::{Named, OUTPUT, Reasons};
use crate::keys::drawn_keys;
use crate::reasons::departure::explain_fault;
use crate::runs::beginning::departure_fault;
use crate::runs::between::Between;
use filing_args::{ShowWords, number_given};
use filing_cli::{FromReader, ToWriter};
use filing_core::{HashKeys, Verdict};
use history_views::{Shown, listing_of_history, version_of_history};
use oim_fact::NumericTable;
use std::alloc::Global;
use std::io::{Read, Write};
use std::mem::forget;
use std::sync::Arc;

/// Writes a report of a version of the history that a reader gives to a writer, if it is there. It gives both back.
fn write_report<R: Read + Drop, W: Write + Drop>(
    alloc: Global,
    keys: HashKeys,
    reader: R,
    writer: W,
    table: &Arc<NumericTable>,
    number: Option<u64>,
    name: &str,
) -> Result<Between<R, W, Shown>, Fault>
    ensures { IfOk result (λ back. ShowsVersion (arc_value table.now) number (report_shown name.now)
        (R.remaining reader) (R.remaining back.reader) (W.contents writer) (W.contents back.writer) back.left) }
{
    let mut source = FromReader::new(reader);
    let mut sink = ToWriter::new(writer);
    let found = version_of_history(alloc, keys, &mut source, table, number)?;
    match found.verdict {
        Verdict::Lawful => {
            let shown = found.write_report(alloc, &mut sink, name);
            // The process ends soon, as after a script.
            forget(found);
            let shown = shown?;
            Ok(Between {
                reader: source.into_inner(),
                writer: sink.into_inner(),
                left: shown,
            })
        }
        Verdict::Departs(place) => {
            forget(found);
            Err(departure_fault(place))
        }
    }
}

/// Writes the list of the reports of a version of the history that a reader gives to a writer, if it is there. It gives both back.
fn write_listing<R: Read + Drop, W: Write + Drop>(
    alloc: Global,
    keys: HashKeys,
    reader: R,
    writer: W,
    table: &Arc<NumericTable>,
    number: Option<u64>,
) -> Result<Between<R, W, Shown>, Fault>
    ensures { IfOk result (λ back. ShowsVersion (arc_value table.now) number listing_shown (R.remaining reader)
        (R.remaining back.reader) (W.contents writer) (W.contents back.writer) back.left) }
{
    let mut source = FromReader::new(reader);
    let mut sink = ToWriter::new(writer);
    let found = listing_of_history(alloc, keys, &mut source, table, number)?;
    match found.verdict {
        Verdict::Lawful => {
            let shown = found.write(&mut sink);
            // The process ends soon.
            forget(found);
            let shown = shown?;
            Ok(Between {
                reader: source.into_inner(),
                writer: sink.into_inner(),
                left: shown,
            })
        }
        Verdict::Departs(place) => {
            forget(found);
            Err(departure_fault(place))
        }
    }
}

/// Tells what is not there, and gives the status.
fn tell_missing(rt: &impl Eprint, given: &ShowWords<'_>, shown: Shown) -> Result<u8, Fault> {
    let name = given.report.unwrap_or("");
    let number = given.version.unwrap_or("");
    let written = match shown {
        Shown::Written => return Ok(0),
        Shown::NoVersion => eprintln!(rt; "filing: no version {number}"),
        Shown::NoReport if given.version.is_none() => eprintln!(rt; "filing: no report \"{name}\""),
        Shown::NoReport => eprintln!(rt; "filing: no report \"{name}\" in version {number}"),
    };
    let _ = written;
    Err(Fault::Words)
}

/// Shows the report that the words name, or the list of all, as the version that they name has it.
pub(crate) fn show_version(rt: &HostRuntime, given: &ShowWords<'_>) -> Result<u8, Fault> {
    let number = number_given(rt, "--at <VERSION>", given.version)?;
    let reasons = Reasons::new(rt, false);
    let keys = drawn_keys(rt, reasons)?;
    let (reader, table) = open_source(rt, given.history, given.numeric.as_slice(), reasons)?;
    let found = match given.report {
        Some(name) => write_report(
            rt.alloc(),
            keys,
            reader,
            Named::new(rt.stdout(), OUTPUT, reasons),
            &table,
            number,
            name,
        ),
        None => write_listing(
            rt.alloc(),
            keys,
            reader,
            Named::new(rt.stdout(), OUTPUT, reasons),
            &table,
            number,
        ),
    };
    match found {
        Ok(back) => tell_missing(rt, given, back.left),
        Err(fault) => Err(explain_fault(rt, given.history, reasons, &table, fault)),
    }
}
