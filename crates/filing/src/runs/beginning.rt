//! Histories to begin with.

ghost use Rattle.std.specs.Prelude.{◌≡◌, ◌+◌, ◌≤◌, ◌↔◌, [], true, is_some, option_map, IfOk, MatchResult};
ghost use Rattle.std.specs.Arc.{arc_value};
ghost use Rattle.line_io.specs.Devices.{new_source};
ghost use Rattle.filing.specs.Runs.{BeginsOn, IsNotBegun};

use crate::fault::Fault;
use crate::files::history::{HistorySource, open_source};
use crate::files::named::Reasons;
use crate::files::table::numeric_table;
use crate::reasons::departure::explain_fault;
use filing_cli::{FromReader, Source, view_history};
use filing_core::{Engine, HashKeys, Verdict};
use oim_fact::NumericTable;
use script_runs::View;
use std::alloc::Global;
use std::io::Read;
use std::mem::forget;
use std::sync::Arc;

/// The fault of a history that departs at a place, from 0.
pub(crate) fn departure_fault(place: usize) -> Fault
    ensures { result ≡ Fault.HistoryLine (place + 1) }
{
    Fault::HistoryLine(place as u128 + 1)
}

/// The engine of the lawful history that a source gives to its end, and what a view sees of it. The source is given back.
/// With no source it is an engine that took no step, and the view as it was.
pub(crate) fn begin_from<V: View + Drop, H: Source + Drop>(
    alloc: Global,
    keys: HashKeys,
    from: Option<H>,
    table: &Arc<NumericTable>,
    first: V,
) -> (Option<H>, Result<(Engine, V), Fault>)
    requires { V.sees first first [] }
    ensures { MatchResult result.1
        (λ found. BeginsOn H.state (arc_value table.now) (V.sees first) from result.0 found.0 found.1)
        (IsNotBegun H.state (arc_value table.now) from result.0) }
{
    let Some(mut source) = from else {
        return match Engine::with_keys(alloc, keys) {
            Ok(engine) => (None, Ok((engine, first))),
            Err(_) => {
                drop(first);
                (None, Err(Fault::NoMemory))
            }
        };
    };
    match view_history(alloc, keys, &mut source, table, first) {
        Ok(found) => match found.verdict {
            Verdict::Lawful => (Some(source), Ok((found.engine, found.view))),
            Verdict::Departs(place) => {
                // The process ends soon, and the system takes the memory back at once.
                forget(found);
                (Some(source), Err(departure_fault(place)))
            }
        },
        Err(fault) => (Some(source), Err(Fault::from(fault))),
    }
}

/// A source of what a reader gives, if there is one.
pub(crate) fn source_of<H: Read + Drop>(reader: Option<H>) -> Option<FromReader<H>>
    ensures { option_map ⟦<FromReader<H> as Source>⟧.state result
        ≡ option_map (λ r. new_source (H.remaining r)) reader }
{
    match reader {
        Some(reader) => Some(FromReader::new(reader)),
        None => None,
    }
}

/// The history to begin with, if one is given, and the numeric table by which all is read.
pub(crate) fn history_given<'a>(
    rt: &HostRuntime,
    from: Option<&'a str>,
    numeric: &[&str],
    reasons: Reasons,
) -> Result<(Option<HistorySource<'a>>, Arc<NumericTable>), Fault>
    ensures { IfOk result (λ given. is_some given.0 ≡ is_some from.entry) }
{
    match from {
        Some(path) => {
            let (source, table) = open_source(rt, path, numeric, reasons)?;
            Ok((Some(source), table))
        }
        None => {
            let table = Arc::new(rt.alloc(), numeric_table(rt, numeric, reasons)?)?;
            Ok((None, table))
        }
    }
}

/// Tells why the history to begin with departs, where that is its fault, and gives the fault back.
pub(crate) fn begin_fault(
    rt: &HostRuntime,
    from: Option<&str>,
    reasons: Reasons,
    table: &Arc<NumericTable>,
    fault: Fault,
) -> Fault
    ensures { result ≡ fault }
{
    match from {
        Some(path) => explain_fault(rt, path, reasons, table, fault),
        None => fault,
    }
}
