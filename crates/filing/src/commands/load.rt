//! Reports that are loaded from files into a journal.

ghost use Rattle.std.specs.Prelude.{◌≡◌, ◌++◌, false, IfOk, OnOk, string_bytes};
ghost use Rattle.std.specs.Arc.{arc_value};
ghost use Rattle.filing_model.specs.Histories.History.{History};
ghost use Rattle.journal_marks.specs.Standing.{IsKept, device_of, has_stopped, kept};
ghost use Rattle.filing_core.specs.Engines.{IsEngineOf};
ghost use Rattle.history_format.specs.JournalLines.{journal_text};
ghost use Rattle.filing.specs.Loads.{LoadsAndKeeps, MeansLoad, load_line, load_script, report_line};

use crate::fault::Fault;
use crate::files::named::{Named, OUTPUT, Reasons};
use crate::files::reports::{paths_of, read_reports, reports_given};
use crate::keys::drawn_keys;
use crate::reasons::echo::{Echo, Echoed};
use crate::reasons::explainer::Explainer;
use crate::runs::between::{Between, ExplainedRun};
use crate::runs::opening::{OpenedJournal, journal_at};
use crate::runs::with_journal::{run_with_journal, status_after};
use filing_args::{LoadWords, refuse_misfit_of_load};
use filing_core::Engine;
use journal::Device;
use journal_marks::MarkedJournal;
use oim_fact::NumericTable;
use oim_report::push_quoted;
use std::alloc::{AllocError, Global};
use std::io::Write;
use std::mem::forget;
use std::sync::Arc;

/// The text of a report, and the name under which it is loaded.
#[derive(Drop)]
pub(crate) struct NamedText {
    pub(crate) name: String,
    pub(crate) text: String,
}

/// Appends the line of a script that loads the text of a report under a name.
fn push_load(out: &mut String, name: &str, text: &str) -> Result<(), AllocError>
    ensures { OnOk result (string_bytes out.new ≡ string_bytes out.old ++ load_line name.now text.now) }
{
    out.push_str("[\"load\",")?;
    push_quoted(out, name)?;
    out.push_str(",")?;
    push_quoted(out, text)?;
    out.push_str("]")
}

/// Appends the line that loads a report, with the line feed that ends it. It means the load of just this name and this text.
fn push_report(out: &mut String, report: &NamedText) -> Result<(), AllocError>
    ensures text { OnOk result (string_bytes out.new ≡ string_bytes out.old ++ report_line report.now) }
    ensures means { OnOk result (MeansLoad (string_bytes report.now.name) (string_bytes report.now.text)) }
{
    push_load(out, report.name.as_str(), report.text.as_str())?;
    out.push_str("\n")
}

/// Appends the lines that load these reports.
fn push_reports(out: &mut String, reports: &[NamedText]) -> Result<(), AllocError>
    ensures { OnOk result (string_bytes out.new ≡ string_bytes out.old ++ load_script reports.now) }
{
    for report in reports {
        push_report(out, report)?;
    }
    Ok(())
}

/// The script that loads these reports.
fn script_of(alloc: Global, reports: &[NamedText]) -> Result<String, AllocError>
    ensures { IfOk result (λ script. string_bytes script ≡ load_script reports.now) }
{
    let mut script = String::new(alloc);
    push_reports(&mut script, reports)?;
    Ok(script)
}

/// Loads reports with a journal, from the history of an engine, writes the replies to a writer, and has them explained.
/// It gives the writer back, with how the run ended, unless there is no memory for the script.
fn load_reports<D: Device + Drop, W: Write + Drop>(
    alloc: Global,
    engine: Engine,
    journal: MarkedJournal<D>,
    explainer: Explainer,
    reports: Vec<NamedText>,
    writer: W,
    table: &Arc<NumericTable>,
) -> Result<(W, ExplainedRun<D>), Fault>
    requires kept { IsKept D.seen D.may_leave D.has_failed journal }
    requires goes_on { has_stopped journal ≡ false }
    ensures loaded { (h : History) → IsEngineOf h engine → kept (D.seen (device_of journal)) ≡ journal_text h
        → IfOk result (λ back. LoadsAndKeeps D.seen D.may_leave D.moment D.left_since (arc_value table.now) h
        reports.items (device_of journal) back.1.run (W.contents writer) (W.contents back.0)) }
    ensures kept { IfOk result (λ back. IsKept D.seen D.may_leave D.has_failed back.1.run.journal) }
{
    let script = match script_of(alloc, reports.as_slice()) {
        Ok(script) => script,
        Err(error) => {
            forget(engine);
            drop(journal);
            return Err(error.into());
        }
    };
    drop(reports);
    let Between { writer, left, .. } = run_with_journal(
        alloc,
        engine,
        journal,
        explainer,
        script.as_bytes(),
        writer,
        table,
        false,
    );
    Ok((writer, left))
}

/// The status of loads by their replies.
fn status_of(replies: &[u8]) -> u8 {
    let passed = replies.split(|byte| *byte == b'\n').all(|reply| reply.is_empty()
        || reply.starts_with(b"[\"loaded\","));
    if passed { 0 } else { 4 }
}

/// Loads the reports that the words name into the journal in a file. All of them are read before the first is loaded.
pub(crate) fn load_files(rt: &HostRuntime, given: &LoadWords<'_>) -> Result<u8, Fault> {
    refuse_misfit_of_load(rt, given)?;
    let reasons = Reasons::new(rt, true);
    let files = reports_given(rt, given.reports.as_slice(), reasons)?;
    let reports = read_reports(rt, &files, reasons)?;
    let keys = drawn_keys(rt, reasons)?;
    let OpenedJournal {
        opened: engine,
        journal,
        table,
    } = journal_at::<Engine>(
        rt,
        keys,
        given.journal,
        given.numeric.as_slice(),
        None,
        reasons,
    )?;
    let explainer = Explainer::of_reports(rt, &table, paths_of(rt.alloc(), files)?)?;
    let mut echo = Echo::new(rt.alloc(), true);
    let writer = Echoed::new(Named::new(rt.stdout(), OUTPUT, reasons), &mut echo);
    let (_, ran) = load_reports(
        rt.alloc(),
        engine,
        journal,
        explainer,
        reports,
        writer,
        &table,
    )?;
    status_after(ran, false)?;
    match echo.whole_text() {
        Some(replies) => Ok(status_of(replies)),
        None => Err(Fault::NoMemory),
    }
}
