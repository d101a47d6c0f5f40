//! Why lines of scripts in threads were refused, reported once all have ended.

use crate::fault::Fault;
use crate::files::named::Reasons;
use crate::reasons::explainer::Explainer;
use filing_args::ThreadsWords;
use filing_cli::is_blank;
use oim_fact::NumericTable;
use script_reasons::tells_mistake;
use std::alloc::Global;
use std::str::from_utf8;
use std::sync::Arc;

/// Shows the lines of a script to an explainer, each with the next of the replies, and gives how many replies there were.
fn show_script(
    alloc: Global,
    explainer: &mut Explainer,
    script: &[u8],
    replies: &[&[u8]],
) -> usize {
    let mut shown = 0usize;
    for (place, line) in script.split(|byte| *byte == b'\n').enumerate() {
        if is_blank(line) {
            continue;
        }
        let Some(reply) = replies.get(shown) else {
            return shown;
        };
        shown = shown.saturating_add(1);
        if let Ok(reply) = from_utf8(reply) {
            explainer.note(alloc, place as u128 + 1, line, reply, tells_mistake(reply));
        }
    }
    shown
}

/// Explains the lines of the scripts by the replies that were written, script by script, and gives the status.
pub(crate) fn explain_scripts(
    rt: &HostRuntime,
    table: &Arc<NumericTable>,
    given: &ThreadsWords<'_>,
    reasons: Reasons,
    scripts: &[Vec<u8>],
    written: &[u8],
) -> Result<u8, Fault> {
    let replies: Vec<&[u8]> = written.split(|byte| *byte == b'\n').collect(rt.alloc())?;
    let mut rest = replies.as_slice();
    let mut status = 0;
    for (script, path) in scripts.iter().zip(given.scripts.iter()) {
        let mut explainer = Explainer::of_script(rt, table, reasons.are_told(), path)?;
        let shown = show_script(rt.alloc(), &mut explainer, script, rest);
        rest = rest.get(shown..).unwrap_or(&[]);
        explainer.tell_end();
        status = status.max(explainer.status(given.strict));
    }
    Ok(status)
}
