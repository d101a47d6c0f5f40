//! Words of commands that `clap` takes one by one, and that do not go together.

use crate::fault::WordsFault;
use crate::invocation::{InspectWords, LoadWords, LogWords, RunWords, ThreadsWords};

/// Refuses words for a reason, and says it as `clap` does.
fn refuse(rt: &impl Eprint, reason: &str) -> Result<(), WordsFault> {
    let _ = eprintln!(rt; "error: {reason}\n\nFor more information, try '--help'.");
    Err(WordsFault::Refused)
}

/// Whether a word names standard input.
fn is_input(word: &str) -> bool {
    word == "-"
}

/// Whether one of these words names standard input.
fn has_input(words: &[&str]) -> bool {
    words.iter().any(|word| is_input(word))
}

/// Whether a report to load comes from standard input.
fn loads_input(word: &str) -> bool {
    match word.split_once('=') {
        Some((_, file)) => is_input(file),
        None => false,
    }
}

/// Refuses a numeric table from standard input where something else comes from there.
fn refuse_table(rt: &impl Eprint, tables: &[&str], is_taken: bool) -> Result<(), WordsFault> {
    let reason =
        "the argument '--numeric -' cannot be used: standard input is read as something else";
    if is_taken && has_input(tables) {
        return refuse(rt, reason);
    }
    Ok(())
}

/// Refuses a history that is to be written beside a journal.
fn refuse_history(
    rt: &impl Eprint,
    journal: Option<&str>,
    history: Option<&str>,
) -> Result<(), WordsFault> {
    if journal.is_some() && history.is_some() {
        return refuse(
            rt,
            "the argument '--history <FILE>' cannot be used with '--journal <FILE>'",
        );
    }
    Ok(())
}

/// Refuses words of a run that do not go together.
pub fn refuse_misfit(rt: &impl Eprint, given: &RunWords<'_>) -> Result<(), WordsFault> {
    refuse_table(rt, given.numeric.as_slice(), true)?;
    if given.journal.is_none() && given.every_reply {
        return refuse(rt, "the argument '--every-reply' wants '--journal <FILE>'");
    }
    refuse_history(rt, given.journal, given.history)
}

/// Refuses words of scripts in threads that do not go together.
pub fn refuse_misfit_of_threads(
    rt: &impl Eprint,
    given: &ThreadsWords<'_>,
) -> Result<(), WordsFault> {
    refuse_history(rt, given.journal, given.history)?;
    if given.journal.is_some() && given.from.is_some() {
        return refuse(
            rt,
            "the argument '--from <HISTORY>' cannot be used with '--journal <FILE>'",
        );
    }
    Ok(())
}

/// Refuses a fact that is named without its argument, or in part.
fn refuse_part_of_fact(rt: &impl Eprint, given: &LogWords<'_>) -> Result<(), WordsFault> {
    if given.fact && given.identifier.is_none() {
        return refuse(rt, "the argument '--fact' wants 'HISTORY REPORT ID'");
    }
    if !given.fact && given.report.is_some() {
        return refuse(rt, "the arguments '[REPORT] [ID]' want '--fact'");
    }
    Ok(())
}

/// Refuses words of a log that do not go together.
pub fn refuse_misfit_of_log(rt: &impl Eprint, given: &LogWords<'_>) -> Result<(), WordsFault> {
    refuse_part_of_fact(rt, given)?;
    if given.fact && given.svg {
        return refuse(rt, "the argument '--fact' cannot be used with '--svg'");
    }
    if given.first.is_some() && !given.svg {
        return refuse(rt, "the argument '--first <SESSION>' wants '--svg'");
    }
    Ok(())
}

/// Refuses words of an inspection that do not go together.
pub fn refuse_misfit_of_inspect(
    rt: &impl Eprint,
    given: &InspectWords<'_>,
) -> Result<(), WordsFault> {
    let is_taken = has_input(given.reports.as_slice());
    refuse_table(rt, given.numeric.as_slice(), is_taken)
}

/// Refuses words of reports to load that do not go together.
pub fn refuse_misfit_of_load(rt: &impl Eprint, given: &LoadWords<'_>) -> Result<(), WordsFault> {
    if has_input(given.reports.as_slice()) {
        return refuse(rt, "standard input has no name: write 'NAME=-'");
    }
    let is_taken = given.reports.iter().any(|word| loads_input(word));
    refuse_table(rt, given.numeric.as_slice(), is_taken)
}
