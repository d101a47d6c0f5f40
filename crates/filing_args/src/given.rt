//! What the words that `clap` has taken ask for.

ghost use Rattle.std.specs.Prelude.{◌≡◌, IfOk, Some};
ghost use Rattle.clap.specs.Walk.{texts};
ghost use Rattle.clap.specs.Words.{all_of, first_of, found_of, rows_of, subcommand_rows_of};
ghost use Rattle.filing_args.specs.Words.{HoldsRun, HoldsLoad, HoldsCheck, HoldsShow, HoldsDiff, HoldsLog, HoldsVerify, HoldsHistory, HoldsSeal, HoldsRepair, HoldsInspect, HoldsThreads, IsOrdered, is_given, tables_of, text_of};

use crate::fault::WordsFault;
use crate::invocation::{
    CheckWords, DiffWords, HistoryWords, InspectWords, Invocation, LoadWords, LogWords,
    RepairWords, RunWords, SealWords, ShowWords, ThreadsWords, VerifyWords,
};
use clap::ArgMatches;
use std::alloc::{AllocError, Global};

/// The value of an argument, where it has one.
fn value_of<'a>(command: &ArgMatches<'a>, id: &str) -> Option<&'a str>
    ensures { text_of result ≡ first_of id.now (rows_of (found_of command.now)) }
{
    command.get_str(id)
}

/// Whether a flag was given.
fn is_given(command: &ArgMatches<'_>, id: &str) -> bool
    ensures { result ≡ is_given id.now (rows_of (found_of command.now)) }
{
    match value_of(command, id) {
        Some(text) => text == "true",
        None => false,
    }
}

/// The value of an argument without which `clap` takes no words.
fn needed_value<'a>(command: &ArgMatches<'a>, id: &str) -> Result<&'a str, WordsFault>
    ensures { IfOk result (λ word. Some word.now ≡ first_of id.now (rows_of (found_of command.now))) }
{
    match value_of(command, id) {
        Some(word) => Ok(word),
        None => Err(WordsFault::Refused),
    }
}

/// The values of an argument without which `clap` takes no words.
fn all_needed_values<'a>(
    alloc: Global,
    command: &ArgMatches<'a>,
    id: &str,
) -> Result<Vec<&'a str>, WordsFault>
    ensures { IfOk result (λ given. Some (texts given.items) ≡ all_of id.now (rows_of (found_of command.now))) }
{
    match command.get_strs(id) {
        Some(words) => Ok(words.to_vec(alloc)?),
        None => Err(WordsFault::Refused),
    }
}

/// The files of numeric tables that a command was given.
fn tables_given<'a>(alloc: Global, command: &ArgMatches<'a>) -> Result<Vec<&'a str>, AllocError>
    ensures { IfOk result (λ files. texts files.items ≡ tables_of (rows_of (found_of command.now))) }
{
    match command.get_strs("numeric") {
        Some(files) => files.to_vec(alloc),
        None => Ok(Vec::new(alloc)),
    }
}

/// What `run` was given.
fn run_words<'a>(alloc: Global, run: &ArgMatches<'a>) -> Result<RunWords<'a>, WordsFault>
    ensures { IfOk result (λ given. HoldsRun given (rows_of (found_of run.now))) }
{
    Ok(RunWords {
        numeric: tables_given(alloc, run)?,
        history: value_of(run, "history"),
        from: value_of(run, "from"),
        journal: value_of(run, "journal"),
        every_reply: is_given(run, "every_reply"),
        explain: is_given(run, "explain"),
        strict: is_given(run, "strict"),
    })
}

/// What `load` was given.
fn load_words<'a>(alloc: Global, load: &ArgMatches<'a>) -> Result<LoadWords<'a>, WordsFault>
    ensures { IfOk result (λ given. HoldsLoad given (rows_of (found_of load.now))) }
{
    Ok(LoadWords {
        numeric: tables_given(alloc, load)?,
        journal: needed_value(load, "keeping")?,
        reports: all_needed_values(alloc, load, "loaded")?,
    })
}

/// What `check` was given.
fn check_words<'a>(alloc: Global, check: &ArgMatches<'a>) -> Result<CheckWords<'a>, WordsFault>
    ensures { IfOk result (λ given. HoldsCheck given (rows_of (found_of check.now))) }
{
    Ok(CheckWords {
        numeric: tables_given(alloc, check)?,
        history: needed_value(check, "judged")?,
        explain: is_given(check, "explain"),
    })
}

/// What `show` was given.
fn show_words<'a>(alloc: Global, show: &ArgMatches<'a>) -> Result<ShowWords<'a>, WordsFault>
    ensures { IfOk result (λ given. HoldsShow given (rows_of (found_of show.now))) }
{
    Ok(ShowWords {
        numeric: tables_given(alloc, show)?,
        version: value_of(show, "at"),
        history: needed_value(show, "viewed")?,
        report: value_of(show, "report"),
    })
}

/// What `diff` was given.
fn diff_words<'a>(alloc: Global, diff: &ArgMatches<'a>) -> Result<DiffWords<'a>, WordsFault>
    ensures { IfOk result (λ given. HoldsDiff given (rows_of (found_of diff.now))) }
{
    Ok(DiffWords {
        numeric: tables_given(alloc, diff)?,
        history: needed_value(diff, "viewed")?,
        from: needed_value(diff, "earlier")?,
        to: needed_value(diff, "later")?,
        report: value_of(diff, "report"),
    })
}

/// What `log` was given.
fn log_words<'a>(alloc: Global, log: &ArgMatches<'a>) -> Result<LogWords<'a>, WordsFault>
    ensures { IfOk result (λ given. HoldsLog given (rows_of (found_of log.now))) }
{
    Ok(LogWords {
        numeric: tables_given(alloc, log)?,
        history: needed_value(log, "viewed")?,
        report: value_of(log, "report"),
        identifier: value_of(log, "identifier"),
        fact: is_given(log, "fact"),
        svg: is_given(log, "svg"),
        first: value_of(log, "first"),
    })
}

/// What `verify` was given.
fn verify_words<'a>(verify: &ArgMatches<'a>) -> Result<VerifyWords<'a>, WordsFault>
    ensures { IfOk result (λ given. HoldsVerify given (rows_of (found_of verify.now))) }
{
    Ok(VerifyWords {
        journal: needed_value(verify, "stored")?,
        seal: value_of(verify, "seal"),
        explain: is_given(verify, "explain"),
    })
}

/// What `history` was given.
fn history_words<'a>(history: &ArgMatches<'a>) -> Result<HistoryWords<'a>, WordsFault>
    ensures { IfOk result (λ given. HoldsHistory given (rows_of (found_of history.now))) }
{
    Ok(HistoryWords {
        journal: needed_value(history, "stored")?,
    })
}

/// What `seal` was given.
fn seal_words<'a>(seal: &ArgMatches<'a>) -> Result<SealWords<'a>, WordsFault>
    ensures { IfOk result (λ given. HoldsSeal given (rows_of (found_of seal.now))) }
{
    Ok(SealWords {
        journal: needed_value(seal, "stored")?,
    })
}

/// What `repair` was given.
fn repair_words<'a>(repair: &ArgMatches<'a>) -> Result<RepairWords<'a>, WordsFault>
    ensures { IfOk result (λ given. HoldsRepair given (rows_of (found_of repair.now))) }
{
    Ok(RepairWords {
        journal: needed_value(repair, "stored")?,
        keep: needed_value(repair, "keep")?,
    })
}

/// What `inspect` was given.
fn inspect_words<'a>(
    alloc: Global,
    inspect: &ArgMatches<'a>,
) -> Result<InspectWords<'a>, WordsFault>
    ensures { IfOk result (λ given. HoldsInspect given (rows_of (found_of inspect.now))) }
{
    Ok(InspectWords {
        numeric: tables_given(alloc, inspect)?,
        reports: all_needed_values(alloc, inspect, "reports")?,
        allowing: value_of(inspect, "allowing"),
        text: is_given(inspect, "plain"),
    })
}

/// What `threads` was given.
fn threads_words<'a>(
    alloc: Global,
    threads: &ArgMatches<'a>,
) -> Result<ThreadsWords<'a>, WordsFault>
    ensures { IfOk result (λ given. HoldsThreads given (rows_of (found_of threads.now))) }
{
    Ok(ThreadsWords {
        numeric: tables_given(alloc, threads)?,
        history: value_of(threads, "history"),
        from: value_of(threads, "from"),
        journal: value_of(threads, "journal"),
        scripts: all_needed_values(alloc, threads, "scripts")?,
        explain: is_given(threads, "explain"),
        strict: is_given(threads, "strict"),
    })
}

/// What the command of this name asks for.
fn command_given<'a>(
    alloc: Global,
    name: &str,
    command: &ArgMatches<'a>,
) -> Result<Invocation<'a>, WordsFault>
    ensures { IfOk result (IsOrdered (Some (name.now, rows_of (found_of command.now)))) }
{
    match name {
        "run" => Ok(Invocation::Run(run_words(alloc, command)?)),
        "load" => Ok(Invocation::Load(load_words(alloc, command)?)),
        "check" => Ok(Invocation::Check(check_words(alloc, command)?)),
        "show" => Ok(Invocation::Show(show_words(alloc, command)?)),
        "diff" => Ok(Invocation::Diff(diff_words(alloc, command)?)),
        "log" => Ok(Invocation::Log(log_words(alloc, command)?)),
        "verify" => Ok(Invocation::Verify(verify_words(command)?)),
        "history" => Ok(Invocation::History(history_words(command)?)),
        "seal" => Ok(Invocation::Seal(seal_words(command)?)),
        "repair" => Ok(Invocation::Repair(repair_words(command)?)),
        "inspect" => Ok(Invocation::Inspect(inspect_words(alloc, command)?)),
        "threads" => Ok(Invocation::Threads(threads_words(alloc, command)?)),
        "words" => Ok(Invocation::Explain),
        _ => Err(WordsFault::Refused),
    }
}

/// What the words that `clap` has taken ask for. It takes none without a command.
pub(crate) fn invocation_of<'a>(
    alloc: Global,
    matches: &ArgMatches<'a>,
) -> Result<Invocation<'a>, WordsFault>
    ensures { IfOk result (IsOrdered (subcommand_rows_of matches.now)) }
{
    match matches.subcommand() {
        Some((name, command)) => command_given(alloc, name, command),
        None => Err(WordsFault::Refused),
    }
}
