//! The commands of the program, as `clap` takes them.
#![tactic(auto, unfolding(crate::proofs::OnLiterals::filing_args_on_literals))]

ghost use Rattle.std.specs.Prelude.{◌≡◌, IfOk, IsOkAnd, map};
ghost use Rattle.clap.specs.Words.{AddsSubcommand, app_of};
ghost use Rattle.filing_args.specs.Arguments.{rule_for};
ghost use Rattle.filing_args.specs.Words.{taking, run, load, check, show, diff, log, verify, history, seal, repair, inspect, threads, words, program};

use crate::arguments::{
    ALLOWING, AT, Argument, EARLIER, EVERY_REPLY, EXPLAIN, FACT, FIRST, FROM, HISTORY, IDENTIFIER,
    JOURNAL, JUDGED, KEEP, KEEPING, LATER, LOADED, NUMERIC, PLAIN, REPORT, REPORTS, SCRIPTS, SEAL,
    STORED, STRICT, SVG, VIEWED, clap_arg,
};
use crate::help::{
    BEGINNING, DIFFERENCES, INSPECTIONS, JOURNAL_VERDICTS, KEPT_HISTORIES, LINES, LOADS, REFUSALS,
    REPAIRS, SEALS, SESSIONS, THREADS, VERDICTS, VERSIONS,
};
use clap::Command;
use std::alloc::{AllocError, Global};

/// What `filing --version` tells, and what is written into each new journal. There was no release yet.
pub const VERSION: &str = "0.1.0";

/// A command that takes these arguments.
fn command_of<'a>(
    alloc: Global,
    name: &'a str,
    about: &'a str,
    help: &'a str,
    arguments: &[Argument],
) -> Result<Command<'a>, AllocError>
    ensures { IfOk result (λ c. app_of c ≡ taking name.entry.now (map rule_for arguments.now)) }
{
    let mut command = Command::new(alloc, name).about(about).after_long_help(help);
    for argument in arguments {
        command = command.arg(clap_arg(alloc, *argument))?;
    }
    Ok(command)
}

/// The command that runs a script.
fn run_command<'a>(alloc: Global) -> Result<Command<'a>, AllocError>
    ensures { IfOk result (λ c. app_of c ≡ run) }
{
    let about = "Runs a script of JSON lines from standard input";
    let arguments = [
        NUMERIC,
        HISTORY,
        FROM,
        JOURNAL,
        EVERY_REPLY,
        EXPLAIN,
        STRICT,
    ];
    command_of(alloc, "run", about, LINES, &arguments)
}

/// The command that loads reports into a journal.
fn load_command<'a>(alloc: Global) -> Result<Command<'a>, AllocError>
    ensures { IfOk result (λ c. app_of c ≡ load) }
{
    let about = "Loads reports from files into a journal";
    command_of(alloc, "load", about, LOADS, &[NUMERIC, LOADED, KEEPING])
}

/// The command that judges a history.
fn check_command<'a>(alloc: Global) -> Result<Command<'a>, AllocError>
    ensures { IfOk result (λ c. app_of c ≡ check) }
{
    let about = "Judges a history: whether each reply is the one that may be";
    command_of(alloc, "check", about, VERDICTS, &[NUMERIC, JUDGED, EXPLAIN])
}

/// The command that shows reports of a history.
fn show_command<'a>(alloc: Global) -> Result<Command<'a>, AllocError>
    ensures { IfOk result (λ c. app_of c ≡ show) }
{
    let about = "Shows a report, or all names, as a version of a history has them";
    let arguments = [NUMERIC, VIEWED, REPORT, AT];
    command_of(alloc, "show", about, VERSIONS, &arguments)
}

/// The command that compares two versions of a history.
fn diff_command<'a>(alloc: Global) -> Result<Command<'a>, AllocError>
    ensures { IfOk result (λ c. app_of c ≡ diff) }
{
    let about = "Prints what differs between two versions of a history";
    let arguments = [NUMERIC, VIEWED, EARLIER, LATER, REPORT];
    command_of(alloc, "diff", about, DIFFERENCES, &arguments)
}

/// The command that prints the sessions of a history.
fn log_command<'a>(alloc: Global) -> Result<Command<'a>, AllocError>
    ensures { IfOk result (λ c. app_of c ≡ log) }
{
    let about = "Prints each session of a history, or each change of a fact";
    let arguments = [NUMERIC, VIEWED, REPORT, IDENTIFIER, FACT, SVG, FIRST];
    command_of(alloc, "log", about, SESSIONS, &arguments)
}

/// The command that judges a journal.
fn verify_command<'a>(alloc: Global) -> Result<Command<'a>, AllocError>
    ensures { IfOk result (λ c. app_of c ≡ verify) }
{
    let about = "Judges a journal: whether it is whole, and its history lawful";
    let arguments = [STORED, SEAL, EXPLAIN];
    command_of(alloc, "verify", about, JOURNAL_VERDICTS, &arguments)
}

/// The command that writes out the history of a journal.
fn history_command<'a>(alloc: Global) -> Result<Command<'a>, AllocError>
    ensures { IfOk result (λ c. app_of c ≡ history) }
{
    let about = "Writes out the history that a journal keeps";
    command_of(alloc, "history", about, KEPT_HISTORIES, &[STORED])
}

/// The command that seals a journal.
fn seal_command<'a>(alloc: Global) -> Result<Command<'a>, AllocError>
    ensures { IfOk result (λ c. app_of c ≡ seal) }
{
    let about = "Seals a journal: prints digits by which a later change is noticed";
    command_of(alloc, "seal", about, SEALS, &[STORED])
}

/// The command that repairs a journal.
fn repair_command<'a>(alloc: Global) -> Result<Command<'a>, AllocError>
    ensures { IfOk result (λ c. app_of c ≡ repair) }
{
    let about = "Keeps the first batches of a journal, and puts the rest beside it";
    command_of(alloc, "repair", about, REPAIRS, &[STORED, KEEP])
}

/// The command that inspects reports.
fn inspect_command<'a>(alloc: Global) -> Result<Command<'a>, AllocError>
    ensures { IfOk result (λ c. app_of c ≡ inspect) }
{
    let about = "Prints every fault and every duplicate of reports in files";
    let arguments = [NUMERIC, REPORTS, ALLOWING, PLAIN];
    command_of(alloc, "inspect", about, INSPECTIONS, &arguments)
}

/// The command that runs scripts in threads.
fn threads_command<'a>(alloc: Global) -> Result<Command<'a>, AllocError>
    ensures { IfOk result (λ c. app_of c ≡ threads) }
{
    let about = "Runs scripts of JSON lines from files, each in its own thread";
    let arguments = [NUMERIC, SCRIPTS, HISTORY, FROM, JOURNAL, EXPLAIN, STRICT];
    command_of(alloc, "threads", about, THREADS, &arguments)
}

/// The command that tells the words of refusals.
fn words_command<'a>(alloc: Global) -> Result<Command<'a>, AllocError>
    ensures { IfOk result (λ c. app_of c ≡ words) }
{
    let about = "Prints the words of refusals, each with its meaning";
    command_of(alloc, "words", about, REFUSALS, &[])
}

/// A command with another below it, where that could be made.
fn with_below<'a>(
    command: Command<'a>,
    below: Result<Command<'a>, AllocError>,
) -> Result<Command<'a>, AllocError>
    ensures { IfOk result (λ r. IsOkAnd below.entry (λ b. AddsSubcommand command.entry b r)) }
{
    match below {
        Ok(below) => command.subcommand(below),
        Err(error) => {
            drop(command);
            Err(error)
        }
    }
}

/// The commands that are there.
pub(crate) fn command<'a>(alloc: Global) -> Result<Command<'a>, AllocError>
    ensures { IfOk result (λ c. app_of c ≡ program) }
{
    let bare = Command::new(alloc, "filing")
        .about("A repository of company filing reports in xBRL-JSON")
        .version(VERSION)
        .after_long_help(BEGINNING)
        .subcommand_required(true)
        .arg_required_else_help(false);
    let with_run = with_below(bare, run_command(alloc))?;
    let with_load = with_below(with_run, load_command(alloc))?;
    let with_threads = with_below(with_load, threads_command(alloc))?;
    let with_check = with_below(with_threads, check_command(alloc))?;
    let with_show = with_below(with_check, show_command(alloc))?;
    let with_diff = with_below(with_show, diff_command(alloc))?;
    let with_log = with_below(with_diff, log_command(alloc))?;
    let with_verify = with_below(with_log, verify_command(alloc))?;
    let with_history = with_below(with_verify, history_command(alloc))?;
    let with_seal = with_below(with_history, seal_command(alloc))?;
    let with_repair = with_below(with_seal, repair_command(alloc))?;
    let with_inspect = with_below(with_repair, inspect_command(alloc))?;
    with_below(with_inspect, words_command(alloc))
}
