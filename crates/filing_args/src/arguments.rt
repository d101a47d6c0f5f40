//! The arguments of the commands.

ghost use Rattle.std.specs.Prelude.{◌≡◌, false};
ghost use Rattle.clap.specs.Words.{rule_of};
ghost use Rattle.filing_args.specs.Arguments.{rule_for};

use clap::{Arg, ArgAction};
use std::alloc::Global;

/// An argument: its identifier, how it is written, and what help says of it.
#[derive(Clone, Copy)]
pub(crate) struct Argument {
    pub(crate) id: &'static str,
    pub(crate) form: Form,
    pub(crate) help: &'static str,
}

/// How an argument is written: by its long word, where it has one, and then by what help calls its value.
#[derive(Clone, Copy)]
pub(crate) enum Form {
    Flag(&'static str),
    /// An option that takes a value.
    Optional(&'static str, &'static str),
    /// One that takes a value each time it is given.
    Repeated(&'static str, &'static str),
    /// One that has to be there.
    Needed(&'static str, &'static str),
    /// A word that may be missing.
    OptionalWord(&'static str),
    /// A word that has to be there.
    Word(&'static str),
    /// Words of which there has to be one.
    Words(&'static str),
}

/// The argument as `clap` takes it.
pub(crate) fn clap_arg<'a>(alloc: Global, argument: Argument) -> Arg<'a>
    ensures rule { rule_of result ≡ rule_for argument }
    ensures local { result.global ≡ false }
{
    let arg = Arg::new(alloc, argument.id).help(argument.help);
    match argument.form {
        Form::Flag(long) => arg.long(long).action(ArgAction::SetTrue),
        Form::Optional(long, value) => arg.long(long).value_name(value).action(ArgAction::Set),
        Form::Repeated(long, value) => arg.long(long).value_name(value).action(ArgAction::Append),
        Form::Needed(long, value) => arg
            .long(long)
            .value_name(value)
            .action(ArgAction::Set)
            .required(true),
        Form::OptionalWord(value) => arg.value_name(value).action(ArgAction::Set),
        Form::Word(value) => arg.value_name(value).action(ArgAction::Set).required(true),
        Form::Words(value) => arg
            .value_name(value)
            .action(ArgAction::Append)
            .required(true),
    }
}

/// The files of numeric tables.
pub(crate) const NUMERIC: Argument = Argument {
    id: "numeric",
    form: Form::Repeated("numeric", "FILE"),
    help: "Numeric concepts, one a line: URI, space, local name",
};

/// The file to which a history is to be written.
pub(crate) const HISTORY: Argument = Argument {
    id: "history",
    form: Form::Optional("history", "FILE"),
    help: "Where the history goes once the script has ended",
};

/// The file of a history to go on from.
pub(crate) const FROM: Argument = Argument {
    id: "from",
    form: Form::Optional("from", "HISTORY"),
    help: "A history or journal to go on from, which stays as it is",
};

/// The file of a journal.
pub(crate) const JOURNAL: Argument = Argument {
    id: "journal",
    form: Form::Optional("journal", "FILE"),
    help: "A journal to go on from: what is committed is kept in it",
};

/// The file of a journal, where there has to be one.
pub(crate) const KEEPING: Argument = Argument {
    id: "keeping",
    form: Form::Needed("journal", "FILE"),
    help: "The journal in which the reports are kept",
};

/// The reports that are to be loaded.
pub(crate) const LOADED: Argument = Argument {
    id: "loaded",
    form: Form::Words("NAME=REPORT"),
    help: "A name and the file of a report, - for standard input; or a folder",
};

/// The file of a journal that is read, or repaired.
pub(crate) const STORED: Argument = Argument {
    id: "stored",
    form: Form::Word("JOURNAL"),
    help: "A journal, as `run --journal` keeps it",
};

/// The digits of a seal.
pub(crate) const SEAL: Argument = Argument {
    id: "seal",
    form: Form::Optional("seal", "HEX"),
    help: "The 64 digits of a seal that the journal has to go on from",
};

/// The number of the last batch that is kept.
pub(crate) const KEEP: Argument = Argument {
    id: "keep",
    form: Form::Needed("keep", "N"),
    help: "The number of the last batch that is kept",
};

/// Each reply waits until its entry is in the journal.
pub(crate) const EVERY_REPLY: Argument = Argument {
    id: "every_reply",
    form: Form::Flag("every-reply"),
    help: "With a journal: each reply waits for its entry",
};

/// Asks for reasons.
pub(crate) const EXPLAIN: Argument = Argument {
    id: "explain",
    form: Form::Flag("explain"),
    help: "Says on standard error why, line by line",
};

/// A run ends with a status of its own where a line was refused that should not have been.
pub(crate) const STRICT: Argument = Argument {
    id: "strict",
    form: Form::Flag("strict"),
    help: "Status 5 where a line was malformed or out of place",
};

/// The file of the history that is to be judged.
pub(crate) const JUDGED: Argument = Argument {
    id: "judged",
    form: Form::Word("HISTORY"),
    help: "The history to be judged, as `run --history` writes it",
};

/// The file of the history of which something is to be shown.
pub(crate) const VIEWED: Argument = Argument {
    id: "viewed",
    form: Form::Word("HISTORY"),
    help: "A history, as `run --history` writes it, or a journal",
};

/// The name of a report that is to be shown.
pub(crate) const REPORT: Argument = Argument {
    id: "report",
    form: Form::OptionalWord("REPORT"),
    help: "The name of a report; without it, of all",
};

/// A version by its number.
pub(crate) const AT: Argument = Argument {
    id: "at",
    form: Form::Optional("at", "VERSION"),
    help: "The version by its number; without it the last one",
};

/// The number of the version from which a difference leads.
pub(crate) const EARLIER: Argument = Argument {
    id: "earlier",
    form: Form::Word("FROM"),
    help: "The number of a version",
};

/// The number of the version to which a difference leads.
pub(crate) const LATER: Argument = Argument {
    id: "later",
    form: Form::Word("TO"),
    help: "The number of a version that it is compared with",
};

/// The changes of one fact are printed.
pub(crate) const FACT: Argument = Argument {
    id: "fact",
    form: Form::Flag("fact"),
    help: "Prints each change of one fact, and not the sessions",
};

/// The identifier of that fact.
pub(crate) const IDENTIFIER: Argument = Argument {
    id: "identifier",
    form: Form::OptionalWord("ID"),
    help: "The identifier of a fact in the report",
};

/// The log of sessions is drawn.
pub(crate) const SVG: Argument = Argument {
    id: "svg",
    form: Form::Flag("svg"),
    help: "Writes a picture of at most 200 sessions, as SVG",
};

/// The first session of a picture by its number.
pub(crate) const FIRST: Argument = Argument {
    id: "first",
    form: Form::Optional("first", "SESSION"),
    help: "The first session of the picture, by its number",
};

/// The files of the reports that are to be inspected.
pub(crate) const REPORTS: Argument = Argument {
    id: "reports",
    form: Form::Words("REPORT"),
    help: "The file of a report in xBRL-JSON; - is standard input",
};

/// Which duplicates are allowed, whatever a report declares.
pub(crate) const ALLOWING: Argument = Argument {
    id: "allowing",
    form: Form::Optional("as", "DUPLICATES"),
    help: "What is allowed: none, complete, consistent or all",
};

/// Lines for people are written.
pub(crate) const PLAIN: Argument = Argument {
    id: "plain",
    form: Form::Flag("text"),
    help: "Writes lines for people, and not JSON",
};

/// The files of the scripts that are to be run in threads.
pub(crate) const SCRIPTS: Argument = Argument {
    id: "scripts",
    form: Form::Words("SCRIPT"),
    help: "A script of JSON lines, for a thread of its own; up to 16",
};
