//! What the words of the command line ask for.

/// What `run` was given.
#[derive(Drop)]
pub struct RunWords<'a> {
    /// The files of numeric tables, in their order.
    pub numeric: Vec<&'a str>,
    /// The file to which the history goes.
    pub history: Option<&'a str>,
    /// The file of a history to go on from.
    pub from: Option<&'a str>,
    /// The file of a journal.
    pub journal: Option<&'a str>,
    /// Whether each reply waits until its entry is in the journal.
    pub every_reply: bool,
    /// Whether to print why lines are refused.
    pub explain: bool,
    /// Whether lines that are malformed or out of place give a status of their own.
    pub strict: bool,
}

/// What `load` was given.
#[derive(Drop)]
pub struct LoadWords<'a> {
    /// The files of numeric tables, in their order.
    pub numeric: Vec<&'a str>,
    /// The file of a journal.
    pub journal: &'a str,
    /// The reports in their order, as they were written: names with files, or folders.
    pub reports: Vec<&'a str>,
}

/// What `check` was given.
#[derive(Drop)]
pub struct CheckWords<'a> {
    /// The files of numeric tables, in their order.
    pub numeric: Vec<&'a str>,
    /// The file of the history.
    pub history: &'a str,
    /// Whether to print why the history departs.
    pub explain: bool,
}

/// What `show` was given.
#[derive(Drop)]
pub struct ShowWords<'a> {
    /// The files of numeric tables, in their order.
    pub numeric: Vec<&'a str>,
    /// The number of a version, as it was written.
    pub version: Option<&'a str>,
    /// The file of the history.
    pub history: &'a str,
    /// The name of a report.
    pub report: Option<&'a str>,
}

/// What `diff` was given.
#[derive(Drop)]
pub struct DiffWords<'a> {
    /// The files of numeric tables, in their order.
    pub numeric: Vec<&'a str>,
    /// The file of the history.
    pub history: &'a str,
    /// The number of the version from which the difference leads, as it was written.
    pub from: &'a str,
    /// The number of the version to which it leads, as it was written.
    pub to: &'a str,
    /// The name of a report.
    pub report: Option<&'a str>,
}

/// What `log` was given.
#[derive(Drop)]
pub struct LogWords<'a> {
    /// The files of numeric tables, in their order.
    pub numeric: Vec<&'a str>,
    /// The file of the history.
    pub history: &'a str,
    /// The report of the fact whose changes are printed.
    pub report: Option<&'a str>,
    /// The identifier of that fact.
    pub identifier: Option<&'a str>,
    /// Whether the changes of a fact are printed.
    pub fact: bool,
    /// Whether the log is drawn.
    pub svg: bool,
    /// The number of the first session that is drawn, as it was written.
    pub first: Option<&'a str>,
}

/// What `verify` was given.
#[derive(Drop)]
pub struct VerifyWords<'a> {
    /// The file of the journal.
    pub journal: &'a str,
    /// The digits of a seal from which the journal has to go on, as they were written.
    pub seal: Option<&'a str>,
    /// Whether to print why the journal departs.
    pub explain: bool,
}

/// What `history` was given.
#[derive(Drop)]
pub struct HistoryWords<'a> {
    /// The file of the journal.
    pub journal: &'a str,
}

/// What `seal` was given.
#[derive(Drop)]
pub struct SealWords<'a> {
    /// The file of the journal.
    pub journal: &'a str,
}

/// What `repair` was given.
#[derive(Drop)]
pub struct RepairWords<'a> {
    /// The file of the journal.
    pub journal: &'a str,
    /// The number of the last batch that is kept, as it was written.
    pub keep: &'a str,
}

/// What `inspect` was given.
#[derive(Drop)]
pub struct InspectWords<'a> {
    /// The files of numeric tables, in their order.
    pub numeric: Vec<&'a str>,
    /// The files of the reports, in their order.
    pub reports: Vec<&'a str>,
    /// The duplicates that are allowed in place of those that a report declares, as they were written.
    pub allowing: Option<&'a str>,
    /// Whether lines for people are wanted, and not JSON.
    pub text: bool,
}

/// What `threads` was given.
#[derive(Drop)]
pub struct ThreadsWords<'a> {
    /// The files of numeric tables, in their order.
    pub numeric: Vec<&'a str>,
    /// The file to which the history goes.
    pub history: Option<&'a str>,
    /// The file of a history to go on from.
    pub from: Option<&'a str>,
    /// The file of a journal.
    pub journal: Option<&'a str>,
    /// The files of the scripts, in their order.
    pub scripts: Vec<&'a str>,
    /// Whether to print why lines are refused.
    pub explain: bool,
    /// Whether lines that are malformed or out of place give a status of their own.
    pub strict: bool,
}

/// What the words of the command line ask for.
#[derive(Drop)]
pub enum Invocation<'a> {
    /// Run the script that comes on standard input.
    Run(RunWords<'a>),
    /// Load reports from files into a journal.
    Load(LoadWords<'a>),
    /// Judge the history in a file.
    Check(CheckWords<'a>),
    /// Show a report as a version of the history in a file has it, or which reports it has.
    Show(ShowWords<'a>),
    /// Tell what differs between two versions of a history.
    Diff(DiffWords<'a>),
    /// Print the sessions of a history.
    Log(LogWords<'a>),
    /// Judge the journal in a file.
    Verify(VerifyWords<'a>),
    /// Write out the history that a journal keeps.
    History(HistoryWords<'a>),
    /// Print by what a journal is known again.
    Seal(SealWords<'a>),
    /// Keep the first batches of a journal alone.
    Repair(RepairWords<'a>),
    /// Tell all that is wrong with reports, and their duplicates.
    Inspect(InspectWords<'a>),
    /// Run the scripts in some files, each in a thread of its own.
    Threads(ThreadsWords<'a>),
    /// Tell the words by which lines are refused.
    Explain,
    /// Help or the version was asked for, and it was shown.
    Shown,
}
