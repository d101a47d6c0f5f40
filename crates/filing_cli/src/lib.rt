//! Not the command line, but the names that other programs call: they run scripts, alone and in threads, and judge histories.
//!
//! The crate hands these names on, and adds none:
//!
//! - `script_runs` runs a script, writes its history, and judges the histories of others;
//! - `filing_threads` runs several scripts at once;
//! - `line_io` has what they read from and write to.
//!
//! It knows nothing of files, or of the words of a command line, which `filing_args` reads.
#![tactic(auto)]

pub use filing_threads::{
    DeepLine, JournaledFault, JournaledThreads, ThreadsFault, ThreadsOnHistory, Watch, run_threads,
    run_threads_on_history, run_threads_with_journal,
};
pub use line_io::{
    Failed, FromReader, Machine, MemoryIn, MemoryOut, ScriptFault, Sink, Source, ToWriter,
    is_blank, run, write_all,
};
pub use script_runs::{
    EntryFile, JournaledRun, KeptEntries, Nowhere, Observes, OpenHistoryFault, READS, RecordedRun,
    ViewedHistory, engine_of_history, entries_of_history, entry_of, judge_history,
    judge_history_keeping, record_script_observed, resume_script_observed, run_script,
    run_script_with_journal_observed, run_script_within, view_history, write_history,
    write_verdict,
};
