//! Scripts in threads: each script has a desk and a reviewer of an office, and a thread of its own.
//!
//! - `batch`: takes a script's lines some at a time, and has each classified.
//! - `script_task`: a script at its desk, in a thread: it has a batch classified, takes its steps in one locked batch,
//!   and appends the replies.
//! - `tasks`: gives each script a desk and a reviewer, and hands the tasks to `run_tasks`.
//! - `entries`: entries of histories, and their lines.
//! - `replay`: takes the steps of a history again, at a desk.
//! - `office`: opens an office over a history, which may be empty, runs each script, and ends it.
//! - `replies`: the replies to the lines.
//! - `opened`: the names under which a script opened sessions.
//! - `written`: writes them, one script after the other, once all have ended.
//! - `watch`: is called for each step, for whoever waits, and is given what is left at the end.
//! - `threads`: the whole, on a history or on none.
//! - `deep_lines`: the first line that nests too deep for a journal.
//! - `keeping`: puts the lines of entries into a journal.
//! - `journaled`: the whole, with a journal.
//! - `fault`: why scripts did not run to their ends.
//!
//! Classifying, reviews and putting replies together need no lock: under that of the office are steps,
//! and what a desk notes between two of them.
//!
//! It knows nothing of how a step is answered, of files, or of how a line of a history is written.
#![tactic(auto)]

mod batch;
mod deep_lines;
mod entries;
mod fault;
mod journaled;
mod keeping;
mod office;
mod opened;
mod replay;
mod replies;
mod script_task;
mod tasks;
mod threads;
mod watch;
mod written;

pub use fault::{DeepLine, JournaledFault, ThreadsFault};
pub use journaled::{JournaledThreads, run_threads_with_journal};
pub use threads::{ThreadsOnHistory, run_threads, run_threads_on_history};
pub use watch::{Unwatched, Watch};
