//! Scripts and histories: the steps of a core, line by line, between a source and a sink of bytes.
//!
//! - `run`: runs over scripts: alone, with a journal, with a file of their entries.
//! - `history`: histories, which are followed, judged, viewed, written and opened again.
//!
//! It knows nothing of how lines are cut and devices are read (`line_io`), of how a line or a reply is written (`script_format`), of several
//! scripts at once, of locks, or of files.
#![tactic(auto)]

mod history;
mod run;

pub use history::judging::{judge_history, judge_history_keeping, write_verdict};
pub use history::laws::each_script_is_serial;
pub use history::reader::{Nowhere, ViewedHistory, view_history};
pub use history::reading::entry_of;
pub use history::reopen::{
    KeptEntries, OpenHistoryFault, engine_of_history, entries_of_history, journals_are_read_back,
    runs_are_read_back,
};
pub use history::view::{NoView, View};
pub use history::writing::write_history;
pub use run::entry_file::EntryFile;
pub use run::machine::{Answer, Observes, Unobserved};
pub use run::script::{READS, resume_script_observed, run_script, run_script_within};
pub use run::with_entry_file::{RecordedRun, record_script_observed};
pub use run::with_journal::{JournaledRun, run_script_with_journal_observed};
