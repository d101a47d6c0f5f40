//! Unchanging versions of the repository, and changes of them.
//!
//! - `version`: one state of the repository.
//! - `stamped_report`: one report of a version, with the stamps of its parts.
//! - `indexed_report`: a report that is made ready for its load.
//! - `change`: what a session puts, removes and declares.
//! - `puts`: the puts of a change, one by one.
//! - `same_facts`: whether two facts are the same.
//! - `laws`: how long the pages of a report are, which no other call tells.
//!
//! It knows nothing of sessions, of the history or of devices.
#![tactic(auto)]

mod change;
mod indexed_report;
pub mod laws;
mod puts;
mod same_facts;
mod stamped_report;
mod version;

pub use change::{Change, ReadyChange};
pub use filing_facts::KeyCache;
pub use filing_index::Ids;
pub use indexed_report::{FactEntries, IndexedReport};
pub use puts::{Put, PutRecord, Puts};
pub use same_facts::are_same_facts;
pub use version::{Got, RepoVersion};
