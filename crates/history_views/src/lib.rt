//! Views of histories: what a history made, without an entry of it kept.
//!
//! - `sought`: the view that looks for a version.
//! - `found`: finds a version in a history.
//! - `report`: writes a report of a version that was found.
//! - `named`: the view that looks for a version, and keeps the names of reports.
//! - `listing`: lists the reports of a version.
//! - `batches`: what the marks of a journal say of the entries of a history.
//! - `session_log`: the view that keeps what is reported of sessions and of loads.
//! - `log`: reports the sessions and the loads of a history, a line each.
//! - `fact_log`: reports the changes of one fact, a line each.
//! - `placed`: the view that looks for two versions, and keeps the places where they may differ.
//! - `differing`: what differs between two versions.
//! - `shown`: what came of what was asked for.
//!
//! It knows nothing of files, nor of
//!
//! - how a line is read and judged (`script_runs`);
//! - how a reply is written (`script_format`);
//! - how a version holds its reports (`filing_version`);
//! - how two versions are compared (`version_differences`).
#![tactic(auto)]

mod batches;
mod differing;
mod fact_log;
mod found;
mod listing;
mod log;
mod named;
mod placed;
mod report;
mod session_log;
mod shown;
mod sought;

pub use batches::Batches;
pub use differing::{FoundDifference, difference_of_history};
pub use fact_log::{FoundFactLog, fact_log_of_history};
pub use found::{FoundVersion, version_of_history};
pub use listing::{FoundListing, listing_of_history};
pub use log::{FoundLog, log_of_history};
pub use session_log::LogLine;
pub use shown::Shown;
