//! The commands beside runs: each reads its words, opens its files, and gives a status.
//!
//! - `check`: histories that are judged.
//! - `diff`: what differs between two versions.
//! - `inspect`: all that is wrong with reports, and their duplicates.
//! - `journals`: journals that are verified, written out as histories, sealed and repaired.
//! - `load`: reports that are loaded from files into a journal.
//! - `fact_log`: the changes of a fact of a history.
//! - `log`: the sessions and the loads of a history, as lines or drawn.
//! - `show`: what a version of a history has: a report, or the list of all.

pub(crate) mod check;
pub(crate) mod diff;
pub(crate) mod fact_log;
pub(crate) mod inspect;
pub(crate) mod journals;
pub(crate) mod load;
pub(crate) mod log;
pub(crate) mod show;
