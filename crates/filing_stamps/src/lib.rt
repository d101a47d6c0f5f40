//! The number of the last touch of each part of one report.
//!
//! - `stamps`: the stamps that touched facts left, and the number of each part by them.
//! - `kept_stamps`: parts of stamps that several versions hold.
//! - `stamp`: one of them, which compares by what it means.
//! - `stamp_spans`: where the stamps of a part stand among the others.
//!
//! It knows nothing of how facts are found, of other reports, of versions or of sessions.
#![tactic(auto)]

mod kept_stamps;
mod stamp;
mod stamp_spans;
mod stamps;

pub use stamps::Stamps;
