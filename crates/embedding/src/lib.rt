//! How to embed the repository in a program: five worked callers. Each function has as its contract what it gets from the library.
//!
//! - `core_by_hand`: a core takes steps one by one.
//! - `lone_session`: a session over a version, without a core.
//! - `two_desks`: an office with two desks and a reviewer.
//! - `judged_history`: a history of somebody else is judged.
//! - `marked_journal`: a journal over a file in memory, whose batches have their marks, is opened again after a crash.
//! - `sample`: the report and the fact that they begin with.
//!
//! `conformance` runs each of them.
#![tactic(auto)]

pub mod core_by_hand;
pub mod judged_history;
pub mod lone_session;
pub mod marked_journal;
pub mod sample;
pub mod two_desks;
