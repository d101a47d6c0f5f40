//! The core of the repository: many sessions at once, each validated at its commit, and the history of every step with its reply.
//! The method is serial validation (Kung and Robinson 1981).
//!
//! - `engine`: what takes a step and keeps none.
//! - `core_with_history`: the core, an engine with its history.
//! - `fault`: why a step was not taken.
//! - `prepared`: a load or a commit that is ready to be entered.
//! - `sessions`: the open sessions by their numbers.
//! - `outcome`: the reply to a load or a commit, and the version that it makes.
//! - `check`: histories of others, compared with a run of an engine.
//! - `compared_replies`: whether two replies are the same.
//!
//! Steps and replies are said in the words of `filing_step`, versions and changes in those of `filing_version`.
//! A session by itself is that of `filing_session`.
//!
//! It knows nothing of JSON, of devices, of locks or of threads.
#![tactic(auto)]

mod check;
mod compared_replies;
mod core_with_history;
mod engine;
mod fault;
mod outcome;
mod prepared;
mod sessions;

pub use check::{Verdict, check_run};
pub use core_with_history::Core;
pub use engine::Engine;
pub use fault::{CoreFault, EngineFault};
pub use filing_session::HashKeys;
pub use filing_step::{Entry, Kind, Reply, Step};
pub use prepared::Prepared;
