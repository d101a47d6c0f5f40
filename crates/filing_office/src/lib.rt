//! The office: desks that take steps under one lock, and reviewers that take none.
//!
//! - `shared`: what the lock lends to a step, the core with what publishes its versions; and `apply_in`, the step.
//! - `locked`: that with the books of two ledgers, so that the desks' counts add up to the history.
//! - `office`: opens and ends an office.
//! - `blanks`: what an office is named by.
//! - `law`: an office begins with nothing.
//! - `desk`: takes a step in any thread.
//! - `roster`: how many desks there are.
//! - `answer`: what a desk gets for a step.
//! - `ready_step`: a step that was made ready before the lock is taken.
//! - `named_desk`: takes a desk's steps under the names that they are given.
//! - `session_place`: where the session of a name is.
//! - `steps`: takes a list of steps.
//! - `outcome`: what becomes of each step.
//! - `access`: whether the lock is taken for each step, or held over several.
//! - `desk_task`: gives each desk a thread of its own for its task.
//! - `run`: has each desk do its work that way.
//! - `work`: a desk with its list of steps.
//! - `fault`: why an office was not ended, and why desks were not run.
//!
//! It knows nothing of JSON or of scripts. The core says what a step is answered, and `filing_publish` how versions reach reviewers.
#![tactic(auto)]

mod access;
mod answer;
mod blanks;
mod desk;
mod desk_task;
mod fault;
mod law;
mod locked;
mod named_desk;
mod office;
mod outcome;
mod ready_step;
mod roster;
mod run;
mod session_place;
mod shared;
mod steps;
mod work;

pub use access::{Access, EachStep, LockUse, LockedBatch};
pub use answer::Answer;
pub use blanks::Blanks;
pub use desk::Desk;
pub use desk_task::{DeskTask, TaskAtDesk, TaskResult, run_tasks};
pub use fault::{FinishFault, RunFault};
pub use filing_core::{Core, CoreFault, HashKeys};
pub use filing_publish::{Naming, OfficeFault, Receipt, Review, Reviewer, UnopenedLog};
pub use law::opened_and_finished;
pub use named_desk::NamedDesk;
pub use office::{MOST_DESKS, Office};
pub use outcome::Outcome;
pub use run::run_desks;
pub use shared::{Shared, apply_in};
pub use steps::take_steps;
pub use work::{DeskStep, Gate, Ran, Work};
