//! `Work`: what a desk does in a thread of its own.

use crate::desk::Desk;
use crate::outcome::Outcome;
use filing_core::Step;
use filing_publish::{Naming, Reviewer};
use std::sync::ledger::Ledger;

/// A step under the name that the desk gives to its session. A load has none, and its name is not looked at.
#[derive(Drop)]
pub struct DeskStep {
    pub name: String,
    pub step: Step,
}

/// What a desk does in a thread of its own. With a reviewer the sessions that it opens to review are that reviewer's, outside the lock and the history.
#[derive(Drop)]
pub struct Work<L: Ledger + Naming, M: Ledger> {
    pub desk: Desk<L, M>,
    pub reviewer: Option<Reviewer<L>>,
    pub steps: Vec<DeskStep>,
}

/// What comes back of a work: its desk and reviewer, and an outcome for each step up to the first that ran out of memory.
pub type Ran<L, M> = (Desk<L, M>, Option<Reviewer<L>>, Vec<Outcome<L>>);

/// What is called around each step of a desk, in the desk's thread: `before` and `after` it.
/// Both are given the desk's place among the works and the step's among its own, each from 0.
pub trait Gate {
    fn before(&self, desk: usize, step: usize);

    fn after(&self, desk: usize, step: usize);
}
