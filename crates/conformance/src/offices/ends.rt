//! Ends of offices.

use anyhow::{Error, Result, anyhow};
use filing_office::{Core, Desk, FinishFault, Naming, Office};
use std::alloc::{AllocError, Global};
use std::sync::Wait;
use std::sync::ledger::Ledger;

/// The desks of an office, and one that is set aside.
#[derive(Drop)]
pub(crate) struct Desks<L: Ledger + Naming, M: Ledger> {
    pub(crate) here: Vec<Desk<L, M>>,
    pub(crate) aside: Option<Desk<L, M>>,
}

impl<L: Ledger + Naming, M: Ledger> Desks<L, M> {
    /// The last desk is set aside.
    pub(crate) fn leave(&mut self, alloc: Global) -> Result<String> {
        self.aside = self.here.pop();
        Ok(String::from_str(alloc, "left")?)
    }
}

/// Gives an office up, after a fault.
pub(crate) fn give_up<T: Drop, L: Ledger + Naming, M: Ledger, R: Wait>(
    rt: &R,
    office: Office<L, M>,
    error: Error,
) -> Result<T> {
    office.give_up(rt);
    Err(error)
}

/// How many entries and versions an office made.
pub(crate) fn core_text(alloc: Global, core: Core) -> Result<String, AllocError> {
    let (entries, number) = (core.history().len(), core.current().number());
    drop(core);
    format!(in alloc; "{entries} entries, {number} versions")
}

/// Ends an office with the desk that was set aside too, or gives it up where one is missing all the same.
fn end_at_last<L: Ledger + Naming, M: Ledger, R: Wait + AllocGlobal>(
    rt: &R,
    fault: FinishFault<L, M>,
    aside: Option<Desk<L, M>>,
) -> Result<String> {
    let FinishFault::DeskMissing { office, desks } = fault;
    let mut desks = desks;
    let came = desks.len();
    let _ = desks.extend(aside);
    match office.finish(rt, desks) {
        Ok(core) => {
            let ended = core_text(rt.alloc(), core)?;
            Ok(format!(in rt.alloc(); "{came} came, and then all: {ended}")?)
        }
        Err(FinishFault::DeskMissing { office, desks }) => {
            drop(desks);
            office.give_up(rt);
            Ok(format!(in rt.alloc(); "{came} came")?)
        }
    }
}

/// Ends an office, and tells what it made, or how many desks came.
pub(crate) fn end<L: Ledger + Naming, M: Ledger, R: Wait + AllocGlobal>(
    rt: &R,
    office: Office<L, M>,
    desks: Desks<L, M>,
) -> Result<String> {
    let Desks { here, aside } = desks;
    match office.finish(rt, here) {
        Ok(core) => {
            drop(aside);
            Ok(core_text(rt.alloc(), core)?)
        }
        Err(fault) => end_at_last(rt, fault, aside),
    }
}

/// The core of an office whose desks all came.
pub(crate) fn all_came<L: Ledger + Naming, M: Ledger, R: Wait>(
    rt: &R,
    ended: Result<Core, FinishFault<L, M>>,
) -> Result<Core> {
    match ended {
        Ok(core) => Ok(core),
        Err(FinishFault::DeskMissing { office, desks }) => {
            drop(desks);
            give_up(rt, office, anyhow!("a desk is missing"))
        }
    }
}
