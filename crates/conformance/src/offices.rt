//! Offices: what their desks and reviewers are answered, in turn and in threads of their own.
//!
//! `stage` plays the acts of `data/offices.rows`, each sheet in an office of two desks and two reviewers: `acts` has their parts,
//! `readers` what reviewers do, and `ends` how offices end. `lent` plays those of `data/lent.rows` on what a lock lends, without an
//! office. `crowd` lets desks take the steps of `rounds` in threads, and compares what `entered` says they were answered with the
//! history; at a `meeting` they wait for one another. `places` makes something of each value at its place.

ghost use Rattle.filing_office.specs.Sizes.{FitsOffice};

mod acts;
mod crowd;
mod ends;
mod entered;
mod lent;
mod meeting;
mod places;
mod readers;
mod rounds;
mod stage;

use crate::sheet::{Answers, Sheet, compare_rows};
pub(crate) use acts::line_step;
use anyhow::Result;
use crowd::take_steps;
use ends::core_text;
use filing_office::{Blanks, UnopenedLog, opened_and_finished};
use lent::play_lent;
use rounds::Way;
use stage::play;
use std::alloc::Global;
use std::marker::{Brand, Sync};
use std::rt::Files;
use std::sync::Wait;
use std::thread::Threads;

/// What plays sheets of acts.
#[derive(Drop)]
struct Player<'a, R: Wait + AllocGlobal> {
    rt: &'a R,
}

impl<R: Wait + AllocGlobal> Answers for Player<'_, R> {
    fn answer_to(&self, _alloc: Global, sheet: &Sheet) -> Result<Vec<u8>> {
        play::<Brand, Brand, _>(self.rt, Blanks::of(2), sheet.script())
    }
}

/// What plays sheets of acts without an office.
#[derive(Drop)]
struct Lender<'a, R: Wait + AllocGlobal> {
    rt: &'a R,
}

impl<R: Wait + AllocGlobal> Answers for Lender<'_, R> {
    fn answer_to(&self, _alloc: Global, sheet: &Sheet) -> Result<Vec<u8>> {
        play_lent::<Brand, _>(self.rt, UnopenedLog::new(), sheet.script())
    }
}

/// Opens an office and ends it at once, and tells what it made.
fn end_at_once<R: Wait + Print + AllocGlobal>(rt: &R) -> Result<()> {
    let core = opened_and_finished::<Brand, Brand, _>(rt, rt.alloc(), 2, 1, Blanks::of(2))?;
    let told = core_text(rt.alloc(), core)?;
    println!(rt; "an office that takes no step: {told}")?;
    Ok(())
}

/// Lets desks take steps in threads.
fn run_crowd<R: Threads + Wait + Sync + Print + AllocGlobal>(
    rt: &R,
    desks: usize,
    way: Way,
) -> Result<()>
    requires { FitsOffice desks }
{
    take_steps::<Brand, Brand, _>(rt, desks, Blanks::of(desks), way)
}

/// Plays the acts of offices and of what a lock lends, and lets desks take steps in threads: two of them one amendment each, and four rounds, in both ways.
pub(crate) fn show_offices<R: Threads + Wait + Sync + Print + Files + AllocGlobal>(
    rt: &R,
) -> Result<()> {
    compare_rows(rt, "offices", &Player { rt })?;
    compare_rows(rt, "lent", &Lender { rt })?;
    end_at_once(rt)?;
    run_crowd(rt, 2, Way::Once)?;
    run_crowd(rt, 4, Way::Steps)?;
    run_crowd(rt, 4, Way::Lists)
}
