//! Desks that take steps in threads of their own, and whether the finished history has just these; and a reviewer who learns what they were given.

ghost use Rattle.std.specs.Prelude.{◌≡◌};
ghost use Rattle.filing_office.specs.Sizes.{FitsOffice};

use crate::offices::acts::line_step;
use crate::offices::ends::{all_came, give_up};
use crate::offices::entered::{Told, has_each_receipt};
use crate::offices::meeting::Meeting;
use crate::offices::places::map_with_place;
use crate::offices::readers::Readers;
use crate::offices::rounds::{Way, work_of};
use anyhow::{Result, anyhow};
use filing_core::HashKeys;
use filing_office::{Blanks, Core, Desk, DeskStep, Naming, Office, Outcome, Ran, Work, run_desks};
use std::alloc::{AllocError, Global};
use std::marker::{Send, Sync};
use std::sync::Wait;
use std::sync::atomic::Ordering::SeqCst;
use std::sync::atomic::{AtomicBool, AtomicU64};
use std::sync::ledger::Ledger;
use std::thread;
use std::thread::Threads;

// The load of a report without facts.
const LOAD: &str =
    r#"["load","r1",{"documentInfo":{"documentType":"https://xbrl.org/2021/xbrl-json","namespaces":{"ex":"http://e.org/t"}}}]"#;

/// Takes steps one after the other, each with the session that the step before it was answered. Where one fails, there are fewer outcomes.
fn take_all<L: Ledger + Naming, M: Ledger, R: Wait + AllocGlobal>(
    rt: &R,
    office: &Office<L, M>,
    desk: &mut Desk<L, M>,
    steps: Vec<DeskStep>,
    outcomes: &mut Vec<Outcome<L>>,
) -> Result<(), AllocError> {
    let mut session = None;
    for one in steps {
        let DeskStep { name, step } = one;
        drop(name);
        let Ok(answer) = desk.step(rt, rt.alloc(), office, session, step) else {
            return Ok(());
        };
        session = answer.session;
        outcomes.push(Outcome::Answered(answer))?;
    }
    Ok(())
}

/// What comes back of a work whose steps are taken one after the other.
fn take_in_order<L: Ledger + Naming, M: Ledger, R: Wait + AllocGlobal>(
    rt: &R,
    office: &Office<L, M>,
    work: Work<L, M>,
) -> Ran<L, M> {
    let Work {
        mut desk,
        reviewer,
        steps,
    } = work;
    let mut outcomes = Vec::new(rt.alloc());
    let _ = take_all(rt, office, &mut desk, steps, &mut outcomes);
    (desk, reviewer, outcomes)
}

/// Lets each desk take its steps in a thread of its own, and tells whether one waited for the others in vain.
fn run_lists<
    L: Ledger + Naming + Send + Sync,
    M: Ledger + Send + Sync,
    R: Threads + Wait + Sync + Print + AllocGlobal,
>(rt: &R, office: &Office<L, M>, works: Vec<Work<L, M>>) -> Result<Vec<Ran<L, M>>> {
    let meeting = Meeting {
        desks: works.len() as u64,
        came: AtomicU64::new(0),
        missed: AtomicBool::new(false),
    };
    let ran = run_desks(rt, rt.alloc(), office, works, &meeting)?;
    let missed = meeting.missed.load(SeqCst);
    match println!(rt; "a desk waited in vain: {missed}") {
        Ok(()) => Ok(ran),
        Err(error) => {
            drop(ran);
            Err(error.into())
        }
    }
}

/// The first desk loads the report.
fn load<L: Ledger + Naming, M: Ledger, R: Wait + AllocGlobal>(
    rt: &R,
    office: &Office<L, M>,
    desks: &mut Vec<Desk<L, M>>,
) -> Result<()> {
    let step = line_step(rt.alloc(), LOAD)?;
    match desks.first_mut() {
        Some(desk) => {
            drop(desk.step(rt, rt.alloc(), office, None, step)?);
            Ok(())
        }
        None => {
            drop(step);
            Err(anyhow!("a desk is wanted"))
        }
    }
}

/// Loads the report, and lets desks take their steps.
fn run_rounds<
    L: Ledger + Naming + Send + Sync,
    M: Ledger + Send + Sync,
    R: Threads + Wait + Sync + Print + AllocGlobal,
>(rt: &R, office: &Office<L, M>, desks: Vec<Desk<L, M>>, way: Way) -> Result<Vec<Ran<L, M>>> {
    let mut desks = desks;
    if let Err(error) = load(rt, office, &mut desks) {
        drop(desks);
        return Err(error);
    }
    let with_steps = |alloc: Global, place: usize, desk: Desk<L, M>| -> Result<Work<L, M>> {
        work_of(alloc, way, place, desk)
    };
    let works = map_with_place(rt.alloc(), desks, with_steps)?;
    match way {
        Way::Steps => {
            let run = |work: Work<L, M>| -> Ran<L, M> { take_in_order(rt, office, work) };
            Ok(thread::map_vec(rt, works, &run)?)
        }
        Way::Lists | Way::Once => run_lists(rt, office, works),
    }
}

/// The desk that comes back.
fn desk_back<L: Ledger + Naming, M: Ledger>(ran: Ran<L, M>) -> Desk<L, M> {
    let (desk, reviewer, outcomes) = ran;
    drop(reviewer);
    drop(outcomes);
    desk
}

/// The desks that come back.
fn desks_back<L: Ledger + Naming, M: Ledger>(
    alloc: Global,
    all_ran: Vec<Ran<L, M>>,
) -> Result<Vec<Desk<L, M>>> {
    let mut desks = Vec::with_capacity(alloc, all_ran.len())?;
    for ran in all_ran {
        desks.push(desk_back(ran))?;
    }
    Ok(desks)
}

/// What each desk was answered, whose receipts a reviewer learns. It opens a review when it has learnt those of the first.
fn answers_of_all<L: Ledger + Naming, M: Ledger>(
    alloc: Global,
    ran: &[Ran<L, M>],
    readers: &mut Readers<L>,
    way: Way,
) -> Result<Vec<Told>> {
    let mut all = Vec::with_capacity(alloc, ran.len())?;
    for (one, place) in ran.iter().zip(0usize..) {
        readers.learn_all(&one.2)?;
        if place == 0 {
            drop(readers.open_review(alloc, 0)?);
        }
        all.push(Told::of(alloc, way, place, &one.2)?)?;
    }
    Ok(all)
}

/// The desks that come back, and what each was answered.
fn come_back<L: Ledger + Naming, M: Ledger>(
    alloc: Global,
    ran: Vec<Ran<L, M>>,
    readers: &mut Readers<L>,
    way: Way,
) -> Result<(Vec<Desk<L, M>>, Vec<Told>)> {
    match answers_of_all(alloc, &ran, readers, way) {
        Ok(told) => match desks_back(alloc, ran) {
            Ok(desks) => Ok((desks, told)),
            Err(error) => {
                drop(told);
                Err(error)
            }
        },
        Err(error) => {
            drop(ran);
            Err(error)
        }
    }
}

/// Compares what desks were answered with the history of their office, and writes what it made, which version a reviewer has learnt,
/// and what its review reads of the first desk's.
fn compare_end<J: Naming, R: Print + AllocGlobal>(
    rt: &R,
    core: &Core,
    all_told: &[Told],
    readers: &Readers<J>,
    way: Way,
) -> Result<()> {
    for (told, place) in all_told.iter().zip(0usize..) {
        let answers = told.lines.len();
        let is_same = told.is_entered(rt.alloc(), core.history())?;
        println!(rt;
            "desk {place}: {answers} answers, which are the entries of its sessions: {is_same}"
        )?;
    }
    let (entries, number) = (core.history().len(), core.current().number());
    let seen = readers.seen(rt.alloc(), 0)?;
    let is_each = has_each_receipt(rt.alloc(), all_told)?;
    println!(rt;
        "{entries} entries, {number} versions, a receipt of each from 2 on: {is_each}, {seen} learnt"
    )?;
    let read = readers.ask(rt.alloc(), 0, line_step(rt.alloc(), way.first_read())?)?;
    println!(rt; "a reviewer reads {read}")?;
    Ok(())
}

/// Ends the office of desks that came back, and compares what they were answered with the history.
fn end_crowd<L: Ledger + Naming, M: Ledger, R: Wait + Print + AllocGlobal>(
    rt: &R,
    office: Office<L, M>,
    ran: Vec<Ran<L, M>>,
    readers: &mut Readers<L>,
    way: Way,
) -> Result<()> {
    match come_back(rt.alloc(), ran, readers, way) {
        Ok((desks, told)) => {
            let core = all_came(rt, office.finish(rt, desks))?;
            let compared = compare_end(rt, &core, &told, readers, way);
            drop(core);
            drop(told);
            compared
        }
        Err(error) => give_up(rt, office, error),
    }
}

/// Desks that take their steps in an office of their own.
pub(crate) fn take_steps<
    L: Ledger + Naming + Send + Sync,
    M: Ledger + Send + Sync,
    R: Threads + Wait + Sync + Print + AllocGlobal,
>(rt: &R, desks: usize, blanks: Blanks, way: Way) -> Result<()>
    requires fit { FitsOffice desks }
    requires book { blanks.unopened_log.seen.book ≡ L.book }
    requires steps { (blanks.steps.name ≡ L.name) × (blanks.steps.parts ≡ L.parts) × (blanks.steps.parts ≡ desks) }
    requires receipts { (blanks.receipts.name ≡ M.name) × (blanks.receipts.parts ≡ M.parts)
        × (blanks.receipts.parts ≡ desks) }
{
    let keys = HashKeys::Fixed;
    let (office, desks, reviewers) = Office::<L, M>::open(rt, rt.alloc(), keys, desks, 1, blanks)?;
    let mut readers = Readers::of(rt.alloc(), reviewers);
    let ended = match run_rounds(rt, &office, desks, way) {
        Ok(ran) => end_crowd(rt, office, ran, &mut readers, way),
        Err(error) => give_up(rt, office, error),
    };
    drop(readers);
    ended
}
