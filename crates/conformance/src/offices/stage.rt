//! Offices of two desks and two reviewers, from their opening to what goes on after their end.
//!
//! An act is a line of JSON, and each is answered. `["step",DESK,STEP]` has a desk take a step, as histories write it, in the
//! session of the answer before: the reply. `["leave"]` sets the last desk aside until the end, and `["lose"]` drops it.
//! `["learn",REVIEWER,RECEIPT]` has a reviewer learn the receipt of that number among all that desks were given,
//! `["review",REVIEWER]` opens a review, and `["seen",REVIEWER]` does neither: the number of the version that the reviewer has
//! seen then. `["ask",REVIEW,STEP]` asks the review of that number: its reply. `["end"]` ends the office: how many entries and
//! versions it made, or how many desks came. After it reviewers and reviews go on. All numbers are from 0.

ghost use Rattle.std.specs.Prelude.{◌≡◌, ◌<◌, ◌^◌};

use crate::lines::push_line;
use crate::offices::acts::step_at;
use crate::offices::ends::{Desks, end, give_up};
use crate::offices::readers::Readers;
use crate::question::{number_at, text_at};
use anyhow::{Result, anyhow};
use filing_core::HashKeys;
use filing_office::{Blanks, Desk, Naming, Office};
use filing_step::Step;
use oim_report::json_value;
use serde_json::Value;
use std::alloc::Global;
use std::sync::Wait;
use std::sync::ledger::Ledger;

// The act after which there is no office any more.
const END: &str = "[\"end\"]\n";

/// A desk takes a step in the session of the answer before.
fn take_in_session<L: Ledger + Naming, M: Ledger, R: Wait + AllocGlobal>(
    rt: &R,
    office: &Office<L, M>,
    desk: &mut Desk<L, M>,
    readers: &mut Readers<L>,
    step: Step,
) -> Result<String> {
    let answer = desk.step(rt, rt.alloc(), office, readers.session, step)?;
    readers.note(rt.alloc(), answer)
}

/// The answer to an act.
fn answer_to_act<L: Ledger + Naming, M: Ledger, R: Wait + AllocGlobal>(
    rt: &R,
    office: &Office<L, M>,
    desks: &mut Desks<L, M>,
    readers: &mut Readers<L>,
    act: &Value,
) -> Result<String> {
    match text_at(act, 0) {
        "step" => match desks.here.get_mut(number_at(act, 1)) {
            Some(desk) => take_in_session(rt, office, desk, readers, step_at(rt.alloc(), act)?),
            None => Err(anyhow!("there is no such desk")),
        },
        "leave" => desks.leave(rt.alloc()),
        "lose" => {
            drop(desks.here.pop());
            Ok(String::from_str(rt.alloc(), "lost")?)
        }
        _ => readers.act(rt.alloc(), act),
    }
}

/// Plays acts in turn.
fn play_before<L: Ledger + Naming, M: Ledger, R: Wait + AllocGlobal>(
    rt: &R,
    office: &Office<L, M>,
    desks: &mut Desks<L, M>,
    readers: &mut Readers<L>,
    acts: &str,
    all_told: &mut Vec<u8>,
) -> Result<()> {
    for line in acts.lines() {
        if let Some(act) = json_value(rt.alloc(), line.as_bytes())? {
            let told = answer_to_act(rt, office, desks, readers, &act);
            drop(act);
            push_line(all_told, told?.as_bytes())?;
        }
    }
    Ok(())
}

/// Plays acts of reviewers in turn, after the end of their office.
fn play_after<J: Naming>(
    alloc: Global,
    readers: &mut Readers<J>,
    acts: &str,
    all_told: &mut Vec<u8>,
) -> Result<()> {
    for line in acts.lines() {
        if let Some(act) = json_value(alloc, line.as_bytes())? {
            let told = readers.act(alloc, &act);
            drop(act);
            push_line(all_told, told?.as_bytes())?;
        }
    }
    Ok(())
}

/// Plays acts, between which the office ends.
fn play_in<L: Ledger + Naming, M: Ledger, R: Wait + AllocGlobal>(
    rt: &R,
    office: Office<L, M>,
    desks: Desks<L, M>,
    readers: &mut Readers<L>,
    acts: &str,
    all_told: &mut Vec<u8>,
) -> Result<()> {
    let (before, after) = acts.split_once(END).unwrap_or((acts, ""));
    let mut desks = desks;
    match play_before(rt, &office, &mut desks, readers, before, all_told) {
        Ok(()) => {
            let ended = end(rt, office, desks)?;
            push_line(all_told, ended.as_bytes())?;
            play_after(rt.alloc(), readers, after, all_told)
        }
        Err(error) => {
            drop(desks);
            give_up(rt, office, error)
        }
    }
}

/// The answers to acts in an office of their own.
pub(crate) fn play<L: Ledger + Naming, M: Ledger, R: Wait + AllocGlobal>(
    rt: &R,
    blanks: Blanks,
    acts: &[u8],
) -> Result<Vec<u8>>
    requires book { blanks.unopened_log.seen.book ≡ L.book }
    requires steps { (blanks.steps.name ≡ L.name) × (blanks.steps.parts ≡ L.parts) × (blanks.steps.parts ≡ 2) }
    requires receipts { (blanks.receipts.name ≡ M.name) × (blanks.receipts.parts ≡ M.parts)
        × (blanks.receipts.parts ≡ 2) }
{
    let keys = HashKeys::Fixed;
    let (office, desks, reviewers) = Office::<L, M>::open(rt, rt.alloc(), keys, 2, 2, blanks)?;
    let mut readers = Readers::of(rt.alloc(), reviewers);
    let mut all_told = Vec::new(rt.alloc());
    let acts = str::from_utf8(acts).unwrap_or("");
    let played = play_in(
        rt,
        office,
        Desks {
            here: desks,
            aside: None,
        },
        &mut readers,
        acts,
        &mut all_told,
    );
    drop(readers);
    played?;
    Ok(all_told)
}
