//! Steps on what the lock of an office lends, without an office.
//!
//! An act `["step",SESSION,STEP]` is a step, as histories write it, of the session of that number, or of none. It gets the
//! session of its entry, the reply, and the number of the receipt; or `["no-session"]`. At the end stands how many entries and
//! versions there are.

ghost use Rattle.std.specs.Prelude.{◌≡◌, ◌<◌, ◌^◌};

use crate::lines::push_line;
use crate::offices::acts::step_at;
use crate::offices::ends::core_text;
use anyhow::Result;
use filing_core::HashKeys;
use filing_office::{Answer, CoreFault, Naming, Receipt, Shared, UnopenedLog, apply_in};
use oim_report::json_value;
use script_format::reply_text;
use serde_json::Value;
use std::alloc::{AllocError, Global};
use std::sync::Wait;

/// A number, or null.
fn number_text(alloc: Global, number: Option<u64>) -> Result<String, AllocError> {
    match number {
        Some(number) => number.to_string(alloc),
        None => String::from_str(alloc, "null"),
    }
}

/// The answer to an act.
fn answer_to_act<J: Naming, R: Wait + AllocGlobal>(
    rt: &R,
    shared: &mut Shared<J>,
    act: &Value,
) -> Result<String> {
    let session = act.get(1usize).and_then(Value::as_u64);
    let step = step_at(rt.alloc(), act)?;
    match apply_in(rt, rt.alloc(), shared, session, step) {
        Ok(answer) => {
            let Answer {
                session,
                reply,
                receipt,
            } = answer;
            let told = reply_text(rt.alloc(), &reply);
            drop(reply);
            let receipt = number_text(rt.alloc(), receipt.as_ref().map(Receipt::number))?;
            let (session, told) = (number_text(rt.alloc(), session)?, told?);
            Ok(format!(in rt.alloc(); "[{session},{told},{receipt}]")?)
        }
        Err(CoreFault::NoSession) => Ok(String::from_str(rt.alloc(), r#"["no-session"]"#)?),
        Err(CoreFault::NoMemory) => Err(AllocError.into()),
    }
}

/// Plays acts in turn.
fn play_acts<J: Naming, R: Wait + AllocGlobal>(
    rt: &R,
    shared: &mut Shared<J>,
    acts: &str,
    all_told: &mut Vec<u8>,
) -> Result<()> {
    for line in acts.lines() {
        if let Some(act) = json_value(rt.alloc(), line.as_bytes())? {
            let told = answer_to_act(rt, shared, &act);
            drop(act);
            push_line(all_told, told?.as_bytes())?;
        }
    }
    Ok(())
}

/// The answers to acts on a repository of their own.
pub(crate) fn play_lent<J: Naming, R: Wait + AllocGlobal>(
    rt: &R,
    unopened_log: UnopenedLog,
    acts: &[u8],
) -> Result<Vec<u8>>
    requires { unopened_log.seen.book ≡ J.book }
{
    let (mut shared, reviewers) = Shared::<J>::open(
        rt,
        rt.alloc(),
        HashKeys::Fixed,
        unopened_log,
        1,
    )?;
    drop(reviewers);
    let mut all_told = Vec::new(rt.alloc());
    let acts = str::from_utf8(acts).unwrap_or("");
    let played = play_acts(rt, &mut shared, acts, &mut all_told);
    let ended = core_text(rt.alloc(), shared.close(rt));
    played?;
    push_line(&mut all_told, ended?.as_bytes())?;
    Ok(all_told)
}
