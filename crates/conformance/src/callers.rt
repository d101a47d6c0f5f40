//! Runs the worked callers of `embedding`, and prints what each was answered.

use anyhow::{Result, anyhow};
use embedding::core_by_hand::{add_and_commit, entries_of, load, open};
use embedding::judged_history::{is_lawful, judge_core};
use embedding::lone_session::{run_alone, version_of};
use embedding::marked_journal::{new_file, put_and_crash};
use embedding::sample::{NAME, addition, name_fact, report, text};
use embedding::two_desks::run_office;
use filing_core::{Core, Entry, Reply, Step};
use filing_office::{Blanks, Review};
use filing_session::Call;
use journal_marks::are_entries;
use script_format::reply_text;
use std::alloc::Global;
use std::marker::Brand;
use std::random::RandomSource;
use std::sync::{Arc, Wait};

/// A core that has loaded the report, and to which a session has committed a fact.
fn amended_core(alloc: Global) -> Result<Core> {
    let mut core = Core::new(alloc)?;
    let report = Arc::new(alloc, report(alloc)?)?;
    load(&mut core, alloc, text(alloc, NAME)?, report)?;
    let number = open(&mut core, alloc)?;
    add_and_commit(&mut core, alloc, number, addition(alloc)?)?;
    Ok(core)
}

/// Prints a reply, and who was answered so.
fn print_reply<R: Print + AllocGlobal>(rt: &R, who: &str, reply: &Reply) -> Result<()> {
    let text = reply_text(rt.alloc(), reply)?;
    println!(rt; "{who}: {text}")?;
    Ok(())
}

fn show_core<R: Print + AllocGlobal>(rt: &R) -> Result<()> {
    let core = amended_core(rt.alloc())?;
    for entry in entries_of(&core) {
        print_reply(rt, "core", &entry.reply)?;
    }
    Ok(())
}

/// The calls that add a fact to the report, and ask for it.
fn calls(alloc: Global) -> Result<(Call, Call)> {
    let get = Call::Get(text(alloc, NAME)?, text(alloc, "f2")?);
    let (name, id) = (text(alloc, NAME)?, text(alloc, "f2")?);
    Ok((Call::Add(name, id, name_fact(alloc, "Ben")?), get))
}

fn show_session<R: Print + AllocGlobal>(rt: &R) -> Result<()> {
    let alloc = rt.alloc();
    let version = version_of(alloc, text(alloc, NAME)?, report(alloc)?)?;
    let (add, get) = calls(alloc)?;
    let replies = run_alone(alloc, version, add, get)?;
    print_reply(rt, "session", &replies.first)?;
    print_reply(rt, "session", &replies.second)
}

/// What is left of an office: its core, and a review that goes on after its end.
fn show_office<R: Print + AllocGlobal>(rt: &R, core: &Core, review: &Review) -> Result<()> {
    println!(rt; "office: {} entries", entries_of(core).len())?;
    let alloc = rt.alloc();
    let found = review.get(alloc, text(alloc, "second")?, text(alloc, "f1")?)?;
    print_reply(rt, "review", &found)
}

/// A history that closes a session which was never opened.
fn forged_history(alloc: Global) -> Result<Vec<Entry>> {
    let mut entries = Vec::new(alloc);
    entries.push(Entry {
        session: Some(1),
        step: Step::Close,
        reply: Reply::Closed,
    })?;
    Ok(entries)
}

fn show_history<R: Print + AllocGlobal>(rt: &R) -> Result<()> {
    let verdict = judge_core(rt.alloc(), &amended_core(rt.alloc())?)?;
    let lawful = is_lawful(rt.alloc(), &forged_history(rt.alloc())?)?;
    println!(rt; "history: {verdict:?}, and a forged one is lawful: {lawful}")?;
    Ok(())
}

fn show_journal<R: Print + AllocGlobal>(rt: &R) -> Result<()> {
    let batch = b"[\"two\"]\n[\"three\"]\n".as_slice();
    if !are_entries(batch) {
        return Err(anyhow!("the lines are no entries"));
    }
    let file = new_file(rt.alloc())?;
    let entries = put_and_crash(rt.alloc(), &file, batch)?;
    let is_kept = entries.as_slice() == batch;
    println!(rt; "journal: the entries are there after a crash: {is_kept}")?;
    Ok(())
}

/// Runs an office, and prints what is left of it. Its keys are drawn.
fn show_desks<R: Wait + RandomSource + Print + AllocGlobal>(rt: &R) -> Result<()> {
    let (core, review) = run_office::<Brand, Brand, _>(rt, Blanks::of(2))?;
    show_office(rt, &core, &review)
}

/// Runs each caller.
pub(crate) fn show_callers<R: Wait + RandomSource + Print + AllocGlobal>(rt: &R) -> Result<()> {
    show_core(rt)?;
    show_session(rt)?;
    show_desks(rt)?;
    show_history(rt)?;
    show_journal(rt)
}
