//! `conformance`: compares what the layers answer with what is written of them, and fast answers with slow ones.
//!
//! - `scripts`: worked scripts, their histories, and histories of others.
//! - `in_parts`: the steps of a history, loads and commits in two parts.
//! - `journals`: scripts that keep a journal in memory, and its marks.
//! - `calls`: worked rows of calls that no script makes, or makes only through others.
//! - `pages`: worked rows of lists in pages and of the pages of reports, and both beside plain lists.
//! - `trials`: has each call of a device go wrong.
//! - `crashes`: opens what a crash may leave of a journal.
//! - `offices`: takes steps at desks, and opens reviews beside them.
//! - `threads`: runs stored scripts in threads, alone and with a journal.
//! - `openings`: opens journals, in memory and in files.
//! - `callers`: runs the worked callers of `embedding`.
//! - `lines`: what they need of lines.
//! - `sheet`: reads rows, and compares.
//! - `question`: the parts of a line of JSON.
//! - `devices`: runs scripts, and writes and judges histories, over memory.
//!
//! A word names the part that is wanted, one of `PARTS`; without a word it is all of them. `sheets`, `model` and `histories` are
//! the files that a file of this name lists; those of `model` have answers that `tools/draw_rows` computed. `rounds` is of the
//! pages of reports beside plain lists.
#![tactic(auto)]

mod callers;
mod calls;
mod crashes;
mod devices;
mod in_parts;
mod journals;
mod lines;
mod offices;
mod openings;
mod pages;
mod question;
mod scripts;
mod sheet;
mod threads;
mod trials;

use anyhow::{Result, anyhow};
use callers::show_callers;
use calls::compare_calls;
use crashes::try_crashes;
use journals::show_marks;
use offices::show_offices;
use openings::show_openings;
use pages::{Kind, compare_pages, compare_rounds};
use scripts::{compare_listed, compare_stored};
use std::env;
use std::marker::Sync;
use std::random::RandomSource;
use std::rt::Files;
use std::sync::Wait;
use std::thread::Threads;
use threads::compare_in_threads;
use trials::try_devices;

const PARTS: [&str; 14] = [
    "sheets",
    "calls",
    "pages",
    "rounds",
    "model",
    "scripts",
    "histories",
    "devices",
    "marks",
    "crashes",
    "offices",
    "threads",
    "openings",
    "callers",
];

/// Compares the part of this name, if there is one, of those that start no threads.
fn compare_alone<R: Print + Files + AllocGlobal>(rt: &R, part: &str) -> Result<()> {
    match part {
        "sheets" | "model" | "histories" => compare_listed(rt, part),
        "calls" => compare_calls(rt),
        "pages" => compare_pages(rt),
        "rounds" => compare_rounds(rt, Kind::Report),
        "scripts" => compare_stored(rt),
        "devices" => try_devices(rt),
        "marks" => show_marks(rt),
        "crashes" => try_crashes(rt),
        _ => Err(anyhow!("there is no part {part}")),
    }
}

/// Compares the part of this name, if there is one. Threads are started by a handle of their own, which only `main` has.
fn compare<T: Threads + Wait + Sync + RandomSource + Print + Files + AllocGlobal>(
    rt: &HostRuntime,
    handle: &T,
    part: &str,
) -> Result<()> {
    match part {
        "offices" => show_offices(handle),
        "threads" => compare_in_threads(handle),
        "openings" => show_openings(rt),
        "callers" => show_callers(handle),
        _ => compare_alone(rt, part),
    }
}

fn main(rt: HostRuntime) -> Result<()> {
    let mut words = env::args(&rt)?.skip(1);
    let Some(part) = words.next() else {
        for part in PARTS {
            compare(&rt, &rt, part)?;
        }
        return Ok(());
    };
    compare(&rt, &rt, part.as_str())
}
