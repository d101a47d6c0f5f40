//! A version, a session there and the session's change, asked by their own calls.

use crate::offices::line_step;
use crate::question::{part_text, parts};
use anyhow::{Result, anyhow};
use filing_core::Core;
use filing_session::{Session, period_of, texts_of};
use filing_step::{Kind, Reply, Step, Thing};
use filing_version::{Change, RepoVersion, laws};
use oim_fact::DimSet;
use oim_report::{push_dims, write_fact};
use script_format::reply_text;
use serde_json::Value;
use std::alloc::{AllocError, Global};
use std::sync::Arc;

/// The report of which a version is asked.
const NAME: &str = "r1";

/// Appends the dimensions of a cell, or null.
fn push_cell(out: &mut String, cell: Option<&DimSet>) -> Result<(), AllocError> {
    match cell {
        Some(dims) => push_dims(out, dims),
        None => out.push_str("null"),
    }
}

/// Appends the identifiers of a page query.
fn push_query(alloc: Global, out: &mut String, version: &RepoVersion, page: &Step) -> Result<()> {
    let Step::Page {
        report,
        concept,
        period,
        after,
        ..
    } = page
    else {
        return Err(anyhow!("a page is wanted"));
    };
    match version.query(report, concept, period_of(period), after.as_deref()) {
        Some(ids) => {
            let ids = texts_of(alloc, ids)?;
            write!(out, "{ids:?}\n")?;
        }
        None => out.push_str("no report\n")?,
    }
    Ok(())
}

/// Appends how long the pages of the report are, and those of one that is not there.
fn push_sizes(alloc: Global, out: &mut String, version: &RepoVersion) -> Result<(), AllocError> {
    let sizes = laws::page_sizes(alloc, version, NAME)?;
    let none = laws::page_sizes(alloc, version, "r9")?;
    write!(out, "{sizes:?} {none:?}\n")
}

/// What a session answers to a step that is a call.
fn reply_to(session: &mut Session, step: Step) -> Result<Reply> {
    match step {
        Step::Get { report, id } => Ok(session.get(report, id)?),
        Step::Cell { report, dims } => Ok(session.cell(report, dims)?),
        Step::Add { report, id, fact } => Ok(session.add(report, id, fact)?),
        Step::Remove { report, id } => Ok(session.remove(report, id)?),
        other => {
            drop(other);
            Err(anyhow!("this step is not asked here"))
        }
    }
}

/// Appends a reply, which is dropped.
fn push_reply(alloc: Global, out: &mut String, reply: Reply) -> Result<(), AllocError> {
    let text = reply_text(alloc, &reply);
    drop(reply);
    out.push_str(&text?)?;
    out.push('\n')
}

/// The number of the last load or commit that touched a thing, or 0.
fn stamp_of(version: &RepoVersion, thing: &Thing) -> u64 {
    match thing {
        Thing::Report(report) => version.stamp_report(report),
        Thing::Id(report, id) => version.stamp_id(report, id),
        Thing::Cell(report, dims) => version.stamp_cell(report, dims),
        Thing::Range(report, query, upto) => {
            let period = period_of(&query.period);
            let after = query.after.as_deref();
            version.stamp_range(report, &query.concept, period, after, upto.as_deref())
        }
        Thing::Policy(report) => version.stamp_policy(report),
    }
}

/// Appends each thing that a session has read, as a conflict names it, with its stamp in the session's version, and each put of
/// its change, with what is staged there.
fn push_state(alloc: Global, out: &mut String, session: &Session) -> Result<(), AllocError> {
    for thing in session.reads() {
        let stamp = stamp_of(session.base(), thing);
        push_reply(alloc, out, Reply::Conflict(stamp, thing.clone()?))?;
    }
    let change: &Change = session.change();
    for (report, id, put) in change.puts() {
        let staged = match change.staged(report, id) {
            Some(Some(fact)) => write_fact(alloc, fact)?,
            Some(None) => String::from_str(alloc, "removed")?,
            None => String::from_str(alloc, "nothing")?,
        };
        let is_put = put.is_some();
        write!(out, "{report} {id} {is_put} {staged}\n")?;
    }
    Ok(())
}

/// Appends what a session answers to steps and has then, and the cells that its version with the change laid over it does not allow:
/// the first that the change touches, and the least of the report.
fn push_session(
    alloc: Global,
    out: &mut String,
    session: &mut Session,
    steps: &[Value],
) -> Result<()> {
    for step in steps {
        let step = line_step(alloc, &step.to_string(alloc)?)?;
        push_reply(alloc, out, reply_to(session, step)?)?;
    }
    push_state(alloc, out, session)?;
    let version = session.base().with_change(alloc, session.change())?;
    let first = version.first_disallowed(session.change());
    push_cell(out, first.map(|found| found.1))?;
    out.push(' ')?;
    push_cell(out, version.disallowed_in(NAME))?;
    drop(version);
    Ok(())
}

/// The answers of a version to a call, and of a session there.
fn version_told(alloc: Global, version: &Arc<RepoVersion>, call: &Value) -> Result<String> {
    let mut out = String::new(alloc);
    let page = line_step(alloc, &part_text(alloc, call, 2)?)?;
    push_query(alloc, &mut out, version, &page)?;
    push_sizes(alloc, &mut out, version)?;
    let mut session = Session::open(alloc, Kind::Amend, version.clone()?)?;
    let steps = parts(call).get(3..).unwrap_or(&[]);
    let pushed = push_session(alloc, &mut out, &mut session, steps);
    drop(session);
    pushed?;
    Ok(out)
}

/// The answers of the version that a load makes.
pub(crate) fn version_answer(alloc: Global, call: &Value) -> Result<String> {
    let load = line_step(alloc, &part_text(alloc, call, 1)?)?;
    let mut core = Core::new(alloc)?;
    let told = match core.step(alloc, None, load) {
        Ok(reply) => {
            drop(reply);
            version_told(alloc, core.current(), call)
        }
        Err(fault) => Err(fault.into()),
    };
    drop(core);
    told
}
