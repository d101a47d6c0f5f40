//! Scripts run over memory, their histories, and histories of others.
//!
//! A sheet's script gets its replies. Where a history is written with it, that has to be its own; then the number of its steps is
//! reported, and how its entries and the lines are judged. For a sheet without a script it is reported how the lines of its
//! history are judged; for a marked one also how each history is of which one reply is another. `in_parts` takes the steps of a
//! history anew, and `journals` runs the script with a journal in memory.

use crate::devices::{Done, Ended, Trial, Work, do_work, push_verdict, verdict_on, written_in};
use crate::in_parts::history_taken_in_parts;
use crate::journals::is_kept_both_ways;
use crate::lines::{ends_in, is_end, push_line, read_data, read_numeric, read_text};
use crate::question::part_text;
use crate::sheet::{Answers, Sheet, compare_rows, compare_sheets};
use anyhow::Result;
use filing_core::{Core, check_run};
use line_io::{ScriptFault, is_blank};
use oim_fact::NumericTable;
use oim_report::{TableFault, json_value, read_table};
use serde_json::Value;
use std::alloc::{AllocError, Global};
use std::rt::Files;
use std::sync::Arc;

/// What answers scripts and histories: a numeric table, where a sheet has none of its own, and how many bytes are moved at once.
#[derive(Drop)]
pub(crate) struct Scripts<'a> {
    pub(crate) table: &'a Arc<NumericTable>,
    pub(crate) piece: usize,
}

/// How many lines before the one of this number, from 1, have a reply.
fn replies_before(lines: &[u8], number: u128) -> usize {
    let mut count = 0usize;
    for (line, at) in lines.split(is_end).zip(1u128..) {
        if at < number && !is_blank(line) {
            count = count.saturating_add(1);
        }
    }
    count
}

/// A fault is reported after what is written, except where a script is out of memory and just the replies before that are written.
fn push_fault(
    alloc: Global,
    sheet: &Sheet,
    script: &[u8],
    fault: ScriptFault,
    told: &mut Vec<u8>,
) -> Result<()> {
    if let ScriptFault::NoMemory(number) = fault {
        if sheet.replies.starts_with(told.as_slice())
            && ends_in(told) == replies_before(script, number)
        {
            return Err(AllocError.into());
        }
    }
    let fault = fault.to_string(alloc)?;
    Ok(push_line(told, fault.as_bytes())?)
}

/// Appends what is reported of a core: its history, where one is written, its number of steps, and how its entries are judged.
fn push_core(
    alloc: Global,
    table: &Arc<NumericTable>,
    sheet: &Sheet,
    script: &[u8],
    core: &Core,
    told: &mut Vec<u8>,
) -> Result<()> {
    let steps = format!(in alloc; "{}\n", core.history().len())?;
    if sheet.history.is_empty() {
        return Ok(told.extend_from_slice(steps.as_bytes())?);
    }
    let history = written_in(alloc, table, Work::History(core), 7)?;
    let is_kept = is_kept_both_ways(alloc, table, script, told, &history)?;
    told.extend_from_slice(&history)?;
    told.extend_from_slice(steps.as_bytes())?;
    if history_taken_in_parts(alloc, table, &history)? != history {
        push_line(told, b"another history in parts")?;
    }
    if !is_kept {
        push_line(told, b"another journal")?;
    }
    push_verdict(alloc, table, check_run(alloc, core.history())?, told)
}

/// The replies to a script, and what is reported of what it leaves.
fn script_answer(
    alloc: Global,
    table: &Arc<NumericTable>,
    sheet: &Sheet,
    script: &[u8],
    piece: usize,
) -> Result<Vec<u8>> {
    let Done { ended, written } = do_work(alloc, table, Work::Script(script), Trial::sound(piece))?;
    let mut told = written;
    match ended {
        Ended::Left(core) => {
            let pushed = push_core(alloc, table, sheet, script, &core, &mut told);
            drop(core);
            pushed?;
        }
        Ended::Failed(fault) => push_fault(alloc, sheet, script, fault, &mut told)?,
        other => drop(other),
    }
    Ok(told)
}

/// The line of an entry with another reply.
pub(crate) fn with_reply(alloc: Global, line: &[u8], reply: &str) -> Result<Vec<u8>, AllocError> {
    let entry = json_value(alloc, line)?.unwrap_or(Value::Null);
    let (session, step) = (part_text(alloc, &entry, 0), part_text(alloc, &entry, 1));
    drop(entry);
    let (session, step) = (session?, step?);
    Ok(format!(in alloc; "[{session},{step},{reply}]")?.into_bytes())
}

/// A history, of which the line at a place is another.
fn with_line(
    alloc: Global,
    history: &[u8],
    place: usize,
    other: &[u8],
) -> Result<Vec<u8>, AllocError> {
    let mut all = Vec::new(alloc);
    for (line, at) in history.split(is_end).zip(0usize..) {
        push_line(&mut all, if at == place { other } else { line })?;
    }
    Ok(all)
}

/// Appends what is reported of a history of which each reply is changed in turn.
fn push_changes(
    alloc: Global,
    table: &Arc<NumericTable>,
    history: &[u8],
    told: &mut Vec<u8>,
) -> Result<()> {
    for (line, place) in history.split(is_end).zip(0usize..) {
        if !line.is_empty() {
            let other = with_reply(alloc, line, "[\"taken\"]")?;
            let changed = with_line(alloc, history, place, &other)?;
            push_verdict(alloc, table, verdict_on(alloc, table, &changed, 7)?, told)?;
        }
    }
    Ok(())
}

/// The answer to a sheet by a table.
fn answer_by_table(
    alloc: Global,
    table: &Arc<NumericTable>,
    sheet: &Sheet,
    piece: usize,
) -> Result<Vec<u8>> {
    let script = sheet.scripts.first();
    let mut told = match script {
        Some(script) => script_answer(alloc, table, sheet, script, piece)?,
        None => Vec::from_slice(alloc, &sheet.history)?,
    };
    if script.is_none() || !sheet.history.is_empty() {
        let verdict = verdict_on(alloc, table, &sheet.history, 7)?;
        push_verdict(alloc, table, verdict, &mut told)?;
    }
    if sheet.is_marked {
        push_changes(alloc, table, &sheet.history, &mut told)?;
    }
    Ok(told)
}

/// The numeric table of a text.
fn table_of(alloc: Global, text: &[u8]) -> Result<Arc<NumericTable>, TableFault> {
    let table = read_table(alloc, str::from_utf8(text).unwrap_or(""))?;
    match Arc::new(alloc, table) {
        Ok(table) => Ok(table),
        Err(_) => Err(TableFault::NoMemory),
    }
}

impl Answers for Scripts<'_> {
    fn answer_to(&self, alloc: Global, sheet: &Sheet) -> Result<Vec<u8>> {
        let Some(text) = &sheet.table else {
            return answer_by_table(alloc, self.table, sheet, self.piece);
        };
        match table_of(alloc, text) {
            Ok(table) => answer_by_table(alloc, &table, sheet, self.piece),
            Err(TableFault::NoMemory) => Err(AllocError.into()),
            Err(fault) => Ok(format!(in alloc; "{fault}\n")?.into_bytes()),
        }
    }
}

/// Compares the sheets of files that NAME.txt lists, each with how many bytes are moved at once.
pub(crate) fn compare_listed<R: Files + Print + AllocGlobal>(rt: &R, name: &str) -> Result<()> {
    let listed = read_text(rt, name)?;
    let table = &read_numeric(rt, "worked")?;
    for line in listed.lines() {
        if let Some((file, piece)) = line.split_once(' ') {
            let piece = piece.parse::<usize>()?;
            compare_rows(rt, file, &Scripts { table, piece })?;
        }
    }
    Ok(())
}

/// The script NAME.jsonl, with its replies and its history in files of their own.
pub(crate) fn stored_script<R: Files + AllocGlobal>(rt: &R, name: &str) -> Result<Sheet> {
    let mut sheet = Sheet::new(rt.alloc(), name.as_bytes())?;
    sheet.scripts.push(read_data(rt, name, "jsonl")?)?;
    sheet.replies = read_data(rt, name, "replies")?;
    sheet.history = read_data(rt, name, "history")?;
    let steps = ends_in(&sheet.history);
    let notes = format!(in rt.alloc(); "{steps}\n[\"lawful\"] 0\n[\"lawful\"] 0\n")?;
    sheet.notes = notes.into_bytes();
    Ok(sheet)
}

/// Compares the scripts that `stored.txt` names.
pub(crate) fn compare_stored<R: Files + Print + AllocGlobal>(rt: &R) -> Result<()> {
    let names = read_text(rt, "stored")?;
    let table = &read_numeric(rt, "numeric")?;
    let mut sheets = Vec::new(rt.alloc());
    for name in names.lines() {
        sheets.push(stored_script(rt, name)?)?;
    }
    let piece = 65536;
    compare_sheets(rt, &Scripts { table, piece }, &sheets)?.tell(rt, "stored scripts")
}
