//! Calls that no script makes, or makes only through others.
//!
//! A line that is no JSON is read as a report. Others are arrays:
//!
//! - `["prefixes",[PREFIX,URI],..]` makes the names of prefixes, `["dims",[NAME,TEXT],..]` dimensions.
//! - `["declare",WORD,TEXT]` sets a word in a text that may be no info of a report.
//! - `["numeral",TEXT]` reads a number; `["intervals",TEXT,DECIMALS,TEXT,DECIMALS]` compares two.
//! - `["fact",FACT]` writes a fact before and after it is fitted to the prefix `ex`; `["class",FACT,..]` gets the class of facts.
//! - `["version",LOAD,PAGE,STEP,..]` asks the version of a load and a session there, in steps as histories write them.
//! - `["number",N]` gets the replies with this number of a version.

mod values;
mod versions;

use crate::calls::values::{class_answer, fact_answer, intervals_answer, numeral_answer};
use crate::calls::versions::version_answer;
use crate::lines::{is_end, push_line, read_numeric};
use crate::question::{parts, text_at};
use crate::sheet::{Answers, Sheet, compare_rows};
use anyhow::Result;
use filing_step::Reply;
use oim_fact::{Allowed, DimSet, Names, NumericTable};
use oim_report::{Trouble, allowed_of_word, json_value, read_report, with_allowed};
use script_format::{bad_fact_reply, bad_report_reply, reply_text};
use serde_json::Value;
use std::alloc::{AllocError, Global};
use std::rt::Files;
use std::sync::Arc;

/// What answers lines that are calls.
#[derive(Drop)]
pub(crate) struct Calls<'a> {
    pub(crate) table: &'a Arc<NumericTable>,
}

/// The text at a place of a pair, where it is one.
fn text_in(alloc: Global, pair: &Value, place: usize) -> Result<Option<String>, AllocError> {
    match pair.get(place).and_then(Value::as_str) {
        Some(text) => Ok(Some(String::from_str(alloc, text)?)),
        None => Ok(None),
    }
}

/// The answer to pairs as dimensions.
fn dims_answer(alloc: Global, pairs: &[Value]) -> Result<String> {
    let mut listed = Vec::new(alloc);
    for pair in pairs {
        let name = text_in(alloc, pair, 0)?.unwrap_or(String::new(alloc));
        listed.push((name, text_in(alloc, pair, 1)?))?;
    }
    match DimSet::of(listed) {
        Ok(dims) => {
            drop(dims);
            Ok(String::from_str(alloc, "read")?)
        }
        Err(fault) => Ok(bad_fact_reply(alloc, Trouble::Dims(fault))?),
    }
}

/// The answer to pairs as prefixes with their URIs.
fn names_answer(alloc: Global, pairs: &[Value], table: &Arc<NumericTable>) -> Result<String> {
    let mut listed = Vec::new(alloc);
    for pair in pairs {
        let prefix = String::from_str(alloc, text_at(pair, 0))?;
        listed.push((prefix, String::from_str(alloc, text_at(pair, 1))?))?;
    }
    match Names::of(listed, table.clone()?) {
        Ok(names) => {
            drop(names);
            Ok(String::from_str(alloc, "read")?)
        }
        Err(fault) => Ok(fault.to_string(alloc)?),
    }
}

/// The answer to a call.
fn value_answer(alloc: Global, call: &Value, table: &Arc<NumericTable>) -> Result<String> {
    let pairs = parts(call).get(1..).unwrap_or(&[]);
    match text_at(call, 0) {
        "prefixes" => names_answer(alloc, pairs, table),
        "dims" => dims_answer(alloc, pairs),
        "declare" => {
            let allowed = allowed_of_word(text_at(call, 1)).unwrap_or(Allowed::All);
            Ok(with_allowed(alloc, text_at(call, 2), allowed)?)
        }
        "numeral" => numeral_answer(alloc, text_at(call, 1)),
        "intervals" => intervals_answer(alloc, call),
        "fact" => match pairs.first() {
            Some(fact) => fact_answer(alloc, fact, table),
            None => Ok(String::new(alloc)),
        },
        "class" => class_answer(alloc, pairs, table),
        "version" => version_answer(alloc, call),
        _ => {
            let number = call.get(1usize).and_then(Value::as_u64).unwrap_or(0);
            let committed = reply_text(alloc, &Reply::Committed(number))?;
            let loaded = reply_text(alloc, &Reply::Loaded(number))?;
            Ok(format!(in alloc; "{committed} {loaded}")?)
        }
    }
}

/// The answer to bytes as a report.
fn bytes_answer(alloc: Global, bytes: &[u8], table: &Arc<NumericTable>) -> Result<String> {
    match read_report(alloc, bytes, table) {
        Ok(report) => {
            drop(report);
            Ok(String::from_str(alloc, "read")?)
        }
        Err(fault) => {
            let told = bad_report_reply(alloc, &fault);
            drop(fault);
            Ok(told?)
        }
    }
}

/// The answer to a line.
fn line_answer(alloc: Global, line: &[u8], table: &Arc<NumericTable>) -> Result<String> {
    match json_value(alloc, line)? {
        Some(call) => {
            let told = value_answer(alloc, &call, table);
            drop(call);
            told
        }
        None => bytes_answer(alloc, line, table),
    }
}

impl Answers for Calls<'_> {
    fn answer_to(&self, alloc: Global, sheet: &Sheet) -> Result<Vec<u8>> {
        let mut told = Vec::new(alloc);
        for line in sheet.script().split(is_end) {
            if !line.is_empty() {
                push_line(&mut told, line_answer(alloc, line, self.table)?.as_bytes())?;
            }
        }
        Ok(told)
    }
}

/// Compares the answers to calls.
pub(crate) fn compare_calls<R: Files + Print + AllocGlobal>(rt: &R) -> Result<()> {
    let table = &read_numeric(rt, "worked")?;
    compare_rows(rt, "calls", &Calls { table })
}
