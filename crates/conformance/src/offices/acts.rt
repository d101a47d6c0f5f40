//! The steps of acts, and of lines.

use anyhow::{Result, anyhow};
use filing_step::Step;
use history_format::step_in;
use oim_fact::NumericTable;
use oim_report::json_value;
use serde_json::Value;
use std::alloc::Global;
use std::sync::Arc;

/// The step that a value is, as histories write it, by a table of no numeric concept.
fn step_of(alloc: Global, value: Value) -> Result<Step> {
    let table = Arc::new(alloc, NumericTable::of(Vec::new(alloc))?)?;
    match step_in(alloc, value, &table)? {
        Some(step) => Ok(step),
        None => Err(anyhow!("there is no step")),
    }
}

/// The step in an act.
pub(crate) fn step_at(alloc: Global, act: &Value) -> Result<Step> {
    match act.get(2usize) {
        Some(value) => step_of(alloc, value.clone()?),
        None => Err(anyhow!("a step is missing")),
    }
}

/// The step that a line is.
pub(crate) fn line_step(alloc: Global, line: &str) -> Result<Step> {
    match json_value(alloc, line.as_bytes())? {
        Some(value) => step_of(alloc, value),
        None => Err(anyhow!("no JSON: {line}")),
    }
}
