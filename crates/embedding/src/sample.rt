//! The report and the facts with which the callers begin.

use anyhow::Result;
use filing_step::Step;
use oim_fact::{DimSet, NumericTable, RawFact};
use oim_report::{Report, read_report};
use std::alloc::{AllocError, Global};
use std::sync::Arc;

/// The name of the report.
pub const NAME: &str = "annual";

// A report with one fact, as xBRL-JSON 1.0 has it.
const REPORT: &str =
    r#"{"documentInfo":{"documentType":"https://xbrl.org/2021/xbrl-json","namespaces":{"ex":"http://example.com/terms"}},"facts":{"f1":{"dimensions":{"concept":"ex:Name"},"value":"Anna"}}}"#;

/// A text of its own.
pub fn text(alloc: Global, text: &str) -> Result<String, AllocError> {
    String::from_str(alloc, text)
}

/// The report, read with no numeric concept.
pub fn report(alloc: Global) -> Result<Report> {
    let table = Arc::new(alloc, NumericTable::of(Vec::new(alloc))?)?;
    Ok(read_report(alloc, REPORT.as_bytes(), &table)?)
}

/// A fact whose value is a name.
pub fn name_fact(alloc: Global, name: &str) -> Result<RawFact> {
    let mut dims = Vec::new(alloc);
    dims.push((text(alloc, "concept")?, Some(text(alloc, "ex:Name")?)))?;
    Ok(RawFact {
        dims: DimSet::of(dims)?,
        value: Some(text(alloc, name)?),
        decimals: None,
        links: None,
    })
}

/// The step that adds a fact to the report.
pub fn addition(alloc: Global) -> Result<Step> {
    Ok(Step::Add {
        report: text(alloc, NAME)?,
        id: text(alloc, "f2")?,
        fact: name_fact(alloc, "Ben")?,
    })
}
