//! What is wrong with `documentInfo`. The checks stand in the order of `report_of`.

use crate::facts::tell_not_whole;
use crate::shown::{Shown, ShownValue, kind_of};
use crate::told::Told;
use oim_fact::{Names, NumericTable};
use oim_report::allowed_of_word;
use serde_json::{Map, Value};
use std::alloc::{AllocError, Global};
use std::sync::Arc;

/// The document type of a report.
const DOCUMENT_TYPE: &str = "https://xbrl.org/2021/xbrl-json";

/// Tells a document type that is missing or another one.
pub fn tell_type_fault(
    alloc: Global,
    told: &mut Told,
    found: Option<&Value>,
) -> Result<(), AllocError> {
    match found {
        Some(Value::String(text)) if text.as_str() == DOCUMENT_TYPE => Ok(()),
        Some(value) => {
            let shown = ShownValue(value);
            let said = format!(in alloc;
                "\"documentType\" is {shown}; it has to be \"{DOCUMENT_TYPE}\""
            )?;
            told.tell(said)
        }
        None => {
            let said = format!(in alloc;
                "there is no \"documentType\" in documentInfo; it has to be \"{DOCUMENT_TYPE}\""
            )?;
            told.tell(said)
        }
    }
}

/// Whether a value is a word for allowed duplicates.
fn is_allowed(value: &Value) -> bool {
    match value {
        Value::String(word) => allowed_of_word(word).is_some(),
        _ => false,
    }
}

/// Tells what is wrong with features.
pub fn tell_features_fault(
    alloc: Global,
    told: &mut Told,
    features: Option<&Value>,
) -> Result<(), AllocError> {
    let Some(features) = features else {
        return Ok(());
    };
    if !features.is_object() {
        let kind = kind_of(features);
        let said = format!(in alloc; "\"features\" is {kind}, not an object")?;
        return told.tell(said);
    }
    match features.get("xbrl:allowedDuplicates") {
        Some(value) if !is_allowed(value) => {
            let shown = ShownValue(value);
            let said = format!(in alloc;
                "\"xbrl:allowedDuplicates\" is {shown}; it has to be \"none\", \"complete\", \"consistent\" or \"all\""
            )?;
            told.tell(said)
        }
        _ => Ok(()),
    }
}

/// The URIs with their prefixes, of those that are texts; tells each that is not.
fn rows_of_bindings<'a>(
    alloc: Global,
    told: &mut Told,
    members: &'a Map<String, Value>,
) -> Result<Vec<(&'a str, &'a str)>, AllocError> {
    let mut rows = Vec::with_capacity(alloc, members.len())?;
    for (prefix, value) in members {
        match value {
            Value::String(uri) => rows.push((uri.as_str(), prefix.as_str()))?,
            value => {
                let prefix = Shown(prefix);
                let shown = ShownValue(value);
                let said = format!(in alloc;
                    "the prefix {prefix} is bound to {shown}, not to a text"
                )?;
                told.tell(said)?;
            }
        }
    }
    Ok(rows)
}

/// Tells each URI of sorted rows that two prefixes have.
fn tell_aliases(alloc: Global, told: &mut Told, rows: &[(&str, &str)]) -> Result<(), AllocError> {
    let mut last: Option<(&str, &str)> = None;
    for row in rows {
        if let Some((uri, prefix)) = last {
            if uri == row.0 {
                let uri = Shown(uri);
                let first = Shown(prefix);
                let second = Shown(row.1);
                let said = format!(in alloc;
                    "the URI {uri} has two prefixes, {first} and {second}"
                )?;
                told.tell(said)?;
            }
        }
        last = Some((row.0, row.1));
    }
    Ok(())
}

/// The prefixes with their URIs, as `Names` takes them.
fn owned_rows(alloc: Global, rows: &[(&str, &str)]) -> Result<Vec<(String, String)>, AllocError> {
    let mut owned = Vec::with_capacity(alloc, rows.len())?;
    for row in rows {
        owned.push((
            String::from_str(alloc, row.1)?,
            String::from_str(alloc, row.0)?,
        ))?;
    }
    Ok(owned)
}

/// The names that these members bind; none where they are refused, and tells why.
fn names_in(
    alloc: Global,
    told: &mut Told,
    members: &Map<String, Value>,
    table: &Arc<NumericTable>,
) -> Result<Option<Names>, AllocError> {
    let mut rows = rows_of_bindings(alloc, told, members)?;
    rows.sort_unstable();
    tell_aliases(alloc, told, &rows)?;
    if rows.len() < members.len() {
        return Ok(None);
    }
    Ok(Names::of(owned_rows(alloc, &rows)?, table.clone()?).ok())
}

/// The names that documentInfo declares; none where they are refused, and tells why.
pub fn names_of(
    alloc: Global,
    told: &mut Told,
    namespaces: Option<&Value>,
    table: &Arc<NumericTable>,
) -> Result<Option<Names>, AllocError> {
    match namespaces {
        None => Ok(Names::of(Vec::new(alloc), table.clone()?).ok()),
        Some(Value::Object(members)) => names_in(alloc, told, members, table),
        Some(value) => {
            let kind = kind_of(value);
            let said = format!(in alloc; "\"namespaces\" is {kind}, not an object")?;
            told.tell(said)?;
            Ok(None)
        }
    }
}

/// Tells all that is wrong with a documentInfo that is an object, and gives the names that it declares, where they are in order.
fn tell_members_faults(
    alloc: Global,
    told: &mut Told,
    info: &Value,
    table: &Arc<NumericTable>,
) -> Result<Option<Names>, AllocError> {
    tell_type_fault(alloc, told, info.get("documentType"))?;
    tell_features_fault(alloc, told, info.get("features"))?;
    let names = names_of(alloc, told, info.get("namespaces"), table)?;
    tell_not_whole(alloc, told, "documentInfo", info)?;
    Ok(names)
}

/// Tells all that is wrong with a report apart from its facts, and gives the names that it declares, where they are in order.
pub fn tell_info_faults(
    alloc: Global,
    told: &mut Told,
    report: &Value,
    table: &Arc<NumericTable>,
) -> Result<Option<Names>, AllocError> {
    let said = match report.get("documentInfo") {
        Some(info) if info.is_object() => return tell_members_faults(alloc, told, info, table),
        Some(info) => {
            let kind = kind_of(info);
            format!(in alloc; "\"documentInfo\" is {kind}, not an object")?
        }
        None if report.is_object() => String::from_str(alloc, "there is no \"documentInfo\"")?,
        None => {
            let kind = kind_of(report);
            format!(in alloc; "the report is {kind}, not an object")?
        }
    };
    told.tell(said)?;
    Ok(None)
}
