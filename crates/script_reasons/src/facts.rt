//! What is wrong with a fact, or with dimensions, as they are read. The functions that read them report that they are refused.
//! Where the fault is, is looked up here anew, in the same order.

use crate::shown::{Shown, ShownValue, kind_of};
use crate::told::Told;
use filing_model::is_same_text;
use serde_json::{Map, Value};
use std::alloc::{AllocError, Global};

/// Bytes that a dimension's name or value may have at most.
const LONGEST: usize = 4096;

/// Whether a dimension is one that may not be null.
pub(crate) fn is_core(name: &str) -> bool {
    is_same_text(name, "concept")
        || is_same_text(name, "entity")
        || is_same_text(name, "period")
        || is_same_text(name, "unit")
        || is_same_text(name, "language")
        || is_same_text(name, "noteId")
}

/// What is wrong with the shape of dimensions: the first thing.
pub(crate) fn dims_fault(alloc: Global, dims: &Value) -> Result<Option<String>, AllocError> {
    let Value::Object(members) = dims else {
        let kind = kind_of(dims);
        return Ok(Some(format!(in alloc; "the dimensions are {kind}, not an object")?));
    };
    for (name, value) in members {
        if !matches!(value, Value::Null | Value::String(_)) {
            return Ok(Some(dim_fault(alloc, name, value)?));
        }
    }
    Ok(None)
}

/// What is reported about the value of a dimension that is neither a text nor null.
fn dim_fault(alloc: Global, name: &str, value: &Value) -> Result<String, AllocError> {
    let name = Shown(name);
    let value = ShownValue(value);
    format!(in alloc; "the dimension {name} is {value}, not a text or null")
}

/// Tells each dimension whose value is neither a text nor null.
fn tell_dims_shapes(
    alloc: Global,
    told: &mut Told,
    members: &Map<String, Value>,
) -> Result<(), AllocError> {
    for (name, value) in members {
        if !matches!(value, Value::Null | Value::String(_)) {
            told.tell(dim_fault(alloc, name, value)?)?;
        }
    }
    Ok(())
}

/// Tells what is wrong with the shape of dimensions that may be missing.
fn tell_dims_shape(alloc: Global, told: &mut Told, dims: Option<&Value>) -> Result<(), AllocError> {
    match dims {
        Some(Value::Object(members)) => tell_dims_shapes(alloc, told, members),
        Some(value) => {
            let kind = kind_of(value);
            let said = format!(in alloc; "\"dimensions\" is {kind}, not an object")?;
            told.tell(said)
        }
        None => told.tell(String::from_str(alloc, "there are no \"dimensions\"")?),
    }
}

/// Tells what is wrong with the shape of a fact's value.
fn tell_value_shape(
    alloc: Global,
    told: &mut Told,
    value: Option<&Value>,
) -> Result<(), AllocError> {
    match value {
        Some(Value::Null | Value::String(_)) => Ok(()),
        Some(Value::Number(number)) => {
            let said = format!(in alloc;
                "\"value\" is the number {number}; it has to be a text, as \"{number}\""
            )?;
            told.tell(said)
        }
        Some(value) => {
            let kind = kind_of(value);
            let said = format!(in alloc; "\"value\" is {kind}, not a text or null")?;
            told.tell(said)
        }
        None => told.tell(String::from_str(alloc, "there is no \"value\"")?),
    }
}

/// Tells what is wrong with the decimals of a fact as they are read.
fn tell_decimals_shape(
    alloc: Global,
    told: &mut Told,
    decimals: Option<&Value>,
) -> Result<(), AllocError> {
    match decimals {
        None | Some(Value::Null) => Ok(()),
        Some(Value::Number(number)) => {
            if number.as_i64().is_some() {
                return Ok(());
            }
            let said = format!(in alloc; "\"decimals\" is {number}, not a whole number")?;
            told.tell(said)
        }
        Some(value) => {
            let shown = ShownValue(value);
            let said = format!(in alloc; "\"decimals\" is {shown}, not a number")?;
            told.tell(said)
        }
    }
}

/// Tells each number that is not whole in a value, which stands in the member `place`.
#[cycle(whole)]
pub fn tell_not_whole(
    alloc: Global,
    told: &mut Told,
    place: &str,
    value: &Value,
) -> Result<(), AllocError> {
    match value {
        Value::Number(number) => {
            if number.as_u64().is_some() || number.as_i64().is_some() {
                return Ok(());
            }
            let said = format!(in alloc;
                "\"{place}\" has the number {number}, which is not whole"
            )?;
            told.tell(said)
        }
        Value::Array(items) => tell_not_whole_items(alloc, told, place, items),
        Value::Object(members) => tell_not_whole_members(alloc, told, place, members),
        _ => Ok(()),
    }
}

/// Tells each number that is not whole in these items, which stand in the member `place`.
#[cycle(whole)]
fn tell_not_whole_items(
    alloc: Global,
    told: &mut Told,
    place: &str,
    items: &Vec<Value>,
) -> Result<(), AllocError> {
    for item in items {
        tell_not_whole(alloc, told, place, item)?;
    }
    Ok(())
}

/// Tells each number that is not whole in the values of these members, which stand in the member `place`.
#[cycle(whole)]
fn tell_not_whole_members(
    alloc: Global,
    told: &mut Told,
    place: &str,
    members: &Map<String, Value>,
) -> Result<(), AllocError> {
    for (_, value) in members {
        tell_not_whole(alloc, told, place, value)?;
    }
    Ok(())
}

/// Tells what is wrong with the links of a fact.
fn tell_links_shape(
    alloc: Global,
    told: &mut Told,
    links: Option<&Value>,
) -> Result<(), AllocError> {
    match links {
        None => Ok(()),
        Some(Value::Object(members)) => tell_not_whole_members(alloc, told, "links", members),
        Some(value) => {
            let kind = kind_of(value);
            let said = format!(in alloc; "\"links\" is {kind}, not an object")?;
            told.tell(said)
        }
    }
}

/// Tells each core dimension that is null.
fn tell_null_cores(
    alloc: Global,
    told: &mut Told,
    members: &Map<String, Value>,
) -> Result<(), AllocError> {
    for (name, value) in members {
        if value.is_null() && is_core(name) {
            let said = format!(in alloc; "the dimension \"{name}\" is null, which it may not be")?;
            told.tell(said)?;
        }
    }
    Ok(())
}

/// Whether a name or a value is longer than it may be.
fn is_long(name: &str, value: &Value) -> bool {
    match value {
        Value::String(text) => name.len() > LONGEST || text.len() > LONGEST,
        _ => name.len() > LONGEST,
    }
}

/// Tells each dimension with a name or a value that is too long.
fn tell_long_dims(
    alloc: Global,
    told: &mut Told,
    members: &Map<String, Value>,
) -> Result<(), AllocError> {
    for (name, value) in members {
        if is_long(name, value) {
            let name = Shown(name);
            let said = format!(in alloc;
                "the name or the value of the dimension {name} has more than 4096 bytes"
            )?;
            told.tell(said)?;
        }
    }
    Ok(())
}

/// Tells why dimensions of the right shape are no dimension set.
pub(crate) fn tell_set_faults(
    alloc: Global,
    told: &mut Told,
    dims: Option<&Value>,
) -> Result<(), AllocError> {
    let Some(Value::Object(members)) = dims else {
        return Ok(());
    };
    tell_null_cores(alloc, told, members)?;
    if members.get("concept").is_none() {
        let said = String::from_str(alloc, "there is no dimension \"concept\"")?;
        told.tell(said)?;
    }
    tell_long_dims(alloc, told, members)
}

/// Tells all that is wrong with a fact as it is read.
pub(crate) fn tell_fact_faults(
    alloc: Global,
    told: &mut Told,
    fact: &Value,
) -> Result<(), AllocError> {
    if !fact.is_object() {
        let kind = kind_of(fact);
        let said = format!(in alloc; "it is {kind}, not an object")?;
        return told.tell(said);
    }
    let dims = fact.get("dimensions");
    tell_dims_shape(alloc, told, dims)?;
    tell_value_shape(alloc, told, fact.get("value"))?;
    tell_decimals_shape(alloc, told, fact.get("decimals"))?;
    tell_links_shape(alloc, told, fact.get("links"))?;
    tell_set_faults(alloc, told, dims)
}
