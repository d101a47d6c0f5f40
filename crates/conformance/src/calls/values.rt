//! Calls of numbers, intervals and facts.

use crate::question::text_at;
use anyhow::Result;
use oim_fact::{Fact, Names, NumericTable, RawFact, class_of, fit};
use oim_report::{Trouble, raw_fact, write_fact, write_raw};
use oim_value::{Accuracy, Decimal, Interval};
use script_format::{bad_fact_reply, class_word};
use serde_json::Value;
use std::alloc::Global;
use std::sync::Arc;

/// The answer to a text as a numeral: its number of units, or why it is none.
pub(crate) fn numeral_answer(alloc: Global, text: &str) -> Result<String> {
    match Decimal::read(text) {
        Ok(number) => Ok(format!(in alloc; "{number:?}")?),
        Err(fault) => Ok(fault.to_string(alloc)?),
    }
}

/// The interval of the numeral at a place, with the decimals after it.
fn interval_at(call: &Value, place: usize) -> Result<Interval> {
    let number = Decimal::read(text_at(call, place))?;
    let decimals = call.get(place.saturating_add(1)).and_then(Value::as_i64);
    Ok(number.interval(Accuracy::of(decimals)?))
}

/// The answer to two numerals with their decimals: whether their intervals meet, whether the first is narrowed, and what it is then.
pub(crate) fn intervals_answer(alloc: Global, call: &Value) -> Result<String> {
    let mut one = interval_at(call, 1)?;
    let other = interval_at(call, 3)?;
    let meets = one.meets(&other);
    let is_narrowed = one.narrow(&other);
    Ok(format!(in alloc; "{meets} {is_narrowed} {one:?}")?)
}

/// The names of a report whose only prefix is `ex`.
fn example_names(alloc: Global, table: &Arc<NumericTable>) -> Result<Names> {
    let mut prefixes = Vec::new(alloc);
    let uri = String::from_str(alloc, "http://e.org/t")?;
    prefixes.push((String::from_str(alloc, "ex")?, uri))?;
    Ok(Names::of(prefixes, table.clone()?)?)
}

/// The answer to a raw fact that fits these names or not: it as it is written, and how the fitted one is.
fn fitted_answer(alloc: Global, names: &Names, raw: RawFact) -> Result<String> {
    let raw_text = write_raw(alloc, &raw)?;
    let fitted = match fit(names, raw) {
        Ok(fact) => write_fact(alloc, &fact)?,
        Err(fault) => bad_fact_reply(alloc, Trouble::Fit(fault))?,
    };
    Ok(format!(in alloc; "{raw_text} {fitted}")?)
}

/// The answer to a value as a fact.
pub(crate) fn fact_answer(
    alloc: Global,
    value: &Value,
    table: &Arc<NumericTable>,
) -> Result<String> {
    let names = example_names(alloc, table)?;
    match raw_fact(alloc, value) {
        Ok(raw) => fitted_answer(alloc, &names, raw),
        Err(trouble) => Ok(bad_fact_reply(alloc, trouble)?),
    }
}

/// The answer to values as facts: the class of them all.
pub(crate) fn class_answer(
    alloc: Global,
    values: &[Value],
    table: &Arc<NumericTable>,
) -> Result<String> {
    let names = example_names(alloc, table)?;
    let mut facts: Vec<Arc<Fact>> = Vec::new(alloc);
    for value in values {
        let fact = fit(&names, raw_fact(alloc, value)?)?;
        facts.push(Arc::new(alloc, fact)?)?;
    }
    Ok(String::from_str(alloc, class_word(class_of(&facts)))?)
}
