//! The way from a raw fact to a fact by the names of its report.

ghost use Rattle.std.specs.Prelude.{◌≡◌};
ghost use Rattle.filing_model.specs.Oim.Facts.{are_bound, fit_of, number_fault, numeric_value, written_value};
ghost use Rattle.oim_fact.specs.Texts.{text_view};
ghost use Rattle.oim_fact.specs.Facts.{value_view, value_given};

use crate::dims::{DimSet, is_core_name};
use crate::fact::{Fact, FactValue, RawFact};
use crate::names::Names;
use filing_model::FactFault;
use oim_value::{Accuracy, Decimal, NumberFault};

/// The fact that a raw fact is by the names of its report, or the first fault. It moves the texts and takes no memory.
/// Faults are: a prefix that is not bound; a unit or decimals out of place; no number, one too large, or decimals out of range.
pub fn fit(names: &Names, raw: RawFact) -> Result<Fact, FactFault>
    ensures { result ≡ fit_of names.now raw }
{
    let Some((uri, local)) = names.expand(raw.dims.concept()) else {
        return Err(FactFault::UnboundPrefix);
    };
    let is_numeric = names.is_numeric(uri, local);
    if !are_bound(names, &raw.dims) {
        return Err(FactFault::UnboundPrefix);
    }
    let is_misplaced = raw.is_misplaced();
    let RawFact {
        dims,
        value,
        decimals,
        links,
    } = raw;
    let value = if is_numeric {
        numeric_value(value, decimals)?
    } else if is_misplaced {
        return Err(FactFault::Misplaced);
    } else {
        written_value(value)
    };
    Ok(Fact { dims, value, links })
}

/// Whether each name that is not core has a prefix that is bound.
fn are_bound(names: &Names, dims: &DimSet) -> bool
    ensures { result ≡ are_bound names.now.prefixes dims.now }
{
    for (name, _) in dims.pairs() {
        if !is_core_name(name) && !names.binds(name) {
            return false;
        }
    }
    true
}

/// The value of a numeric concept. Where it is null, decimals are dropped and not looked at.
fn numeric_value(value: Option<String>, decimals: Option<i64>) -> Result<FactValue, FactFault>
    ensures { value_given result ≡ numeric_value (text_view value) decimals }
{
    let Some(text) = value else {
        return Ok(FactValue::Nil);
    };
    let value = match Decimal::read(&text) {
        Ok(value) => value,
        Err(fault) => return Err(number_fault(fault)),
    };
    let accuracy = match Accuracy::of(decimals) {
        Ok(accuracy) => accuracy,
        Err(fault) => return Err(number_fault(fault)),
    };
    Ok(FactValue::Number {
        text,
        value,
        accuracy,
    })
}

fn number_fault(fault: NumberFault) -> FactFault
    ensures { result ≡ number_fault fault }
{
    match fault {
        NumberFault::NotANumber => FactFault::NotANumber,
        NumberFault::TooLarge => FactFault::TooLarge,
        NumberFault::DecimalsOutOfRange => FactFault::DecimalsOutOfRange,
    }
}

/// The value of any other concept.
fn written_value(value: Option<String>) -> FactValue
    ensures { value_view result ≡ written_value (text_view value) }
{
    match value {
        None => FactValue::Nil,
        Some(text) => FactValue::Text(text),
    }
}
