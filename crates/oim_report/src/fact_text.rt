//! Facts as compact JSON (xBRL-JSON 1.0, the fact object).

ghost use Rattle.std.specs.Prelude.{◌≡◌, ◌++◌, OnOk, OnErr, IfOk, string_bytes};
ghost use Rattle.filing_model.specs.Reading.Writing.{decimals_in, dims_text, fact_text, links_text, member_text, nullable_text, raw_fact_text, text_of as text_of_value};
ghost use Rattle.oim_fact.specs.Texts.{text_view};
ghost use Rattle.oim_fact.specs.Dims.{dims_view};
ghost use Rattle.oim_fact.specs.Facts.{value_view};
ghost use Rattle.oim_report.specs.Pieces.{before_value};
ghost use Rattle.oim_report.specs.Appended.{IsFrontPushed};

use crate::pieces::{push_comma, push_decimals, push_nullable, push_quoted};
use oim_fact::{DimSet, Fact, FactValue, RawFact};
use oim_value::Accuracy;
use std::alloc::{AllocError, Global};

/// Appends a dimension, a member of an object.
fn push_dim(out: &mut String, name: &str, value: &Option<String>) -> Result<(), AllocError>
    ensures text { OnOk result (string_bytes out.new
        ≡ string_bytes out.old ++ member_text name.now (nullable_text (text_view value.now))) }
    ensures front { OnErr result (IsFrontPushed out.old out.new
        (member_text name.now (nullable_text (text_view value.now)))) }
{
    push_quoted(out, name)?;
    out.push(':')?;
    push_nullable(out, value)
}

/// Appends the object of dimensions as they stand in the list.
fn push_pairs(out: &mut String, pairs: &[(String, Option<String>)]) -> Result<(), AllocError>
    ensures text { OnOk result (string_bytes out.new
        ≡ string_bytes out.old ++ dims_text (dims_view pairs.now)) }
    ensures front { OnErr result (IsFrontPushed out.old out.new (dims_text (dims_view pairs.now))) }
{
    out.push('{')?;
    let mut later = false;
    for (name, value) in pairs {
        push_comma(out, later)?;
        push_dim(out, name, value)?;
        later = true;
    }
    out.push('}')
}

/// Appends a dimension set as an object, in byte order of the names.
pub fn push_dims(out: &mut String, dims: &DimSet) -> Result<(), AllocError>
    ensures text { OnOk result (string_bytes out.new ≡ string_bytes out.old ++ dims_text dims.now) }
    ensures front { OnErr result (IsFrontPushed out.old out.new (dims_text dims.now)) }
{
    push_pairs(out, dims.pairs())
}

/// Appends the member `links`, if any, with the comma before it.
fn push_links(out: &mut String, links: &Option<String>) -> Result<(), AllocError>
    ensures text { OnOk result (string_bytes out.new
        ≡ string_bytes out.old ++ links_text (text_view links.now)) }
    ensures front { OnErr result (IsFrontPushed out.old out.new (links_text (text_view links.now))) }
{
    match links {
        None => Ok(()),
        Some(links) => {
            out.push_str(",\"links\":")?;
            out.push_str(links)
        }
    }
}

/// Appends what stands in a fact object before its value.
fn push_before_value(
    out: &mut String,
    decimals: &Option<i64>,
    dims: &DimSet,
    links: &Option<String>,
) -> Result<(), AllocError>
    ensures text { OnOk result (string_bytes out.new
        ≡ string_bytes out.old ++ before_value decimals.now dims.now (text_view links.now)) }
    ensures front { OnErr result (IsFrontPushed out.old out.new
        (before_value decimals.now dims.now (text_view links.now))) }
{
    out.push('{')?;
    push_decimals(out, decimals)?;
    out.push_str("\"dimensions\":")?;
    push_dims(out, dims)?;
    push_links(out, links)?;
    out.push_str(",\"value\":")
}

/// The decimals of a number that is not exact.
fn decimals(value: &FactValue) -> Option<i64>
    ensures { result ≡ decimals_in (value_view value.now) }
{
    match value {
        FactValue::Number {
            accuracy: Accuracy::To(decimals),
            ..
        } => Some(i64::from(decimals.place())),
        _ => None,
    }
}

/// Appends the text of a fact's value, or null. A number has its text as it was read.
fn push_value(out: &mut String, value: &FactValue) -> Result<(), AllocError>
    ensures text { OnOk result (string_bytes out.new
        ≡ string_bytes out.old ++ nullable_text (text_of_value (value_view value.now))) }
    ensures front { OnErr result (IsFrontPushed out.old out.new
        (nullable_text (text_of_value (value_view value.now)))) }
{
    match value {
        FactValue::Nil => out.push_str("null"),
        FactValue::Text(text) | FactValue::Number { text, .. } => push_quoted(out, text),
    }
}

/// Appends a fact as `write_fact` writes it.
#[tactic(auto, using(crate::proofs::WrittenPieces::fact_written))]
pub fn push_fact(out: &mut String, fact: &Fact) -> Result<(), AllocError>
    ensures text { OnOk result (string_bytes out.new ≡ string_bytes out.old ++ fact_text fact.now) }
    ensures front { OnErr result (IsFrontPushed out.old out.new (fact_text fact.now)) }
{
    push_before_value(out, &decimals(&fact.value), &fact.dims, &fact.links)?;
    push_value(out, &fact.value)?;
    out.push('}')
}

/// A fact as a compact JSON object: `decimals` where it is a number that is not exact, `dimensions`, `links` where they were kept, and `value`.
pub fn write_fact(alloc: Global, fact: &Fact) -> Result<String, AllocError>
    ensures { IfOk result (λ text. string_bytes text ≡ fact_text fact.now) }
{
    let mut out = String::new(alloc);
    push_fact(&mut out, fact)?;
    Ok(out)
}

/// Appends a raw fact as `write_raw` writes it.
#[tactic(auto, using(crate::proofs::WrittenPieces::raw_written))]
pub fn push_raw(out: &mut String, raw: &RawFact) -> Result<(), AllocError>
    ensures text { OnOk result (string_bytes out.new
        ≡ string_bytes out.old ++ raw_fact_text raw.now) }
    ensures front { OnErr result (IsFrontPushed out.old out.new (raw_fact_text raw.now)) }
{
    push_before_value(out, &raw.decimals, &raw.dims, &raw.links)?;
    push_nullable(out, &raw.value)?;
    out.push('}')
}

/// A raw fact as a compact JSON object: `decimals` and `links` where it has them, `dimensions`, and `value`.
pub fn write_raw(alloc: Global, raw: &RawFact) -> Result<String, AllocError>
    ensures { IfOk result (λ text. string_bytes text ≡ raw_fact_text raw.now) }
{
    let mut out = String::new(alloc);
    push_raw(&mut out, raw)?;
    Ok(out)
}
