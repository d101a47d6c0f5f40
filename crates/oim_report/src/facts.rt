//! The facts of a report as JSON says them.
ghost use Rattle.std.specs.Prelude.{◌≡◌, [], T, codes, Option, option_map, string_bytes, IfOk, IsTrue, OnOk, is_some, unwrap_or, ok_or};
ghost use Rattle.std.specs.Arc.{arc_value};
ghost use Rattle.std.specs.FinMap.Entries.{is_sorted};
ghost use Rattle.serde_json.specs.Find.{get};
ghost use Rattle.serde_json.specs.View.{view, members_view};
ghost use Rattle.filing_model.specs.Common.Text.{text_cmp};
ghost use Rattle.filing_model.specs.Common.TextMap.{from_entries};
ghost use Rattle.filing_model.specs.Common.Try.{Gives, each, map_err};
ghost use Rattle.filing_model.specs.Common.Faults.{fact_trouble};
ghost use Rattle.filing_model.specs.Reading.JsonText.{pairs, as_nullable};
ghost use Rattle.filing_model.specs.Oim.Dimensions.{AreDims, dims_of};
ghost use Rattle.filing_model.specs.Reading.Fitted.{IsFitted, AreLinks};
ghost use Rattle.filing_model.specs.Reading.ReadReport.{entry_of, facts_of, BadFact as refused};
ghost use Rattle.json.specs.Value.{members_view as read_members};
ghost use Rattle.serde_json.specs.Data.{no_members};
ghost use Rattle.serde_json.specs.Read.{of_members};
ghost use Rattle.oim_report.specs.Borrowed.{IsInRange, data_of};
ghost use Rattle.oim_report.specs.Faults.{report_fault};
ghost use Rattle.oim_report.specs.Parts.{fact_view, facts_view};
ghost use Rattle.oim_report.specs.Readable.{AreFitted};
ghost use Rattle.oim_report.specs.Readings.{fitted_of, same, dim_view, dims_at, raw_fact_at, raw_fact_with};
ghost use Rattle.std.specs.Option.{option_and_then};
ghost use Rattle.filing_model.specs.Reading.ReadFact.{dim_of, decimals_of, links_of, raw_fact_of, dims_read};
ghost use Rattle.oim_fact.specs.Dims.{dims_view};
ghost use Rattle.oim_fact.specs.Texts.{text_view};
ghost use Rattle.filing_model.specs.declared.faults.Trouble.TheVariants as trouble;

use crate::borrowed::{in_order, into_owned, member_of, read_members_of};
use crate::fault::ReportFault;
use crate::values::{members_of, take_member, whole_text};
use filing_model::Trouble;
use oim_fact::{DimSet, Fact, Names, RawFact, fit};
use serde_json::{Map, Value};
use std::alloc::Global;
use std::collections::btree_map::IntoIter;
use std::sync::Arc;

/// The fault that a fact's trouble is: out of memory is the report's own.
fn bad_fact(id: String, trouble: Trouble) -> ReportFault
    ensures { report_fault result ≡ option_map (refused (string_bytes id)) (fact_trouble trouble) }
{
    match trouble {
        Trouble::NoMemory => ReportFault::NoMemory,
        trouble => ReportFault::BadFact(id, trouble),
    }
}

/// A fact by the names of its report, which has its dimension set.
fn fact_by_names(names: &Names, raw: RawFact) -> Result<Fact, Trouble>
    ensures fact { Gives fact_trouble same result (fitted_of names.now raw) }
    ensures fitted { IfOk result (λ f. AreDims f.dims) }
{
    match fit(names, raw) {
        Ok(fact) => {
            let _ = fact.dims.pairs();
            Ok(fact)
        }
        Err(fault) => Err(Trouble::Fit(fault)),
    }
}

/// An identifier with its fact.
fn entry(
    alloc: Global,
    names: &Names,
    id: String,
    value: Value,
) -> Result<(String, Arc<Fact>), ReportFault>
    ensures entry { Gives report_fault fact_view result
        (entry_of names.now (string_bytes id, view value)) }
    ensures dims { IfOk result (λ e. AreDims (arc_value e.1).dims) }
    ensures fitted { IfOk result (λ e. IsFitted names.now (arc_value e.1)) }
{
    let raw = match raw_fact_from(alloc, value) {
        Ok(raw) => raw,
        Err(trouble) => return Err(bad_fact(id, trouble)),
    };
    match fact_by_names(names, raw) {
        Ok(fact) => Ok((id, Arc::new(alloc, fact)?)),
        Err(trouble) => Err(bad_fact(id, trouble)),
    }
}

/// Takes the facts that these members are, each under its identifier, into a list that has none.
fn take_facts(
    alloc: Global,
    names: &Names,
    members: &mut IntoIter<String, Value>,
    facts: &mut Vec<(String, Arc<Fact>)>,
) -> Result<(), ReportFault>
    requires { facts.old.items ≡ [] }
    ensures facts { Gives report_fault (λ _. facts_view facts.new.items) result
        (each (entry_of names.now) (pairs (members_view members.old))) }
    ensures fitted { OnOk result (AreFitted names.now (facts_view facts.new.items)) }
{
    facts.reserve(members.len())?;
    for (id, value) in members {
        facts.push(entry(alloc, names, id, value)?)?;
    }
    Ok(())
}

/// The facts that these members are, each under its identifier.
fn facts_in(
    alloc: Global,
    names: &Names,
    members: Map<String, Value>,
) -> Result<Vec<(String, Arc<Fact>)>, ReportFault>
    ensures facts { Gives report_fault (λ v. facts_view v.items) result
        (each (entry_of names.now) (pairs (members_view members.entries))) }
    ensures rise { IfOk result (λ v. T (is_sorted text_cmp (facts_view v.items))) }
    ensures fitted { IfOk result (λ v. AreFitted names.now (facts_view v.items)) }
{
    let mut facts = Vec::new(alloc);
    let mut members = members.into_iter();
    let taken = take_facts(alloc, names, &mut members, &mut facts);
    drop(members);
    match taken {
        Ok(()) => Ok(facts),
        Err(fault) => {
            drop(facts);
            Err(fault)
        }
    }
}

/// The facts of a report, out of its member `facts`, in byte order of their identifiers.
pub(crate) fn facts(
    alloc: Global,
    names: &Names,
    value: Option<Value>,
) -> Result<Vec<(String, Arc<Fact>)>, ReportFault>
    ensures facts { Gives report_fault (λ v. from_entries (facts_view v.items)) result
        (facts_of names.now (option_map view value)) }
    ensures rise { IfOk result (λ v. T (is_sorted text_cmp (facts_view v.items))) }
    ensures fitted { IfOk result (λ v. AreFitted names.now (facts_view v.items)) }
{
    let Some(value) = value else {
        return Ok(Vec::new(alloc));
    };
    match members_of(value) {
        Some(members) => facts_in(alloc, names, members),
        None => Err(ReportFault::WrongShape),
    }
}

/// An identifier with its fact, of a member whose texts are those that were read.
fn entry_in_text(
    alloc: Global,
    names: &Names,
    id: &str,
    value: json::Value<'_>,
) -> Result<(String, Arc<Fact>), ReportFault>
    requires { IsInRange value }
    ensures entry { Gives report_fault fact_view result
        (entry_of names.now (id.now, data_of value.entry)) }
    ensures dims { IfOk result (λ e. AreDims (arc_value e.1).dims) }
    ensures fitted { IfOk result (λ e. IsFitted names.now (arc_value e.1)) }
{
    let value = into_owned(alloc, value)?;
    entry(alloc, names, String::from_str(alloc, id)?, value)
}

/// The facts that these members are. Each value is given back once its fact is read.
fn facts_in_order<'a>(
    alloc: Global,
    names: &Names,
    members: Vec<(&'a str, json::Value<'a>)>,
) -> Result<Vec<(String, Arc<Fact>)>, ReportFault>
    requires { IsTrue (is_some (of_members (read_members members.items) no_members)) }
    ensures facts { Gives report_fault (λ v. facts_view v.items) result
        (each (entry_of names.now) (pairs (unwrap_or
        (of_members (read_members members.entry.items) no_members) no_members))) }
    ensures rise { IfOk result (λ v. T (is_sorted text_cmp (facts_view v.items))) }
    ensures fitted { IfOk result (λ v. AreFitted names.now (facts_view v.items)) }
{
    let places = in_order(alloc, members)?;
    let mut facts = Vec::with_capacity(alloc, places.len())?;
    for (id, value) in places {
        facts.push(entry_in_text(alloc, names, id, value)?)?;
    }
    Ok(facts)
}

/// The facts of a report, out of a value whose texts are those that were read.
pub(crate) fn facts_in_text(
    alloc: Global,
    names: &Names,
    value: json::Value<'_>,
) -> Result<Vec<(String, Arc<Fact>)>, ReportFault>
    requires { IsInRange value }
    ensures facts { Gives report_fault (λ v. from_entries (facts_view v.items)) result
        (facts_of names.now (get (codes "facts") (data_of value.entry))) }
    ensures rise { IfOk result (λ v. T (is_sorted text_cmp (facts_view v.items))) }
    ensures fitted { IfOk result (λ v. AreFitted names.now (facts_view v.items)) }
{
    let Some(member) = member_of(value, "facts") else {
        return Ok(Vec::new(alloc));
    };
    match read_members_of(member) {
        Some(members) => facts_in_order(alloc, names, members),
        None => Err(ReportFault::WrongShape),
    }
}

/// The members of a fact object that are read.
#[derive(Drop)]
struct FactMembers {
    dimensions: Option<Value>,
    stated: Stated,
}

/// The members that are read, apart from the dimensions.
#[derive(Drop)]
struct Stated {
    value: Option<Value>,
    decimals: Option<Value>,
    links: Option<Value>,
}

/// The members that are read, out of a value; none of one that is no object. The others are dropped.
fn fact_members(value: Value) -> FactMembers
    ensures dimensions { option_map view result.dimensions ≡ get (codes "dimensions") (view value) }
    ensures value { option_map view result.stated.value ≡ get (codes "value") (view value) }
    ensures decimals { option_map view result.stated.decimals ≡ get (codes "decimals") (view value) }
    ensures links { option_map view result.stated.links ≡ get (codes "links") (view value) }
{
    match value {
        Value::Object(members) => {
            let mut members = members;
            FactMembers {
                dimensions: take_member(&mut members, "dimensions"),
                stated: Stated {
                    value: take_member(&mut members, "value"),
                    decimals: take_member(&mut members, "decimals"),
                    links: take_member(&mut members, "links"),
                },
            }
        }
        _ => FactMembers {
            dimensions: None,
            stated: Stated {
                value: None,
                decimals: None,
                links: None,
            },
        },
    }
}

/// A dimension's name with its value, a text or null.
fn dim(name: String, value: Value) -> Result<(String, Option<String>), Trouble>
    ensures { Gives fact_trouble dim_view result (dim_of (string_bytes name, view value)) }
{
    match value {
        Value::Null => Ok((name, None)),
        Value::String(text) => Ok((name, Some(text))),
        _ => Err(Trouble::WrongShape),
    }
}

/// The dimensions that these members are.
fn dims_in(
    alloc: Global,
    members: Map<String, Value>,
) -> Result<Vec<(String, Option<String>)>, Trouble>
    ensures { Gives fact_trouble (λ v. dims_view v.items) result
        (each dim_of (pairs (members_view members.entries))) }
{
    let Ok(mut dims) = Vec::with_capacity(alloc, members.len()) else {
        return Err(Trouble::NoMemory);
    };
    for (name, value) in members {
        let Ok(()) = dims.push(dim(name, value)?) else {
            return Err(Trouble::NoMemory);
        };
    }
    Ok(dims)
}

/// The dimensions as they stand in the object.
fn dims(alloc: Global, dimensions: Option<Value>) -> Result<Vec<(String, Option<String>)>, Trouble>
    ensures { Gives fact_trouble (λ v. dims_view v.items) result
        (dims_at (option_map view dimensions)) }
{
    let Some(dimensions) = dimensions else {
        return Err(Trouble::WrongShape);
    };
    match members_of(dimensions) {
        Some(members) => dims_in(alloc, members),
        None => Err(Trouble::WrongShape),
    }
}

/// The dimension set that these dimensions are.
fn set_of(named: Vec<(String, Option<String>)>) -> Result<DimSet, Trouble>
    ensures { Gives fact_trouble same result (map_err trouble.Dims (dims_of (dims_view named.items))) }
{
    match DimSet::of(named) {
        Ok(dims) => Ok(dims),
        Err(fault) => Err(Trouble::Dims(fault)),
    }
}

/// A text or null.
fn text_or_null(value: Option<Value>) -> Result<Option<String>, Trouble>
    ensures { Gives fact_trouble text_view result
        (ok_or (option_and_then as_nullable (option_map view value)) trouble.WrongShape) }
{
    match value {
        Some(Value::Null) => Ok(None),
        Some(Value::String(text)) => Ok(Some(text)),
        _ => Err(Trouble::WrongShape),
    }
}

fn decimals(value: Option<Value>) -> Result<Option<i64>, Trouble>
    ensures { Gives fact_trouble (λ d. d) result (decimals_of (option_map view value)) }
{
    match value {
        None | Some(Value::Null) => Ok(None),
        Some(Value::Number(number)) => match number.as_i64() {
            Some(decimals) => Ok(Some(decimals)),
            None => Err(Trouble::NotWhole),
        },
        _ => Err(Trouble::WrongShape),
    }
}

/// Links as compact text.
fn links(alloc: Global, value: Option<Value>) -> Result<Option<String>, Trouble>
    ensures text { Gives fact_trouble text_view result (links_of (option_map view value)) }
    ensures links { IfOk result (λ links. AreLinks (text_view links)) }
{
    let Some(value) = value else {
        return Ok(None);
    };
    if !value.is_object() {
        return Err(Trouble::WrongShape);
    }
    match whole_text(alloc, &value) {
        Ok(Some(text)) => Ok(Some(text)),
        Ok(None) => Err(Trouble::NotWhole),
        Err(_) => Err(Trouble::NoMemory),
    }
}

/// The raw fact of these dimensions, as they stand in their object, and of these members, or the first fault.
fn fact_with(
    alloc: Global,
    named: Vec<(String, Option<String>)>,
    stated: Stated,
) -> Result<RawFact, Trouble>
    ensures fact { Gives fact_trouble same result
        (raw_fact_with (dims_view named.items) (option_map view stated.value)
        (option_map view stated.decimals) (option_map view stated.links)) }
    ensures links { IfOk result (λ raw. AreLinks raw.links) }
{
    let value = text_or_null(stated.value)?;
    let decimals = decimals(stated.decimals)?;
    let links = links(alloc, stated.links)?;
    Ok(RawFact {
        dims: set_of(named)?,
        value,
        decimals,
        links,
    })
}

/// The raw fact of these members, or the first fault.
fn fact_of_members(alloc: Global, members: FactMembers) -> Result<RawFact, Trouble>
    ensures fact { Gives fact_trouble same result
        (raw_fact_at (option_map view members.dimensions) (option_map view members.stated.value)
        (option_map view members.stated.decimals) (option_map view members.stated.links)) }
    ensures links { IfOk result (λ raw. AreLinks raw.links) }
{
    let named = dims(alloc, members.dimensions)?;
    fact_with(alloc, named, members.stated)
}

/// The raw fact that a JSON value is, or the first fault, as `raw_fact` has it. The value is given up: the texts of the fact move out of it.
pub fn raw_fact_from(alloc: Global, value: Value) -> Result<RawFact, Trouble>
    ensures fact { Gives fact_trouble same result (raw_fact_of (view value)) }
    ensures links { IfOk result (λ raw. AreLinks raw.links) }
{
    fact_of_members(alloc, fact_members(value))
}

/// The raw fact that a JSON value is (xBRL-JSON 1.0), or the first fault.
/// Faults are: not its shape; decimals or a number in links that is not whole; no dimension set.
/// Members other than `dimensions`, `value`, `decimals` and `links` are passed over.
pub fn raw_fact(alloc: Global, value: &Value) -> Result<RawFact, Trouble>
    ensures fact { Gives fact_trouble same result (raw_fact_of (view value.now)) }
    ensures links { IfOk result (λ raw. AreLinks raw.links) }
{
    match value.clone() {
        Ok(value) => raw_fact_from(alloc, value),
        Err(_) => Err(Trouble::NoMemory),
    }
}

/// The dimension set that a JSON value is, or the first fault, as `dimensions` has it. The value is given up: the texts of the set move out of it.
pub fn dimensions_from(alloc: Global, value: Value) -> Result<DimSet, Trouble>
    ensures { Gives fact_trouble same result (dims_read (view value)) }
{
    set_of(dims(alloc, Some(value))?)
}

/// The dimension set that a JSON value is, or the first fault: no object of texts and nulls; no dimension set.
pub fn dimensions(alloc: Global, value: &Value) -> Result<DimSet, Trouble>
    ensures { Gives fact_trouble same result (dims_read (view value.now)) }
{
    match value.clone() {
        Ok(value) => dimensions_from(alloc, value),
        Err(_) => Err(Trouble::NoMemory),
    }
}
