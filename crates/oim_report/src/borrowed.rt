//! JSON values whose texts are those that were read, and owned copies of them.

ghost use Rattle.std.specs.Prelude.{◌≡◌, ◌<◌, ◌==◌, T, IsTrue, is_some, length, slice_index, option_map, IfOk, IfSome, Some, true, false};
ghost use Rattle.std.specs.Bool.{OnTrue};
ghost use Rattle.std.specs.FinMap.Entries.{is_sorted};
ghost use Rattle.json.specs.Find.{get as get_read};
ghost use Rattle.json.specs.Value.{value_view, items_view as read_items, members_view as read_members};
ghost use Rattle.serde_json.specs.Data.{no_members};
ghost use Rattle.serde_json.specs.Find.{get};
ghost use Rattle.serde_json.specs.Read.{of_json, of_items, of_members, number_of, number_from, float_of};
ghost use Rattle.serde_json.specs.View.{view, number_view, items_view, members_view};
ghost use Rattle.filing_model.specs.Common.Text.{text_cmp};
ghost use Rattle.filing_model.specs.Reading.JsonText.{json_of, pairs};
ghost use Rattle.oim_report.specs.Borrowed.{IsInRange, are_in_range, data_of, members_at, read_object};

use crate::values::MAX_DEPTH;
use fast_float::Numeral;
use json::{Error, Reader, Scratch};
use serde_json::{Map, Number, Value};
use simdutf8::compat::from_utf8;
use std::alloc::{AllocError, Global};
use std::collections::BTreeMap;

/// The float that is nearest to a numeral, where it is finite.
fn nearest_float(negative: bool, numeral: &Numeral<'_>) -> Option<Number>
    ensures { option_map number_view result ≡ float_of negative numeral.now }
{
    Number::from_f64(numeral.to_float::<f64>(negative))
}

/// The number of a numeral without a sign.
fn unsigned_number(numeral: &Numeral<'_>) -> Option<Number>
    ensures { option_map number_view result ≡ number_from false numeral.now }
{
    match numeral.to_u64() {
        Some(number) => Some(Number::from(number)),
        None => nearest_float(false, numeral),
    }
}

/// The number of a numeral after a minus. `-0` is a float.
fn negative_number(numeral: &Numeral<'_>) -> Option<Number>
    ensures { option_map number_view result ≡ number_from true numeral.now }
{
    match numeral.to_i64(true) {
        Some(number) if number < 0 => Some(Number::from(number)),
        _ => nearest_float(true, numeral),
    }
}

/// Whether a text begins with a minus.
fn has_minus(bytes: &[u8]) -> bool
    ensures value { result ≡ (slice_index bytes.now 0 == 45) }
    ensures len { IsTrue result → 0 < length bytes.now }
{
    !bytes.is_empty() && bytes[0] == b'-'
}

/// The number that `serde_json` reads of a numeral, where it is in range.
pub fn number(text: &str) -> Option<Number>
    ensures { option_map number_view result ≡ number_of text.now }
{
    let bytes = text.as_bytes();
    if has_minus(bytes) {
        negative_number(&Numeral::scan(&bytes[1..]))
    } else {
        unsigned_number(&Numeral::scan(bytes))
    }
}

/// Whether each number in a value is in range.
#[cycle(range)]
fn is_in_range(value: &json::Value<'_>) -> bool
    ensures { result ≡ is_some (of_json (value_view value.now)) }
{
    match value {
        json::Value::Number(text) => number(text).is_some(),
        json::Value::Array(items) => are_items_in_range(items),
        json::Value::Object(members) => are_members_in_range(members),
        _ => true,
    }
}

/// Whether each number in these items is in range.
#[cycle(range)]
fn are_items_in_range(items: &Vec<json::Value<'_>>) -> bool
    ensures { result ≡ is_some (of_items (read_items items.now.items)) }
{
    for item in items {
        if !is_in_range(item) {
            return false;
        }
    }
    true
}

/// Whether each number in the values of these members is in range.
#[cycle(range)]
fn are_members_in_range(members: &Vec<(&str, json::Value<'_>)>) -> bool
    ensures { result ≡ is_some (of_members (read_members members.now.items) no_members) }
{
    for member in members {
        if !is_in_range(&member.1) {
            return false;
        }
    }
    true
}

/// The value of these bytes, where they are a JSON text. Its texts are those of the bytes; one with an escape is written out into `room`.
pub fn text_value<'a>(
    alloc: Global,
    bytes: &'a [u8],
    room: &'a mut Scratch,
) -> Result<Option<json::Value<'a>>, AllocError>
    ensures value { IfOk result (λ o. option_map data_of o ≡ json_of bytes.now) }
    ensures range { IfOk result (λ o. IfSome o IsInRange) }
{
    let Ok(text) = from_utf8(bytes) else {
        return Ok(None);
    };
    let mut reader = Reader::new(text, room)?;
    match json::Value::read(alloc, &mut reader, MAX_DEPTH) {
        Ok(value) => {
            if reader.next().is_none() && is_in_range(&value) {
                Ok(Some(value))
            } else {
                Ok(None)
            }
        }
        Err(Error::Invalid) => Ok(None),
        Err(_) => Err(AllocError),
    }
}

/// An owned copy of a value, where each number in it is in range.
#[cycle(copies)]
pub fn copy_of(alloc: Global, value: &json::Value<'_>) -> Result<Option<Value>, AllocError>
    ensures { IfOk result (λ o. option_map view o ≡ of_json (value_view value.now)) }
{
    match value {
        json::Value::Null => Ok(Some(Value::Null)),
        json::Value::Bool(b) => Ok(Some(Value::Bool(*b))),
        json::Value::Number(text) => match number(text) {
            Some(number) => Ok(Some(Value::Number(number))),
            None => Ok(None),
        },
        json::Value::String(text) => Ok(Some(Value::String(String::from_str(alloc, text)?))),
        json::Value::Array(items) => match copy_of_items(alloc, items)? {
            Some(items) => Ok(Some(Value::Array(items))),
            None => Ok(None),
        },
        json::Value::Object(members) => match copy_of_members(alloc, members)? {
            Some(members) => Ok(Some(Value::Object(members))),
            None => Ok(None),
        },
    }
}

/// Owned copies of these items, where each number in them is in range.
#[cycle(copies)]
fn copy_of_items(
    alloc: Global,
    items: &Vec<json::Value<'_>>,
) -> Result<Option<Vec<Value>>, AllocError>
    ensures { IfOk result (λ o. option_map (λ v. items_view v.items) o
        ≡ of_items (read_items items.now.items)) }
{
    let mut copies = Vec::with_capacity(alloc, items.len())?;
    for item in items {
        match copy_of(alloc, item)? {
            Some(copy) => copies.push(copy)?,
            None => return Ok(None),
        }
    }
    Ok(Some(copies))
}

/// Owned copies of these members, where each number in them is in range. Of a name the last stays.
#[cycle(copies)]
fn copy_of_members(
    alloc: Global,
    members: &Vec<(&str, json::Value<'_>)>,
) -> Result<Option<Map<String, Value>>, AllocError>
    ensures { IfOk result (λ o. option_map (λ m. members_view m.entries) o
        ≡ of_members (read_members members.now.items) no_members) }
{
    let mut copies = Map::new(alloc);
    for member in members {
        let name = String::from_str(alloc, member.0)?;
        match copy_of(alloc, &member.1)? {
            Some(copy) => drop(copies.insert(name, copy)?),
            None => return Ok(None),
        }
    }
    Ok(Some(copies))
}

/// An owned copy of a value, which is given back.
pub(crate) fn into_owned(alloc: Global, value: json::Value<'_>) -> Result<Value, AllocError>
    requires { IsInRange value }
    ensures { IfOk result (λ v. view v ≡ data_of value.entry) }
{
    let copy = copy_of(alloc, &value);
    drop(value);
    match copy? {
        Some(copy) => Ok(copy),
        None => unreachable!(),
    }
}

/// An owned copy of the member of this name, if any.
pub fn owned_at(
    alloc: Global,
    value: &json::Value<'_>,
    name: &str,
) -> Result<Option<Value>, AllocError>
    requires { IsInRange value.now }
    ensures { IfOk result (λ o. option_map view o ≡ get name.now (data_of value.now)) }
{
    match value.get(name) {
        Some(member) => copy_of(alloc, member),
        None => Ok(None),
    }
}

/// The members of an object as they were read, out of it.
pub(crate) fn read_members_of<'a>(value: json::Value<'a>) -> Option<Vec<(&'a str, json::Value<'a>)>>
    ensures { option_map (λ v. read_members v.items) result ≡ read_object (value_view value.entry) }
{
    match value {
        json::Value::Object(members) => Some(members),
        _ => None,
    }
}

/// The last member of this name, out of an object.
pub(crate) fn member_of<'a>(value: json::Value<'a>, name: &str) -> Option<json::Value<'a>>
    ensures { option_map value_view result ≡ get_read name.now (value_view value.entry) }
{
    let mut last = None;
    for (key, member) in read_members_of(value)? {
        if key == name {
            last = Some(member);
        }
    }
    last
}

/// Whether each name is greater than the one before it.
fn names_rise(members: &[(&str, json::Value<'_>)]) -> bool
    ensures { OnTrue result (T (is_sorted text_cmp (pairs (members_at members.now)))) }
{
    members.is_sorted_by(|one, next| one.0 < next.0)
}

/// The members in byte order of their names, each put in its place. Of a name the last stays.
fn put_in_order<'a>(
    alloc: Global,
    members: Vec<(&'a str, json::Value<'a>)>,
) -> Result<BTreeMap<&'a str, json::Value<'a>>, AllocError>
    requires { IsTrue (is_some (of_members (read_members members.items) no_members)) }
    ensures members { IfOk result (λ m. of_members (read_members members.entry.items) no_members
        ≡ Some (members_at m.entries)) }
    ensures range { IfOk result (λ m. IsTrue (are_in_range m.entries)) }
{
    let mut places = BTreeMap::new(alloc);
    for (name, value) in members {
        drop(places.insert(name, value)?);
    }
    Ok(places)
}

/// The members in byte order of their names, of which the last of a name stays. Names mostly rise as they stand.
pub(crate) fn in_order<'a>(
    alloc: Global,
    members: Vec<(&'a str, json::Value<'a>)>,
) -> Result<Vec<(&'a str, json::Value<'a>)>, AllocError>
    requires { IsTrue (is_some (of_members (read_members members.items) no_members)) }
    ensures members { IfOk result (λ m. of_members (read_members members.entry.items) no_members
        ≡ Some (members_at m.items)) }
    ensures range { IfOk result (λ m. IsTrue (are_in_range m.items)) }
    ensures rise { IfOk result (λ m. T (is_sorted text_cmp (pairs (members_at m.items)))) }
{
    if names_rise(&members) {
        return Ok(members);
    }
    let places = put_in_order(alloc, members)?;
    let mut found = Vec::with_capacity(alloc, places.len())?;
    for place in places {
        found.push(place)?;
    }
    Ok(found)
}
