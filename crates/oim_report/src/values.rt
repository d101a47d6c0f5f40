//! JSON values, and what is looked for in them.

ghost use Rattle.std.specs.Prelude.{◌≡◌, nat_le, not, false, if◌then◌else◌, Option, option_map, IfOk, IfSome, IsTrue, IsUtf8, string_bytes};
ghost use Rattle.serde_json.specs.Data.{object, depth, items_depth, members_depth};
ghost use Rattle.serde_json.specs.Find.{as_object, get, get_member, is_float};
ghost use Rattle.serde_json.specs.View.{view, number_view, items_view, members_view};
ghost use Rattle.serde_json.specs.Written.{compact_text, has_float, items_have_float, members_have_float};
ghost use Rattle.filing_model.specs.Common.Text.{Text, text_eq};
ghost use Rattle.filing_model.specs.Reading.JsonText.{json_of, without_mark, IsWhole, IsWritable, AreWritable};

use serde_json::{Map, Number, Value};
use std::alloc::{AllocError, Global};

/// The value of these bytes, where they are a JSON text.
pub fn json_value(alloc: Global, bytes: &[u8]) -> Result<Option<Value>, AllocError>
    ensures { IfOk result (λ o. option_map view o ≡ json_of bytes.now) }
{
    match Value::from_slice(alloc, bytes) {
        Ok(value) => Ok(Some(value)),
        Err(fault) => {
            if fault.is_memory() {
                Err(AllocError)
            } else {
                Ok(None)
            }
        }
    }
}

/// The bytes without one byte order mark before them.
pub(crate) fn without_mark(bytes: &[u8]) -> &[u8]
    ensures { result.now ≡ without_mark bytes.now }
{
    match bytes {
        [0xef, 0xbb, 0xbf, rest @ ..] => rest,
        _ => bytes,
    }
}

/// The members of an object, out of it.
pub(crate) fn members_of(value: Value) -> Option<Map<String, Value>>
    ensures { option_map (λ m. members_view m.entries) result ≡ as_object (view value) }
{
    match value {
        Value::Object(members) => Some(members),
        _ => None,
    }
}

/// The member of this name, which leaves the others.
pub(crate) fn take_member(members: &mut Map<String, Value>, name: &str) -> Option<Value>
    ensures value { option_map view result ≡ get_member name.now (members_view members.old.entries) }
    ensures others { (other : Text) → text_eq other name.now ≡ false
        → get_member other (members_view members.new.entries)
        ≡ get_member other (members_view members.old.entries) }
{
    members.remove(name)
}

/// Whether a number is one that an i64 or a u64 holds.
fn is_whole_number(number: &Number) -> bool
    ensures whole { result ≡ not (is_float (number_view number.now)) }
    ensures bounds { IsTrue result → IsWhole (number_view number.now) }
{
    number.as_u64().is_some() || number.as_i64().is_some()
}

/// Levels of arrays and objects that a JSON text may have at most.
pub(crate) const MAX_DEPTH: usize = 127;

/// Whether the arrays and objects of a value nest at most this deep.
#[cycle(nests)]
pub(crate) fn nests_within(value: &Value, most: usize) -> bool
    ensures { result ≡ nat_le (depth (view value.now)) most }
{
    match value {
        Value::Array(items) => most > 0 && items_nest_within(items, most - 1),
        Value::Object(members) => most > 0 && members_nest_within(members, most - 1),
        _ => true,
    }
}

/// Whether the arrays and objects of these items nest at most this deep.
#[cycle(nests)]
fn items_nest_within(items: &Vec<Value>, most: usize) -> bool
    ensures { result ≡ nat_le (items_depth (items_view items.now.items)) most }
{
    for item in items {
        if !nests_within(item, most) {
            return false;
        }
    }
    true
}

/// Whether the arrays and objects of the values of these members nest at most this deep.
#[cycle(nests)]
fn members_nest_within(members: &Map<String, Value>, most: usize) -> bool
    ensures { result ≡ nat_le (members_depth (members_view members.now.entries)) most }
{
    for (_, value) in members {
        if !nests_within(value, most) {
            return false;
        }
    }
    true
}

/// The text of a name, which is UTF-8.
fn name_text(name: &String) -> &str
    ensures text { result.now ≡ string_bytes name.now }
    ensures utf8 { IsUtf8 (string_bytes name.now) }
{
    name.as_str()
}

/// Whether each number in a value is whole.
#[cycle(whole)]
pub(crate) fn is_whole(value: &Value) -> bool
    ensures whole { result ≡ not (has_float (view value.now)) }
    ensures writable { IsTrue result → IsWritable (view value.now) }
{
    match value {
        Value::Null | Value::Bool(_) => true,
        Value::Number(number) => is_whole_number(number),
        Value::String(text) => {
            let _ = name_text(text);
            true
        }
        Value::Array(items) => are_whole(items),
        Value::Object(members) => are_members_whole(members),
    }
}

/// Whether each number in these items is whole.
#[cycle(whole)]
fn are_whole(items: &Vec<Value>) -> bool
    ensures whole { result ≡ not (items_have_float (items_view items.now.items)) }
    ensures writable { IsTrue result → AreWritable (items_view items.now.items) }
{
    for item in items {
        if !is_whole(item) {
            return false;
        }
    }
    true
}

/// Whether each number in the values of these members is whole.
#[cycle(whole)]
fn are_members_whole(members: &Map<String, Value>) -> bool
    ensures whole { result ≡ not (members_have_float (members_view members.now.entries)) }
    ensures writable { IsTrue result → IsWritable (object (members_view members.now.entries)) }
{
    for (name, value) in members {
        let _ = name_text(name);
        if !is_whole(value) {
            return false;
        }
    }
    true
}

/// The compact text of a value with whole numbers alone.
pub fn whole_text(alloc: Global, value: &Value) -> Result<Option<String>, AllocError>
    ensures text { IfOk result (λ o. option_map string_bytes o
        ≡ (if has_float (view value.now) then None else Some (compact_text (view value.now)))) }
    ensures writable { IfOk result (λ o. IfSome o (λ _. IsWritable (view value.now))) }
{
    if is_whole(value) {
        Ok(Some(value.to_string(alloc)?))
    } else {
        Ok(None)
    }
}
