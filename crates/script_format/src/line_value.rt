//! The JSON value of a line, read in a buffer that is kept from line to line.

ghost use Rattle.std.specs.Prelude.{◌≡◌, ◌<◌, [], length, Some, None, IfOk, IfSome, MatchOption, option_map};
ghost use Rattle.json.specs.Json.{value, items, members};
ghost use Rattle.serde_json.specs.Data.{no_members};
ghost use Rattle.serde_json.specs.Read.{of_json, of_items, of_members, converted};
ghost use Rattle.serde_json.specs.View.{view, items_view, members_view};
ghost use Rattle.filing_model.specs.Reading.JsonText.{json_of};

use json::{Reader, Scratch, Token};
use oim_report::number;
use serde_json::{Map, Value};
use std::alloc::{AllocError, Global};
use std::str::from_utf8;

/// Levels of arrays and objects that a JSON text may have at most.
const MAX_DEPTH: usize = 127;

/// Items for which the array of a line has capacity at first; a step has no more.
const LIKELY_ITEMS: usize = 8;

/// An empty list for the items of an array. It grows where it lies:
/// in memory that another thread asked for first, that thread would be held up meanwhile.
/// Arrays within a line take only what they need, since there may be many.
fn no_items(alloc: Global, depth: usize) -> Result<Vec<Value>, AllocError>
    ensures { IfOk result (λ items. items.items ≡ []) }
{
    if depth == MAX_DEPTH - 1 {
        Vec::with_capacity(alloc, LIKELY_ITEMS)
    } else {
        Ok(Vec::new(alloc))
    }
}

/// The next value of a reader, if any. Arrays and objects may nest `depth` deep.
#[cycle(read)]
fn read(alloc: Global, reader: &mut Reader<'_>, depth: usize) -> Result<Option<Value>, AllocError>
    ensures value { IfOk result (λ o. MatchOption o
        (converted of_json (value depth reader.old) ≡ None)
        (λ v. converted of_json (value depth reader.old) ≡ Some (view v, reader.new))) }
    ensures shorter { IfOk result (λ o. IfSome o (λ _. length reader.new < length reader.old)) }
{
    let Some(token) = reader.next() else {
        return Ok(None);
    };
    match token {
        Token::String(text) => Ok(Some(Value::String(String::from_str(alloc, text)?))),
        Token::Number(text) => match number(text) {
            Some(number) => Ok(Some(Value::Number(number))),
            None => Ok(None),
        },
        Token::Bool(b) => Ok(Some(Value::Bool(b))),
        Token::Null => Ok(Some(Value::Null)),
        Token::EndObject | Token::EndArray | Token::Key(_) | Token::Bad => Ok(None),
        Token::BeginArray => {
            if depth == 0 {
                return Ok(None);
            }
            match read_items(alloc, reader, depth - 1)? {
                Some(items) => Ok(Some(Value::Array(items))),
                None => Ok(None),
            }
        }
        Token::BeginObject => {
            if depth == 0 {
                return Ok(None);
            }
            match read_members(alloc, reader, depth - 1)? {
                Some(members) => Ok(Some(Value::Object(members))),
                None => Ok(None),
            }
        }
    }
}

/// The items of an array whose bracket was read.
#[cycle(read)]
fn read_items(
    alloc: Global,
    reader: &mut Reader<'_>,
    depth: usize,
) -> Result<Option<Vec<Value>>, AllocError>
    ensures value { IfOk result (λ o. MatchOption o
        (converted of_items (items (value depth) (length reader.old) reader.old) ≡ None)
        (λ v. converted of_items (items (value depth) (length reader.old) reader.old)
        ≡ Some (items_view v.items, reader.new))) }
    ensures shorter { IfOk result (λ o. IfSome o (λ _. length reader.new < length reader.old)) }
{
    let mut found = no_items(alloc, depth)?;
    'items: while !reader.take_end_array() {
        let Some(item) = read(alloc, reader, depth)? else {
            return Ok(None);
        };
        found.push(item)?;
    }
    Ok(Some(found))
}

/// The members of an object whose brace was read. The last of a name stays.
#[cycle(read)]
fn read_members(
    alloc: Global,
    reader: &mut Reader<'_>,
    depth: usize,
) -> Result<Option<Map<String, Value>>, AllocError>
    ensures value { IfOk result (λ o. MatchOption o
        (converted (λ ms. of_members ms no_members)
        (members (value depth) (length reader.old) reader.old) ≡ None)
        (λ m. converted (λ ms. of_members ms no_members)
        (members (value depth) (length reader.old) reader.old)
        ≡ Some (members_view m.entries, reader.new))) }
    ensures shorter { IfOk result (λ o. IfSome o (λ _. length reader.new < length reader.old)) }
{
    let mut found = Map::new(alloc);
    'members: loop {
        let Ok(next) = reader.next_key() else {
            return Ok(None);
        };
        let Some(name) = next else {
            return Ok(Some(found));
        };
        let key = String::from_str(alloc, name)?;
        let Some(member) = read(alloc, reader, depth)? else {
            return Ok(None);
        };
        drop(found.insert(key, member)?);
    }
}

/// The value of these bytes, where they are a JSON text.
/// The buffer is that of the reading alone: where it is kept from one text to the next, none is taken and cleared for it.
pub fn json_value_in(
    alloc: Global,
    bytes: &[u8],
    room: &mut Scratch,
) -> Result<Option<Value>, AllocError>
    ensures { IfOk result (λ o. option_map view o ≡ json_of bytes.now) }
{
    let Ok(text) = from_utf8(bytes) else {
        return Ok(None);
    };
    let mut reader = Reader::new(text, room)?;
    match read(alloc, &mut reader, MAX_DEPTH)? {
        Some(value) => {
            if reader.next().is_none() {
                Ok(Some(value))
            } else {
                Ok(None)
            }
        }
        None => Ok(None),
    }
}
