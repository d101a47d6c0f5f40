//! Texts and JSON values as reasons show them.

use serde_json::Value;
use std::fmt;

/// Bytes of a text that are shown at most.
const MOST: usize = 60;

/// A text in quotes; of a long one the beginning, and two dots.
#[derive(Clone, Copy)]
pub(crate) struct Shown<'a>(pub(crate) &'a str);

/// The beginning of a text, which is what is shown of it.
fn front_of(text: &str) -> &str {
    match text.split_at_checked(text.floor_char_boundary(MOST)) {
        Some((front, _)) => front,
        None => text,
    }
}

impl fmt::Display for Shown<'_> {
    fn fmt<W: fmt::Write>(&self, f: &mut fmt::Formatter<W>) -> fmt::Result {
        let text = self.0;
        let front = front_of(text);
        if front.len() < text.len() {
            write!(f, "{front:?}..")
        } else {
            write!(f, "{text:?}")
        }
    }
}

/// A JSON value: a text, a number or a word as it stands, of others what they are.
#[derive(Clone, Copy)]
pub(crate) struct ShownValue<'a>(pub(crate) &'a Value);

impl fmt::Display for ShownValue<'_> {
    fn fmt<W: fmt::Write>(&self, f: &mut fmt::Formatter<W>) -> fmt::Result {
        match self.0 {
            Value::Number(number) => write!(f, "{number}"),
            Value::String(text) => {
                let shown = Shown(text.as_str());
                write!(f, "{shown}")
            }
            Value::Bool(true) => f.write_str("true"),
            Value::Bool(false) => f.write_str("false"),
            value => f.write_str(kind_of(value)),
        }
    }
}

/// What a JSON value is.
pub(crate) fn kind_of(value: &Value) -> &'static str {
    match value {
        Value::Null => "null",
        Value::Bool(_) => "true or false",
        Value::Number(_) => "a number",
        Value::String(_) => "a text",
        Value::Array(_) => "an array",
        Value::Object(_) => "an object",
    }
}
