//! The parts of a line of JSON.

use serde_json::Value;
use std::alloc::{AllocError, Global};

/// The parts of an array; there are none where it is something else.
pub(crate) fn parts(question: &Value) -> &[Value] {
    match question.as_array() {
        Some(parts) => parts.as_slice(),
        None => &[],
    }
}

/// The text at a place, or the empty text.
pub(crate) fn text_at(question: &Value, place: usize) -> &str {
    match question.get(place) {
        Some(part) => part.as_str().unwrap_or(""),
        None => "",
    }
}

/// The number at a place, or 0.
pub(crate) fn number_at(question: &Value, place: usize) -> usize {
    question.get(place).and_then(Value::as_u64).unwrap_or(0) as usize
}

/// The text of the part at a place, or the empty text.
pub(crate) fn part_text(
    alloc: Global,
    question: &Value,
    place: usize,
) -> Result<String, AllocError> {
    match question.get(place) {
        Some(part) => part.to_string(alloc),
        None => Ok(String::new(alloc)),
    }
}
