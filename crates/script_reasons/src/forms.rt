//! The parts that each line of a script has, and what is wrong with a line that is JSON.
//! The forms are those of `script_format`, whose functions say whether a part fits.
//! How many parts a line has, and what each is called, stands here.

use crate::facts::dims_fault;
use crate::nearest::nearest_word;
use crate::shown::{Shown, ShownValue, kind_of};
use script_format::{JsonArray, Verb, allowed_at, kind_of_word};
use serde_json::Value;
use std::alloc::{AllocError, Global};

/// A part of a line, after its word.
#[derive(Clone, Copy)]
enum Part {
    Report,
    Content,
    Session,
    Purpose,
    Id,
    Dims,
    Concept,
    Period,
    After,
    Limit,
    Fact,
    Allowed,
}

impl Part {
    fn name(self) -> &'static str {
        match self {
            Part::Report => "the name of the report",
            Part::Content => "the report",
            Part::Session => "the name of the session",
            Part::Purpose => "what the session is opened for",
            Part::Id => "the identifier",
            Part::Dims => "the dimensions",
            Part::Concept => "the concept",
            Part::Period => "the period",
            Part::After => "the identifier before the page",
            Part::Limit => "the limit",
            Part::Fact => "the fact",
            Part::Allowed => "the duplicates",
        }
    }

    fn requirement(self) -> &'static str {
        match self {
            Part::Report | Part::Session | Part::Id | Part::Concept => "a text",
            Part::Content => "an object or a text",
            Part::Purpose => "\"review\" or \"amend\"",
            Part::Dims | Part::Fact => "an object",
            Part::Period => "a text, null or true",
            Part::After => "a text or null",
            Part::Limit => "a whole number from 1 to 1000",
            Part::Allowed => "\"none\", \"complete\", \"consistent\" or \"all\"",
        }
    }

    /// Whether the part at a place of an array is one.
    fn fits(self, line: &Value, place: usize) -> bool {
        match self {
            Part::Report | Part::Session | Part::Id | Part::Concept => {
                line.text_at(place).is_some()
            }
            Part::Content => line.report_part_at(place).is_some(),
            Part::Purpose => is_purpose(line, place),
            Part::Dims | Part::Fact => line.object_at(place).is_some(),
            Part::Period => line.asked_at(place).is_some(),
            Part::After => line.nullable_at(place).is_some(),
            Part::Limit => line.limit_at(place).is_some(),
            Part::Allowed => allowed_at(line, place).is_some(),
        }
    }
}

fn is_purpose(line: &Value, place: usize) -> bool {
    match line.text_at(place) {
        Some(word) => kind_of_word(word).is_some(),
        None => false,
    }
}

/// The parts after the word of a line.
fn parts_of(verb: Verb) -> &'static [Part] {
    match verb {
        Verb::Load => &[Part::Report, Part::Content],
        Verb::Open => &[Part::Session, Part::Purpose],
        Verb::Commit | Verb::Close => &[Part::Session],
        Verb::Export => &[Part::Report],
        Verb::Get | Verb::Remove => &[Part::Session, Part::Report, Part::Id],
        Verb::Cell => &[Part::Session, Part::Report, Part::Dims],
        Verb::Page => &[
            Part::Session,
            Part::Report,
            Part::Concept,
            Part::Period,
            Part::After,
            Part::Limit,
        ],
        Verb::Add => &[Part::Session, Part::Report, Part::Id, Part::Fact],
        Verb::Declared => &[Part::Session, Part::Report],
        Verb::Declare => &[Part::Session, Part::Report, Part::Allowed],
    }
}

/// What is reported about a word that no line has.
fn reason_of_no_line(alloc: Global, word: &str) -> Result<String, AllocError> {
    let shown = Shown(word);
    match nearest_word(alloc, word)? {
        Some(meant) => { format!(in alloc; "no such line {shown}; did you mean \"{meant}\"?") }
        None => format!(in alloc; "no such line {shown}"),
    }
}

/// What is reported about a part that does not fit.
fn reason_of_wrong_part(
    alloc: Global,
    word: &str,
    part: Part,
    value: &Value,
    place: usize,
) -> Result<String, AllocError> {
    let shown = ShownValue(value);
    if let (Part::Limit, Value::Number(_)) = (part, value) {
        return format!(in alloc; "limit {shown} is not within 1 to 1000");
    }
    let number = place.saturating_add(1);
    let name = part.name();
    let wanted = part.requirement();
    format!(in alloc; "part {number} of \"{word}\", {name}, is {shown}; it has to be {wanted}")
}

/// What is wrong with the parts of a line of as many as it has to have, where one does not fit.
fn parts_fault(
    alloc: Global,
    word: &str,
    parts: &[Part],
    line: &Value,
) -> Result<Option<String>, AllocError> {
    let mut place = 1usize;
    for part in parts {
        if let Some(value) = line.get(place) {
            if !part.fits(line, place) {
                return Ok(Some(reason_of_wrong_part(alloc, word, *part, value, place)?));
            }
        }
        place = place.saturating_add(1);
    }
    Ok(None)
}

/// What is wrong with a line of this word.
fn word_fault(
    alloc: Global,
    word: &str,
    parts: &[Part],
    line: &Value,
    found: usize,
) -> Result<String, AllocError> {
    let wanted = parts.len().saturating_add(1);
    if found != wanted {
        return format!(in alloc; "\"{word}\" has {wanted} parts, found {found}");
    }
    if let Some(said) = parts_fault(alloc, word, parts, line)? {
        return Ok(said);
    }
    let fault = match line.get(3) {
        Some(dims) => dims_fault(alloc, dims)?,
        None => None,
    };
    match fault {
        Some(said) => Ok(said),
        None => String::from_str(alloc, "it is no line of a script"),
    }
}

/// What is wrong with a line that is JSON and none of a script.
pub(crate) fn line_fault(alloc: Global, line: &Value) -> Result<String, AllocError> {
    let Some(items) = line.as_array() else {
        let kind = kind_of(line);
        return format!(in alloc; "a line is an array, as [\"commit\",\"s1\"]; this is {kind}");
    };
    match items.first() {
        Some(Value::String(word)) => match Verb::of_word(word) {
            Some(verb) => word_fault(alloc, word, parts_of(verb), line, items.len()),
            None => reason_of_no_line(alloc, word),
        },
        Some(value) => {
            let shown = ShownValue(value);
            format!(in alloc; "the first part of a line is its word, as \"open\"; this is {shown}")
        }
        None => String::from_str(
            alloc,
            "the array is empty; a line begins with its word, as \"open\"",
        ),
    }
}
