//! Where a text stops to be JSON, and what was expected there.
//! The tokens are those of the reader that refused it; what may follow each is looked up here anew.

use crate::shown::Shown;
use json::{Reader, Scratch, Token};
use oim_report::number;
use std::alloc::{AllocError, Global};

/// Levels of arrays and objects that a JSON text may have at most.
const MAX_DEPTH: usize = 127;

/// What is reported about a text in quotes that cannot be read.
const UNREADABLE: &str =
    "not JSON: this text does not end, or has a control character or an escape that JSON does not know";

/// Where a text stops to be JSON, in bytes from its start, and why.
#[derive(Drop)]
pub(crate) struct JsonFault {
    pub(crate) place: usize,
    pub(crate) said: String,
}

/// What may come next in a text.
#[derive(Clone, Copy)]
enum Next {
    Value,
    ItemOrEnd,
    Item,
    ItemEnd,
    NameOrEnd,
    Name,
    MemberValue,
    MemberEnd,
    End,
}

impl Next {
    fn admits(self, token: &Token<'_>) -> bool {
        match token {
            Token::Bad => false,
            Token::Key(_) => matches!(self, Next::NameOrEnd | Next::Name),
            Token::EndArray => matches!(self, Next::ItemOrEnd | Next::ItemEnd),
            Token::EndObject => matches!(self, Next::NameOrEnd | Next::MemberEnd),
            _ => matches!(
                self,
                Next::Value | Next::ItemOrEnd | Next::Item | Next::MemberValue
            ),
        }
    }

    fn expectation(self) -> &'static str {
        match self {
            Next::Value | Next::MemberValue => "a value",
            Next::ItemOrEnd => "a value or \"]\"",
            Next::Item => "a value behind the comma",
            Next::ItemEnd => "\",\" or \"]\"",
            Next::NameOrEnd => "a name in quotes or \"}\"",
            Next::Name => "a name in quotes behind the comma",
            Next::MemberEnd => "\",\" or \"}\"",
            Next::End => "the end",
        }
    }
}

/// An array or an object that is open.
#[derive(Clone, Copy)]
enum Nest {
    Array,
    Object,
}

/// How far a text was walked through.
#[derive(Drop)]
struct Walk {
    open: Vec<Nest>,
    next: Next,
    place: usize,
}

/// Where the comma stands that is the last before a place, but for spaces.
fn comma_before(text: &str, place: usize) -> Option<usize> {
    match text.as_bytes().get(..place)?.trim_ascii_end() {
        [front @ .., b','] => Some(front.len()),
        _ => None,
    }
}

impl Walk {
    /// What may follow a value that ended before this place, with the place of what follows.
    fn after_value(&self, text: &str, place: usize) -> (Next, usize) {
        match (self.open.last(), comma_before(text, place)) {
            (Some(Nest::Array), Some(_)) => (Next::Item, place),
            (Some(Nest::Array), None) => (Next::ItemEnd, place),
            (Some(Nest::Object), Some(_)) => (Next::Name, place),
            (Some(Nest::Object), None) => (Next::MemberEnd, place),
            (None, Some(comma)) => (Next::End, comma),
            (None, None) => (Next::End, place),
        }
    }

    /// Passes a token, after which the next one stands at this place.
    fn pass(&mut self, text: &str, token: &Token<'_>, place: usize) -> Result<(), AllocError> {
        let (next, place) = match token {
            Token::Key(_) => (Next::MemberValue, place),
            Token::BeginArray => {
                self.open.push(Nest::Array)?;
                (Next::ItemOrEnd, place)
            }
            Token::BeginObject => {
                self.open.push(Nest::Object)?;
                (Next::NameOrEnd, place)
            }
            Token::EndArray | Token::EndObject => {
                self.open.pop();
                self.after_value(text, place)
            }
            _ => self.after_value(text, place),
        };
        self.next = next;
        self.place = place;
        Ok(())
    }

    /// Whether a text may stand here.
    fn admits_text(&self) -> bool {
        !matches!(self.next, Next::ItemEnd | Next::MemberEnd | Next::End)
    }

    /// The fault of a token that may not stand here, or of the end.
    fn unexpected_token(
        &self,
        alloc: Global,
        text: &str,
        is_bad: bool,
    ) -> Result<JsonFault, AllocError> {
        let expected = self.next.expectation();
        let rest = match text.split_at_checked(self.place) {
            Some((_, rest)) => rest,
            None => "",
        };
        let said = if rest.is_empty() {
            format!(in alloc; "not JSON: expected {expected}, found the end")?
        } else if !rest.starts_with('"') {
            let found = Shown(first_word(rest));
            format!(in alloc; "not JSON: expected {expected}, found {found}")?
        } else if is_bad && self.admits_text() {
            String::from_str(alloc, UNREADABLE)?
        } else {
            format!(in alloc; "not JSON: expected {expected}, found a text")?
        };
        Ok(JsonFault {
            place: self.place,
            said,
        })
    }
}

/// A text up to what may end a word, one byte at least.
fn first_word(text: &str) -> &str {
    let end = match text
        .as_bytes()
        .iter()
        .position(|byte| b"\t\n\r \",:[]{}".contains(byte))
    {
        Some(0) => 1,
        Some(end) => end,
        None => text.len(),
    };
    match text.split_at_checked(end) {
        Some((word, _)) => word,
        None => text,
    }
}

/// The fault of a token that is none of JSON as it is read, though it stands where it may: a number out of range, or an array or object that nests too deep.
fn unreadable_token(
    alloc: Global,
    walk: &Walk,
    token: &Token<'_>,
) -> Result<Option<JsonFault>, AllocError> {
    let said = match token {
        Token::Number(text) if number(text).is_none() => {
            let shown = Shown(text);
            format!(in alloc; "not JSON: the number {shown} is out of range")?
        }
        Token::BeginArray | Token::BeginObject if walk.open.len() >= MAX_DEPTH => {
            String::from_str(alloc, "not JSON: it nests more than 127 deep")?
        }
        _ => return Ok(None),
    };
    Ok(Some(JsonFault {
        place: walk.place,
        said,
    }))
}

/// The fault of a name that no colon follows.
fn reason_of_no_colon(
    alloc: Global,
    walk: &Walk,
    token: &Token<'_>,
    place: usize,
) -> Result<Option<JsonFault>, AllocError> {
    match token {
        Token::String(name) if matches!(walk.next, Next::Name | Next::NameOrEnd) => {
            let shown = Shown(name);
            let said = format!(in alloc; "not JSON: expected \":\" behind the name {shown}")?;
            Ok(Some(JsonFault { place, said }))
        }
        _ => Ok(None),
    }
}

/// Walks over a token, or tells why it may not stand where it does.
fn step(
    alloc: Global,
    walk: &mut Walk,
    text: &str,
    token: &Token<'_>,
    place: usize,
) -> Result<Option<JsonFault>, AllocError> {
    if let Some(fault) = reason_of_no_colon(alloc, walk, token, place)? {
        return Ok(Some(fault));
    }
    if !walk.next.admits(token) {
        let is_bad = matches!(token, Token::Bad);
        return Ok(Some(walk.unexpected_token(alloc, text, is_bad)?));
    }
    if let Some(fault) = unreadable_token(alloc, walk, token)? {
        return Ok(Some(fault));
    }
    walk.pass(text, token, place)?;
    Ok(None)
}

/// Where a text that was refused stops to be JSON, and why.
pub(crate) fn json_fault(alloc: Global, text: &str) -> Result<JsonFault, AllocError> {
    let mut room = Scratch::new(alloc);
    let mut reader = Reader::new(text, &mut room)?;
    let mut walk = Walk {
        open: Vec::new(alloc),
        next: Next::Value,
        place: reader.offset(),
    };
    while let Some(token) = reader.next() {
        let place = reader.offset();
        if let Some(fault) = step(alloc, &mut walk, text, &token, place)? {
            return Ok(fault);
        }
    }
    walk.unexpected_token(alloc, text, false)
}
