//! Names and times, as parts of an XML text.

use crate::picture::Label;
use std::alloc::AllocError;

/// Characters of a name that stand at its row at most.
const SHORT: usize = 10;

/// Appends a character. One that no XML text may have is replaced.
fn push_escaped(out: &mut String, character: char) -> Result<(), AllocError> {
    match character {
        '<' => out.push_str("&lt;"),
        '>' => out.push_str("&gt;"),
        '&' => out.push_str("&amp;"),
        '\u{0}'..='\u{1f}' | '\u{fffe}' | '\u{ffff}' => out.push_str("\u{fffd}"),
        _ => out.push(character),
    }
}

/// Appends a text.
fn push_text(out: &mut String, text: &str) -> Result<(), AllocError> {
    for character in text.chars() {
        push_escaped(out, character)?;
    }
    Ok(())
}

/// Appends at most so many characters of a text, and dots where it has more.
fn push_front(out: &mut String, text: &str) -> Result<(), AllocError> {
    for (place, character) in text.chars().enumerate() {
        if place >= SHORT {
            return out.push_str("\u{2026}");
        }
        push_escaped(out, character)?;
    }
    Ok(())
}

/// Appends the name of a session, cut short, and a space, where it has a name.
pub(crate) fn push_short_name(out: &mut String, label: Option<&Label>) -> Result<(), AllocError> {
    let Some(
        Label {
            name: Some(name),
            ..
        },
    ) = label
    else {
        return Ok(());
    };
    push_front(out, name)?;
    out.push_str(" ")
}

/// Appends the title of a row: the name and the time of its session, as far as they are known.
pub(crate) fn push_title(out: &mut String, label: Option<&Label>) -> Result<(), AllocError> {
    let Some(label) = label else {
        return Ok(());
    };
    if label.name.is_none() && label.time.is_none() {
        return Ok(());
    }
    out.push_str("<title>")?;
    if let Some(name) = &label.name {
        push_text(out, name)?;
        out.push_str(" ")?;
    }
    if let Some(time) = &label.time {
        push_text(out, time)?;
    }
    out.push_str("</title>")?;
    Ok(())
}
