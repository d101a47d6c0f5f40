//! What the elements mean.

use crate::elements::{
    FROM_NOWHERE, LOADED, kind_style, kind_word, mark, push_from_above, push_group, push_group_end,
};
use crate::told::Ending;
use filing_model::Kind;
use std::alloc::AllocError;

/// Appends the words of an entry, and ends its group.
fn push_meaning(out: &mut String, words: &str) -> Result<(), AllocError> {
    out.push_str("<text x=\"20\" y=\"14\">")?;
    out.push_str(words)?;
    out.push_str("</text>")?;
    push_group_end(out)
}

/// Appends what an element means.
fn push_entry(
    out: &mut String,
    x: u128,
    y: u128,
    drawn: &str,
    words: &str,
) -> Result<(), AllocError> {
    push_group(out, x, y)?;
    out.push_str(drawn)?;
    push_meaning(out, words)
}

/// Appends a bar of a kind.
fn push_sample(out: &mut String, kind: Kind) -> Result<(), AllocError> {
    out.push_str("<rect x=\"-14\" y=\"4\" width=\"28\" height=\"12\" stroke=\"#000000\" ")?;
    out.push_str(kind_style(kind))?;
    out.push_str("/>")?;
    Ok(())
}

/// Appends what the bar of a kind means.
fn push_kind(out: &mut String, y: u128, kind: Kind) -> Result<(), AllocError> {
    push_group(out, 34, y)?;
    push_sample(out, kind)?;
    push_meaning(out, kind_word(kind))
}

/// Appends what bars mean.
pub(crate) fn push_kinds(out: &mut String) -> Result<(), AllocError> {
    push_kind(out, 34, Kind::Amend)?;
    push_kind(out, 54, Kind::Review)
}

/// Appends what marks mean.
pub(crate) fn push_ends(out: &mut String) -> Result<(), AllocError> {
    push_entry(out, 134, 34, mark(Ending::Committed), "committed")?;
    push_entry(out, 134, 54, mark(Ending::Closed), "closed")?;
    push_entry(out, 254, 34, mark(Ending::Conflict(0)), "conflict")?;
    push_entry(out, 254, 54, mark(Ending::Disallowed), "disallowed")
}

/// Appends what an arrow from another row means.
fn push_arrow_from_row(out: &mut String) -> Result<(), AllocError> {
    push_group(out, 34, 78)?;
    out.push_str("<g transform=\"translate(0,18)\">")?;
    push_from_above(out, 18)?;
    out.push_str("</g>")?;
    push_meaning(out, "here a commit changed what the session had read")
}

/// Appends what an arrow's head alone means.
fn push_arrow_from_nowhere(out: &mut String) -> Result<(), AllocError> {
    push_group(out, 34, 98)?;
    out.push_str("<g transform=\"translate(0,18)\">")?;
    out.push_str(FROM_NOWHERE)?;
    out.push_str("</g>")?;
    push_meaning(out, "the same by a load, or by a session that is not shown")
}

/// Appends what the mark of a version means.
pub(crate) fn push_loaded(out: &mut String) -> Result<(), AllocError> {
    push_group(out, 374, 34)?;
    out.push_str("<g transform=\"translate(0,13)\">")?;
    out.push_str(LOADED)?;
    out.push_str("</g>")?;
    push_meaning(out, "load")
}

/// Appends what arrows mean, and what is left out.
pub(crate) fn push_arrows_legend(out: &mut String) -> Result<(), AllocError> {
    push_arrow_from_row(out)?;
    push_arrow_from_nowhere(out)?;
    out.push_str(
        "<text x=\"20\" y=\"132\">Versions at which none of this happened are left out.</text>\n",
    )?;
    Ok(())
}
