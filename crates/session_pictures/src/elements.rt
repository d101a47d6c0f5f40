//! Lengths, and elements that rows, arrows and the legend share.

ghost use Rattle.std.specs.Prelude.{◌≤◌, ◌*◌, ◌^◌};

use crate::told::Ending;
use filing_model::Kind;
use std::alloc::AllocError;

/// Width of a version, in pixels.
pub(crate) const CELL: u128 = 24;
/// Height of a row, in pixels.
pub(crate) const ROW: u128 = 20;
/// Pixels from the beginning of a version to an end that makes none.
const ENDING: u128 = 18;

/// Where a column begins.
pub(crate) fn column_x(column: usize) -> u128
    ensures { result ≤ 24 * 2 ^ 64 }
{
    CELL * (column as u128)
}

/// Where the row of a session begins.
pub(crate) fn row_y(first: u64, number: u64) -> u128 {
    ROW * (number.saturating_sub(first) as u128)
}

/// How far into a version an end stands. A commit stands where its version begins.
pub(crate) fn end_inset(ending: Ending) -> u128
    ensures { result ≤ 18 }
{
    match ending {
        Ending::Committed => 0,
        Ending::Conflict(_) | Ending::Closed | Ending::Disallowed => ENDING,
    }
}

/// Appends the beginning of a group of elements as seen from a point.
pub(crate) fn push_group(out: &mut String, x: u128, y: u128) -> Result<(), AllocError> {
    write!(out, "<g transform=\"translate({x},{y})\">")
}

/// Appends the end of a group.
pub(crate) fn push_group_end(out: &mut String) -> Result<(), AllocError> {
    out.push_str("</g>\n")
}

/// The word of a kind.
pub(crate) fn kind_word(kind: Kind) -> &'static str {
    match kind {
        Kind::Review => "review",
        Kind::Amend => "amend",
    }
}

/// How a bar of a kind is drawn.
pub(crate) fn kind_style(kind: Kind) -> &'static str {
    match kind {
        Kind::Review => "fill=\"#ffffff\" stroke-dasharray=\"3,2\"",
        Kind::Amend => "fill=\"#c8c8c8\"",
    }
}

/// The mark of an end.
pub(crate) fn mark(ending: Ending) -> &'static str {
    match ending {
        Ending::Committed => "<rect x=\"-4\" y=\"6\" width=\"8\" height=\"8\"/>",
        Ending::Conflict(_) => {
            "<g stroke=\"#000000\" stroke-width=\"2\"><line x1=\"-5\" y1=\"5\" x2=\"5\" y2=\"15\"/><line x1=\"-5\" y1=\"15\" x2=\"5\" y2=\"5\"/></g>"
        }
        Ending::Closed => "<line y1=\"3\" y2=\"17\" stroke=\"#000000\" stroke-width=\"3\"/>",
        Ending::Disallowed => {
            "<g stroke=\"#000000\"><rect x=\"-4\" y=\"6\" width=\"8\" height=\"8\" fill=\"#ffffff\"/><line x1=\"-4\" y1=\"14\" x2=\"4\" y2=\"6\"/></g>"
        }
    }
}

/// The mark of a version that a load made.
pub(crate) const LOADED: &str = "<circle cy=\"-3\" r=\"3\"/>";

/// An arrow's head alone.
pub(crate) const FROM_NOWHERE: &str =
    "<polygon points=\"-4,-14 4,-14 0,-6\" fill=\"#ffffff\" stroke=\"#000000\"/>";

/// Appends an arrow from so far above.
pub(crate) fn push_from_above(out: &mut String, length: u128) -> Result<(), AllocError> {
    write!(
        out,
        "<line y1=\"-{length}\" y2=\"-6\" stroke=\"#000000\"/><polygon points=\"-4,-14 4,-14 0,-6\"/>"
    )
}

/// Appends an arrow from so far below.
pub(crate) fn push_from_below(out: &mut String, length: u128) -> Result<(), AllocError> {
    write!(
        out,
        "<line y1=\"{length}\" y2=\"6\" stroke=\"#000000\"/><polygon points=\"-4,14 4,14 0,6\"/>"
    )
}
