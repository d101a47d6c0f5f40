//! The row of a session: its number and its name, its bar, and what is reported about its end.

use crate::elements::{
    column_x, end_inset, kind_style, kind_word, mark, push_group, push_group_end, row_y,
};
use crate::labels::{push_short_name, push_title};
use crate::picture::{Label, Picture, Row, RowEnd};
use crate::told::Ending;
use std::alloc::AllocError;

/// Pixels from the beginning of a version to an opening.
const OPENING: u128 = 12;

/// Where the bar of a session ends, among so many versions.
fn bar_end(versions: usize, end: &Option<RowEnd>) -> u128 {
    match end {
        Some(end) => column_x(end.column) + end_inset(end.ending),
        None => column_x(versions),
    }
}

/// Appends what stands to the left of a row.
fn push_left(out: &mut String, row: &Row, label: Option<&Label>) -> Result<(), AllocError> {
    let (number, staged) = (row.number, row.staged);
    write!(out, "<text x=\"-8\" y=\"14\" text-anchor=\"end\">{number} ")?;
    push_short_name(out, label)?;
    out.push_str(kind_word(row.kind))?;
    write!(out, ", {staged} staged</text>")
}

/// Appends the bar of a session.
fn push_bar(out: &mut String, versions: usize, row: &Row) -> Result<(), AllocError> {
    let start = column_x(row.opening) + OPENING;
    let width = bar_end(versions, &row.end).saturating_sub(start);
    write!(
        out,
        "<rect x=\"{start}\" y=\"4\" width=\"{width}\" height=\"12\" stroke=\"#000000\" "
    )?;
    out.push_str(kind_style(row.kind))?;
    out.push_str("/>")?;
    Ok(())
}

/// Appends by whom the version was made that touched what the session had read.
fn push_maker(out: &mut String, touched_by: Option<u64>) -> Result<(), AllocError> {
    match touched_by {
        Some(session) => write!(out, ", by session {session}"),
        None => out.push_str(", by a load"),
    }
}

/// Appends that a session ended by a conflict.
fn push_conflict(out: &mut String, number: u64, touched_by: Option<u64>) -> Result<(), AllocError> {
    write!(out, "conflict: version {number}")?;
    push_maker(out, touched_by)
}

/// Appends how a session ended, or that it is open.
fn push_words(out: &mut String, row: &Row) -> Result<(), AllocError> {
    let Some(end) = &row.end else {
        return out.push_str("open");
    };
    let version = end.version;
    match end.ending {
        Ending::Committed => write!(out, "committed: version {version}"),
        Ending::Conflict(number) => push_conflict(out, number, row.touched_by),
        Ending::Closed => out.push_str("closed"),
        Ending::Disallowed => out.push_str("disallowed"),
    }
}

/// Appends what is reported about the end of a session: a mark, if it has ended, and words.
fn push_end(out: &mut String, versions: usize, row: &Row) -> Result<(), AllocError> {
    push_group(out, bar_end(versions, &row.end), 0)?;
    if let Some(end) = &row.end {
        out.push_str(mark(end.ending))?;
    }
    out.push_str("<text x=\"10\" y=\"14\">")?;
    push_words(out, row)?;
    out.push_str("</text>")?;
    push_group_end(out)
}

/// Appends the row of a session.
fn push_row(
    out: &mut String,
    first: u64,
    versions: usize,
    row: &Row,
    label: Option<&Label>,
) -> Result<(), AllocError> {
    push_group(out, 0, row_y(first, row.number))?;
    push_title(out, label)?;
    push_left(out, row, label)?;
    push_bar(out, versions, row)?;
    push_end(out, versions, row)?;
    push_group_end(out)
}

/// Appends the rows of a picture.
pub(crate) fn push_rows(out: &mut String, picture: &Picture) -> Result<(), AllocError> {
    for (place, row) in picture.rows.iter().enumerate() {
        let label = picture.labels.get(place);
        push_row(out, picture.first, picture.versions.len(), row, label)?;
    }
    Ok(())
}
