//! The arrow into the bar of a session that ended by a conflict.

use crate::elements::{
    FROM_NOWHERE, ROW, column_x, push_from_above, push_from_below, push_group, push_group_end,
    row_y,
};
use crate::picture::{Arrow, Picture};
use std::alloc::AllocError;

/// Appends an arrow into the row of a session from that of another one.
fn push_from_row(out: &mut String, number: u64, session: u64) -> Result<(), AllocError> {
    if session < number {
        push_from_above(out, ROW * ((number - session) as u128))
    } else {
        push_from_below(out, ROW * ((session - number) as u128))
    }
}

/// Appends the arrow into the row of a session.
fn push_arrow(out: &mut String, first: u64, number: u64, arrow: &Arrow) -> Result<(), AllocError> {
    push_group(out, column_x(arrow.column), row_y(first, number))?;
    match arrow.from_row {
        Some(session) => push_from_row(out, number, session)?,
        None => out.push_str(FROM_NOWHERE)?,
    }
    push_group_end(out)
}

/// Appends the group of the arrows, as seen from the middle of the first row.
pub(crate) fn push_arrows_group(out: &mut String, picture: &Picture) -> Result<(), AllocError> {
    push_group(out, 0, 10)?;
    for row in &picture.rows {
        if let Some(arrow) = &row.arrow {
            push_arrow(out, picture.first, row.number, arrow)?;
        }
    }
    push_group_end(out)
}
