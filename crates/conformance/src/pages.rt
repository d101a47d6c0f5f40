//! Lists in pages, alone and as the facts of a report, beside what is written of them and beside plain lists.
//!
//! `item` is an entry, and `lists` builds and changes lists of them; in `reports` they are the facts of a report. `rows` has
//! worked rows of the lengths of pages and of ranges, `plain` pages as a list of lists, and `beside` compares lists with these.

mod beside;
mod item;
mod lists;
mod plain;
mod reports;
mod rows;

use crate::sheet::compare_rows;
use anyhow::Result;
pub(crate) use beside::compare_rounds;
pub(crate) use lists::Kind;
use rows::Lists;
use std::rt::Files;

/// Compares worked rows, and lists with plain ones.
pub(crate) fn compare_pages<R: Files + Print + AllocGlobal>(rt: &R) -> Result<()> {
    compare_rows(rt, "pages", &Lists { kind: Kind::Alone })?;
    compare_rows(rt, "pages", &Lists { kind: Kind::Report })?;
    compare_rows(rt, "ranges", &Lists { kind: Kind::Alone })?;
    compare_rounds(rt, Kind::Alone)
}
