//! What journals open to, and how their calls end: each row is printed with its answer.
//!
//! - `memory`: journals over files in memory (`journal`).
//! - `files`: journals over files of the operating system (`journal_file`).
//! - `rows`: reads rows, and writes what they are given.

mod files;
mod memory;
mod rows;

use anyhow::Result;
use files::{log_errors, make_journal, show_files, show_losses};
use memory::show_journals;
use rows::read_rows;

/// Shows the rows of journals, and tells how many there are.
pub(crate) fn show_openings(rt: &HostRuntime) -> Result<()> {
    let journals = show_journals(rt, &read_rows(rt, "journal")?)?;
    println!(rt; "journal: {journals} rows")?;
    make_journal(rt)?;
    let files = show_files(rt, &read_rows(rt, "journal_file")?)?;
    show_losses(rt)?;
    log_errors(rt)?;
    println!(rt; "journal_file: {files} rows")?;
    Ok(())
}
