//! The versions that a picture shows, and where each stands among them.

ghost use Rattle.std.specs.Prelude.{◌≡◌, map, option_map, IfOk, OnOk};
ghost use Rattle.std.specs.List.{filter_map};
ghost use Rattle.session_pictures.specs.Columns.{column_of, columns, count_below, is_at, touching_end, versions_of, versions_of_end, with_number, with_numbers};
ghost use Rattle.session_pictures.specs.Told.{end_in, told_in};

use crate::told::{SessionEnd, ToldSession};
use std::alloc::{AllocError, Global};

/// How many numbers at the front are below this one: the column of the version of this number.
pub(crate) fn count_below(number: u64, columns: &[u64]) -> usize
    ensures { result ≡ count_below number columns.now }
{
    let mut place = 0;
    while place < columns.len() && columns[place] < number {
        place += 1;
    }
    place
}

/// Whether a number stands at a place.
fn is_at(number: u64, place: usize, columns: &[u64]) -> bool
    ensures { result ≡ is_at number place columns.now }
{
    match columns.get(place) {
        Some(found) => *found == number,
        None => false,
    }
}

/// Puts a number in its place, unless it is there.
fn add_number(columns: &mut Vec<u64>, number: u64) -> Result<(), AllocError>
    ensures { OnOk result (columns.new.items ≡ with_number number columns.old.items) }
{
    let place = count_below(number, columns);
    if is_at(number, place, columns) {
        return Ok(());
    }
    columns.insert(place, number)?;
    Ok(())
}

/// The column of the version of this number, if it has one.
fn column_of(columns: &[u64], number: u64) -> Option<usize>
    ensures { result ≡ column_of columns.now number }
{
    let place = count_below(number, columns);
    if is_at(number, place, columns) {
        Some(place)
    } else {
        None
    }
}

/// The columns of those of the versions of these numbers that have one.
pub(crate) fn columns_among(
    alloc: Global,
    numbers: &[u64],
    columns: &[u64],
) -> Result<Vec<usize>, AllocError>
    ensures { IfOk result (λ found. found.items ≡ filter_map (column_of columns.now) numbers.now) }
{
    let mut found = Vec::new(alloc);
    for number in numbers {
        if let Some(column) = column_of(columns, *number) {
            found.push(column)?;
        }
    }
    Ok(found)
}

/// The number of the version that touched what a session had read, where it ended so.
pub(crate) fn touching_end(ended: &Option<SessionEnd>) -> Option<u64>
    ensures { result ≡ touching_end (option_map end_in ended.now) }
{
    match ended {
        Some(end) => end.ending.touching(),
        None => None,
    }
}

/// Puts the versions of an end in their places.
fn add_end(columns: &mut Vec<u64>, ended: &Option<SessionEnd>) -> Result<(), AllocError>
    ensures { OnOk result (columns.new.items
        ≡ with_numbers (versions_of_end (option_map end_in ended.now)) columns.old.items) }
{
    let Some(end) = ended else {
        return Ok(());
    };
    add_number(columns, end.version)?;
    match end.ending.touching() {
        Some(number) => add_number(columns, number),
        None => Ok(()),
    }
}

/// Puts the versions of a session in their places.
fn add_session(columns: &mut Vec<u64>, session: &ToldSession) -> Result<(), AllocError>
    ensures { OnOk result (columns.new.items ≡ with_numbers (versions_of (told_in session.now)) columns.old.items) }
{
    add_number(columns, session.opened_at)?;
    add_end(columns, &session.ended)
}

/// The versions of sessions, rising, each once.
pub(crate) fn columns_of(alloc: Global, sessions: &[ToldSession]) -> Result<Vec<u64>, AllocError>
    ensures { IfOk result (λ cs. cs.items ≡ columns (map told_in sessions.now)) }
{
    let mut columns = Vec::new(alloc);
    for session in sessions {
        add_session(&mut columns, session)?;
    }
    Ok(columns)
}
