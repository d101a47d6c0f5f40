//! `Picture`: which sessions and versions a picture shows, and what goes from where to where.

ghost use Rattle.std.specs.Prelude.{◌≡◌, ◌+◌, ◌<◌, ◌^◌, length, map, max, option_map, string_bytes, IfOk};
ghost use Rattle.session_pictures.specs.Columns.{touching_end};
ghost use Rattle.session_pictures.specs.Picture.{Shows, arrow_from, arrow_of, end_of, is_shown, label_in, label_of, row_of, rows_of, shown};
ghost use Rattle.session_pictures.specs.Told.{end_in, told_in};

use crate::columns::{columns_among, columns_of, count_below, touching_end};
use crate::told::{Ending, SessionEnd, ToldSession};
use filing_model::Kind;
use std::alloc::{AllocError, Global};

/// Sessions that a picture shows at most.
pub const MOST: usize = 200;

/// An arrow into the bar of a session that ended by a conflict.
#[derive(Clone, Copy)]
pub struct Arrow {
    /// The column of the version that touched what the session had read.
    pub column: usize,
    /// The session from whose row it comes. None after a load, or where that session is not shown.
    pub from_row: Option<u64>,
}

/// The end of a bar.
#[derive(Clone, Copy)]
pub struct RowEnd {
    pub ending: Ending,
    /// The number of the version then.
    pub version: u64,
    /// The column of that version.
    pub column: usize,
}

/// The row of a session.
#[derive(Clone, Copy)]
pub struct Row {
    pub number: u64,
    pub kind: Kind,
    /// How many of its calls were staged.
    pub staged: u64,
    /// The column of the version of its opening, where its bar begins.
    pub opening: usize,
    /// Where its bar ends. None while it is open.
    pub end: Option<RowEnd>,
    /// The session whose commit touched what it had read, where it ended by a conflict with one.
    pub touched_by: Option<u64>,
    pub arrow: Option<Arrow>,
}

/// What is known of a session beside its row.
#[derive(Drop)]
pub struct Label {
    pub name: Option<String>,
    pub time: Option<String>,
}

/// What a picture shows.
#[derive(Drop)]
pub struct Picture {
    /// The number of the first session that is shown.
    pub first: u64,
    /// How many sessions there are, shown or not.
    pub all: usize,
    /// The versions along, rising, each once. The column of a version is its place here.
    pub versions: Vec<u64>,
    pub rows: Vec<Row>,
    /// The label of each row.
    pub labels: Vec<Label>,
    /// The columns of those of the versions that loads made.
    pub loads: Vec<usize>,
}

/// At most so many sessions, from the one of this number on. Each has a number of 64 bits, and so has the next one.
fn shown(sessions: &[ToldSession], first: u64) -> &[ToldSession]
    ensures numbered { max first 1 + length result.now < 2 ^ 64 }
    ensures shown { map told_in result.now ≡ shown first (map told_in sessions.now) }
{
    let before = first.saturating_sub(1) as usize;
    if before >= sessions.len() {
        return &[];
    }
    let many = (sessions.len() - before).min(MOST);
    &sessions[before..before + many]
}

/// Whether a session is one of so many from the first on.
fn is_shown(first: u64, many: usize, session: u64) -> bool
    ensures { result ≡ is_shown first many session }
{
    first <= session && (session as u128) < (first as u128) + (many as u128)
}

/// The session from whose row an arrow comes, if it is shown.
fn arrow_from(first: u64, many: usize, touched_by: Option<u64>) -> Option<u64>
    ensures { result ≡ arrow_from first many touched_by }
{
    match touched_by {
        Some(session) if is_shown(first, many, session) => Some(session),
        _ => None,
    }
}

/// The arrow into the bar of a session, if it has one.
fn arrow_of(first: u64, many: usize, versions: &[u64], session: &ToldSession) -> Option<Arrow>
    ensures { result ≡ arrow_of first many versions.now session.now.touched_by
        (touching_end (option_map end_in session.now.ended)) }
{
    let version = touching_end(&session.ended)?;
    Some(Arrow {
        column: count_below(version, versions),
        from_row: arrow_from(first, many, session.touched_by),
    })
}

/// The end of the bar of a session, if it has ended.
fn end_of(versions: &[u64], ended: &Option<SessionEnd>) -> Option<RowEnd>
    ensures { result ≡ option_map (end_of versions.now) (option_map end_in ended.now) }
{
    match ended {
        Some(end) => Some(RowEnd {
            ending: end.ending,
            version: end.version,
            column: count_below(end.version, versions),
        }),
        None => None,
    }
}

/// The row of a session.
#[tactic(auto, unfolding(crate::specs::Picture::row_of))]
fn row_of(first: u64, many: usize, versions: &[u64], number: u64, session: &ToldSession) -> Row
    ensures { result ≡ row_of first many versions.now number (told_in session.now) }
{
    Row {
        number,
        kind: session.kind,
        staged: session.staged,
        opening: count_below(session.opened_at, versions),
        end: end_of(versions, &session.ended),
        touched_by: session.touched_by,
        arrow: arrow_of(first, many, versions, session),
    }
}

/// The rows of sessions that are numbered from the first on.
fn rows_of(
    alloc: Global,
    first: u64,
    versions: &[u64],
    sessions: &[ToldSession],
) -> Result<Vec<Row>, AllocError>
    requires { first + length sessions.now < 2 ^ 64 }
    ensures { IfOk result (λ rows. rows.items
        ≡ rows_of first (length sessions.now) versions.now first (map told_in sessions.now)) }
{
    let many = sessions.len();
    let mut rows = Vec::with_capacity(alloc, many)?;
    let mut number = first;
    for session in sessions {
        rows.push(row_of(first, many, versions, number, session))?;
        number += 1;
    }
    Ok(rows)
}

/// A text once more, where there is one.
fn copy_of(alloc: Global, text: &Option<String>) -> Result<Option<String>, AllocError>
    ensures { IfOk result (λ copy. option_map string_bytes copy ≡ option_map string_bytes text.now) }
{
    match text {
        Some(text) => Ok(Some(String::from_str(alloc, text)?)),
        None => Ok(None),
    }
}

/// The label of a session.
fn label_of(alloc: Global, session: &ToldSession) -> Result<Label, AllocError>
    ensures { IfOk result (λ label. label_in label ≡ label_of (told_in session.now)) }
{
    let name = copy_of(alloc, &session.name)?;
    let time = copy_of(alloc, &session.time)?;
    Ok(Label { name, time })
}

/// The labels of sessions.
fn labels_of(alloc: Global, sessions: &[ToldSession]) -> Result<Vec<Label>, AllocError>
    ensures { IfOk result (λ labels. map label_in labels.items ≡ map label_of (map told_in sessions.now)) }
{
    let mut labels = Vec::new(alloc);
    for session in sessions {
        labels.push(label_of(alloc, session)?)?;
    }
    Ok(labels)
}

/// The picture of at most 200 sessions, from the one of this number on, where the first has number 1.
/// Loads made the versions of these numbers.
pub fn picture_of_sessions(
    alloc: Global,
    sessions: &[ToldSession],
    loaded: &[u64],
    first: u64,
) -> Result<Picture, AllocError>
    ensures { IfOk result (Shows first (map told_in sessions.now) loaded.now) }
{
    let some = shown(sessions, first);
    let versions = columns_of(alloc, some)?;
    let rows = rows_of(alloc, first.max(1), &versions, some)?;
    let labels = labels_of(alloc, some)?;
    let loads = columns_among(alloc, loaded, &versions)?;
    Ok(Picture {
        first: first.max(1),
        all: sessions.len(),
        versions,
        rows,
        labels,
        loads,
    })
}
