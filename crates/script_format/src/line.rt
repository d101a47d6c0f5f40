//! `Line`: a line of a script by its kind, read from JSON without a copy of its parts.
ghost use Rattle.std.specs.Prelude.{◌≡◌, ◌+◌, ◌<◌, ◌^◌, IsSome, Some, option_map};
ghost use Rattle.serde_json.specs.Find.{at};
ghost use Rattle.serde_json.specs.View.{view};
ghost use Rattle.script_format.specs.LineView.{asking_view, line_view};
ghost use Rattle.script_format.specs.Verbs.{asking_verb_of_word, verb_of_word, verb_word};
ghost use Rattle.script_format.specs.ScriptLines as model;

use crate::json_array::{JsonArray, allowed_at};
use filing_model::{Allowed, Kind, is_same_text};
use filing_step::Limit;
use oim_fact::PeriodFilterRef;
use serde_json::Value;

/// What a line asks of a session, with its parts in the JSON value that was read. The dimensions of a cell and the fact of an addition are not read yet.
#[derive_where(Clone, Copy)]
pub enum Asking<'a, P = Value> {
    Get {
        report: &'a str,
        id: &'a str,
    },
    Cell {
        report: &'a str,
        dims: &'a P,
    },
    Page {
        report: &'a str,
        concept: &'a str,
        period: PeriodFilterRef<'a>,
        after: Option<&'a str>,
        limit: Limit,
    },
    Add {
        report: &'a str,
        id: &'a str,
        fact: &'a P,
    },
    Remove {
        report: &'a str,
        id: &'a str,
    },
    Declared {
        report: &'a str,
    },
    Declare {
        report: &'a str,
        allowed: Allowed,
    },
}

/// A line of a script, with its parts in the JSON value that was read. The report of a load is not read yet.
#[derive_where(Clone, Copy)]
pub enum Line<'a, P = Value> {
    Load {
        name: &'a str,
        report: &'a P,
    },
    Open {
        session: &'a str,
        kind: Kind,
    },
    Ask {
        session: &'a str,
        asking: Asking<'a, P>,
    },
    Commit {
        session: &'a str,
    },
    Close {
        session: &'a str,
    },
    Export {
        name: &'a str,
    },
}

/// Takes the part at a place out of an array, and leaves null there.
pub fn taken_at(value: &mut Value, place: usize) -> Value
    requires { IsSome (at place (view value.old)) }
    ensures { Some (view result) ≡ at place (view value.old) }
{
    match value.get_mut(place) {
        Some(part) => part.take(),
        None => unreachable!(),
    }
}

fn load_of<V: JsonArray>(value: &V) -> Option<Line<'_, V::Part>>
    ensures { option_map (line_view V.part_seen) result ≡ model.load_of (V.seen value.now) }
{
    let name = value.text_at(1)?;
    let report = value.report_part_at(2)?;
    value.ends_at(3)?;
    Some(Line::Load { name, report })
}

/// What a word says that a session is opened for.
pub fn kind_of_word(word: &str) -> Option<Kind>
    ensures { result ≡ model.kind_of_word word.now }
{
    if is_same_text(word, "review") {
        Some(Kind::Review)
    } else if is_same_text(word, "amend") {
        Some(Kind::Amend)
    } else {
        None
    }
}

fn open_of<V: JsonArray>(value: &V) -> Option<Line<'_, V::Part>>
    ensures { option_map (line_view V.part_seen) result ≡ model.open_of (V.seen value.now) }
{
    let session = value.text_at(1)?;
    let kind = kind_of_word(value.text_at(2)?)?;
    value.ends_at(3)?;
    Some(Line::Open { session, kind })
}

fn get_asking_from<V: JsonArray>(value: &V, place: usize) -> Option<Asking<'_, V::Part>>
    requires { place + 6 < 2 ^ 64 }
    ensures { option_map (asking_view V.part_seen) result ≡ model.get_at place (V.seen value.now) }
{
    let report = value.text_at(place)?;
    let id = value.text_at(place + 1)?;
    value.ends_at(place + 2)?;
    Some(Asking::Get { report, id })
}

fn cell_asking_from<V: JsonArray>(value: &V, place: usize) -> Option<Asking<'_, V::Part>>
    requires { place + 6 < 2 ^ 64 }
    ensures { option_map (asking_view V.part_seen) result ≡ model.cell_at place (V.seen value.now) }
{
    let report = value.text_at(place)?;
    let dims = value.object_at(place + 1)?;
    value.ends_at(place + 2)?;
    Some(Asking::Cell { report, dims })
}

fn page_asking_from<V: JsonArray>(value: &V, place: usize) -> Option<Asking<'_, V::Part>>
    requires { place + 6 < 2 ^ 64 }
    ensures { option_map (asking_view V.part_seen) result ≡ model.page_at place (V.seen value.now) }
{
    let report = value.text_at(place)?;
    let concept = value.text_at(place + 1)?;
    let period = value.asked_at(place + 2)?;
    let after = value.nullable_at(place + 3)?;
    let limit = value.limit_at(place + 4)?;
    value.ends_at(place + 5)?;
    Some(Asking::Page {
        report,
        concept,
        period,
        after,
        limit,
    })
}

fn add_asking_from<V: JsonArray>(value: &V, place: usize) -> Option<Asking<'_, V::Part>>
    requires { place + 6 < 2 ^ 64 }
    ensures { option_map (asking_view V.part_seen) result ≡ model.add_at place (V.seen value.now) }
{
    let report = value.text_at(place)?;
    let id = value.text_at(place + 1)?;
    let fact = value.object_at(place + 2)?;
    value.ends_at(place + 3)?;
    Some(Asking::Add { report, id, fact })
}

fn remove_asking_from<V: JsonArray>(value: &V, place: usize) -> Option<Asking<'_, V::Part>>
    requires { place + 6 < 2 ^ 64 }
    ensures { option_map (asking_view V.part_seen) result ≡ model.remove_at place (V.seen value.now) }
{
    let report = value.text_at(place)?;
    let id = value.text_at(place + 1)?;
    value.ends_at(place + 2)?;
    Some(Asking::Remove { report, id })
}

fn declared_asking_from<V: JsonArray>(value: &V, place: usize) -> Option<Asking<'_, V::Part>>
    requires { place + 6 < 2 ^ 64 }
    ensures { option_map (asking_view V.part_seen) result ≡ model.declared_at place (V.seen value.now) }
{
    let report = value.text_at(place)?;
    value.ends_at(place + 1)?;
    Some(Asking::Declared { report })
}

fn declare_asking_from<V: JsonArray>(value: &V, place: usize) -> Option<Asking<'_, V::Part>>
    requires { place + 6 < 2 ^ 64 }
    ensures { option_map (asking_view V.part_seen) result ≡ model.declare_at place (V.seen value.now) }
{
    let report = value.text_at(place)?;
    let allowed = allowed_at(value, place + 1)?;
    value.ends_at(place + 2)?;
    Some(Asking::Declare { report, allowed })
}

/// What is asked by a verb, with the parts of an array from a place on and none after them.
fn asking_of_verb<V: JsonArray>(verb: Verb, value: &V, place: usize) -> Option<Asking<'_, V::Part>>
    requires { place + 6 < 2 ^ 64 }
    ensures { option_map (asking_view V.part_seen) result ≡ model.asking_of_verb verb place (V.seen value.now) }
{
    match verb {
        Verb::Get => get_asking_from(value, place),
        Verb::Cell => cell_asking_from(value, place),
        Verb::Page => page_asking_from(value, place),
        Verb::Add => add_asking_from(value, place),
        Verb::Remove => remove_asking_from(value, place),
        Verb::Declared => declared_asking_from(value, place),
        Verb::Declare => declare_asking_from(value, place),
        Verb::Load | Verb::Open | Verb::Commit | Verb::Close | Verb::Export => None,
    }
}

/// What is asked by a word, with the parts of an array from a place on and none after them.
pub(crate) fn asking_from<'a, V: JsonArray>(
    word: &str,
    value: &'a V,
    place: usize,
) -> Option<Asking<'a, V::Part>>
    requires { place + 6 < 2 ^ 64 }
    ensures { option_map (asking_view V.part_seen) result ≡ model.asking_at word.now place (V.seen value.now) }
{
    asking_of_verb(Verb::of_word(word)?, value, place)
}

fn commit_of<V: JsonArray>(value: &V) -> Option<Line<'_, V::Part>>
    ensures { option_map (line_view V.part_seen) result ≡ model.commit_of (V.seen value.now) }
{
    let session = value.text_at(1)?;
    value.ends_at(2)?;
    Some(Line::Commit { session })
}

fn close_of<V: JsonArray>(value: &V) -> Option<Line<'_, V::Part>>
    ensures { option_map (line_view V.part_seen) result ≡ model.close_of (V.seen value.now) }
{
    let session = value.text_at(1)?;
    value.ends_at(2)?;
    Some(Line::Close { session })
}

fn export_of<V: JsonArray>(value: &V) -> Option<Line<'_, V::Part>>
    ensures { option_map (line_view V.part_seen) result ≡ model.export_of (V.seen value.now) }
{
    let name = value.text_at(1)?;
    value.ends_at(2)?;
    Some(Line::Export { name })
}

/// A line that asks something of the session that it names.
fn asking_line<V: JsonArray>(verb: Verb, value: &V) -> Option<Line<'_, V::Part>>
    ensures { option_map (line_view V.part_seen) result ≡ model.asking_line verb (V.seen value.now) }
{
    let session = value.text_at(1)?;
    match asking_of_verb(verb, value, 2) {
        Some(asking) => Some(Line::Ask { session, asking }),
        None => None,
    }
}

fn line_of_verb<V: JsonArray>(verb: Verb, value: &V) -> Option<Line<'_, V::Part>>
    ensures { option_map (line_view V.part_seen) result ≡ model.line_of_verb verb (V.seen value.now) }
{
    match verb {
        Verb::Load => load_of(value),
        Verb::Open => open_of(value),
        Verb::Commit => commit_of(value),
        Verb::Close => close_of(value),
        Verb::Export => export_of(value),
        Verb::Get
        | Verb::Cell
        | Verb::Page
        | Verb::Add
        | Verb::Remove
        | Verb::Declared
        | Verb::Declare => asking_line(verb, value),
    }
}

/// The line that a JSON value is, where it is one by its length, its first text and the kinds of its parts.
#[tactic(auto, unfolding(crate::specs::ScriptLines::line_of))]
pub fn line_of<V: JsonArray>(value: &V) -> Option<Line<'_, V::Part>>
    ensures { option_map (line_view V.part_seen) result ≡ model.line_of (V.seen value.now) }
{
    line_of_verb(Verb::of_word(value.text_at(0)?)?, value)
}

/// The word by which a line begins. It decides which parts follow.
#[derive(Clone, Copy)]
pub enum Verb {
    Load,
    Open,
    Commit,
    Close,
    Export,
    Get,
    Cell,
    Page,
    Add,
    Remove,
    Declared,
    Declare,
}

impl Verb {
    /// Each verb.
    pub const ALL: [Verb; 12] = [
        Verb::Load,
        Verb::Open,
        Verb::Get,
        Verb::Cell,
        Verb::Page,
        Verb::Add,
        Verb::Remove,
        Verb::Declared,
        Verb::Declare,
        Verb::Commit,
        Verb::Close,
        Verb::Export,
    ];

    pub fn word(self) -> &'static str
        ensures { result.now ≡ verb_word self }
    {
        match self {
            Verb::Load => "load",
            Verb::Open => "open",
            Verb::Commit => "commit",
            Verb::Close => "close",
            Verb::Export => "export",
            Verb::Get => "get",
            Verb::Cell => "cell",
            Verb::Page => "page",
            Verb::Add => "add",
            Verb::Remove => "remove",
            Verb::Declared => "declared",
            Verb::Declare => "declare",
        }
    }

    /// The verb of this word, if any.
    pub fn of_word(word: &str) -> Option<Verb>
        ensures { result ≡ verb_of_word word.now }
    {
        if is_same_text(word, "load") {
            Some(Verb::Load)
        } else if is_same_text(word, "open") {
            Some(Verb::Open)
        } else if is_same_text(word, "commit") {
            Some(Verb::Commit)
        } else if is_same_text(word, "close") {
            Some(Verb::Close)
        } else if is_same_text(word, "export") {
            Some(Verb::Export)
        } else {
            Verb::asking_of_word(word)
        }
    }

    /// The verb of this word, of those that ask something of a session.
    fn asking_of_word(word: &str) -> Option<Verb>
        ensures { result ≡ asking_verb_of_word word.now }
    {
        if is_same_text(word, "get") {
            Some(Verb::Get)
        } else if is_same_text(word, "cell") {
            Some(Verb::Cell)
        } else if is_same_text(word, "page") {
            Some(Verb::Page)
        } else if is_same_text(word, "add") {
            Some(Verb::Add)
        } else if is_same_text(word, "remove") {
            Some(Verb::Remove)
        } else if is_same_text(word, "declared") {
            Some(Verb::Declared)
        } else if is_same_text(word, "declare") {
            Some(Verb::Declare)
        } else {
            None
        }
    }
}
