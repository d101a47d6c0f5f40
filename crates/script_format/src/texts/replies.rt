//! The texts of replies to steps.

ghost use Rattle.std.specs.Prelude.{◌≡◌, ◌++◌, false, map, OnOk, IfOk, string_bytes, codes, decimal};
ghost use Rattle.std.specs.Iterator.{IsFinite};
ghost use Rattle.json.specs.Print.{quoted};
ghost use Rattle.filing_model.specs.Oim.Reports.{Report as PlainReport};
ghost use Rattle.oim_report.specs.Entries.{IsReportOf};
ghost use Rattle.filing_step.specs.Steps.{reply_of, thing_of};
ghost use Rattle.filing_model.specs.Sessions.Replies as reply;
ghost use Rattle.filing_model.specs.Sessions.Replies.{Disallowed};
ghost use Rattle.filing_model.specs.Reading.Writing.{fact_text, listed};
ghost use Rattle.script_format.specs.ReplyText.{class_word, exported_text, reply_text, texts_text, word_text};

use super::refusals::{push_bad_fact, push_word};
use super::things::push_thing;
use super::words::class_word;
use filing_model::{Allowed, Class, Trouble};
use filing_step::{Reply, Thing};
use oim_fact::Fact;
use oim_report::{Report, allowed_word, push_comma, push_fact, push_quoted, push_report_of};
use std::alloc::{AllocError, Global};

/// Appends a whole number.
pub fn push_number(out: &mut String, number: u64) -> Result<(), AllocError>
    ensures { OnOk result (string_bytes out.new ≡ string_bytes out.old ++ decimal number) }
{
    write!(out, "{number}")
}

/// Appends an array of texts.
pub fn push_texts(out: &mut String, texts: &[String]) -> Result<(), AllocError>
    ensures { OnOk result (string_bytes out.new ≡ string_bytes out.old ++ texts_text (map string_bytes texts.now)) }
{
    out.push_str("[")?;
    let mut later = false;
    for text in texts {
        push_comma(out, later)?;
        push_quoted(out, text)?;
        later = true;
    }
    out.push_str("]")
}

/// Appends the array of a word and a number.
fn push_numbered(out: &mut String, opening: &str, number: u64) -> Result<(), AllocError>
    ensures { OnOk result (string_bytes out.new ≡ string_bytes out.old
        ++ (opening.now ++ (decimal number ++ codes "]"))) }
{
    out.push_str(opening)?;
    push_number(out, number)?;
    out.push_str("]")
}

/// Appends the array of a fact that was found.
fn push_found(out: &mut String, fact: &Fact) -> Result<(), AllocError>
    ensures { OnOk result (string_bytes out.new ≡ string_bytes out.old
        ++ (codes "[\"fact\"," ++ (fact_text fact.now ++ codes "]"))) }
{
    out.push_str("[\"fact\",")?;
    push_fact(out, fact)?;
    out.push_str("]")
}

/// Appends a class with its identifiers, which end an array.
fn push_classed(out: &mut String, class: Class, ids: &[String]) -> Result<(), AllocError>
    ensures { OnOk result (string_bytes out.new ≡ string_bytes out.old
        ++ (word_text (class_word class) ++ (codes ","
        ++ (texts_text (map string_bytes ids.now) ++ codes "]")))) }
{
    push_word(out, class_word(class))?;
    out.push_str(",")?;
    push_texts(out, ids)?;
    out.push_str("]")
}

/// Appends the array of a cell that is not allowed.
fn push_disallowed(
    out: &mut String,
    name: &str,
    class: Class,
    ids: &[String],
) -> Result<(), AllocError>
    ensures { OnOk result (string_bytes out.new ≡ string_bytes out.old
        ++ reply_text (Disallowed name.now class (map string_bytes ids.now))) }
{
    out.push_str("[\"disallowed\",")?;
    push_quoted(out, name)?;
    out.push_str(",")?;
    push_classed(out, class, ids)
}

/// Appends the array of a cell.
fn push_cell(out: &mut String, class: Class, ids: &[String]) -> Result<(), AllocError>
    ensures { OnOk result (string_bytes out.new ≡ string_bytes out.old
        ++ reply_text (reply.Cell class (map string_bytes ids.now))) }
{
    out.push_str("[\"cell\",")?;
    push_classed(out, class, ids)
}

/// Appends the array of a page.
fn push_page(out: &mut String, ids: &[String], more: bool) -> Result<(), AllocError>
    ensures { OnOk result (string_bytes out.new ≡ string_bytes out.old
        ++ reply_text (reply.Page (map string_bytes ids.now) more)) }
{
    out.push_str("[\"page\",")?;
    push_texts(out, ids)?;
    out.push_str(",")?;
    out.push_str(if more { "true" } else { "false" })?;
    out.push_str("]")
}

/// Appends the array of a declared value.
fn push_declared(out: &mut String, allowed: Allowed) -> Result<(), AllocError>
    ensures { OnOk result (string_bytes out.new ≡ string_bytes out.old ++ reply_text (reply.Declared allowed)) }
{
    out.push_str("[\"declared\",")?;
    push_word(out, allowed_word(allowed))?;
    out.push_str("]")
}

/// Appends the array of a conflict.
fn push_conflict(out: &mut String, number: u64, thing: &Thing) -> Result<(), AllocError>
    ensures { OnOk result (string_bytes out.new ≡ string_bytes out.old
        ++ reply_text (reply.Conflict number (thing_of thing.now))) }
{
    out.push_str("[\"conflict\",")?;
    push_number(out, number)?;
    out.push_str(",")?;
    push_thing(out, thing)?;
    out.push_str("]")
}

/// Appends the line of a reply.
pub fn push_reply(out: &mut String, reply: &Reply) -> Result<(), AllocError>
    ensures { OnOk result (string_bytes out.new ≡ string_bytes out.old ++ reply_text (reply_of reply.now)) }
{
    match reply {
        Reply::NoReport => out.push_str("[\"no-report\"]"),
        Reply::Absent => out.push_str("[\"none\"]"),
        Reply::Found(fact) => push_found(out, fact),
        Reply::Cell(class, ids) => push_cell(out, *class, ids),
        Reply::Page(ids, more) => push_page(out, ids, *more),
        Reply::ReadOnly => out.push_str("[\"read-only\"]"),
        Reply::Taken => out.push_str("[\"taken\"]"),
        Reply::BadFact(fault) => push_bad_fact(out, Trouble::Fit(*fault)),
        Reply::Staged => out.push_str("[\"staged\"]"),
        Reply::Declared(allowed) => push_declared(out, *allowed),
        Reply::Loaded(number) => push_numbered(out, "[\"loaded\",", *number),
        Reply::NameTaken => out.push_str("[\"name-taken\"]"),
        Reply::Disallowed(name, class, ids) => push_disallowed(out, name, *class, ids),
        Reply::Opened => out.push_str("[\"opened\"]"),
        Reply::Closed => out.push_str("[\"closed\"]"),
        Reply::Committed(number) => push_numbered(out, "[\"committed\",", *number),
        Reply::Conflict(number, thing) => push_conflict(out, *number, thing),
    }
}

/// How many bytes to take for the line of a reply, so that it seldom has to grow.
fn likely_length(reply: &Reply) -> usize {
    match reply {
        Reply::Found(_) => 256,
        _ => 32,
    }
}

/// The line of a reply, without the LF that ends it.
pub fn reply_text(alloc: Global, reply: &Reply) -> Result<String, AllocError>
    ensures { IfOk result (λ text. string_bytes text ≡ reply_text (reply_of reply.now)) }
{
    let mut out = String::with_capacity(alloc, likely_length(reply))?;
    push_reply(&mut out, reply)?;
    Ok(out)
}

/// The reply that gives the report of this info and these facts, which was asked for. The iterator has to end.
pub fn exported_reply_of<'a, I: Iterator<Item = (&'a str, &'a Fact)> + Drop>(
    alloc: Global,
    info: &str,
    entries: I,
) -> Result<String, AllocError>
    requires can { I.can_next entries }
    requires ends { IsFinite (I.remaining entries) }
    ensures { (report : PlainReport) → IsReportOf I.next_gives info.now entries report
        → IfOk result (λ text. string_bytes text ≡ exported_text report) }
{
    let mut out = String::new(alloc);
    out.push_str("[\"report\",")?;
    push_report_of(&mut out, info, entries)?;
    out.push_str("]")?;
    Ok(out)
}

/// The reply that gives a report that was asked for.
pub fn exported_reply(alloc: Global, report: &Report) -> Result<String, AllocError>
    ensures { IfOk result (λ text. string_bytes text ≡ exported_text report.now) }
{
    exported_reply_of(alloc, report.info(), report.entries())
}
