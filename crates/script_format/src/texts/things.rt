//! The texts of things that were read and touched.

ghost use Rattle.std.specs.Prelude.{◌≡◌, ◌++◌, OnOk, string_bytes, codes};
ghost use Rattle.json.specs.Print.{quoted};
ghost use Rattle.filing_model.specs.Sessions.Things as thing;
ghost use Rattle.filing_model.specs.Reading.Writing.{nullable_text};
ghost use Rattle.oim_fact.specs.Texts.{text_view};
ghost use Rattle.filing_step.specs.PeriodFilter.{period_filter_of};
ghost use Rattle.filing_step.specs.Steps.{thing_of};
ghost use Rattle.script_format.specs.ReplyText.{asked_text, thing_text};

use filing_step::{PageQuery, PeriodFilter, Thing};
use oim_fact::DimSet;
use oim_report::{push_dims, push_nullable, push_quoted};
use std::alloc::AllocError;

/// Appends the array of a word and a report.
fn push_array_of_report(out: &mut String, opening: &str, report: &str) -> Result<(), AllocError>
    ensures { OnOk result (string_bytes out.new ≡ string_bytes out.old
        ++ (opening.now ++ (quoted report.now ++ codes "]"))) }
{
    out.push_str(opening)?;
    push_quoted(out, report)?;
    out.push_str("]")
}

fn push_id(out: &mut String, report: &str, id: &str) -> Result<(), AllocError>
    ensures { OnOk result (string_bytes out.new ≡ string_bytes out.old ++ thing_text (thing.Id report.now id.now)) }
{
    out.push_str("[\"id\",")?;
    push_quoted(out, report)?;
    out.push_str(",")?;
    push_quoted(out, id)?;
    out.push_str("]")
}

fn push_cell(out: &mut String, report: &str, dims: &DimSet) -> Result<(), AllocError>
    ensures { OnOk result (string_bytes out.new ≡ string_bytes out.old ++ thing_text (thing.Cell report.now dims.now)) }
{
    out.push_str("[\"cell\",")?;
    push_quoted(out, report)?;
    out.push_str(",")?;
    push_dims(out, dims)?;
    out.push_str("]")
}

/// Appends the period that is asked for: a text, null for none, true for any.
pub fn push_asked(out: &mut String, asked: &PeriodFilter) -> Result<(), AllocError>
    ensures { OnOk result (string_bytes out.new ≡ string_bytes out.old ++ asked_text (period_filter_of asked.now)) }
{
    match asked {
        PeriodFilter::Any => out.push_str("true"),
        PeriodFilter::Without => out.push_str("null"),
        PeriodFilter::Text(period) => push_quoted(out, period),
    }
}

/// Appends a comma and a text that may not be there.
pub fn push_later(out: &mut String, text: &Option<String>) -> Result<(), AllocError>
    ensures { OnOk result (string_bytes out.new ≡ string_bytes out.old
        ++ (codes "," ++ nullable_text (text_view text.now))) }
{
    out.push_str(",")?;
    push_nullable(out, text)
}

/// Appends a page query: the concept, the period and the identifier after which the page begins.
fn push_page_query(out: &mut String, query: &PageQuery) -> Result<(), AllocError>
    ensures { OnOk result (string_bytes out.new ≡ string_bytes out.old
        ++ (quoted query.now.concept ++ (codes "," ++ (asked_text query.now.period
        ++ (codes "," ++ nullable_text query.now.after))))) }
{
    push_quoted(out, &query.concept)?;
    out.push_str(",")?;
    push_asked(out, &query.period)?;
    push_later(out, &query.after)
}

fn push_range(
    out: &mut String,
    report: &str,
    query: &PageQuery,
    upto: &Option<String>,
) -> Result<(), AllocError>
    ensures { OnOk result (string_bytes out.new ≡ string_bytes out.old
        ++ thing_text (thing.Range report.now query.now (text_view upto.now))) }
{
    out.push_str("[\"range\",")?;
    push_quoted(out, report)?;
    out.push_str(",")?;
    push_page_query(out, query)?;
    push_later(out, upto)?;
    out.push_str("]")
}

/// Appends the array of a thing.
pub(super) fn push_thing(out: &mut String, thing: &Thing) -> Result<(), AllocError>
    ensures { OnOk result (string_bytes out.new ≡ string_bytes out.old ++ thing_text (thing_of thing.now)) }
{
    match thing {
        Thing::Report(report) => push_array_of_report(out, "[\"report\",", report),
        Thing::Id(report, id) => push_id(out, report, id),
        Thing::Cell(report, dims) => push_cell(out, report, dims),
        Thing::Range(report, query, upto) => push_range(out, report, query, upto),
        Thing::Policy(report) => push_array_of_report(out, "[\"policy\",", report),
    }
}
