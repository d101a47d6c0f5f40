//! The text of each line of a difference.

ghost use Rattle.std.specs.Prelude.{◌≡◌, ◌++◌, ◌∷◌, [], Some, codes, option_map, string_bytes, OnOk};
ghost use Rattle.json.specs.Print.{quoted};
ghost use Rattle.filing_model.specs.Reading.ReadReport.{allowed_word};
ghost use Rattle.filing_model.specs.Reading.Writing.{fact_text};
ghost use Rattle.filing_laws.specs.Histories.SameReplies.{allowed_eq};
ghost use Rattle.script_format.specs.ReplyText.{word_text};
ghost use Rattle.version_differences.specs.Differences.{NewReport, NoReport, Declared, Added, Removed, declared_lines, fact_lines};
ghost use Rattle.version_differences.specs.LineText.{line_text, lines_text};

use filing_version::are_same_facts;
use oim_fact::{Allowed, Fact};
use oim_report::{allowed_word, push_fact, push_quoted};
use script_format::push_word;
use std::alloc::{AllocError, Global};

/// Appends the line of a report, which begins with this.
fn push_named(out: &mut String, begin: &str, name: &str) -> Result<(), AllocError>
    ensures { OnOk result (string_bytes out.new ≡ string_bytes out.old
        ++ (begin.now ++ (quoted name.now ++ codes "]\n"))) }
{
    out.push_str(begin)?;
    push_quoted(out, name)?;
    out.push_str("]\n")
}

/// Appends the line of a report that is new.
pub(crate) fn push_new_report(out: &mut String, name: &str) -> Result<(), AllocError>
    ensures { OnOk result (string_bytes out.new ≡ string_bytes out.old ++ line_text (NewReport name.now)) }
{
    push_named(out, "[\"report\",", name)
}

/// Appends the line of a report that is no longer there.
pub(crate) fn push_no_report(out: &mut String, name: &str) -> Result<(), AllocError>
    ensures { OnOk result (string_bytes out.new ≡ string_bytes out.old ++ line_text (NoReport name.now)) }
{
    push_named(out, "[\"no-report\",", name)
}

/// Appends a comma and the word of allowed duplicates.
fn push_allowed(out: &mut String, allowed: Allowed) -> Result<(), AllocError>
    ensures { OnOk result (string_bytes out.new
        ≡ string_bytes out.old ++ (codes "," ++ word_text (allowed_word allowed))) }
{
    out.push_str(",")?;
    push_word(out, allowed_word(allowed))
}

/// Appends how the line of a declared value ends.
fn push_allowed_from_to(out: &mut String, from: Allowed, to: Allowed) -> Result<(), AllocError>
    ensures { OnOk result (string_bytes out.new ≡ string_bytes out.old ++ (codes "," ++ (word_text (allowed_word from)
        ++ (codes "," ++ (word_text (allowed_word to) ++ codes "]\n"))))) }
{
    push_allowed(out, from)?;
    push_allowed(out, to)?;
    out.push_str("]\n")
}

/// Appends the line of a declared value that is another.
fn push_changed_allowed(
    out: &mut String,
    name: &str,
    from: Allowed,
    to: Allowed,
) -> Result<(), AllocError>
    ensures { OnOk result (string_bytes out.new ≡ string_bytes out.old ++ line_text (Declared name.now from to)) }
{
    out.push_str("[\"declared\",")?;
    push_quoted(out, name)?;
    push_allowed_from_to(out, from, to)
}

fn are_same_values(one: Allowed, other: Allowed) -> bool
    ensures { result ≡ allowed_eq one other }
{
    one == other
}

/// Appends the line of a declared value, if it is another.
pub(crate) fn push_declared(
    out: &mut String,
    name: &str,
    from: Allowed,
    to: Allowed,
) -> Result<(), AllocError>
    ensures { OnOk result (string_bytes out.new
        ≡ string_bytes out.old ++ lines_text (declared_lines name.now from to)) }
{
    if are_same_values(from, to) {
        return Ok(());
    }
    push_changed_allowed(out, name, from, to)
}

/// Appends how a line of a fact begins: with its word, the name of the report and the identifier.
fn push_place(out: &mut String, begin: &str, name: &str, id: &str) -> Result<(), AllocError>
    ensures { OnOk result (string_bytes out.new ≡ string_bytes out.old
        ++ (begin.now ++ (quoted name.now ++ (codes "," ++ quoted id.now)))) }
{
    out.push_str(begin)?;
    push_quoted(out, name)?;
    out.push_str(",")?;
    push_quoted(out, id)
}

/// Appends a comma and a fact.
fn push_next_fact(out: &mut String, fact: &Fact) -> Result<(), AllocError>
    ensures { OnOk result (string_bytes out.new ≡ string_bytes out.old ++ (codes "," ++ fact_text fact.now)) }
{
    out.push_str(",")?;
    push_fact(out, fact)
}

/// Appends the line of one fact that is new or no longer there, which begins with this.
fn push_one_fact(
    out: &mut String,
    begin: &str,
    name: &str,
    id: &str,
    fact: &Fact,
) -> Result<(), AllocError>
    ensures { OnOk result (string_bytes out.new ≡ string_bytes out.old
        ++ (begin.now ++ (quoted name.now
        ++ (codes "," ++ (quoted id.now ++ (codes "," ++ (fact_text fact.now ++ codes "]\n"))))))) }
{
    push_place(out, begin, name, id)?;
    push_next_fact(out, fact)?;
    out.push_str("]\n")
}

/// Appends the line of a fact that is new.
fn push_added(out: &mut String, name: &str, id: &str, fact: &Fact) -> Result<(), AllocError>
    ensures { OnOk result (string_bytes out.new ≡ string_bytes out.old
        ++ lines_text (Added name.now id.now fact.now ∷ [])) }
{
    push_one_fact(out, "[\"added\",", name, id, fact)
}

/// Appends the line of a fact that is no longer there.
fn push_removed(out: &mut String, name: &str, id: &str, fact: &Fact) -> Result<(), AllocError>
    ensures { OnOk result (string_bytes out.new ≡ string_bytes out.old
        ++ lines_text (Removed name.now id.now fact.now ∷ [])) }
{
    push_one_fact(out, "[\"removed\",", name, id, fact)
}

/// Appends the line of a fact that is another, if it is another.
fn push_changed(
    out: &mut String,
    name: &str,
    id: &str,
    from: &Fact,
    to: &Fact,
) -> Result<(), AllocError>
    ensures { OnOk result (string_bytes out.new ≡ string_bytes out.old
        ++ lines_text (fact_lines name.now id.now (Some from.now) (Some to.now))) }
{
    if are_same_facts(from, to) {
        return Ok(());
    }
    push_place(out, "[\"changed\",", name, id)?;
    push_next_fact(out, from)?;
    push_next_fact(out, to)?;
    out.push_str("]\n")
}

/// Appends the line of an identifier, if its fact differs.
pub(crate) fn push_fact_lines(
    out: &mut String,
    name: &str,
    id: &str,
    from: Option<&Fact>,
    to: Option<&Fact>,
) -> Result<(), AllocError>
    ensures { OnOk result (string_bytes out.new ≡ string_bytes out.old
        ++ lines_text (fact_lines name.now id.now (option_map (λ f. f.now) from.entry)
        (option_map (λ f. f.now) to.entry))) }
{
    match (from, to) {
        (None, None) => Ok(()),
        (None, Some(to)) => push_added(out, name, id, to),
        (Some(from), None) => push_removed(out, name, id, from),
        (Some(from), Some(to)) => push_changed(out, name, id, from, to),
    }
}
