//! Reports as compact JSON (xBRL-JSON 1.0).

ghost use Rattle.std.specs.Prelude.{◌≡◌, ◌++◌, List, OnOk, OnErr, IfOk, false, string_bytes};
ghost use Rattle.std.specs.Iterator.{IsFinite, AlwaysYields};
ghost use Rattle.filing_model.specs.Common.Text.{Text};
ghost use Rattle.filing_model.specs.Oim.Facts.{Fact as PlainFact};
ghost use Rattle.filing_model.specs.Oim.Reports.{Report as PlainReport};
ghost use Rattle.filing_model.specs.Reading.Writing.{fact_text, listed, member_text, report_text};
ghost use Rattle.oim_report.specs.Appended.{IsFrontPushed};
ghost use Rattle.oim_report.specs.Entries.{entry_seen, IsReportOf};

use crate::fact_text::push_fact;
use crate::pieces::{push_comma, push_quoted};
use crate::report::Report;
use oim_fact::Fact;
use std::alloc::{AllocError, Global};

/// Appends a fact under its identifier.
fn push_entry(out: &mut String, id: &str, fact: &Fact) -> Result<(), AllocError>
    ensures text { OnOk result (string_bytes out.new
        ≡ string_bytes out.old ++ member_text id.now (fact_text fact.now)) }
    ensures front { OnErr result (IsFrontPushed out.old out.new (member_text id.now (fact_text fact.now))) }
{
    push_quoted(out, id)?;
    out.push(':')?;
    push_fact(out, fact)
}

/// Appends facts under their identifiers, with commas between.
fn push_entries<'a, I: Iterator<Item = (&'a str, &'a Fact)> + Drop>(
    out: &mut String,
    entries: I,
) -> Result<(), AllocError>
    requires can { I.can_next entries }
    requires ends { IsFinite (I.remaining entries) }
    ensures text { (given : List (Text × PlainFact)) → AlwaysYields I.next_gives entry_seen entries given
        → OnOk result (string_bytes out.new
        ≡ string_bytes out.old ++ listed false (λ e. member_text e.0 (fact_text e.1)) given) }
    ensures front { (given : List (Text × PlainFact)) → AlwaysYields I.next_gives entry_seen entries given
        → OnErr result (IsFrontPushed out.old out.new (listed false (λ e. member_text e.0 (fact_text e.1)) given)) }
{
    let mut later = false;
    for (id, fact) in entries {
        push_comma(out, later)?;
        push_entry(out, id, fact)?;
        later = true;
    }
    Ok(())
}

/// Appends the report of this info and these facts as `write_report` writes it. The iterator has to end.
pub fn push_report_of<'a, I: Iterator<Item = (&'a str, &'a Fact)> + Drop>(
    out: &mut String,
    info: &str,
    entries: I,
) -> Result<(), AllocError>
    requires can { I.can_next entries }
    requires ends { IsFinite (I.remaining entries) }
    ensures text { (report : PlainReport) → IsReportOf I.next_gives info.now entries report
        → OnOk result (string_bytes out.new ≡ string_bytes out.old ++ report_text report) }
    ensures front { (report : PlainReport) → IsReportOf I.next_gives info.now entries report
        → OnErr result (IsFrontPushed out.old out.new (report_text report)) }
{
    out.push_str("{\"documentInfo\":")?;
    out.push_str(info)?;
    out.push_str(",\"facts\":{")?;
    push_entries(out, entries)?;
    out.push_str("}}")
}

/// Appends a report as `write_report` writes it.
pub fn push_report(out: &mut String, report: &Report) -> Result<(), AllocError>
    ensures text { OnOk result (string_bytes out.new
        ≡ string_bytes out.old ++ report_text report.now) }
    ensures front { OnErr result (IsFrontPushed out.old out.new (report_text report.now)) }
{
    push_report_of(out, report.info(), report.entries())
}

/// A report as a compact JSON object: `documentInfo`, and `facts` in byte order of the identifiers.
pub fn write_report(alloc: Global, report: &Report) -> Result<String, AllocError>
    ensures { IfOk result (λ text. string_bytes text ≡ report_text report.now) }
{
    let mut out = String::new(alloc);
    push_report(&mut out, report)?;
    Ok(out)
}
