//! The replies to what is refused in reading.

ghost use Rattle.std.specs.Prelude.{◌≡◌, ◌++◌, Some, option_map, OnOk, IfOk, string_bytes};
ghost use Rattle.filing_model.specs.Reading.ReadReport.{BadFact};
ghost use Rattle.oim_report.specs.Faults.{report_fault};
ghost use Rattle.script_format.specs.ReplyText.{bad_fact_text, bad_report_text, told_fault, word_text};

use super::words::trouble_word;
use filing_model::{DimFault, Trouble};
use oim_report::{ReportFault, push_quoted};
use std::alloc::{AllocError, Global};

/// Appends a word, which has no character to escape, as a JSON text.
pub fn push_word(out: &mut String, word: &str) -> Result<(), AllocError>
    ensures { OnOk result (string_bytes out.new ≡ string_bytes out.old ++ word_text word.now) }
{
    out.push_str("\"")?;
    out.push_str(word)?;
    out.push_str("\"")
}

/// Appends the line of a fact that is refused.
pub(super) fn push_bad_fact(out: &mut String, fault: Trouble) -> Result<(), AllocError>
    ensures { OnOk result (string_bytes out.new ≡ string_bytes out.old ++ bad_fact_text fault) }
{
    out.push_str("[\"bad-fact\",")?;
    push_word(out, trouble_word(fault))?;
    out.push_str("]")
}

/// The fault, where a reply reports it.
fn told_fault(fault: Trouble) -> Option<Trouble>
    ensures { result ≡ told_fault fault }
{
    match fault {
        Trouble::NoMemory | Trouble::Dims(DimFault::NoMemory) => None,
        fault => Some(fault),
    }
}

/// The reply to a fact, or to dimensions, that are refused. Out of memory is no reply.
pub fn bad_fact_reply(alloc: Global, fault: Trouble) -> Result<String, AllocError>
    ensures { IfOk result (λ text. Some (string_bytes text) ≡ option_map bad_fact_text (told_fault fault)) }
{
    let Some(fault) = told_fault(fault) else {
        return Err(AllocError);
    };
    let mut out = String::new(alloc);
    push_bad_fact(&mut out, fault)?;
    Ok(out)
}

/// Appends the line of a report one of whose facts is refused.
fn push_bad_fact_of_report(out: &mut String, id: &str, fault: Trouble) -> Result<(), AllocError>
    ensures { OnOk result (string_bytes out.new ≡ string_bytes out.old ++ bad_report_text (BadFact id.now fault)) }
{
    out.push_str("[\"bad-report\",\"bad-fact\",")?;
    push_quoted(out, id)?;
    out.push_str(",")?;
    push_word(out, trouble_word(fault))?;
    out.push_str("]")
}

/// The reply to a report that is refused. Out of memory is no reply.
pub fn bad_report_reply(alloc: Global, fault: &ReportFault) -> Result<String, AllocError>
    ensures { IfOk result (λ text. Some (string_bytes text) ≡ option_map bad_report_text (report_fault fault.now)) }
{
    let mut out = String::new(alloc);
    match fault {
        ReportFault::NotJson => out.push_str("[\"bad-report\",\"not-json\"]")?,
        ReportFault::WrongShape => out.push_str("[\"bad-report\",\"wrong-shape\"]")?,
        ReportFault::WrongDocumentType => {
            out.push_str("[\"bad-report\",\"wrong-document-type\"]")?
        }
        ReportFault::BadPolicy => out.push_str("[\"bad-report\",\"bad-policy\"]")?,
        ReportFault::AliasTwice => out.push_str("[\"bad-report\",\"alias-twice\"]")?,
        ReportFault::NotWhole => out.push_str("[\"bad-report\",\"not-whole\"]")?,
        ReportFault::BadFact(id, fault) => push_bad_fact_of_report(&mut out, id, *fault)?,
        ReportFault::NoMemory => return Err(AllocError),
    }
    Ok(out)
}
