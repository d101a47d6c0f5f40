//! `Reasons`: what is reported about a refused line, and its text.

ghost use Rattle.std.specs.Prelude.{◌≡◌, ◌++◌, OnOk, option_map, string_bytes};
ghost use Rattle.script_reasons.specs.ReasonText.{column_text, each_reason_text, more_text, of_fact_text, place_text, reason_text, reasons_text};

use crate::refusal::Refusal;
use oim_report::push_quoted;
use std::alloc::AllocError;

/// One thing that is wrong.
#[derive(Debug, Drop)]
pub struct Reason {
    /// The identifier of the fact of a report, where it is about one.
    pub fact: Option<String>,
    /// What is wrong, in one line of plain words.
    pub said: String,
}

/// Why a line was refused.
#[derive(Debug, Drop)]
pub struct Reasons {
    /// The number of the line.
    pub number: u64,
    /// How the line was refused.
    pub refusal: Refusal,
    /// The column at which the reading of the line stopped, in characters from 1.
    pub column: Option<u64>,
    /// What is wrong, first what the reply tells.
    pub reasons: Vec<Reason>,
    /// How much more is wrong.
    pub more: u64,
}

/// Appends the column at which reading stopped.
fn push_column(out: &mut String, column: Option<u64>) -> Result<(), AllocError>
    ensures { OnOk result (string_bytes out.new ≡ string_bytes out.old ++ column_text column) }
{
    match column {
        Some(column) => write!(out, ", column {column}"),
        None => Ok(()),
    }
}

/// Appends the fact that it is about.
fn push_of_fact(out: &mut String, id: &Option<String>) -> Result<(), AllocError>
    ensures { OnOk result (string_bytes out.new ≡ string_bytes out.old
        ++ of_fact_text (option_map string_bytes id.now)) }
{
    match id {
        Some(id) => {
            out.push_str(", fact ")?;
            push_quoted(out, id)
        }
        None => Ok(()),
    }
}

/// Appends where a reason is.
fn push_place(
    out: &mut String,
    number: u64,
    column: Option<u64>,
    id: &Option<String>,
) -> Result<(), AllocError>
    ensures { OnOk result (string_bytes out.new ≡ string_bytes out.old
        ++ place_text number column (option_map string_bytes id.now)) }
{
    write!(out, "line {number}")?;
    push_column(out, column)?;
    push_of_fact(out, id)
}

/// Appends the line of one reason.
fn push_reason(
    out: &mut String,
    number: u64,
    column: Option<u64>,
    reason: &Reason,
) -> Result<(), AllocError>
    ensures { OnOk result (string_bytes out.new ≡ string_bytes out.old
        ++ reason_text number column reason.now) }
{
    push_place(out, number, column, &reason.fact)?;
    out.push_str(": ")?;
    out.push_str(&reason.said)?;
    out.push_str("\n")
}

/// Appends the lines of several reasons.
fn push_each_reason(
    out: &mut String,
    number: u64,
    column: Option<u64>,
    reasons: &[Reason],
) -> Result<(), AllocError>
    ensures { OnOk result (string_bytes out.new ≡ string_bytes out.old
        ++ each_reason_text number column reasons.now) }
{
    for reason in reasons {
        push_reason(out, number, column, reason)?;
    }
    Ok(())
}

/// Appends how many more there are.
fn push_more(out: &mut String, number: u64, more: u64) -> Result<(), AllocError>
    ensures { OnOk result (string_bytes out.new ≡ string_bytes out.old ++ more_text number more) }
{
    if more == 0 {
        Ok(())
    } else {
        write!(out, "line {number}: and {more} more\n")
    }
}

/// Appends the reasons of a line, one a line, each ended by LF: its number, the column or the fact, what is wrong; and how many more there are.
pub fn push_reasons(out: &mut String, reasons: &Reasons) -> Result<(), AllocError>
    ensures { OnOk result (string_bytes out.new ≡ string_bytes out.old ++ reasons_text reasons.now) }
{
    push_each_reason(out, reasons.number, reasons.column, &reasons.reasons)?;
    push_more(out, reasons.number, reasons.more)
}
