//! `explain`: why a line was refused, by its reply.

ghost use Rattle.std.specs.Prelude.{◌≡◌, ◌<◌, Bool, vec_len, IfOk, IfSome, OnOk, Some, option_map};
ghost use Rattle.script_reasons.specs.Explained.{AreReasonsOf, IsStopOf};
ghost use Rattle.filing_model.specs.Common.Text.{Text};
ghost use Rattle.serde_json.specs.View.{view};
ghost use Rattle.script_format.specs.LineView.{line_view};
ghost use Rattle.script_reasons.specs.ToldFacts.{AreOfFactsIn, KeepsTo, line_has_fact};
ghost use Rattle.script_reasons.specs.Refusals.{refusal_in, refusal_word, word_of};

use crate::bad_line::explain_bad_line;
use crate::gathered::Gathered;
use crate::reasons::Reasons;
use crate::refusal::{Refusal, refusal_in};
use crate::reports::gather_load;
use crate::states::{gather_fact, gather_state};
use oim_fact::NumericTable;
use oim_report::json_value;
use script_format::{Line, line_of};
use std::alloc::{AllocError, Global};
use std::sync::Arc;

/// What each refusal means, where nothing more is found.
fn meaning(refusal: Refusal) -> &'static str {
    match refusal {
        Refusal::BadLine => "it is no line of a script",
        Refusal::BadReport => "the report is refused",
        Refusal::BadFact => "the fact or the dimensions are refused",
        Refusal::NameTaken => "there is a report of this name",
        Refusal::Disallowed => "the report would have duplicates that it does not allow",
        Refusal::NameInUse => "an open session has this name",
        Refusal::NoSession => "no open session has this name",
        Refusal::NoReport => "there is no report of this name",
        Refusal::ReadOnly => "a review changes nothing",
        Refusal::Taken => "there is a fact under this identifier",
        Refusal::Conflict => "what the session had read was touched",
        Refusal::NotThere => "there is no fact under this identifier",
    }
}

/// Gathers why a line of a script was refused.
fn gather_line(
    alloc: Global,
    gathered: &mut Gathered,
    refusal: Refusal,
    line: &Line<'_>,
    table: &Arc<NumericTable>,
    reply: &str,
) -> Result<(), AllocError>
    ensures { OnOk result (KeepsTo (λ id. line_has_fact id (Some (line_view view line.now)))
        gathered.old.reasons.items gathered.new.reasons.items) }
{
    match (refusal, line) {
        (Refusal::BadReport, Line::Load { report, .. }) => {
            gather_load(alloc, gathered, report, table)
        }
        (Refusal::BadFact, line) => gather_fact(alloc, gathered, line, reply),
        (refusal, line) => gather_state(alloc, gathered, refusal, line, reply),
    }
}

/// Why a line was refused otherwise than as no line.
fn reasons_of(
    alloc: Global,
    refusal: Refusal,
    line: &[u8],
    table: &Arc<NumericTable>,
    reply: &str,
) -> Result<Gathered, AllocError>
    ensures { IfOk result (λ g. AreOfFactsIn line.now g.reasons.items) }
{
    let mut gathered = Gathered::new(alloc);
    if let Some(value) = json_value(alloc, line)? {
        if let Some(line) = line_of(&value) {
            gather_line(alloc, &mut gathered, refusal, &line, table, reply)?;
        }
    }
    Ok(gathered)
}

/// What was gathered, or what the refusal means where nothing was.
fn or_meaning(alloc: Global, refusal: Refusal, gathered: Gathered) -> Result<Gathered, AllocError>
    ensures some { IfOk result (λ g. 0 < vec_len g.reasons) }
    ensures kept { IfOk result (λ g. (of : Text → Bool) → KeepsTo of gathered.reasons.items g.reasons.items) }
{
    if gathered.reasons.is_empty() {
        Gathered::of(alloc, String::from_str(alloc, meaning(refusal))?)
    } else {
        Ok(gathered)
    }
}

/// The reasons of a refused line, with the column at which its reading stopped.
fn gather_reasons(
    alloc: Global,
    refusal: Refusal,
    line: &[u8],
    table: &Arc<NumericTable>,
    reply: &str,
) -> Result<(Option<u64>, Gathered), AllocError>
    ensures some { IfOk result (λ r. 0 < vec_len r.1.reasons) }
    ensures stops { IfOk result (λ r. IfSome r.0 (IsStopOf line.now)) }
    ensures facts { IfOk result (λ r. AreOfFactsIn line.now r.1.reasons.items) }
{
    if let Refusal::BadLine = refusal {
        let (column, said) = explain_bad_line(alloc, line)?;
        return Ok((column, Gathered::of(alloc, said)?));
    }
    let gathered = reasons_of(alloc, refusal, line, table, reply)?;
    Ok((None, or_meaning(alloc, refusal, gathered)?))
}

/// Why the line of this number was refused, by its reply and by the numeric table of its script; none where the reply answers it.
/// The first reason is what the reply reports. Out of memory is an error, and says nothing about the line.
pub fn explain(
    alloc: Global,
    number: u64,
    line: &[u8],
    table: &Arc<NumericTable>,
    reply: &str,
) -> Result<Option<Reasons>, AllocError>
    ensures refused { IfOk result (λ o. option_map (λ r. r.refusal) o ≡ refusal_in line.now reply.now) }
    ensures word { IfOk result (λ o. IfSome o (λ r. refusal_word r.refusal ≡ word_of reply.now)) }
    ensures reasons { IfOk result (λ o. IfSome o (AreReasonsOf number line.now)) }
{
    let Some(refusal) = refusal_in(alloc, line, reply)? else {
        return Ok(None);
    };
    let (column, gathered) = gather_reasons(alloc, refusal, line, table, reply)?;
    let Gathered { reasons, more } = gathered;
    Ok(Some(Reasons {
        number,
        refusal,
        column,
        reasons,
        more,
    }))
}
