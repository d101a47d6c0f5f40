//! `Replies`: the replies to the lines of a script, and how its run ended.

ghost use Rattle.std.specs.Prelude.{◌≡◌, ◌++◌, IfOk, OnOk, string_bytes};
ghost use Rattle.std.specs.Slice.Iter.{iter_rest};
ghost use Rattle.line_io.specs.Lines.{lines_text};
ghost use Rattle.filing_threads.specs.Telling.{GrowsBy, NextReply, all_told, outcome_text, replies_of};

use crate::opened::OpenedSessions;
use filing_office::{Naming, Outcome};
use script_format::{name_in_use_reply, no_session_reply, push_reply};
use std::alloc::AllocError;
use std::slice::Iter;

/// How the run of a script ended.
#[derive(Clone, Copy, Drop)]
pub(crate) enum Ending {
    /// Each line has its reply.
    Whole,
    /// Out of memory for a step. The lines before it have their replies.
    StepStarved,
    /// Out of memory while lines were classified. The lines before them have their replies.
    LineStarved,
    /// The line of this number, from 1 without blank lines, nests too deep for the journal.
    /// The lines before it have their replies.
    TooDeep(usize),
}

/// The replies to the lines of a script.
#[derive(Drop)]
pub(crate) struct Replies {
    /// The replies in the order of the lines, each ended by a line feed.
    pub(crate) text: String,
    pub(crate) ending: Ending,
    pub(crate) opened: OpenedSessions,
}

/// Appends the reply that an outcome is. Returns false, and appends nothing, where it is out of memory.
fn push_outcome<J: Naming>(text: &mut String, outcome: &Outcome<J>) -> Result<bool, AllocError>
    ensures { IfOk result (λ there. GrowsBy (outcome_text outcome.now) there (string_bytes text.old)
        (string_bytes text.new)) }
{
    match outcome {
        Outcome::Answered(answer) => push_reply(text, &answer.reply)?,
        Outcome::NameInUse => text.push_str(name_in_use_reply())?,
        Outcome::NoSession => text.push_str(no_session_reply())?,
        Outcome::NoMemory => return Ok(false),
    }
    Ok(true)
}

/// Appends the reply to the next line: the one at once, or that of the next outcome.
/// Returns false where that outcome is out of memory, or no outcome is left.
fn push_next<J: Naming>(
    text: &mut String,
    told: &Option<String>,
    outcomes: &mut Iter<'_, Outcome<J>>,
) -> Result<bool, AllocError>
    ensures { IfOk result (λ there. NextReply told.now (iter_rest outcomes.old) (iter_rest outcomes.new) there
        (string_bytes text.old) (string_bytes text.new)) }
{
    if let Some(at_once) = told {
        text.push_str(at_once)?;
        return Ok(true);
    }
    match outcomes.next() {
        Some(outcome) => push_outcome(text, outcome),
        None => Ok(false),
    }
}

/// Appends the replies of some lines, each ended by a line feed:
/// those at once, and between them what became of the steps.
/// It ends at the first step that ran out of memory. Returns whether each line has its reply.
pub(crate) fn push_replies<J: Naming>(
    text: &mut String,
    told: &[Option<String>],
    outcomes: &[Outcome<J>],
) -> Result<bool, AllocError>
    ensures text { OnOk result (string_bytes text.new
        ≡ string_bytes text.old ++ lines_text (replies_of told.now outcomes.now)) }
    ensures whole { IfOk result (λ whole. whole ≡ all_told told.now outcomes.now) }
{
    let mut outcomes_left = outcomes.iter();
    for at_once in told {
        if !push_next(text, at_once, &mut outcomes_left)? {
            return Ok(false);
        }
        text.push_str("\n")?;
    }
    Ok(true)
}
