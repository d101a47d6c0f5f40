//! The lines of a script, some at a time.

ghost use Rattle.std.specs.Prelude.{◌≡◌, [], false, not, None, IfOk, MatchOption, OnOk};
ghost use Rattle.std.specs.Arc.{arc_value};
ghost use Rattle.line_io.specs.Lines.{lines_of, spoken};
ghost use Rattle.filing_threads.specs.Batches.{AddsOutcome, AreBatch, Classifies};
ghost use Rattle.filing_step.specs.Steps.{step_of};
ghost use Rattle.history_format.specs.Nesting.{begins_shallow};
ghost use Rattle.filing_threads.specs.Lines.{is_left_out};

use crate::opened::name_opened;
use filing_office::DeskStep;
use filing_step::Step;
use history_format::{is_too_deep, push_entry_start};
use json::Scratch;
use line_io::next_line;
use oim_fact::NumericTable;
use script_format::{LineOutcome, bad_line_reply, classify_line_in};
use std::alloc::{AllocError, Global};
use std::sync::Arc;

/// Lines that are classified at most before their steps are taken.
/// The steps of many lines, one after another, find what they work on where the ones before have left it,
/// near their processor.
const MOST_LINES: usize = 2048;

/// Bytes of these lines at most, unless it is one line, since what is read of them is held.
const MOST_BYTES: usize = 1_048_576;

/// Bytes taken at first for the beginning of an entry. Most begin with no more.
const LIKELY: usize = 512;

/// Whether the entry of a step nests too deep for a journal. No entry nests deeper by its session or its reply.
fn begins_deep(alloc: Global, step: &Step) -> Result<bool, AllocError>
    ensures { IfOk result (λ deep. deep ≡ not (begins_shallow None (step_of step.now))) }
{
    let mut begun = String::with_capacity(alloc, LIKELY)?;
    push_entry_start(&mut begun, None, step)?;
    Ok(is_too_deep(begun.as_bytes()))
}

/// Whether a line is left out, since it takes a step whose entry nests too deep for the journal that is kept.
fn is_too_deep_for_journal(
    alloc: Global,
    journaled: bool,
    outcome: &LineOutcome,
) -> Result<bool, AllocError>
    ensures { IfOk result (λ left_out. left_out ≡ is_left_out journaled outcome.now) }
{
    if !journaled {
        return Ok(false);
    }
    match outcome {
        LineOutcome::StepDue { step, .. } => begins_deep(alloc, step),
        LineOutcome::ReplyNow(_) | LineOutcome::Export(_) => Ok(false),
    }
}

/// Lines of a script that are classified.
#[derive(Drop)]
pub(crate) struct Batch {
    /// For each line the reply that it has at once, and none where it takes a step.
    pub(crate) told: Vec<Option<String>>,
    /// The steps, in the order of their lines.
    pub(crate) steps: Vec<DeskStep>,
    /// For each step the name of the session that it opens, and none where it opens none.
    pub(crate) names: Vec<Option<String>>,
    /// Whether the next line is left out since the entry of its step would nest too deep for the journal.
    pub(crate) ends_deep: bool,
}

impl Batch {
    fn new(alloc: Global) -> Batch
        ensures told { result.told.items ≡ [] }
        ensures steps { result.steps.items ≡ [] }
        ensures none_deep { result.ends_deep ≡ false }
    {
        Batch {
            told: Vec::new(alloc),
            steps: Vec::new(alloc),
            names: Vec::new(alloc),
            ends_deep: false,
        }
    }

    /// Adds what one more line comes to. Among threads an export is a bad line.
    fn push(&mut self, alloc: Global, outcome: LineOutcome) -> Result<(), AllocError>
        ensures { OnOk result (AddsOutcome outcome self.old self.new) }
    {
        match outcome {
            LineOutcome::ReplyNow(text) => Ok(self.told.push(Some(text))?),
            LineOutcome::Export(name) => {
                drop(name);
                let text = String::from_str(alloc, bad_line_reply())?;
                Ok(self.told.push(Some(text))?)
            }
            LineOutcome::StepDue { name, step } => {
                self.names.push(name_opened(alloc, &name, &step)?)?;
                self.steps.push(DeskStep { name, step })?;
                Ok(self.told.push(None)?)
            }
        }
    }

    /// Classifies one more line and adds it, unless it nests too deep for a journal that is kept.
    /// Returns whether it is added.
    fn classify(
        &mut self,
        alloc: Global,
        line: &[u8],
        table: &Arc<NumericTable>,
        journaled: bool,
        room: &mut Scratch,
    ) -> Result<bool, AllocError>
        ensures { IfOk result (Classifies journaled (arc_value table.now) line.now self.old self.new) }
    {
        let outcome = classify_line_in(alloc, line, table, room)?;
        if is_too_deep_for_journal(alloc, journaled, &outcome)? {
            drop(outcome);
            self.ends_deep = true;
            return Ok(false);
        }
        self.push(alloc, outcome)?;
        Ok(true)
    }

    /// Classifies the first lines of a text that are not blank, and gives what follows them;
    /// none where there is no such line.
    ///
    /// They are at most `MOST_LINES` with `MOST_BYTES`, and end before a line that nests too deep for a journal,
    /// where one is kept.
    pub(crate) fn read<'a>(
        alloc: Global,
        text: &'a [u8],
        table: &Arc<NumericTable>,
        journaled: bool,
    ) -> Result<Option<(Batch, &'a [u8])>, AllocError>
        ensures { IfOk result (λ read. MatchOption read (spoken (lines_of text.now) ≡ [])
            (λ b. AreBatch journaled (arc_value table.now) text.now b.1.now b.0)) }
    {
        let Some((line, others)) = next_line(text) else {
            return Ok(None);
        };
        let mut batch = Batch::new(alloc);
        let mut room = Scratch::new(alloc);
        if !batch.classify(alloc, line, table, journaled, &mut room)? {
            return Ok(Some((batch, text)));
        }
        let mut rest = others;
        let mut bytes = line.len();
        for _ in 1..MOST_LINES {
            let Some((line, others)) = next_line(rest) else {
                break;
            };
            bytes = bytes.saturating_add(line.len());
            if bytes > MOST_BYTES {
                break;
            }
            if !batch.classify(alloc, line, table, journaled, &mut room)? {
                return Ok(Some((batch, rest)));
            }
            rest = others;
        }
        Ok(Some((batch, rest)))
    }
}
