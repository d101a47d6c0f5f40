//! What a desk was answered, beside the history of its office.

use crate::offices::rounds::Way;
use filing_office::{Naming, Outcome};
use filing_step::Entry;
use history_format::entry_text;
use script_format::reply_text;
use std::alloc::{AllocError, Global};

/// The lines of the entries that were reported to a desk, in order, and the numbers of its receipts.
#[derive(Drop)]
pub(crate) struct Told {
    sessions: Vec<Option<u64>>,
    pub(crate) lines: Vec<String>,
    receipts: Vec<u64>,
}

impl Told {
    /// What outcomes report to a desk, up to the first that is no answer.
    pub(crate) fn of<J: Naming>(
        alloc: Global,
        way: Way,
        place: usize,
        outcomes: &[Outcome<J>],
    ) -> Result<Told, AllocError> {
        let (sessions, lines, receipts) = (Vec::new(alloc), Vec::new(alloc), Vec::new(alloc));
        let mut told = Told {
            sessions,
            lines,
            receipts,
        };
        for (outcome, turn) in outcomes.iter().zip(0usize..) {
            let Outcome::Answered(answer) = outcome else {
                return Ok(told);
            };
            let step = way.line(alloc, place, turn)?;
            let reply = reply_text(alloc, &answer.reply)?;
            let session = answer.session.unwrap_or(0);
            told.sessions.push(answer.session)?;
            told.lines
                .push(format!(in alloc; "[{session},{step},{reply}]")?)?;
            if let Some(receipt) = &answer.receipt {
                told.receipts.push(receipt.number())?;
            }
        }
        Ok(told)
    }

    /// Whether the entries of its sessions are those that were reported to it, in order.
    pub(crate) fn is_entered(&self, alloc: Global, history: &[Entry]) -> Result<bool, AllocError> {
        let mut turn = 0usize;
        for entry in history {
            if self.sessions.contains(&entry.session) {
                let line = entry_text(alloc, entry)?;
                if self.lines.get(turn) != Some(&line) {
                    return Ok(false);
                }
                turn = turn.saturating_add(1);
            }
        }
        Ok(turn == self.lines.len())
    }
}

/// Whether desks were given one receipt of each version from the second on.
pub(crate) fn has_each_receipt(alloc: Global, all_told: &[Told]) -> Result<bool, AllocError> {
    let mut receipts: Vec<u64> = Vec::new(alloc);
    for told in all_told {
        receipts.extend_from_slice(&told.receipts)?;
    }
    receipts.sort_unstable();
    let mut due = 2u64;
    for receipt in &receipts {
        if *receipt != due {
            return Ok(false);
        }
        due = due.saturating_add(1);
    }
    Ok(true)
}
