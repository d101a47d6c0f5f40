//! The reviewers of an office, and what they do.

use crate::offices::acts::step_at;
use crate::question::{number_at, text_at};
use anyhow::{Result, anyhow};
use filing_office::{Answer, Naming, Outcome, Receipt, Review, Reviewer};
use filing_step::{Reply, Step};
use script_format::reply_text;
use serde_json::Value;
use std::alloc::Global;

/// The reviewers of an office with the reviews that they opened, the receipts that its desks were given, and the session of the answer before.
#[derive(Drop)]
pub(crate) struct Readers<J: Naming> {
    pub(crate) session: Option<u64>,
    reviewers: Vec<Reviewer<J>>,
    reviews: Vec<Review>,
    receipts: Vec<Receipt<J>>,
}

/// What a review is answered to a step that reads.
fn reply_to(alloc: Global, review: &Review, step: Step) -> Result<Reply> {
    match step {
        Step::Get { report, id } => Ok(review.get(alloc, report, id)?),
        Step::Cell { report, dims } => Ok(review.cell(alloc, report, dims)?),
        Step::Page {
            report,
            concept,
            period,
            after,
            limit,
        } => Ok(review.page(alloc, report, concept, period, after, limit)?),
        Step::Declared { report } => Ok(review.declared(&report)),
        other => {
            drop(other);
            Err(anyhow!("a review reads alone"))
        }
    }
}

/// The text of a reply, which is dropped.
fn into_reply_text(alloc: Global, reply: Reply) -> Result<String> {
    let told = reply_text(alloc, &reply);
    drop(reply);
    Ok(told?)
}

impl<J: Naming> Readers<J> {
    pub(crate) fn of(alloc: Global, reviewers: Vec<Reviewer<J>>) -> Readers<J> {
        Readers {
            session: None,
            reviewers,
            reviews: Vec::new(alloc),
            receipts: Vec::new(alloc),
        }
    }

    /// Keeps the session and the receipt of an answer. Gives its reply.
    pub(crate) fn note(&mut self, alloc: Global, answer: Answer<J>) -> Result<String> {
        let Answer {
            session,
            reply,
            receipt,
        } = answer;
        self.session = session;
        match self.receipts.extend(receipt) {
            Ok(()) => into_reply_text(alloc, reply),
            Err(error) => {
                drop(reply);
                Err(error.into())
            }
        }
    }

    /// The number that a reviewer has seen.
    pub(crate) fn seen(&self, alloc: Global, one: usize) -> Result<String> {
        match self.reviewers.get(one) {
            Some(reviewer) => Ok(reviewer.seen().to_string(alloc)?),
            None => Err(anyhow!("there is no such reviewer")),
        }
    }

    /// A reviewer learns a receipt.
    fn learn(&mut self, one: usize, receipt: usize) -> Result<()> {
        match (self.reviewers.get_mut(one), self.receipts.get(receipt)) {
            (Some(reviewer), Some(receipt)) => Ok(reviewer.learn(receipt)?),
            _ => Err(anyhow!("there is no such receipt")),
        }
    }

    /// The first reviewer learns the receipts of outcomes.
    pub(crate) fn learn_all(&mut self, outcomes: &[Outcome<J>]) -> Result<()> {
        let Some(reviewer) = self.reviewers.first_mut() else {
            return Ok(());
        };
        for outcome in outcomes {
            if let Outcome::Answered(answer) = outcome {
                if let Some(receipt) = &answer.receipt {
                    reviewer.learn(receipt)?;
                }
            }
        }
        Ok(())
    }

    /// A reviewer opens a review. The number that it has seen then.
    pub(crate) fn open_review(&mut self, alloc: Global, one: usize) -> Result<String> {
        match self.reviewers.get_mut(one) {
            Some(reviewer) => self.reviews.push(reviewer.open()?)?,
            None => return Err(anyhow!("there is no such reviewer")),
        }
        self.seen(alloc, one)
    }

    /// What a review is answered.
    pub(crate) fn ask(&self, alloc: Global, one: usize, step: Step) -> Result<String> {
        match self.reviews.get(one) {
            Some(review) => into_reply_text(alloc, reply_to(alloc, review, step)?),
            None => {
                drop(step);
                Err(anyhow!("there is no such review"))
            }
        }
    }

    /// The answer to an act of a reviewer or a review: what the review is answered, or the number that the reviewer has seen then.
    pub(crate) fn act(&mut self, alloc: Global, act: &Value) -> Result<String> {
        let one = number_at(act, 1);
        match text_at(act, 0) {
            "ask" => self.ask(alloc, one, step_at(alloc, act)?),
            "review" => self.open_review(alloc, one),
            "learn" => {
                self.learn(one, number_at(act, 2))?;
                self.seen(alloc, one)
            }
            _ => self.seen(alloc, one),
        }
    }
}
