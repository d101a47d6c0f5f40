//! `OpenedSessions`: the names under which a script opened sessions at the office.

use crate::replies::Replies;
use filing_office::{Naming, Outcome};
use filing_step::{Entry, Step};
use history_format::OpenedNames;
use std::alloc::{AllocError, Global};
use std::collections::BTreeMap;

/// The names under which a script opened sessions at the office, by the numbers of the sessions.
#[derive(Drop)]
pub(crate) struct OpenedSessions {
    by_number: BTreeMap<u64, String>,
}

/// The name of a step once more, where it opens a session.
pub(crate) fn name_opened(
    alloc: Global,
    name: &str,
    step: &Step,
) -> Result<Option<String>, AllocError> {
    match step {
        Step::Open(_) => Ok(Some(String::from_str(alloc, name)?)),
        _ => Ok(None),
    }
}

/// The number of the session that an outcome is of.
fn session_of<J: Naming>(outcome: &Outcome<J>) -> Option<u64> {
    match outcome {
        Outcome::Answered(answer) => answer.session,
        _ => None,
    }
}

impl OpenedSessions {
    /// None.
    pub(crate) fn new(alloc: Global) -> OpenedSessions {
        OpenedSessions {
            by_number: BTreeMap::new(alloc),
        }
    }

    /// Notes the names of the steps that open a session, of which these are the outcomes.
    pub(crate) fn note<J: Naming>(
        &mut self,
        names: Vec<Option<String>>,
        outcomes: &[Outcome<J>],
    ) -> Result<(), AllocError> {
        let mut outcomes_left = outcomes.iter();
        for name in names {
            let Some(outcome) = outcomes_left.next() else {
                break;
            };
            if let (Some(name), Some(number)) = (name, session_of(outcome)) {
                self.by_number.insert(number, name)?;
            }
        }
        Ok(())
    }

    /// The name of the session that an entry opens.
    pub(crate) fn name_of(&self, entry: &Entry) -> Option<&str> {
        match (&entry.step, entry.session) {
            (Step::Open(_), Some(number)) => Some(self.by_number.get(&number)?.as_str()),
            _ => None,
        }
    }
}

/// Adds the name of the session that an entry opens to those of its batch, where a script has opened it.
pub(crate) fn add_name(
    alloc: Global,
    names: &mut OpenedNames,
    all_replies: &[Result<Replies, AllocError>],
    entry: &Entry,
) -> Result<(), AllocError> {
    let Some(number) = entry.session else {
        return Ok(());
    };
    for replies in all_replies {
        if let Ok(replies) = replies {
            if let Some(name) = replies.opened.name_of(entry) {
                return names.add(alloc, number, name);
            }
        }
    }
    Ok(())
}
