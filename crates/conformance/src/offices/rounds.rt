//! The steps that each of some desks takes: rounds of them, or one amendment.

use crate::offices::acts::line_step;
use anyhow::Result;
use filing_office::{Desk, DeskStep, Naming, Work};
use std::alloc::{AllocError, Global};
use std::sync::ledger::Ledger;

/// What desks take, and how.
#[derive(Clone, Copy)]
pub(crate) enum Way {
    /// Rounds, one step after the other, each with the session that the step before it was answered.
    Steps,
    /// Rounds, as a list of steps under a name, where each waits until all have a session open.
    Lists,
    /// One amendment each, as such a list.
    Once,
}

/// The rounds that each desk takes.
const ROUNDS: usize = 25;

/// The steps of a round.
const ROUND: usize = 7;

// The fact of each addition, a name `x`, as histories write it.
const FACT: &str = r#"{"dimensions":{"concept":"ex:Name"},"value":"x"}"#;

/// The steps of an amendment.
const AMENDMENT: usize = 3;

/// The line of a step of rounds, at a turn of all of them: a session that reads, adds twice, reads, removes what is not there,
/// and commits, under identifiers of the desk and the round.
fn round_line(alloc: Global, place: usize, turn: usize) -> Result<String, AllocError> {
    let round = turn / ROUND;
    match turn % ROUND {
        0 => String::from_str(alloc, r#"["open","amend"]"#),
        1 | 4 => format!(in alloc; "[\"get\",\"r1\",\"f-{place}-{round}\"]"),
        2 | 3 => format!(in alloc; "[\"add\",\"r1\",\"f-{place}-{round}\",{FACT}]"),
        5 => format!(in alloc; "[\"remove\",\"r1\",\"g-{place}-{round}\"]"),
        _ => String::from_str(alloc, r#"["commit"]"#),
    }
}

/// The line of a step of one amendment, which adds `a` at the first desk and `b` at another.
fn amendment_line(alloc: Global, place: usize, turn: usize) -> Result<String, AllocError> {
    let id = if place == 0 { "a" } else { "b" };
    match turn {
        0 => String::from_str(alloc, r#"["open","amend"]"#),
        1 => format!(in alloc; "[\"add\",\"r1\",\"{id}\",{FACT}]"),
        _ => String::from_str(alloc, r#"["commit"]"#),
    }
}

impl Way {
    /// How many steps each desk takes.
    fn turns(self) -> usize {
        match self {
            Way::Steps | Way::Lists => ROUNDS * ROUND,
            Way::Once => AMENDMENT,
        }
    }

    /// The line of a step of a desk.
    pub(crate) fn line(
        self,
        alloc: Global,
        place: usize,
        turn: usize,
    ) -> Result<String, AllocError> {
        match self {
            Way::Steps | Way::Lists => round_line(alloc, place, turn),
            Way::Once => amendment_line(alloc, place, turn),
        }
    }

    /// What reads the first addition of the first desk.
    pub(crate) fn first_read(self) -> &'static str {
        match self {
            Way::Steps | Way::Lists => r#"["get","r1","f-0-0"]"#,
            Way::Once => r#"["get","r1","a"]"#,
        }
    }
}

/// The steps of a desk, each under the name of a session.
fn steps_of(alloc: Global, way: Way, place: usize) -> Result<Vec<DeskStep>> {
    let mut steps = Vec::with_capacity(alloc, way.turns())?;
    for turn in 0..way.turns() {
        let line = way.line(alloc, place, turn)?;
        let name = String::from_str(alloc, "s")?;
        let step = line_step(alloc, &line)?;
        steps.push(DeskStep { name, step })?;
    }
    Ok(steps)
}

/// A desk with its steps.
pub(crate) fn work_of<L: Ledger + Naming, M: Ledger>(
    alloc: Global,
    way: Way,
    place: usize,
    desk: Desk<L, M>,
) -> Result<Work<L, M>> {
    let steps = steps_of(alloc, way, place)?;
    Ok(Work {
        desk,
        reviewer: None,
        steps,
    })
}
