//! Lists of items that are built and changed: in pages of their own, and as the facts of a report.

use crate::pages::item::Item;
use crate::pages::reports::{NAME, Reported};
use anyhow::{Result, anyhow};
use filing_version::laws;
use sorted_pages::{Between, Edit, Paged, are_rising, is_rising};
use std::alloc::{AllocError, Global};
use std::mem;

/// What a list is.
#[derive(Clone, Copy)]
pub(crate) enum Kind {
    /// It has pages of its own.
    Alone,
    /// Its items are the facts of a report.
    Report,
}

/// A sorted list of items in pages.
#[derive(Drop)]
pub(crate) enum List {
    Alone(Paged<Item>),
    Report(Reported),
}

/// Items with so many keys from one number on, each by so much above the one before.
pub(crate) fn spaced_items(
    alloc: Global,
    first: u64,
    step: u64,
    count: u64,
) -> Result<Vec<Item>, AllocError> {
    let mut items = Vec::new(alloc);
    for place in 0..count {
        items.push(Item::new(place.wrapping_mul(step).wrapping_add(first)))?;
    }
    Ok(items)
}

impl List {
    /// The list of items, which have to rise where it stands alone.
    pub(crate) fn of_items(alloc: Global, kind: Kind, items: Vec<Item>) -> Result<List> {
        match kind {
            Kind::Alone if is_rising(&items) => Ok(List::Alone(Paged::of_sorted(alloc, items)?)),
            Kind::Alone => Err(anyhow!("the items do not rise")),
            Kind::Report => Ok(List::Report(Reported::of_items(alloc, &items)?)),
        }
    }

    /// Makes changes at once, which have to rise.
    pub(crate) fn change(&mut self, alloc: Global, changes: &[Edit<Item>]) -> Result<()> {
        match self {
            List::Alone(list) if are_rising(changes) => {
                let after = list.after(alloc, changes)?;
                drop(mem::replace(list, after));
                Ok(())
            }
            List::Alone(_) => Err(anyhow!("the changes do not rise")),
            List::Report(report) => report.change(alloc, changes),
        }
    }

    /// The lengths of the pages.
    pub(crate) fn sizes(&self, alloc: Global) -> Result<Vec<usize>, AllocError> {
        match self {
            List::Alone(list) => list.page_sizes(alloc),
            List::Report(report) => laws::page_sizes(alloc, report.core.current(), NAME),
        }
    }

    /// Whether each of these items is there, and of a report no other fact.
    pub(crate) fn has_all(&self, alloc: Global, items: &[Item]) -> Result<bool, AllocError> {
        match self {
            List::Alone(list) => {
                for item in items {
                    if list.get(item) != Some(item) {
                        return Ok(false);
                    }
                }
                Ok(true)
            }
            List::Report(report) => report.is_of(alloc, items),
        }
    }

    /// The first key of a range, how many items it has, how many of them do not rise from the first by one, and the greatest weight.
    pub(crate) fn range_answer(&self, alloc: Global, from: u64, until: u64) -> Result<String> {
        let List::Alone(list) = self else {
            return Err(anyhow!("a report tells of no range of identifiers"));
        };
        let span = Between {
            from: &Item::new(from),
            until: &Item::new(until),
        };
        let first = list.first_in(&span).map(|item| item.key);
        let mut next = first.unwrap_or(from);
        let (mut count, mut strays) = (0u64, 0u64);
        for item in list.range(&span) {
            count = count.saturating_add(1);
            strays = strays.saturating_add(u64::from(item.key != next));
            next = next.wrapping_add(1);
        }
        let greatest = list.range(&span).total();
        Ok(format!(in alloc; "{first:?} {count} {strays} {greatest}\n")?)
    }
}
