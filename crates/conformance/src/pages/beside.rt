//! Lists in pages beside plain ones.

use crate::pages::item::Item;
use crate::pages::lists::{Kind, List, spaced_items};
use crate::pages::plain::PlainPages;
use anyhow::{Result, anyhow};
use sorted_pages::Edit;
use std::alloc::{AllocError, Global};

/// The rounds of changes of one list.
const ROUNDS: u64 = 500;

/// The entries of the list at first: more than one run of pages holds. Later it has some 6,000.
const FIRST: u64 = 4_000;

/// So far their keys stand apart.
const GAP: u64 = 3;

/// The keys that are put and removed are below this.
const KEYS: u64 = 14_000;

/// The keys that a round goes over.
const CHANGES: u64 = 200;

/// The next number of a fixed sequence.
fn next_number(state: u64) -> u64 {
    state
        .wrapping_mul(6_364_136_223_846_793_005)
        .wrapping_add(1_442_695_040_888_963_407)
}

/// Up to 200 puts and removals, with rising keys. In some rounds they lie close together; in one of four all are put, in another
/// all removed, and in the others a third each.
fn some_changes(alloc: Global, round: u64) -> Result<Vec<Edit<Item>>, AllocError> {
    let mut changes = Vec::new(alloc);
    let mut state = next_number(next_number(round));
    let step = [1, 2, 9, 150][(round / 4 % 4) as usize];
    let from = (state >> 33) % KEYS;
    for place in 0..CHANGES {
        state = next_number(state);
        let key = from.wrapping_add(place.wrapping_mul(step));
        let weight = state >> 40;
        if key < KEYS {
            match (round % 4, (state >> 35) % 3) {
                (0, _) | (2 | 3, 0) => changes.push(Edit::Put(Item { key, weight }))?,
                (1, _) | (2 | 3, 1) => changes.push(Edit::Remove(Item { key, weight }))?,
                _ => (),
            }
        }
    }
    Ok(changes)
}

/// Makes the changes of a round in both lists. Whether they have the same entries then, in pages of the same lengths.
fn is_same_after_round(
    alloc: Global,
    list: &mut List,
    plain: &mut PlainPages,
    round: u64,
) -> Result<bool> {
    let changes = some_changes(alloc, round)?;
    plain.change(alloc, &changes)?;
    list.change(alloc, &changes)?;
    let (sizes, items) = plain.sizes_and_items(alloc)?;
    Ok(list.sizes(alloc)? == sizes && list.has_all(alloc, &items)?)
}

/// Makes rounds of changes in both, and compares them after each. How many differ.
fn count_differing_rounds(alloc: Global, list: &mut List, plain: &mut PlainPages) -> Result<u64> {
    let mut differing = 0u64;
    for round in 0..ROUNDS {
        let is_same = is_same_after_round(alloc, list, plain, round)?;
        differing = differing.saturating_add(u64::from(!is_same));
    }
    Ok(differing)
}

/// Compares a list of a kind with a plain one, round by round, which is a fault where they differ.
pub(crate) fn compare_rounds<R: Print + AllocGlobal>(rt: &R, kind: Kind) -> Result<()> {
    let what = match kind {
        Kind::Alone => "a list",
        Kind::Report => "a report",
    };
    let items = spaced_items(rt.alloc(), 0, GAP, FIRST)?;
    let mut plain = PlainPages::of_items(rt.alloc(), &items)?;
    let mut list = List::of_items(rt.alloc(), kind, items)?;
    let taken = count_differing_rounds(rt.alloc(), &mut list, &mut plain);
    drop(list);
    let differing = taken?;
    println!(rt; "rounds of changes of {what}: {ROUNDS}, {differing} differ")?;
    if differing > 0 {
        return Err(anyhow!("{differing} differ"));
    }
    Ok(())
}
