//! How an index is built, and how one is changed.
ghost use Rattle.std.specs.Prelude.{◌≡◌, ◌++◌, map, option_copied, option_map, T as Holds, IfOk, OnOk, Ok};
ghost use Rattle.std.specs.Prelude.{IsPermutation};
ghost use Rattle.std.specs.FinMap.Entries.{is_sorted};
ghost use Rattle.filing_model.specs.Common.Text.{text_cmp};
ghost use Rattle.filing_model.specs.Common.TextMap.{TextMap};
ghost use Rattle.filing_model.specs.Oim.Facts.{Fact};
ghost use Rattle.text_map.specs.MapChanges.{map_with_changes};
ghost use Rattle.sorted_pages.specs.Sorted.{IsRising};
ghost use Rattle.sorted_pages.specs.Changes.{entry_of};
ghost use Rattle.filing_index.specs.Index.{IsIndex, hashed_cmp};
ghost use Rattle.filing_index.specs.IndexKinds.{hash_in};
ghost use Rattle.filing_index.specs.ChangedIndexes.{AreFactChanges, IsIndexAfter, hashed, hashed_change};
ghost use Rattle.filing_index.specs.ChangedIndexes.{hashed_changes, has_hash, id_change, id_changes};

use crate::index_entry::{IndexEntry, IndexKind};
use filing_facts::{FactChange, IndexedFact};
use sorted_pages::{Edit, PageEntry, Paged};
use std::alloc::{AllocError, Global};
use text_map::{NamedValue, TextPages};

/// What was made, with another value. If it could not be made, the other value is dropped.
pub(crate) fn pair<A: Drop, B: Drop>(
    made: Result<A, AllocError>,
    other: B,
) -> Result<(A, B), AllocError>
    ensures { IfOk result (λ both. (made ≡ Ok both.0) × (other ≡ both.1)) }
{
    Ok((made?, other))
}

/// The facts under their hashes.
fn index_entries(
    alloc: Global,
    kind: IndexKind,
    facts: &[NamedValue<IndexedFact>],
) -> Result<Vec<IndexEntry>, AllocError>
    ensures { IfOk result (λ v. v.items ≡ map (hashed (hash_in kind)) facts.now) }
{
    let mut entries = Vec::with_capacity(alloc, facts.len())?;
    for held in facts {
        entries.push(IndexEntry::of(kind, held)?)?;
    }
    Ok(entries)
}

/// The index of facts whose identifiers rise.
pub(crate) fn index_of(
    alloc: Global,
    kind: IndexKind,
    facts: &[NamedValue<IndexedFact>],
) -> Result<Paged<IndexEntry>, AllocError>
    requires { Holds (is_sorted text_cmp facts.now) }
    ensures { IfOk result (λ index. (all : TextMap Fact) → all.entries ≡ facts.now
        → IsIndex (hash_in kind) all index) }
{
    let mut entries = index_entries(alloc, kind, facts)?;
    // Entries of one hash keep the order of their identifiers, so no identifier is looked at.
    entries.sort_by(|one, other| one.hash().cmp(&other.hash()))?;
    Paged::of_sorted(alloc, entries)
}

/// A record, if any, under its hash.
fn index_entry_if_there(
    kind: IndexKind,
    held: Option<&NamedValue<IndexedFact>>,
) -> Result<Option<IndexEntry>, AllocError>
    ensures { IfOk result (λ o. o ≡ option_map (hashed (hash_in kind)) (option_copied held.entry)) }
{
    match held {
        Some(held) => Ok(Some(IndexEntry::of(kind, held)?)),
        None => Ok(None),
    }
}

/// Whether two entries have one hash, where both are there.
fn have_one_hash(old: &IndexEntry, new: &Option<IndexEntry>) -> bool
    ensures { result ≡ has_hash old.now.0.0 new.now }
{
    match new {
        Some(new) => old.hash() == new.hash(),
        None => false,
    }
}

/// Pushes what a fact change edits in an index. A new fact with the hash of the old one takes its place.
fn push_hashed(
    kind: IndexKind,
    fact_change: &FactChange,
    changes: &mut Vec<Edit<IndexEntry>>,
) -> Result<(), AllocError>
    ensures { OnOk result (changes.new.items ≡ changes.old.items ++ hashed_change (hash_in kind) fact_change.now) }
{
    let new = index_entry_if_there(kind, fact_change.new())?;
    if let Some(old) = index_entry_if_there(kind, fact_change.old())? {
        if !have_one_hash(&old, &new) {
            changes.push(Edit::Remove(old))?;
        }
    }
    if let Some(new) = new {
        changes.push(Edit::Put(new))?;
    }
    Ok(())
}

/// What fact changes edit in an index.
fn hashed_changes(
    alloc: Global,
    kind: IndexKind,
    fact_changes: &[FactChange],
) -> Result<Vec<Edit<IndexEntry>>, AllocError>
    ensures { IfOk result (λ v. v.items ≡ hashed_changes (hash_in kind) fact_changes.now) }
{
    let mut changes = Vec::with_capacity(alloc, fact_changes.len())?;
    for fact_change in fact_changes {
        push_hashed(kind, fact_change, &mut changes)?;
    }
    Ok(changes)
}

/// What fact changes edit in an index, in the order of its entries.
fn sorted_changes(
    alloc: Global,
    kind: IndexKind,
    fact_changes: &[FactChange],
) -> Result<Vec<Edit<IndexEntry>>, AllocError>
    requires { (facts : TextMap Fact) × AreFactChanges facts fact_changes.now }
    ensures changes { IfOk result (λ v. IsPermutation (hashed_changes (hash_in kind) fact_changes.now) v.items) }
    ensures rising { IfOk result (λ v. IsRising hashed_cmp (map entry_of v.items)) }
{
    let mut changes = hashed_changes(alloc, kind, fact_changes)?;
    changes.sort_unstable_by(|one, other| one.entry().order(other.entry()));
    Ok(changes)
}

/// The index of the facts after these fact changes.
pub(crate) fn index_after(
    alloc: Global,
    kind: IndexKind,
    index: &Paged<IndexEntry>,
    fact_changes: &[FactChange],
) -> Result<Paged<IndexEntry>, AllocError>
    requires { (facts : TextMap Fact) × AreFactChanges facts fact_changes.now }
    ensures { IfOk result (λ next. IsIndexAfter (hash_in kind) fact_changes.now index.now next) }
{
    let changes = sorted_changes(alloc, kind, fact_changes)?;
    let next = index.after(alloc, &changes);
    drop(changes);
    next
}

/// The index of the facts after these fact changes, in place where no other index holds what changes.
pub(crate) fn index_into_after(
    alloc: Global,
    kind: IndexKind,
    index: Paged<IndexEntry>,
    fact_changes: &[FactChange],
) -> Result<Paged<IndexEntry>, AllocError>
    requires { (facts : TextMap Fact) × AreFactChanges facts fact_changes.now }
    ensures { IfOk result (λ next. IsIndexAfter (hash_in kind) fact_changes.now index next) }
{
    let (changes, index) = pair(sorted_changes(alloc, kind, fact_changes), index)?;
    let next = index.into_after(alloc, &changes);
    drop(changes);
    next
}

/// Pushes what a fact change edits in the map by identifiers.
fn push_by_id(
    fact_change: &FactChange,
    changes: &mut Vec<Edit<NamedValue<IndexedFact>>>,
) -> Result<(), AllocError>
    ensures { OnOk result (changes.new.items
        ≡ changes.old.items ++ id_change fact_change.now.id fact_change.now.old fact_change.now.new) }
{
    if let Some(new) = fact_change.new() {
        changes.push(Edit::Put(new.share()?))?;
    } else if let Some(old) = fact_change.old() {
        changes.push(Edit::Remove(old.share()?))?;
    }
    Ok(())
}

/// What fact changes edit in the map by identifiers.
fn changes_by_id(
    alloc: Global,
    fact_changes: &[FactChange],
) -> Result<Vec<Edit<NamedValue<IndexedFact>>>, AllocError>
    ensures { IfOk result (λ v. v.items ≡ id_changes fact_changes.now) }
{
    let mut changes = Vec::with_capacity(alloc, fact_changes.len())?;
    for fact_change in fact_changes {
        push_by_id(fact_change, &mut changes)?;
    }
    Ok(changes)
}

/// Facts by their identifiers after these fact changes.
pub(crate) fn ids_after(
    alloc: Global,
    by_id: &TextPages<IndexedFact>,
    fact_changes: &[FactChange],
) -> Result<TextPages<IndexedFact>, AllocError>
    requires { (facts : TextMap Fact) × AreFactChanges facts fact_changes.now }
    ensures { IfOk result (λ next. next ≡ map_with_changes (id_changes fact_changes.now) by_id.now) }
{
    let changes = changes_by_id(alloc, fact_changes)?;
    let next = by_id.after(alloc, &changes);
    drop(changes);
    next
}

/// Facts by their identifiers after these fact changes, in place where no other map holds what changes.
pub(crate) fn ids_into_after(
    alloc: Global,
    by_id: TextPages<IndexedFact>,
    fact_changes: &[FactChange],
) -> Result<TextPages<IndexedFact>, AllocError>
    requires { (facts : TextMap Fact) × AreFactChanges facts fact_changes.now }
    ensures { IfOk result (λ next. next ≡ map_with_changes (id_changes fact_changes.now) by_id) }
{
    let (changes, by_id) = pair(changes_by_id(alloc, fact_changes), by_id)?;
    let next = by_id.into_after(alloc, &changes);
    drop(changes);
    next
}
