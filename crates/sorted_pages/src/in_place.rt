//! One change made in pages, runs, groups and sections that no other list holds. Where it fits, no page is copied.
ghost use Rattle.std.specs.Prelude.{◌≡◌, ◌++◌, ◌<◌, ◌≤◌, ◌+◌, take, drop, length, if◌then◌else◌};
ghost use Rattle.std.specs.Prelude.{IfOk, OnErr, IsFalse, T as Holds};
ghost use Rattle.std.specs.List.{flat_map};
ghost use Rattle.std.specs.Ordering.{eq_by_cmp};
ghost use Rattle.sorted_pages.specs.Edges.{first_passes};
ghost use Rattle.sorted_pages.specs.Pages.{of_block, singleton};
ghost use Rattle.sorted_pages.specs.Sorted.{IsRising};
ghost use Rattle.sorted_pages.specs.Changes.{entries_put, with_change_if};

use crate::apply::{Edit, split_at_place};
use crate::block::{Block, change_items};
use crate::edge::{Before, split_at_edge};
use crate::entry::PageEntry;
use crate::level::{Leaf, Level};
use crate::spans::Tie;
use std::alloc::AllocError;
use std::sync::Arc;

/// A level in whose items a change can be made in place.
pub(crate) trait InPlace<E: PageEntry>: Level<E> {
    /// Makes a change in these items, and says whether it did.
    ///
    /// They stay as they were where they share what it changes, where too many or none would be left, and at an error.
    fn change(items: &mut Vec<Self>, change: &Edit<E>) -> Result<bool, AllocError>
        requires { IsRising E.order (flat_map Self.entries items.old.items) }
        ensures entries { IfOk result (λ is_made. flat_map Self.entries items.new.items
            ≡ with_change_if is_made E.order change.now (flat_map Self.entries items.old.items)) }
        ensures same { IfOk result (λ is_made. IsFalse is_made → items.new.items ≡ items.old.items) }
        ensures failed { OnErr result (items.new.items ≡ items.old.items) }
        ensures some { 0 < length items.old.items → 0 < length items.new.items }
        ensures few { length items.old.items ≤ 64 → length items.new.items ≤ 64 };
}

/// Makes a change at a place, where an entry ties with it or none does.
fn change_at<E: PageEntry>(
    entries: &mut Vec<Leaf<E>>,
    place: usize,
    ties: bool,
    change: &Edit<E>,
) -> Result<bool, AllocError>
    requires there { place ≤ length entries.old.items }
    requires tied { Holds ties → place < length entries.old.items }
    ensures entries { IfOk result (λ is_made. entries.new.items
        ≡ (if is_made then take place entries.old.items
        ++ (entries_put change.now ++ drop (if ties then place + 1 else place) entries.old.items)
        else entries.old.items)) }
    ensures failed { OnErr result (entries.new.items ≡ entries.old.items) }
    ensures some { 0 < length entries.old.items → 0 < length entries.new.items }
    ensures few { length entries.old.items ≤ 64 → length entries.new.items ≤ 64 }
{
    match change {
        Edit::Put(entry) => {
            if ties {
                entries[place] = Leaf::of(entry.share()?);
                return Ok(true);
            }
            if entries.len() >= E::most_in_page() {
                return Ok(false);
            }
            entries.insert(place, Leaf::of(entry.share()?))?;
            Ok(true)
        }
        Edit::Remove(_) => {
            if !ties {
                return Ok(true);
            }
            if entries.len() < 2 {
                return Ok(false);
            }
            entries.remove(place);
            Ok(true)
        }
    }
}

/// Whether the first of these ties with an entry.
fn is_tied<E: PageEntry>(entries: &[Leaf<E>], entry: &E) -> bool
    ensures { result ≡ first_passes (λ e. eq_by_cmp E.order entry.now e) entries.now }
{
    match entries.first() {
        Some(first) => entry.order(first.entry()).is_eq(),
        None => false,
    }
}

impl<E: PageEntry> InPlace<E> for Leaf<E> {
    fn change(items: &mut Vec<Leaf<E>>, change: &Edit<E>) -> Result<bool, AllocError>
        requires { IsRising E.order (flat_map singleton items.old.items) }
        ensures entries { IfOk result (λ is_made. flat_map singleton items.new.items
            ≡ with_change_if is_made E.order change.now (flat_map singleton items.old.items)) }
        ensures same { IfOk result (λ is_made. IsFalse is_made → items.new.items ≡ items.old.items) }
        ensures failed { OnErr result (items.new.items ≡ items.old.items) }
        ensures some { 0 < length items.old.items → 0 < length items.new.items }
        ensures few { length items.old.items ≤ 64 → length items.new.items ≤ 64 }
    {
        let entry = change.entry();
        let (less, rest) = split_at_edge(items, &Before(&Tie(entry)));
        let (place, ties) = (less.len(), is_tied(rest, entry));
        change_at(items, place, ties, change)
    }
}

/// Makes a change in a block, and says whether it did. A block that others hold stays as it is.
fn change_block<E: PageEntry, T: InPlace<E>>(
    block: &mut Arc<Block<T>>,
    change: &Edit<E>,
) -> Result<bool, AllocError>
    requires { IsRising E.order (of_block T.entries block.old) }
    ensures entries { IfOk result (λ is_made. of_block T.entries block.new
        ≡ with_change_if is_made E.order change.now (of_block T.entries block.old)) }
    ensures same { IfOk result (λ is_made. IsFalse is_made → block.new ≡ block.old) }
    ensures failed { OnErr result (block.new ≡ block.old) }
{
    match Arc::get_mut(block) {
        Some(block) => change_items(block, change),
        None => Ok(false),
    }
}

impl<E: PageEntry, T: InPlace<E>> InPlace<E> for Arc<Block<T>> {
    fn change(items: &mut Vec<Arc<Block<T>>>, change: &Edit<E>) -> Result<bool, AllocError>
        requires { IsRising E.order (flat_map (of_block T.entries) items.old.items) }
        ensures entries { IfOk result (λ is_made. flat_map (of_block T.entries) items.new.items
            ≡ with_change_if is_made E.order change.now (flat_map (of_block T.entries) items.old.items)) }
        ensures same { IfOk result (λ is_made. IsFalse is_made → items.new.items ≡ items.old.items) }
        ensures failed { OnErr result (items.new.items ≡ items.old.items) }
        ensures some { 0 < length items.old.items → 0 < length items.new.items }
        ensures few { length items.old.items ≤ 64 → length items.new.items ≤ 64 }
    {
        let place = split_at_place(items, change.entry()).0.len();
        let Some(block) = items.get_mut(place) else {
            return Ok(false);
        };
        change_block(block, change)
    }
}
