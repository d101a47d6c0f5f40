//! Changes applied to a level. A block in which nothing changes is shared.
ghost use Rattle.std.specs.Prelude.{◌≡◌, ◌++◌, ◌∷◌, [], ◌-◌, ◌<◌, map, drop, length, not, IfOk, OnOk, T as Holds};
ghost use Rattle.std.specs.List.{list_all, flat_map};
ghost use Rattle.std.specs.Ordering.{is_lt};
ghost use Rattle.sorted_pages.specs.Edges.{begins_with};
ghost use Rattle.sorted_pages.specs.Pages.{of_block, singleton, IsFirst, IsFirstBlock};
ghost use Rattle.sorted_pages.specs.Sorted.{IsRising, AllBelow, PassesBelow, is_below};
ghost use Rattle.sorted_pages.specs.Changes.{entry_of, entries_put, with_changes, without_tied};

use crate::block::{Block, Layout};
use crate::edge::{Before, Below, Until, split_at_edge, split_before_edge};
use crate::entry::{Edged, PageEntry};
use crate::level::{Grow, Leaf, Level, LevelBuilder, begin, finish};
use crate::spans::Tie;
use std::alloc::{AllocError, Global};
use std::sync::Arc;

/// A level of which lists are built, and to which changes are applied.
pub(crate) trait Changing<E: PageEntry>: Level<E> {
    /// Appends entries, one after another.
    fn fill<U: Grow<E, Self>>(
        alloc: Global,
        layout: Layout,
        entries: Vec<E>,
        grown: U,
    ) -> Result<U, AllocError>
        ensures { IfOk result (λ filled. U.all filled ≡ U.all grown ++ entries.items) };

    /// Appends the items with changes applied.
    fn apply<U: Grow<E, Self>>(
        alloc: Global,
        items: &[Self],
        changes: &[Edit<E>],
        grown: U,
    ) -> Result<U, AllocError>
        requires items { IsRising E.order (flat_map Self.entries items.now) }
        requires changes { IsRising E.order (map entry_of changes.now) }
        ensures { IfOk result (λ laid. U.all laid
            ≡ U.all grown ++ with_changes E.order changes.now (flat_map Self.entries items.now)) };
}

/// The most owners that one of these items has.
fn most_owners<E: PageEntry, T: Level<E>>(items: &[T]) -> usize {
    let mut most = 0usize;
    for item in items {
        most = most.max(item.owners());
    }
    most
}

/// Appends shares of the items. All are read before the first is written:
/// what is shared lies far apart, and reads overlap where counting up does not.
fn share_all<E: PageEntry, T: Level<E>, U: Grow<E, T>>(
    items: &[T],
    grown: &mut U,
) -> Result<(), AllocError>
    ensures { OnOk result (U.all grown.new ≡ U.all grown.old ++ flat_map T.entries items.now) }
{
    if most_owners(items) == usize::MAX {
        return Err(AllocError);
    }
    grown.put_shares(items)
}

/// The entry that a change puts.
fn put_change<E: PageEntry, U: Grow<E, Leaf<E>>>(
    change: &Edit<E>,
    grown: &mut U,
) -> Result<(), AllocError>
    ensures { OnOk result (U.all grown.new ≡ U.all grown.old ++ entries_put change.now) }
{
    match change {
        Edit::Put(entry) => grown.put(Leaf::of(entry.share()?)),
        Edit::Remove(_) => Ok(()),
    }
}

/// The entries without the first, where that ties with this entry.
fn after_tied<'a, E: PageEntry>(entries: &'a [Leaf<E>], entry: &E) -> &'a [Leaf<E>]
    ensures { result.now ≡ without_tied E.order entry.now entries.now }
{
    match entries {
        [first, rest @ ..] if entry.order(first.entry()).is_eq() => rest,
        _ => entries,
    }
}

impl<E: PageEntry> Changing<E> for Leaf<E> {
    fn fill<U: Grow<E, Leaf<E>>>(
        _alloc: Global,
        _layout: Layout,
        entries: Vec<E>,
        mut grown: U,
    ) -> Result<U, AllocError>
        ensures { IfOk result (λ filled. U.all filled ≡ U.all grown ++ entries.items) }
    {
        for entry in entries {
            grown.put(Leaf::of(entry))?;
        }
        Ok(grown)
    }

    fn apply<U: Grow<E, Leaf<E>>>(
        _alloc: Global,
        items: &[Leaf<E>],
        changes: &[Edit<E>],
        mut grown: U,
    ) -> Result<U, AllocError> {
        let mut left = items;
        let mut ahead = changes;
        while let Some((change, later)) = ahead.split_first() {
            let entry = change.entry();
            let (less, rest) = split_at_edge(left, &Before(&Tie(entry)));
            share_all(less, &mut grown)?;
            put_change(change, &mut grown)?;
            left = after_tied(rest, entry);
            ahead = later;
        }
        share_all(left, &mut grown)?;
        Ok(grown)
    }
}

/// The changes that go before the first entry of an item, and the others.
fn changes_before<'a, E: PageEntry, T: Level<E>>(
    changes: &'a [Edit<E>],
    next: &T,
) -> (&'a [Edit<E>], &'a [Edit<E>])
    requires { IsRising E.order (map entry_of changes.now) }
    ensures parts { changes.now ≡ result.0.now ++ result.1.now }
    ensures place { (first : E) × IsFirst first (T.entries next.now)
        × Holds (list_all (λ e. is_lt (E.order e first)) (map entry_of result.0.now))
        × Holds (begins_with (λ e. not (is_lt (E.order e first))) (map entry_of result.1.now)) }
{
    let _key = next.first_key();
    split_at_edge(changes, &Below(next))
}

/// The changes that go before these items, and the others.
fn changes_before_all<'a, E: PageEntry, T: Level<E>>(
    changes: &'a [Edit<E>],
    items: &[T],
) -> (&'a [Edit<E>], &'a [Edit<E>])
    requires items { IsRising E.order (flat_map T.entries items.now) }
    requires changes { IsRising E.order (map entry_of changes.now) }
    ensures parts { changes.now ≡ result.0.now ++ result.1.now }
    ensures mine { AllBelow E.order (map entry_of result.0.now) (flat_map T.entries items.now) }
    ensures later { PassesBelow E.order (flat_map T.entries items.now) (map entry_of result.1.now) }
    ensures all { length items.now ≡ 0 → length result.1.now ≡ 0 }
{
    match items.first() {
        Some(item) => changes_before(changes, item),
        None => changes.split_at(changes.len()),
    }
}

/// The items before the one where an entry goes, and the others.
pub(crate) fn split_at_place<'a, E: PageEntry, T: Level<E>>(
    items: &'a [T],
    entry: &E,
) -> (&'a [T], &'a [T])
    requires { IsRising E.order (flat_map T.entries items.now) }
    ensures parts { items.now ≡ result.0.now ++ result.1.now }
    ensures before { AllBelow E.order (flat_map T.entries result.0.now) (entry.now ∷ []) }
    ensures after { Holds (is_below E.order entry.now (flat_map T.entries (drop 1 result.1.now))) }
{
    split_before_edge(items, &Until(&Tie(entry)))
}

/// The items of the first block, if there is one, and the other blocks.
pub(crate) fn split_first_block<T: Edged>(blocks: &[Arc<Block<T>>]) -> (&[T], &[Arc<Block<T>>])
    ensures first { IsFirstBlock blocks.now result.0.now result.1.now }
    ensures some { 0 < length blocks.now → 0 < length result.0.now }
    ensures fewer { length result.1.now ≡ length blocks.now - 1 }
{
    match blocks.split_first() {
        Some((block, rest)) => (block.items(), rest),
        None => (&[], blocks),
    }
}

/// Appends a block of the items with changes applied, or more than one where they do not fit in it.
fn apply_to_block<E: PageEntry, T: Changing<E>, U: Grow<E, Arc<Block<T>>>>(
    alloc: Global,
    items: &[T],
    changes: &[Edit<E>],
    grown: U,
) -> Result<U, AllocError>
    requires items { IsRising E.order (flat_map T.entries items.now) }
    requires changes { IsRising E.order (map entry_of changes.now) }
    ensures { IfOk result (λ laid. U.all laid
        ≡ U.all grown ++ with_changes E.order changes.now (flat_map T.entries items.now)) }
{
    let room = items.len().saturating_add(changes.len());
    let builder: LevelBuilder<T, U> = begin(alloc, Layout::Halved, room, grown)?;
    let builder: LevelBuilder<T, U> = T::apply(alloc, items, changes, builder)?;
    finish(builder)
}

/// Appends the blocks with changes applied.
pub(crate) fn apply_to_blocks<E: PageEntry, T: Changing<E>, U: Grow<E, Arc<Block<T>>>>(
    alloc: Global,
    blocks: &[Arc<Block<T>>],
    changes: &[Edit<E>],
    mut grown: U,
) -> Result<U, AllocError>
    requires blocks { IsRising E.order (flat_map (of_block T.entries) blocks.now) }
    requires changes { IsRising E.order (map entry_of changes.now) }
    ensures { IfOk result (λ laid. U.all laid
        ≡ U.all grown ++ with_changes E.order changes.now (flat_map (of_block T.entries) blocks.now)) }
{
    let mut left = blocks;
    let mut ahead = changes;
    while let Some((change, _)) = ahead.split_first() {
        let (before, from) = split_at_place(left, change.entry());
        share_all(before, &mut grown)?;
        let (items, rest) = split_first_block(from);
        let (mine, later) = changes_before_all(ahead, rest);
        grown = apply_to_block(alloc, items, mine, grown)?;
        left = rest;
        ahead = later;
    }
    share_all(left, &mut grown)?;
    Ok(grown)
}

/// Appends blocks of entries, one after another.
pub(crate) fn fill_blocks<E: PageEntry, T: Changing<E>, U: Grow<E, Arc<Block<T>>>>(
    alloc: Global,
    layout: Layout,
    entries: Vec<E>,
    grown: U,
) -> Result<U, AllocError>
    ensures { IfOk result (λ filled. U.all filled ≡ U.all grown ++ entries.items) }
{
    let builder: LevelBuilder<T, U> = begin(alloc, layout, entries.len(), grown)?;
    let builder: LevelBuilder<T, U> = T::fill(alloc, layout, entries, builder)?;
    finish(builder)
}

impl<E: PageEntry, T: Changing<E>> Changing<E> for Arc<Block<T>> {
    fn fill<U: Grow<E, Arc<Block<T>>>>(
        alloc: Global,
        layout: Layout,
        entries: Vec<E>,
        grown: U,
    ) -> Result<U, AllocError>
        ensures { IfOk result (λ filled. U.all filled ≡ U.all grown ++ entries.items) }
    {
        fill_blocks::<E, T, U>(alloc, layout, entries, grown)
    }

    fn apply<U: Grow<E, Arc<Block<T>>>>(
        alloc: Global,
        items: &[Arc<Block<T>>],
        changes: &[Edit<E>],
        grown: U,
    ) -> Result<U, AllocError> {
        apply_to_blocks(alloc, items, changes, grown)
    }
}

/// A change of a sorted list.
#[derive(Debug, Drop)]
pub enum Edit<E> {
    /// The entry stands in the list, in place of one that ties with it.
    Put(E),
    /// No entry that ties with this one stands in the list.
    Remove(E),
}

impl<E> Edit<E> {
    /// The entry that is put, or that ties with what is removed.
    pub fn entry(&self) -> &E
        ensures { result.now ≡ entry_of self.now }
    {
        match self {
            Edit::Put(entry) | Edit::Remove(entry) => entry,
        }
    }
}
