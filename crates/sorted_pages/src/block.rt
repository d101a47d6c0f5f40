//! A sorted run of items, with a sum of them and the keys of its ends.
ghost use Rattle.std.specs.Prelude.{◌≡◌, ◌++◌, ◌<◌, ◌≤◌, List, length, Some, IfOk, OnErr, IsFalse, ◌∷◌, [], if◌then◌else◌, OnOk};
ghost use Rattle.std.specs.List.{flat_map};
ghost use Rattle.std.specs.Arc.{arc_value};
ghost use Rattle.sorted_pages.specs.Keys.{first_of, last_of};
ghost use Rattle.sorted_pages.specs.Pages.{of_block, IsFirst, IsLast, items_of};
ghost use Rattle.sorted_pages.specs.Sorted.{IsRising};
ghost use Rattle.sorted_pages.specs.Changes.{with_change_if};

use crate::apply::Edit;
use crate::entry::{Edged, PageEntry};
use crate::in_place::InPlace;
use crate::level::{Level, push_shares};
use std::alloc::{AllocError, Global};
use std::marker::Model;
use std::mem;
use std::sync::Arc;

/// One to 64 items, with a sum of them, and the keys of the first entry and of the last.
///
/// Contracts see the list of the items.
#[derive(Drop)]
pub(crate) struct Block<T: Edged> {
    items: Vec<T>,
    kept: T::Kept,
    first_key: u64,
    last_key: u64,
}

impl<T: Edged> Model for Block<T> {
    ghost use Rattle.std.specs.Prelude.{List};
    ghost use Rattle.sorted_pages.specs.Blocks.{IsBlock};

    ghost Value = { List T };

    ghost view = { λ b. b.items.items };

    ghost invariant = { λ b. IsBlock T.members T.keeps T.first_key T.last_key
        b.items.items b.kept b.first_key b.last_key };
}

/// A sum with items at the end.
pub(crate) fn add_all<T: Edged>(before: T::Sum, items: &[T]) -> T::Sum
    ensures { (xs : List T.Entry) → T.tells before xs → T.tells result (xs ++ flat_map T.members items.now) }
{
    let mut sum = before;
    for item in items {
        if T::is_settled(&sum) {
            return sum;
        }
        sum = item.add_to(sum);
    }
    sum
}

/// The key of the first entry.
fn first_key_of<T: Edged>(items: &[T]) -> u64
    requires { 0 < length items.now }
    ensures { Some result ≡ first_of T.first_key items.now }
{
    items[0].first_key()
}

fn last_of<T>(items: &[T]) -> &T
    requires { 0 < length items.now }
    ensures { IsLast result.now items.now }
{
    &items[items.len() - 1]
}

/// The key of the last entry.
fn last_key_of<T: Edged>(items: &[T]) -> u64
    requires { 0 < length items.now }
    ensures { Some result ≡ last_of T.last_key items.now }
{
    last_of(items).last_key()
}

/// What is kept of items.
fn kept_of<T: Edged>(alloc: Global, items: &[T]) -> T::Kept
    requires { 0 < length items.now }
    ensures { T.keeps result (flat_map T.members items.now) }
{
    match T::keep_by_ends(&items[0], last_of(items)) {
        Some(kept) => kept,
        None => T::keep(alloc, add_all(T::none(), items)),
    }
}

impl<T: Edged> Block<T> {
    pub(crate) fn of(items: Vec<T>) -> Block<T>
        requires some { 0 < length items.items }
        requires few { length items.items ≤ 64 }
        ensures { result ≡ items.items }
    {
        let kept = kept_of(*items.allocator(), &items);
        let first_key = first_key_of(&items);
        let last_key = last_key_of(&items);
        Block {
            items,
            kept,
            first_key,
            last_key,
        }
    }

    pub(crate) fn items(&self) -> &[T]
        ensures items { result.now ≡ self.now }
        ensures some { 0 < length self.now }
        ensures few { length self.now ≤ 64 }
    {
        &self.items
    }

    pub(crate) fn first(&self) -> &T
        ensures { IsFirst result.now self.now }
    {
        &self.items[0]
    }

    pub(crate) fn last(&self) -> &T
        ensures { IsLast result.now self.now }
    {
        last_of(&self.items)
    }
}

/// Makes a change in the items of a block, and says whether it did. Else, and at an error, the block stays as it was.
pub(crate) fn change_items<E: PageEntry, T: InPlace<E>>(
    block: &mut Block<T>,
    change: &Edit<E>,
) -> Result<bool, AllocError>
    requires { IsRising E.order (flat_map T.entries block.old) }
    ensures entries { IfOk result (λ is_made. flat_map T.entries block.new
        ≡ with_change_if is_made E.order change.now (flat_map T.entries block.old)) }
    ensures same { IfOk result (λ is_made. IsFalse is_made → block.new ≡ block.old) }
    ensures failed { OnErr result (block.new ≡ block.old) }
{
    if !T::change(&mut block.items, change)? {
        return Ok(false);
    }
    block.kept = kept_of(*block.items.allocator(), &block.items);
    block.first_key = first_key_of(&block.items);
    block.last_key = last_key_of(&block.items);
    Ok(true)
}

impl<T: Edged> Edged for Arc<Block<T>> {
    type Sum = T::Sum;

    type Kept = T::Kept;

    ghost Entry = { T.Entry };

    ghost members = { λ block. of_block T.members block };

    ghost tells = { λ sum entries. T.tells sum entries };

    ghost keeps = { λ kept entries. T.keeps kept entries };

    ghost first_key = { λ block. first_of T.first_key (arc_value block) };

    ghost last_key = { λ block. last_of T.last_key (arc_value block) };

    fn none() -> T::Sum {
        T::none()
    }

    fn add_to(&self, sum: T::Sum) -> T::Sum {
        let block: &Block<T> = self;
        T::join(sum, &block.kept)
    }

    fn join(sum: T::Sum, kept: &T::Kept) -> T::Sum {
        T::join(sum, kept)
    }

    fn keep(alloc: Global, sum: T::Sum) -> T::Kept {
        T::keep(alloc, sum)
    }

    fn is_settled(sum: &T::Sum) -> bool {
        T::is_settled(sum)
    }

    fn keep_by_ends(_: &Arc<Block<T>>, _: &Arc<Block<T>>) -> Option<T::Kept> {
        None
    }

    fn first_key(&self) -> u64 {
        let block: &Block<T> = self;
        block.first_key
    }

    fn last_key(&self) -> u64 {
        let block: &Block<T> = self;
        block.last_key
    }
}

/// How items are laid into blocks.
#[derive(Clone, Copy)]
pub(crate) enum Layout {
    /// One block of up to the most; where there are more, blocks of half as many, and what is left over in the last.
    Halved,
    /// Blocks of the most, the rest in the last.
    Filled,
}

impl Layout {
    /// How many items are cut off when the rest is full.
    fn piece(self, most: usize) -> usize
        requires { 2 ≤ most }
        ensures some { 0 < result }
        ensures few { result ≤ most }
    {
        match self {
            Layout::Halved => most / 2,
            Layout::Filled => most,
        }
    }

    /// How many items make the rest full. After a first cut the rest never grows to two pieces.
    fn limit(self, most: usize, is_first: bool) -> usize
        requires { 2 ≤ most }
        ensures { result ≤ most }
    {
        match (self, is_first) {
            (Layout::Halved, false) => most - 1,
            (Layout::Halved, true) | (Layout::Filled, _) => most,
        }
    }
}

/// The items pushed since the last block. It hands out each block that it fills, and keeps none.
///
/// Contracts see the list of the items that stand in no block yet.
#[derive(Drop)]
pub(crate) struct BlockSplitter<T: Edged + Drop> {
    layout: Layout,
    most: usize,
    is_first: bool,
    rest: Vec<T>,
}

impl<T: Edged + Drop> Model for BlockSplitter<T> {
    ghost use Rattle.std.specs.Prelude.{List, ◌≤◌, length};

    ghost Value = { List T };

    ghost view = { λ c. c.rest.items };

    ghost invariant = { λ c. (length c.rest.items ≤ c.most) × (2 ≤ c.most) × (c.most ≤ 64) };
}

/// Moves the first items of the rest into a block.
fn cut_off<T: Edged + Drop>(rest: &mut Vec<T>, piece: usize) -> Result<Arc<Block<T>>, AllocError>
    requires some { 0 < piece }
    requires there { piece ≤ length rest.old.items }
    requires few { length rest.old.items ≤ 64 }
    ensures items { IfOk result (λ block. arc_value block ++ rest.new.items ≡ rest.old.items) }
    ensures less { OnOk result (length rest.new.items < length rest.old.items) }
    ensures no_more { length rest.new.items ≤ length rest.old.items }
{
    let later = rest.split_off(piece)?;
    let front = mem::replace(rest, later);
    let block = Arc::new(*rest.allocator(), Block::of(front))?;
    Ok(block)
}

impl<T: Edged + Drop> BlockSplitter<T> {
    /// A splitter of no items, for blocks of at most `most`. It takes no memory.
    pub(crate) fn new(alloc: Global, layout: Layout, most: usize) -> BlockSplitter<T>
        requires some { 2 ≤ most }
        requires few { most ≤ 64 }
        ensures { result ≡ [] }
    {
        BlockSplitter {
            layout,
            most,
            is_first: true,
            rest: Vec::new(alloc),
        }
    }

    /// Reserves capacity for this many items, or for a block of them.
    pub(crate) fn reserve(&mut self, room: usize) -> Result<(), AllocError>
        ensures { self.new ≡ self.old }
    {
        self.rest.reserve(room.min(self.most))
    }

    /// Pushes an item. Where the rest is full, a block is cut off before, and handed out.
    pub(crate) fn push(&mut self, item: T) -> Result<Option<Arc<Block<T>>>, AllocError>
        ensures { IfOk result (λ block. items_of block ++ self.new ≡ self.old ++ item ∷ []) }
    {
        let piece = self.layout.piece(self.most);
        let limit = self.layout.limit(self.most, self.is_first);
        let mut cut = None;
        if self.rest.len() >= limit && self.rest.len() >= piece {
            cut = Some(cut_off(&mut self.rest, piece)?);
            self.is_first = false;
        }
        self.rest.push(item)?;
        Ok(cut)
    }

    /// Pushes shares of items where no block is filled before the last, and says whether it did.
    pub(crate) fn push_shares<E: PageEntry>(&mut self, items: &[T]) -> Result<bool, AllocError>
    where
        T: Level<E>,
        ensures { IfOk result (λ pushed. flat_map T.entries self.new
            ≡ flat_map T.entries self.old ++ flat_map T.entries (if pushed then items.now else [])) }
    {
        let limit = self.layout.limit(self.most, self.is_first);
        if items.len() > limit.saturating_sub(self.rest.len()) {
            return Ok(false);
        }
        push_shares::<E, T>(&mut self.rest, items)?;
        Ok(true)
    }

    /// The items as a block, if there are any.
    pub(crate) fn end(self) -> Result<Option<Arc<Block<T>>>, AllocError>
        ensures { IfOk result (λ block. items_of block ≡ self) }
    {
        let BlockSplitter { rest, .. } = self;
        if rest.is_empty() {
            return Ok(None);
        }
        let block = Arc::new(*rest.allocator(), Block::of(rest))?;
        Ok(Some(block))
    }
}
