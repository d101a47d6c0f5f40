//! The levels of a list: entries, pages of entries, runs of pages, groups of runs and sections of groups.
ghost use Rattle.std.specs.Prelude.{◌≡◌, ◌≤◌, ◌+◌, ◌++◌, ℕ, List, length, IfOk, OnOk, Some};
ghost use Rattle.std.specs.List.{flat_map};
ghost use Rattle.sorted_pages.specs.Keys.{BeginsWithKey, EndsWithKey};
ghost use Rattle.sorted_pages.specs.Pages.{singleton, of_block, IsFirst, IsLast};

use crate::block::{Block, BlockSplitter, Layout};
use crate::entry::{Edged, PageEntry};
use std::alloc::{AllocError, Global};
use std::marker::Model;
use std::sync::Arc;

/// What stands at one level of a list. It holds at least one entry.
pub(crate) trait Level<E: PageEntry>: Edged + Drop {
    ghost entries: { Self → List E };

    /// The most of these that a block holds.
    fn most_in_block() -> usize
        ensures some { 2 ≤ result }
        ensures few { result ≤ 64 };

    fn first(&self) -> &E
        ensures { IsFirst result.now (entries self.now) };

    fn last(&self) -> &E
        ensures { IsLast result.now (entries self.now) };

    /// How many blocks hold what it shares.
    fn owners(&self) -> usize;

    /// Another owner of the item, for one more block.
    fn share(&self) -> Result<Self, AllocError>
        ensures { IfOk result (λ item. entries item ≡ entries self.now) };

    ghost first_keys: { (item : Self) (key : ℕ) → Some key ≡ Self.Edged.first_key item
        → BeginsWithKey E.key key (entries item) };

    ghost last_keys: { (item : Self) (key : ℕ) → Some key ≡ Self.Edged.last_key item
        → EndsWithKey E.key key (entries item) };
}

/// An entry, which is the lowest level.
#[derive(Drop)]
pub(crate) struct Leaf<E> {
    entry: E,
}

impl<E> Model for Leaf<E> {
    ghost Value = { E };

    ghost view = { λ leaf. leaf.entry };
}

impl<E> Leaf<E> {
    pub(crate) fn of(entry: E) -> Leaf<E>
        ensures { result ≡ entry }
    {
        Leaf { entry }
    }

    pub(crate) fn into_entry(self) -> E
        ensures { result ≡ self }
    {
        let Leaf { entry } = self;
        entry
    }

    pub(crate) fn entry(&self) -> &E
        ensures { result.now ≡ self.now }
    {
        &self.entry
    }
}

impl<E: PageEntry> Edged for Leaf<E> {
    type Sum = E::Sum;

    type Kept = E::Kept;

    ghost Entry = { E };

    ghost members = { λ leaf. singleton leaf };

    ghost tells = { λ sum entries. E.tells sum entries };

    ghost keeps = { λ kept entries. E.keeps kept entries };

    ghost first_key = { λ leaf. Some (E.key leaf) };

    ghost last_key = { λ leaf. Some (E.key leaf) };

    fn none() -> E::Sum {
        E::none()
    }

    fn add_to(&self, sum: E::Sum) -> E::Sum {
        self.entry.add_to(sum)
    }

    fn join(sum: E::Sum, kept: &E::Kept) -> E::Sum {
        E::join(sum, kept)
    }

    fn keep(alloc: Global, sum: E::Sum) -> E::Kept {
        E::keep(alloc, sum)
    }

    fn is_settled(sum: &E::Sum) -> bool {
        E::is_settled(sum)
    }

    fn keep_by_ends(first: &Leaf<E>, last: &Leaf<E>) -> Option<E::Kept> {
        E::keep_by_ends(&first.entry, &last.entry)
    }

    fn first_key(&self) -> u64 {
        self.entry.key()
    }

    fn last_key(&self) -> u64 {
        self.entry.key()
    }
}

impl<E: PageEntry> Level<E> for Leaf<E> {
    ghost entries = { λ leaf. singleton leaf };

    ghost use Rattle.sorted_pages.specs.KeyEnds.{leaf_begins, leaf_ends};

    ghost first_keys = { λ leaf key told. leaf_begins E.key leaf key told };

    ghost last_keys = { λ leaf key told. leaf_ends E.key leaf key told };

    fn most_in_block() -> usize {
        E::most_in_page()
    }

    fn first(&self) -> &E {
        &self.entry
    }

    fn last(&self) -> &E {
        &self.entry
    }

    fn owners(&self) -> usize {
        self.entry.owners()
    }

    fn share(&self) -> Result<Leaf<E>, AllocError> {
        let entry = self.entry.share()?;
        Ok(Leaf { entry })
    }
}

impl<E: PageEntry, T: Level<E>> Level<E> for Arc<Block<T>> {
    ghost entries = { λ block. of_block T.entries block };

    ghost use Rattle.std.specs.Arc.{arc_value};
    ghost use Rattle.sorted_pages.specs.KeyEnds.{block_begins, block_ends};

    ghost first_keys = { λ block key told.
        block_begins T.entries T.first_key E.key T.first_keys (arc_value block) key told };

    ghost last_keys = { λ block key told.
        block_ends T.entries T.last_key E.key T.last_keys (arc_value block) key told };

    fn most_in_block() -> usize {
        16
    }

    fn first(&self) -> &E {
        let block: &Block<T> = self;
        block.first().first()
    }

    fn last(&self) -> &E {
        let block: &Block<T> = self;
        block.last().last()
    }

    fn owners(&self) -> usize {
        Arc::strong_count(self)
    }

    fn share(&self) -> Result<Arc<Block<T>>, AllocError> {
        let block = Arc::try_clone(self)?;
        Ok(block)
    }
}

/// Appends shares of items to a list.
pub(crate) fn push_shares<E: PageEntry, T: Level<E>>(
    list: &mut Vec<T>,
    items: &[T],
) -> Result<(), AllocError>
    ensures entries { OnOk result (flat_map T.entries list.new.items
        ≡ flat_map T.entries list.old.items ++ flat_map T.entries items.now) }
    ensures no_more { length list.new.items ≤ length list.old.items + length items.now }
{
    for item in items {
        list.push(item.share()?)?;
    }
    Ok(())
}

/// Entries in one place in the order, which many lists may hold.
pub(crate) type Page<E> = Arc<Block<Leaf<E>>>;

/// Pages one after another.
pub(crate) type Run<E> = Arc<Block<Page<E>>>;

/// Runs one after another.
pub(crate) type Group<E> = Arc<Block<Run<E>>>;

/// Groups one after another.
pub(crate) type Section<E> = Arc<Block<Group<E>>>;

/// A list that grows by items of one level.
pub(crate) trait Grow<E: PageEntry, T: Level<E>>: Drop {
    ghost all: { Self → List E };

    fn put(&mut self, item: T) -> Result<(), AllocError>
        ensures { OnOk result (all self.new ≡ all self.old ++ T.entries item) };

    /// Puts shares of items, one after another.
    fn put_shares(&mut self, items: &[T]) -> Result<(), AllocError>
        ensures { OnOk result (all self.new ≡ all self.old ++ flat_map T.entries items.now) };
}

impl<E: PageEntry, T: Level<E>> Grow<E, T> for Vec<T> {
    ghost all = { λ items. flat_map T.entries items.items };

    fn put(&mut self, item: T) -> Result<(), AllocError> {
        self.push(item)?;
        Ok(())
    }

    fn put_shares(&mut self, items: &[T]) -> Result<(), AllocError> {
        push_shares::<E, T>(self, items)
    }
}

/// The items that stand in no block yet, over the list that takes the blocks.
#[derive(Drop)]
pub(crate) struct LevelBuilder<T: Edged + Drop, U> {
    above: U,
    rest: BlockSplitter<T>,
}

impl<E: PageEntry, T: Level<E>, U: Grow<E, Arc<Block<T>>>> Grow<E, T> for LevelBuilder<T, U> {
    ghost all = { λ builder. U.all builder.above ++ flat_map T.entries builder.rest };

    fn put(&mut self, item: T) -> Result<(), AllocError> {
        if let Some(block) = self.rest.push(item)? {
            self.above.put(block)?;
        }
        Ok(())
    }

    fn put_shares(&mut self, items: &[T]) -> Result<(), AllocError> {
        if self.rest.push_shares::<E>(items)? {
            return Ok(());
        }
        for item in items {
            self.put(item.share()?)?;
        }
        Ok(())
    }
}

/// No item yet, over a list that takes blocks, with capacity for this many items in the first block.
pub(crate) fn begin<E: PageEntry, T: Level<E>, U: Grow<E, Arc<Block<T>>>>(
    alloc: Global,
    layout: Layout,
    room: usize,
    above: U,
) -> Result<LevelBuilder<T, U>, AllocError>
    ensures { IfOk result (λ builder. U.all builder.above ++ flat_map T.entries builder.rest ≡ U.all above) }
{
    let mut rest = BlockSplitter::new(alloc, layout, T::most_in_block());
    rest.reserve(room)?;
    Ok(LevelBuilder { above, rest })
}

/// The list above, with the items that stand in no block yet in one more.
pub(crate) fn finish<E: PageEntry, T: Level<E>, U: Grow<E, Arc<Block<T>>>>(
    builder: LevelBuilder<T, U>,
) -> Result<U, AllocError>
    ensures { IfOk result (λ above. U.all above ≡ U.all builder.above ++ flat_map T.entries builder.rest) }
{
    let LevelBuilder { mut above, rest } = builder;
    if let Some(block) = rest.end()? {
        above.put(block)?;
    }
    Ok(above)
}
