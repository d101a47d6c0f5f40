//! Items in pages as a list of lists, by the rule of pages written out slowly.
//!
//! A page holds up to 64 items. A list that is built fills its pages, and has the rest in a last one. A change makes new pages
//! where it falls: a new key goes into the last page whose first key before the change is less, else into the first, which is
//! made where there is none. A page that would hold more than 64 is cut after every 32, and a rest of fewer than 32 joins the
//! last piece. An empty page is dropped, and pages are not merged otherwise.

use crate::pages::item::Item;
use sorted_pages::Edit;
use std::alloc::{AllocError, Global};
use std::mem;

// The items that a page holds at most.
const MOST: usize = 64;

// The items of a page that is cut off from one too long.
const PIECE: usize = 32;

/// Items in pages.
#[derive(Drop)]
pub(crate) struct PlainPages {
    pages: Vec<Vec<Item>>,
}

/// The page after one change.
fn change_page(page: &mut Vec<Item>, change: &Edit<Item>) -> Result<(), AllocError> {
    let key = change.entry().key;
    let place = page.partition_point(|i| i.key < key);
    if place < page.len() && page[place].key == key {
        page.remove(place);
    }
    if let Edit::Put(entry) = change {
        if place <= page.len() {
            page.insert(place, *entry)?;
        }
    }
    Ok(())
}

/// Appends the pieces of a page that would hold too many.
fn push_pieces(alloc: Global, page: &[Item], pages: &mut Vec<Vec<Item>>) -> Result<(), AllocError> {
    for piece in page.chunks(PIECE) {
        if piece.len() == PIECE {
            pages.push(piece.to_vec(alloc)?)?;
        } else if let Some(last) = pages.last_mut() {
            last.extend_from_slice(piece)?;
        }
    }
    Ok(())
}

impl PlainPages {
    /// The pages of a list that is built.
    pub(crate) fn of_items(alloc: Global, items: &[Item]) -> Result<PlainPages, AllocError> {
        let mut pages = Vec::new(alloc);
        for page in items.chunks(MOST) {
            pages.push(page.to_vec(alloc)?)?;
        }
        Ok(PlainPages { pages })
    }

    /// The page of a key. One that is there stands in the last page whose first key is not greater.
    fn place_of(&self, key: u64) -> usize {
        let mut place = 0;
        for (at, page) in self.pages.iter().enumerate() {
            if page.first().is_some_and(|first| first.key <= key) {
                place = at;
            }
        }
        place
    }

    /// Cuts the pages that hold too many, and drops those that are empty.
    fn cut(&mut self, alloc: Global) -> Result<(), AllocError> {
        let mut pages = Vec::new(alloc);
        for page in &self.pages {
            if page.len() > MOST {
                push_pieces(alloc, page, &mut pages)?;
            } else if !page.is_empty() {
                pages.push(page.to_vec(alloc)?)?;
            }
        }
        drop(mem::replace(&mut self.pages, pages));
        Ok(())
    }

    /// Makes changes at once. The pages as they are decide the page of each.
    pub(crate) fn change(
        &mut self,
        alloc: Global,
        changes: &[Edit<Item>],
    ) -> Result<(), AllocError> {
        let mut places = Vec::new(alloc);
        for change in changes {
            places.push(self.place_of(change.entry().key))?;
        }
        if self.pages.is_empty() {
            self.pages.push(Vec::new(alloc))?;
        }
        for (change, place) in changes.iter().zip(places.iter()) {
            if let Some(page) = self.pages.get_mut(*place) {
                change_page(page, change)?;
            }
        }
        self.cut(alloc)
    }

    /// The lengths of the pages, and the items, one after another.
    pub(crate) fn sizes_and_items(
        &self,
        alloc: Global,
    ) -> Result<(Vec<usize>, Vec<Item>), AllocError> {
        let (mut sizes, mut items) = (Vec::new(alloc), Vec::new(alloc));
        for page in &self.pages {
            sizes.push(page.len())?;
            items.extend_from_slice(page)?;
        }
        Ok((sizes, items))
    }
}
