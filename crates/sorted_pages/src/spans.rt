//! Ranges by entries of the list's own type.
ghost use Rattle.std.specs.Prelude.{◌≡◌};
ghost use Rattle.sorted_pages.specs.Ties.{between};

use crate::entry::{PageEntry, Span, order_of_keys};
use std::cmp::Ordering;

/// The range of what ties with an entry.
#[derive(Drop)]
pub(crate) struct Tie<'a, E>(pub(crate) &'a E);

impl<'a, E: PageEntry> Span<E> for Tie<'a, E> {
    ghost use Rattle.sorted_pages.specs.Ties.{tie_is_monotone};

    ghost side = { λ t e. E.order e t.0.now };

    ghost is_monotone = { λ t. tie_is_monotone E.order E.is_total t.0.now };

    fn side(&self, entry: &E) -> Ordering {
        entry.order(self.0)
    }

    fn side_of_key(&self, key: u64) -> Option<Ordering> {
        order_of_keys(key, self.0.key())
    }
}

/// The range from one entry on up to another, which is not in it.
#[derive(Drop)]
pub struct Between<'a, E> {
    pub from: &'a E,
    pub until: &'a E,
}

impl<'a, E: PageEntry> Span<E> for Between<'a, E> {
    ghost use Rattle.sorted_pages.specs.Ties.{between, between_is_monotone};

    ghost side = { λ b e. between E.order b.from.now b.until.now e };

    ghost is_monotone = { λ b. between_is_monotone E.order E.is_total b.from.now b.until.now };

    fn side(&self, entry: &E) -> Ordering {
        if entry.order(self.from).is_lt() {
            return Ordering::Less;
        }
        if entry.order(self.until).is_lt() {
            return Ordering::Equal;
        }
        Ordering::Greater
    }

    fn side_of_key(&self, key: u64) -> Option<Ordering> {
        if key < self.from.key() {
            return Some(Ordering::Less);
        }
        if self.from.key() < key && key < self.until.key() {
            return Some(Ordering::Equal);
        }
        None
    }
}
