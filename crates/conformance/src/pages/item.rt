//! Entries of lists: numbers with weights.
ghost use Rattle.std.specs.Ordering.{nat_cmp};
ghost use Rattle.std.specs.Prelude.{◌/◌};
ghost use Rattle.std.specs.declared.cmp.Ordering.TheVariants.{Less};
ghost use Rattle.std.specs.Cmp.{on_total, nat_cmp_total, nat_cmp_is};
ghost use Rattle.std.proofs.Common.{sym, arith};

use sorted_pages::{PageEntry, Summed};
use std::alloc::{AllocError, Global};
use std::cmp::Ordering;

/// A number with a weight, which takes no part in the order.
#[derive(Clone, Copy, PartialEq, Eq)]
pub(crate) struct Item {
    pub(crate) key: u64,
    pub(crate) weight: u64,
}

impl Item {
    /// The number, which is its weight too.
    pub(crate) fn new(key: u64) -> Item {
        Item { key, weight: key }
    }
}

/// Pages keep the greatest weight.
impl Summed for Item {
    ghost use Rattle.std.specs.Prelude.{◌≡◌};
    ghost use Rattle.sorted_pages.specs.Pages.{greatest};

    type Sum = u64;

    type Kept = u64;

    ghost tells = { λ weight items. weight ≡ greatest (λ i. i.weight) items };

    ghost keeps = { λ weight items. weight ≡ greatest (λ i. i.weight) items };

    fn none() -> u64 {
        0
    }

    fn add_to(&self, weight: u64) -> u64 {
        weight.max(self.weight)
    }

    fn join(weight: u64, kept: &u64) -> u64 {
        weight.max(*kept)
    }

    fn keep(_alloc: Global, weight: u64) -> u64 {
        weight
    }
}

impl PageEntry for Item {
    ghost order = { λ a b. nat_cmp a.key b.key };

    ghost is_total = { on_total (λ i. i.key) nat_cmp_total };

    ghost key = { λ i. i.key / 3 };

    ghost key_rises = { λ x y l. sym (nat_cmp_is x.key y.key Less (omega (arith, l))) };

    /// Three numbers share it, so that keys decide of some places, and entries of others.
    fn key(&self) -> u64 {
        self.key / 3
    }

    fn order(&self, other: &Self) -> Ordering {
        self.key.cmp(&other.key)
    }

    fn owners(&self) -> usize {
        1
    }

    fn share(&self) -> Result<Item, AllocError> {
        Ok(*self)
    }
}
