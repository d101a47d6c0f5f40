//! What an entry is, and what asks for a range of entries.
ghost use Rattle.std.specs.Prelude.{◌≡◌, ◌≤◌, ◌++◌, ◌∷◌, [], ℕ, List, IfOk, IfSome, IsTrue, Option, Some, map};
ghost use Rattle.std.specs.Cmp.{IsTotalOrder};
ghost use Rattle.std.specs.declared.cmp.Ordering.{Ordering};
ghost use Rattle.std.specs.Ordering.{nat_cmp, is_lt};
ghost use Rattle.sorted_pages.specs.Keys.{KeyRises, TellsSide, told_apart};
ghost use Rattle.sorted_pages.specs.Ranges.{IsMonotone};
ghost use Rattle.std.specs.FinMap.Entries.{is_sorted};
ghost use Rattle.sorted_pages.specs.Sorted.{keyed};
ghost use Rattle.sorted_pages.specs.Edges.{begins_with};
ghost use Rattle.sorted_pages.specs.Changes.{entry_of};

use crate::apply::Edit;
use std::alloc::{AllocError, Global};
use std::cmp::Ordering;

/// What has sums of lists of it, of which each page keeps one.
pub trait Summed {
    /// What says something of a list.
    type Sum: Drop;

    /// The form of a sum in which pages keep it.
    type Kept: Drop;

    ghost tells: { Self.Sum → List Self → Type 0 };

    ghost keeps: { Self.Kept → List Self → Type 0 };

    /// The sum of nothing.
    fn none() -> Self::Sum
        ensures { tells result [] };

    /// A sum with this one at the end.
    fn add_to(&self, sum: Self::Sum) -> Self::Sum
        ensures { (xs : List Self) → tells sum xs → tells result (xs ++ self.now ∷ []) };

    /// A sum with what a page holds at the end.
    fn join(sum: Self::Sum, kept: &Self::Kept) -> Self::Sum
        ensures { (xs ys : List Self) → tells sum xs → keeps kept.now ys → tells result (xs ++ ys) };

    /// What a page keeps of a sum. Where memory for it is refused, it is to keep less.
    fn keep(alloc: Global, sum: Self::Sum) -> Self::Kept
        ensures { (xs : List Self) → tells sum xs → keeps result xs };

    /// Whether a sum holds of every list, so that nothing more is added to it.
    fn is_settled(_sum: &Self::Sum) -> bool
        ensures { IsTrue result → (xs : List Self) → tells _sum.now xs }
    {
        false
    }

    /// What a page keeps that begins and ends with these, where that is plain without a look at the others.
    fn keep_by_ends(_first: &Self, _last: &Self) -> Option<Self::Kept>
        ensures { IfSome result (λ kept. (xs : List Self) → keeps kept xs) }
    {
        None
    }
}

/// What holds entries. It has sums of them, and keys of the first and of the last.
pub(crate) trait Edged {
    type Sum: Drop;

    type Kept: Drop;

    ghost Entry: { Type 0 };

    ghost members: { Self → List Entry };

    ghost tells: { Self.Sum → List Entry → Type 0 };

    ghost keeps: { Self.Kept → List Entry → Type 0 };

    fn none() -> Self::Sum
        ensures { tells result [] };

    fn add_to(&self, sum: Self::Sum) -> Self::Sum
        ensures { (xs : List Entry) → tells sum xs → tells result (xs ++ members self.now) };

    fn join(sum: Self::Sum, kept: &Self::Kept) -> Self::Sum
        ensures { (xs ys : List Entry) → tells sum xs → keeps kept.now ys → tells result (xs ++ ys) };

    fn keep(alloc: Global, sum: Self::Sum) -> Self::Kept
        ensures { (xs : List Entry) → tells sum xs → keeps result xs };

    fn is_settled(sum: &Self::Sum) -> bool
        ensures { IsTrue result → (xs : List Entry) → tells sum.now xs };

    fn keep_by_ends(first: &Self, last: &Self) -> Option<Self::Kept>
        ensures { IfSome result (λ kept. (xs : List Entry) → keeps kept xs) };

    ghost first_key: { Self → Option ℕ };

    ghost last_key: { Self → Option ℕ };

    fn first_key(&self) -> u64
        ensures { Some result ≡ first_key self.now };

    fn last_key(&self) -> u64
        ensures { Some result ≡ last_key self.now };
}

/// An entry of a sorted list. Nothing else distinguishes it from those that tie with it.
pub trait PageEntry: Summed + Drop {
    ghost order: { Self → Self → Ordering };

    /// The most entries that a page holds. A changed copy of a list copies each page that changes,
    /// and pieces of memory above a kilobyte are slow to allocate.
    fn most_in_page() -> usize
        ensures some { 2 ≤ result }
        ensures few { result ≤ 64 }
    {
        64
    }

    ghost key: { Self → ℕ };

    /// A number that never falls where entries rise.
    /// Each block keeps those of its first and last entry, so that most places are found by numbers that lie near.
    fn key(&self) -> u64
        ensures { result ≡ key self.now };

    /// How the entry stands to another one.
    fn order(&self, other: &Self) -> Ordering
        ensures { result ≡ order self.now other.now };

    /// How many pages hold what it shares. The number decides nothing:
    /// it is read of many entries before they are shared, so that the processor fetches them side by side.
    fn owners(&self) -> usize;

    /// Another owner of the entry, for one more page. It is to take no memory of its own, as an `Arc` does.
    fn share(&self) -> Result<Self, AllocError>
        ensures { IfOk result (λ e. e ≡ self.now) };

    ghost is_total: { IsTotalOrder order };

    ghost key_rises: { KeyRises order key };
}

/// How a key stands to another one, where they differ.
pub fn order_of_keys(key: u64, other: u64) -> Option<Ordering>
    ensures { result ≡ told_apart (nat_cmp key other) }
{
    match key.cmp(&other) {
        Ordering::Equal => None,
        order => Some(order),
    }
}

/// A range of entries: those at which the side is `Equal`.
pub trait Span<E: PageEntry>: Drop {
    ghost side: { Self → E → Ordering };

    /// `Less` where the entry stands before the range, `Greater` where it stands past it.
    fn side(&self, entry: &E) -> Ordering
        ensures { result ≡ side self.now entry.now };

    /// The side of all entries of a key, where the key tells it.
    fn side_of_key(&self, key: u64) -> Option<Ordering>
        ensures { TellsSide E.key (side self.now) key result };

    ghost is_monotone: { (span : Self) → IsMonotone E.order (side span) };
}

/// Whether an entry is less than the first of these, if there is one.
fn is_below_first<E: PageEntry>(entry: &E, entries: &[E]) -> bool
    ensures { result ≡ begins_with (λ e. is_lt (E.order entry.now e)) entries.now }
{
    match entries {
        [first, ..] => entry.order(first).is_lt(),
        [] => true,
    }
}

/// Whether each entry is less than the one after it.
pub fn is_rising<E: PageEntry>(entries: &[E]) -> bool
    ensures { result ≡ is_sorted E.order (keyed entries.now) }
{
    let mut left = entries;
    while let Some((entry, rest)) = left.split_first() {
        if !is_below_first(entry, rest) {
            return false;
        }
        left = rest;
    }
    true
}

/// Whether the entry of a change is less than that of the first of these, if there is one.
fn goes_before<E: PageEntry>(change: &Edit<E>, changes: &[Edit<E>]) -> bool
    ensures { result ≡ begins_with (λ e. is_lt (E.order (entry_of change.now) e)) (map entry_of changes.now) }
{
    match changes {
        [first, ..] => change.entry().order(first.entry()).is_lt(),
        [] => true,
    }
}

/// Whether the entry of each change is less than that of the one after it.
pub fn are_rising<E: PageEntry>(changes: &[Edit<E>]) -> bool
    ensures { result ≡ is_sorted E.order (keyed (map entry_of changes.now)) }
{
    let mut left = changes;
    while let Some((change, rest)) = left.split_first() {
        if !goes_before(change, rest) {
            return false;
        }
        left = rest;
    }
    true
}
