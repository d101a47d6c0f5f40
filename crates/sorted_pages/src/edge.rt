//! The place where a test that once fails fails from then on, found by halving, and among few one after another.
ghost use Rattle.std.specs.Prelude.{◌≡◌, ◌≤◌, ◌++◌, Bool, not, take, drop, length, T as Holds};
ghost use Rattle.std.specs.Ordering.{is_lt, is_gt};
ghost use Rattle.sorted_pages.specs.Edges.{answer_of, ends_with, begins_with};
ghost use Rattle.sorted_pages.specs.Edges.{first_passes, last_passes, is_before_edge};
ghost use Rattle.sorted_pages.specs.Changes.{entry_of};
ghost use Rattle.sorted_pages.specs.Keys.{IsSideOfFirst, IsSideOfLast};

use crate::apply::Edit;
use crate::entry::{PageEntry, Span};
use crate::level::Level;
use crate::spans::Tie;
use std::cmp::Ordering;

/// A test of what stands in a list of entries `E`.
pub(crate) trait Test<E, T>: Drop {
    ghost passes: { Self → T → Bool };

    ghost fails: { Self → T → Bool };

    fn passes(&self, item: &T) -> bool
        ensures { Holds (answer_of result (passes self.now item.now) (fails self.now item.now)) };
}

/// A place between two others where the test stops to hold, found one after another.
/// What the next item holds is fetched before it is known whether this one passes; where halving goes on is not.
fn edge_between<E, T, P: Test<E, T>>(items: &[T], test: &P, from: usize, until: usize) -> usize
    requires order { from ≤ until }
    requires there { until ≤ length items.now }
    requires front { Holds (ends_with (P.passes test.now) (take from items.now)) }
    requires back { Holds (begins_with (P.fails test.now) (drop until items.now)) }
    ensures there { result ≤ length items.now }
    ensures front { Holds (ends_with (P.passes test.now) (take result items.now)) }
    ensures back { Holds (begins_with (P.fails test.now) (drop result items.now)) }
{
    let mut place = from;
    while place < until {
        if !test.passes(&items[place]) {
            return place;
        }
        place += 1;
    }
    place
}

/// The items before some place where the test stops to hold, and those from there on.
pub(crate) fn split_at_edge<'a, E, T, P: Test<E, T>>(items: &'a [T], test: &P) -> (&'a [T], &'a [T])
    ensures parts { items.now ≡ result.0.now ++ result.1.now }
    ensures front { Holds (ends_with (P.passes test.now) result.0.now) }
    ensures back { Holds (begins_with (P.fails test.now) result.1.now) }
{
    let mut low = 0;
    let mut high = items.len();
    while high - low > 16 {
        let middle = low + (high - low) / 2;
        if test.passes(&items[middle]) {
            low = middle + 1;
        } else {
            high = middle;
        }
    }
    items.split_at(edge_between(items, test, low, high))
}

/// The items before some place where the test stops to hold, but for the last of them,
/// and that one with those from there on.
pub(crate) fn split_before_edge<'a, E, T, P: Test<E, T>>(
    items: &'a [T],
    test: &P,
) -> (&'a [T], &'a [T])
    ensures parts { items.now ≡ result.0.now ++ result.1.now }
    ensures edge { Holds (is_before_edge (P.passes test.now) (P.fails test.now) result.0.now result.1.now) }
{
    let (front, _) = split_at_edge(items, test);
    items.split_at(front.len().saturating_sub(1))
}

/// The side of the first entry of an item.
fn side_of_first<E: PageEntry, T: Level<E>, S: Span<E>>(span: &S, item: &T) -> Ordering
    ensures { IsSideOfFirst (S.side span.now) result (T.entries item.now) }
{
    match span.side_of_key(item.first_key()) {
        Some(side) => side,
        None => span.side(item.first()),
    }
}

/// The side of the last entry of an item.
fn side_of_last<E: PageEntry, T: Level<E>, S: Span<E>>(span: &S, item: &T) -> Ordering
    ensures { IsSideOfLast (S.side span.now) result (T.entries item.now) }
{
    match span.side_of_key(item.last_key()) {
        Some(side) => side,
        None => span.side(item.last()),
    }
}

/// Passes a change of an entry that is less than the first of these.
#[derive(Drop)]
pub(crate) struct Below<'a, T>(pub(crate) &'a T);

impl<'a, E: PageEntry, T: Level<E>> Test<E, Edit<E>> for Below<'a, T> {
    ghost passes = { λ t c. first_passes (λ e. is_gt (E.order e (entry_of c))) (T.entries t.0.now) };

    ghost fails = { λ t c. first_passes (λ e. not (is_gt (E.order e (entry_of c)))) (T.entries t.0.now) };

    fn passes(&self, item: &Edit<E>) -> bool {
        side_of_first(&Tie(item.entry()), self.0).is_gt()
    }
}

/// Passes what stands before the range as a whole.
#[derive(Drop)]
pub(crate) struct Before<'a, S>(pub(crate) &'a S);

impl<'a, E: PageEntry, T: Level<E>, S: Span<E>> Test<E, T> for Before<'a, S> {
    ghost passes = { λ t item. last_passes (λ e. is_lt (S.side t.0.now e)) (T.entries item) };

    ghost fails = { λ t item. last_passes (λ e. not (is_lt (S.side t.0.now e))) (T.entries item) };

    fn passes(&self, item: &T) -> bool {
        side_of_last(self.0, item).is_lt()
    }
}

/// Passes what does not stand past the range as a whole.
#[derive(Drop)]
pub(crate) struct Until<'a, S>(pub(crate) &'a S);

impl<'a, E: PageEntry, T: Level<E>, S: Span<E>> Test<E, T> for Until<'a, S> {
    ghost passes = { λ t item. first_passes (λ e. not (is_gt (S.side t.0.now e))) (T.entries item) };

    ghost fails = { λ t item. first_passes (λ e. is_gt (S.side t.0.now e)) (T.entries item) };

    fn passes(&self, item: &T) -> bool {
        !side_of_first(self.0, item).is_gt()
    }
}
