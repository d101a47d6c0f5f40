//! Ranges of entries that stand next to one another.
ghost use Rattle.std.specs.Prelude.{◌≡◌, ◌<◌, ◌++◌, ◌∷◌, [], List, length, not, IfSome, IfNone, T as Holds};
ghost use Rattle.std.specs.List.{flat_map};
ghost use Rattle.std.specs.Ordering.{is_gt};
ghost use Rattle.std.specs.Iterator.{YieldsFirstRef, item_count};
ghost use Rattle.sorted_pages.specs.Pages.{IsFirstBlock, of_block, singleton, of_page, of_run, of_group, of_section};
ghost use Rattle.sorted_pages.specs.Sorted.{IsRising};
ghost use Rattle.sorted_pages.specs.Edges.{answer_of, begins_with, first_passes};
ghost use Rattle.sorted_pages.specs.Ranges.{from_span, until_span};

use crate::apply::split_first_block;
use crate::block::{Block, add_all};
use crate::edge::{Before, Test, Until, split_at_edge, split_before_edge};
use crate::entry::{Edged, PageEntry, Span};
use crate::level::{Group, Leaf, Level, Page, Run, Section};
use std::marker::Model;
use std::mem;
use std::sync::Arc;

/// Entries that stand next to one another in a sorted list. It takes no memory.
///
/// Contracts see the list of those still to come.
#[derive(Drop)]
pub struct Range<'a, E: PageEntry> {
    front: Front<'a, E>,
    back: Back<'a, E>,
}

impl<'a, E: PageEntry> Model for Range<'a, E> {
    ghost use Rattle.std.specs.Prelude.{List, ◌++◌};

    ghost Value = { List E };

    ghost view = { λ r. r.front ++ r.back };
}

/// The entries from some place on: the rest of a page, and the pages after it.
///
/// Contracts see the list of them.
#[derive(Drop)]
pub(crate) struct Front<'a, E: PageEntry> {
    entries: &'a [Leaf<E>],
    pages: FrontPages<'a, E>,
}

impl<'a, E: PageEntry> Model for Front<'a, E> {
    ghost use Rattle.std.specs.Prelude.{List, ◌++◌};
    ghost use Rattle.std.specs.List.{flat_map};
    ghost use Rattle.sorted_pages.specs.Pages.{singleton};

    ghost Value = { List E };

    ghost view = { λ f. flat_map singleton f.entries.now ++ f.pages };
}

/// The pages from some place on: the rest of a run, of a group, of a section and of the list.
///
/// Contracts see the list of their entries.
#[derive(Drop)]
pub(crate) struct FrontPages<'a, E: PageEntry> {
    pages: &'a [Page<E>],
    runs: &'a [Run<E>],
    groups: &'a [Group<E>],
    sections: &'a [Section<E>],
}

impl<'a, E: PageEntry> Model for FrontPages<'a, E> {
    ghost use Rattle.std.specs.Prelude.{List, ◌++◌};
    ghost use Rattle.std.specs.List.{flat_map};
    ghost use Rattle.sorted_pages.specs.Pages.{of_page, of_run, of_group, of_section};

    ghost Value = { List E };

    ghost view = { λ f. flat_map of_page f.pages.now ++ (flat_map of_run f.runs.now
        ++ (flat_map of_group f.groups.now ++ flat_map of_section f.sections.now)) };
}

/// The entries up to some place: the first groups of a section, runs of a group, pages of a run and entries of a page.
///
/// Contracts see the list of them.
#[derive(Drop)]
struct Back<'a, E: PageEntry> {
    groups: &'a [Group<E>],
    runs: &'a [Run<E>],
    pages: &'a [Page<E>],
    entries: &'a [Leaf<E>],
}

impl<'a, E: PageEntry> Model for Back<'a, E> {
    ghost use Rattle.std.specs.Prelude.{List, ◌++◌};
    ghost use Rattle.std.specs.List.{flat_map};
    ghost use Rattle.sorted_pages.specs.Pages.{singleton, of_page, of_run, of_group};

    ghost Value = { List E };

    ghost view = { λ b. flat_map of_group b.groups.now ++ (flat_map of_run b.runs.now
        ++ (flat_map of_page b.pages.now ++ flat_map singleton b.entries.now)) };
}

/// The first items and the blocks after them.
/// Where there is no first item, those of the first block, if any, become the first.
fn refill<'a, T: Edged>(
    first: &'a [T],
    blocks: &'a [Arc<Block<T>>],
) -> (&'a [T], &'a [Arc<Block<T>>])
    ensures empty { length first.now ≡ 0 → IsFirstBlock blocks.now result.0.now result.1.now }
    ensures full { 0 < length first.now → (result.0.now ≡ first.now) × (result.1.now ≡ blocks.now) }
    ensures none { length result.0.now ≡ 0 → (length first.now ≡ 0) × (length blocks.now ≡ 0) }
{
    if first.is_empty() {
        split_first_block(blocks)
    } else {
        (first, blocks)
    }
}

/// The first entry of a page, and the others.
fn split_page<'a, E: PageEntry>(page: &'a Page<E>) -> (&'a E, &'a [Leaf<E>])
    ensures { of_page page.now ≡ result.0.now ∷ flat_map singleton result.1.now }
{
    let items = page.items();
    (items[0].entry(), &items[1..])
}

impl<'a, E: PageEntry> FrontPages<'a, E> {
    /// The pages of these sections.
    pub(crate) fn of(sections: &'a [Section<E>]) -> FrontPages<'a, E>
        ensures { result ≡ flat_map of_section sections.now }
    {
        FrontPages {
            pages: &[],
            runs: &[],
            groups: &[],
            sections,
        }
    }

    /// The first page, which is no longer among these.
    pub(crate) fn next_page(&mut self) -> Option<&'a Page<E>>
        ensures some { IfSome result (λ page. self.old ≡ of_page page.now ++ self.new) }
        ensures none { IfNone result ((self.old ≡ []) × (self.new ≡ [])) }
    {
        let (groups, sections) = refill(self.groups, self.sections);
        let (runs, groups) = refill(self.runs, groups);
        let (pages, runs) = refill(self.pages, runs);
        let (page, pages) = pages.split_first()?;
        *self = FrontPages {
            pages,
            runs,
            groups,
            sections,
        };
        Some(page)
    }

    fn is_empty(&self) -> bool {
        self.pages.is_empty()
            && self.runs.is_empty()
            && self.groups.is_empty()
            && self.sections.is_empty()
    }

    /// A sum with the entries of these pages at the end.
    fn add_to(&self, sum: E::Sum) -> E::Sum
        ensures { (xs : List E) → E.tells sum xs → E.tells result (xs ++ self.now) }
    {
        let sum = add_all(sum, self.pages);
        let sum = add_all(sum, self.runs);
        let sum = add_all(sum, self.groups);
        add_all(sum, self.sections)
    }
}

impl<'a, E: PageEntry> Front<'a, E> {
    /// These entries, and those of pages, runs, groups and sections after them.
    pub(crate) fn of(
        entries: &'a [Leaf<E>],
        pages: &'a [Page<E>],
        runs: &'a [Run<E>],
        groups: &'a [Group<E>],
        sections: &'a [Section<E>],
    ) -> Front<'a, E>
        ensures { result ≡ flat_map singleton entries.now ++ (flat_map of_page pages.now ++ (flat_map of_run runs.now
            ++ (flat_map of_group groups.now ++ flat_map of_section sections.now))) }
    {
        let pages = FrontPages {
            pages,
            runs,
            groups,
            sections,
        };
        Front { entries, pages }
    }

    /// A sum with these entries at the end.
    fn add_to(&self, sum: E::Sum) -> E::Sum
        ensures { (xs : List E) → E.tells sum xs → E.tells result (xs ++ self.now) }
    {
        self.pages.add_to(add_all(sum, self.entries))
    }
}

impl<'a, E: PageEntry> Iterator for Front<'a, E> {
    type Item = &'a E;

    ghost next_gives = { YieldsFirstRef (λ f. f) };

    ghost remaining = { item_count (λ f. f) };

    fn next(&mut self) -> Option<&'a E> {
        if let Some((first, entries)) = self.entries.split_first() {
            self.entries = entries;
            return Some(first.entry());
        }
        let (first, entries) = split_page(self.pages.next_page()?);
        self.entries = entries;
        Some(first)
    }
}

impl<'a, E: PageEntry> Back<'a, E> {
    /// The entries of these groups, runs and pages, and these entries.
    fn of(
        groups: &'a [Group<E>],
        runs: &'a [Run<E>],
        pages: &'a [Page<E>],
        entries: &'a [Leaf<E>],
    ) -> Back<'a, E>
        ensures { result ≡ flat_map of_group groups.now ++ (flat_map of_run runs.now
            ++ (flat_map of_page pages.now ++ flat_map singleton entries.now)) }
    {
        Back {
            groups,
            runs,
            pages,
            entries,
        }
    }

    fn spans_pages(&self) -> bool {
        !self.groups.is_empty() || !self.runs.is_empty() || !self.pages.is_empty()
    }

    /// A sum with these entries at the end.
    fn add_to(&self, sum: E::Sum) -> E::Sum
        ensures { (xs : List E) → E.tells sum xs → E.tells result (xs ++ self.now) }
    {
        let sum = add_all(sum, self.groups);
        let sum = add_all(sum, self.runs);
        let sum = add_all(sum, self.pages);
        add_all(sum, self.entries)
    }
}

/// The first entry at the back, if there is one, and the range of those after it.
fn split_back<'a, E: PageEntry>(back: Back<'a, E>) -> (Option<&'a E>, Range<'a, E>)
    ensures { YieldsFirstRef (λ es. es) back.entry result.0 result.1 }
{
    let Back {
        groups,
        runs,
        pages,
        entries,
    } = back;
    let mut front = Front::of(&[], &[], &[], groups, &[]);
    if let Some(entry) = front.next() {
        let back = Back::of(&[], runs, pages, entries);
        return (Some(entry), Range { front, back });
    }
    let mut front = Front::of(&[], &[], runs, &[], &[]);
    if let Some(entry) = front.next() {
        let back = Back::of(&[], &[], pages, entries);
        return (Some(entry), Range { front, back });
    }
    let mut front = Front::of(&[], pages, &[], &[], &[]);
    if let Some(entry) = front.next() {
        let back = Back::of(&[], &[], &[], entries);
        return (Some(entry), Range { front, back });
    }
    let mut front = Front::of(entries, &[], &[], &[], &[]);
    let first = front.next();
    let back = Back::of(&[], &[], &[], &[]);
    (first, Range { front, back })
}

impl<'a, E: PageEntry> Iterator for Range<'a, E> {
    type Item = &'a E;

    ghost next_gives = { YieldsFirstRef (λ r. r) };

    ghost remaining = { item_count (λ r. r) };

    fn next(&mut self) -> Option<&'a E> {
        if let Some(entry) = self.front.next() {
            return Some(entry);
        }
        let back = mem::replace(&mut self.back, Back::of(&[], &[], &[], &[]));
        let (first, rest) = split_back(back);
        *self = rest;
        first
    }
}

impl<'a, E: PageEntry> Range<'a, E> {
    /// The sum of the entries still to come. It takes no memory.
    ///
    /// It looks at what pages keep, and at no entry of a page that is in the range as a whole.
    pub fn total(&self) -> E::Sum
        ensures { E.tells result self.now }
    {
        self.back.add_to(self.front.add_to(E::none()))
    }

    /// Whether it spans a page. The answer decides nothing:
    /// without one the entries are so few that they are looked at one by one in no more time.
    pub fn spans_pages(&self) -> bool {
        !self.front.pages.is_empty() || self.back.spans_pages()
    }
}

/// The items of the first block that does not stand before the range as a whole, and the blocks after it.
fn blocks_from<'a, E: PageEntry, T: Level<E>, S: Span<E>>(
    blocks: &'a [Arc<Block<T>>],
    span: &S,
) -> (&'a [T], &'a [Arc<Block<T>>])
    requires { IsRising E.order (flat_map (of_block T.entries) blocks.now) }
    ensures parts { from_span (S.side span.now) (flat_map T.entries result.0.now)
        ++ flat_map (of_block T.entries) result.1.now
        ≡ from_span (S.side span.now) (flat_map (of_block T.entries) blocks.now) }
    ensures rises { IsRising E.order (flat_map T.entries result.0.now) }
{
    let (_, back) = split_at_edge(blocks, &Before(span));
    split_first_block(back)
}

/// The entries from the first on that does not stand before the range.
pub(crate) fn entries_from<'a, E: PageEntry, S: Span<E>>(
    entries: &'a [Leaf<E>],
    span: &S,
) -> &'a [Leaf<E>]
    requires { IsRising E.order (flat_map singleton entries.now) }
    ensures { flat_map singleton result.now ≡ from_span (S.side span.now) (flat_map singleton entries.now) }
{
    let (_, back) = split_at_edge(entries, &Before(span));
    back
}

/// All the entries from the first on that does not stand before the range.
pub(crate) fn all_from<'a, E: PageEntry, S: Span<E>>(
    sections: &'a [Section<E>],
    span: &S,
) -> Front<'a, E>
    requires { IsRising E.order (flat_map of_section sections.now) }
    ensures { result ≡ from_span (S.side span.now) (flat_map of_section sections.now) }
{
    let (groups, sections) = blocks_from(sections, span);
    let (runs, groups) = blocks_from(groups, span);
    let (pages, runs) = blocks_from(runs, span);
    let (entries, pages) = blocks_from(pages, span);
    Front::of(entries_from(entries, span), pages, runs, groups, sections)
}

/// The blocks before the one in which the range ends, and the items of that one.
fn blocks_until<'a, E: PageEntry, T: Level<E>, S: Span<E>>(
    blocks: &'a [Arc<Block<T>>],
    span: &S,
) -> (&'a [Arc<Block<T>>], &'a [T])
    requires { IsRising E.order (flat_map (of_block T.entries) blocks.now) }
    ensures parts { flat_map (of_block T.entries) result.0.now
        ++ until_span (S.side span.now) (flat_map T.entries result.1.now)
        ≡ until_span (S.side span.now) (flat_map (of_block T.entries) blocks.now) }
    ensures rises { IsRising E.order (flat_map T.entries result.1.now) }
{
    let (before, from) = split_before_edge(blocks, &Until(span));
    let (items, _) = split_first_block(from);
    (before, items)
}

/// The entries up to the first that stands past the range.
fn entries_until<'a, E: PageEntry, S: Span<E>>(entries: &'a [Leaf<E>], span: &S) -> &'a [Leaf<E>]
    requires { IsRising E.order (flat_map singleton entries.now) }
    ensures { flat_map singleton result.now ≡ until_span (S.side span.now) (flat_map singleton entries.now) }
{
    let (front, _) = split_at_edge(entries, &Until(span));
    front
}

/// The entries of groups and of runs, and those of pages up to the first that stands past the range.
fn pages_until<'a, E: PageEntry, S: Span<E>>(
    groups: &'a [Group<E>],
    runs: &'a [Run<E>],
    pages: &'a [Page<E>],
    span: &S,
) -> Back<'a, E>
    requires { IsRising E.order (flat_map of_page pages.now) }
    ensures { result ≡ flat_map of_group groups.now ++ (flat_map of_run runs.now
        ++ until_span (S.side span.now) (flat_map of_page pages.now)) }
{
    let (pages, entries) = blocks_until(pages, span);
    Back::of(groups, runs, pages, entries_until(entries, span))
}

/// The entries of groups, and those of runs up to the first that stands past the range.
fn runs_until<'a, E: PageEntry, S: Span<E>>(
    groups: &'a [Group<E>],
    runs: &'a [Run<E>],
    span: &S,
) -> Back<'a, E>
    requires { IsRising E.order (flat_map of_run runs.now) }
    ensures { result ≡ flat_map of_group groups.now
        ++ until_span (S.side span.now) (flat_map of_run runs.now) }
{
    let (runs, pages) = blocks_until(runs, span);
    pages_until(groups, runs, pages, span)
}

/// The entries of groups up to the first that stands past the range.
fn groups_until<'a, E: PageEntry, S: Span<E>>(groups: &'a [Group<E>], span: &S) -> Back<'a, E>
    requires { IsRising E.order (flat_map of_group groups.now) }
    ensures { result ≡ until_span (S.side span.now) (flat_map of_group groups.now) }
{
    let (groups, runs) = blocks_until(groups, span);
    runs_until(groups, runs, span)
}

/// Whether the first of the items begins with an entry that is not past the range.
fn reaches<E: PageEntry, T: Level<E>, S: Span<E>>(items: &[T], span: &S) -> bool
    ensures { Holds (answer_of result
        (first_passes (λ e. not (is_gt (S.side span.now e))) (flat_map T.entries items.now))
        (begins_with (λ e. is_gt (S.side span.now e)) (flat_map T.entries items.now))) }
{
    match items.first() {
        Some(item) => Until(span).passes(item),
        None => false,
    }
}

/// The entries of a page, of pages and of runs up to the first that stands past the range.
fn until_in_runs<'a, E: PageEntry, S: Span<E>>(
    entries: &'a [Leaf<E>],
    pages: &'a [Page<E>],
    runs: &'a [Run<E>],
    span: &S,
) -> Range<'a, E>
    requires { IsRising E.order (flat_map singleton entries.now
        ++ (flat_map of_page pages.now ++ flat_map of_run runs.now)) }
    ensures { result ≡ until_span (S.side span.now)
        (flat_map singleton entries.now ++ (flat_map of_page pages.now ++ flat_map of_run runs.now)) }
{
    if reaches(runs, span) {
        return Range {
            front: Front::of(entries, pages, &[], &[], &[]),
            back: runs_until(&[], runs, span),
        };
    }
    if reaches(pages, span) {
        return Range {
            front: Front::of(entries, &[], &[], &[], &[]),
            back: pages_until(&[], &[], pages, span),
        };
    }
    Range {
        front: Front::of(entries_until(entries, span), &[], &[], &[], &[]),
        back: Back::of(&[], &[], &[], &[]),
    }
}

/// The entries up to the first that stands past the range.
pub(crate) fn all_until<'a, E: PageEntry, S: Span<E>>(front: Front<'a, E>, span: &S) -> Range<'a, E>
    requires { IsRising E.order front }
    ensures { result ≡ until_span (S.side span.now) front.entry }
{
    let Front { entries, pages } = front;
    let FrontPages {
        pages,
        runs,
        groups,
        sections,
    } = pages;
    if reaches(sections, span) {
        let (sections, last) = blocks_until(sections, span);
        return Range {
            front: Front::of(entries, pages, runs, groups, sections),
            back: groups_until(last, span),
        };
    }
    if reaches(groups, span) {
        return Range {
            front: Front::of(entries, pages, runs, &[], &[]),
            back: groups_until(groups, span),
        };
    }
    until_in_runs(entries, pages, runs, span)
}
