//! The sorted list itself.
ghost use Rattle.std.specs.Prelude.{◌≡◌, ◌≤◌, ◌<◌, if◌then◌else◌, [], length, map, get_or};
ghost use Rattle.std.specs.Prelude.{IfOk, IfSome, Some, None, option_copied};
ghost use Rattle.std.specs.Ordering.{is_eq};
ghost use Rattle.std.specs.FinMap.Entries.{find};
ghost use Rattle.std.specs.List.{flat_map, remove};
ghost use Rattle.sorted_pages.specs.Pages.{AreSizes, of_section, singleton};
ghost use Rattle.sorted_pages.specs.Sorted.{IsRising, keyed};
ghost use Rattle.sorted_pages.specs.Ranges.{from_span, within, first_within};
ghost use Rattle.sorted_pages.specs.Changes.{entry_of, with_change, with_change_if, with_changes};
ghost use Rattle.sorted_pages.specs.Edges.{first_passes};
ghost use Rattle.sorted_pages.specs.declared.apply.Edit.TheVariants.{Remove};

use crate::apply::{Changing, Edit, apply_to_blocks, fill_blocks};
use crate::block::Layout;
use crate::edge::{Before, split_at_edge};
use crate::entry::{PageEntry, Span};
use crate::in_place::InPlace;
use crate::level::{Group, Leaf, Section};
use crate::range::{Front, FrontPages, Range, all_from, all_until, entries_from};
use crate::spans::Tie;
use std::alloc::{AllocError, Global};
use std::marker::Model;

/// An unchanging sorted list of entries, of which a changed copy shares the pages where nothing changed.
///
/// The entries of a short list stand in place, so that a changed copy of it asks for memory once.
/// Where there are sections, none do.
///
/// Contracts see the list of the entries.
#[derive(Drop)]
pub struct Paged<E: PageEntry> {
    entries: Vec<Leaf<E>>,
    sections: Vec<Section<E>>,
}

impl<E: PageEntry> Model for Paged<E> {
    ghost use Rattle.std.specs.Prelude.{List, ◌++◌};
    ghost use Rattle.std.specs.List.{flat_map};
    ghost use Rattle.sorted_pages.specs.Pages.{singleton, of_section};
    ghost use Rattle.sorted_pages.specs.Blocks.{IsShortOrLong};

    ghost Value = { List E };

    ghost view = { λ p. flat_map singleton p.entries.items ++ flat_map of_section p.sections.items };

    ghost invariant = { λ p. IsShortOrLong E.order p.entries.items p.sections.items };
}

/// The entry, where it is in the range.
fn only_in<'a, E: PageEntry, S: Span<E>>(entry: &'a E, span: &S) -> Option<&'a E>
    ensures { option_copied result ≡ (if is_eq (S.side span.now entry.now) then Some entry.now else None) }
{
    if span.side(entry).is_eq() {
        Some(entry)
    } else {
        None
    }
}

/// Whether the first of these is in the range.
fn is_in<E: PageEntry, S: Span<E>>(entries: &[Leaf<E>], span: &S) -> bool
    ensures { result ≡ first_passes (λ e. is_eq (S.side span.now e)) entries.now }
{
    match entries.first() {
        Some(first) => span.side(first.entry()).is_eq(),
        None => false,
    }
}

/// The first entries, the one that follows them, and the others.
fn taken_at<E>(entries: Vec<Leaf<E>>, place: usize) -> (Vec<Leaf<E>>, E)
    requires { place < length entries.items }
    ensures left { result.0.items ≡ remove entries.items place }
    ensures fewer { length result.0.items ≤ length entries.items }
    ensures entry { result.1 ≡ get_or entries.items place result.1 }
{
    let mut entries = entries;
    let taken = entries.remove(place);
    (entries, taken.into_entry())
}

/// The list of entries that stand in place.
fn short_of_sorted<E: PageEntry>(alloc: Global, entries: Vec<E>) -> Result<Paged<E>, AllocError>
    requires rises { IsRising E.order entries.items }
    requires few { length entries.items ≤ 64 }
    ensures { IfOk result (λ p. p ≡ entries.items) }
{
    let room: Vec<Leaf<E>> = Vec::with_capacity(alloc, entries.len())?;
    let entries = Leaf::fill(alloc, Layout::Filled, entries, room)?;
    Ok(Paged::of_entries(alloc, entries))
}

/// The list of entries that stand in sections.
fn long_of_sorted<E: PageEntry>(
    alloc: Global,
    layout: Layout,
    entries: Vec<E>,
) -> Result<Paged<E>, AllocError>
    requires { IsRising E.order entries.items }
    ensures { IfOk result (λ p. p ≡ entries.items) }
{
    let sections: Vec<Section<E>> = Vec::new(alloc);
    let sections = fill_blocks::<E, Group<E>, Vec<Section<E>>>(alloc, layout, entries, sections)?;
    Ok(Paged::of_sections(alloc, sections))
}

/// The entries out of their places.
fn move_out<E: Drop>(alloc: Global, places: Vec<Leaf<E>>) -> Result<Vec<E>, AllocError>
    ensures { IfOk result (λ entries. entries.items ≡ places.items) }
{
    let mut entries = Vec::with_capacity(alloc, places.len())?;
    for place in places {
        entries.push(place.into_entry())?;
    }
    Ok(entries)
}

/// The list after changes of one whose entries stand in place.
fn short_after<E: PageEntry>(
    alloc: Global,
    entries: &[Leaf<E>],
    changes: &[Edit<E>],
) -> Result<Paged<E>, AllocError>
    requires entries { IsRising E.order (flat_map singleton entries.now) }
    requires changes { IsRising E.order (map entry_of changes.now) }
    ensures { IfOk result (λ p. p ≡ with_changes E.order changes.now (flat_map singleton entries.now)) }
{
    let most = entries.len().saturating_add(changes.len());
    let room: Vec<Leaf<E>> = Vec::with_capacity(alloc, most)?;
    let entries = Leaf::apply(alloc, entries, changes, room)?;
    if entries.len() <= E::most_in_page() {
        Ok(Paged::of_entries(alloc, entries))
    } else {
        let entries = move_out(alloc, entries)?;
        long_of_sorted(alloc, Layout::Halved, entries)
    }
}

/// The list after changes of one whose entries stand in sections.
fn long_after<E: PageEntry>(
    alloc: Global,
    sections: &[Section<E>],
    changes: &[Edit<E>],
) -> Result<Paged<E>, AllocError>
    requires entries { IsRising E.order (flat_map of_section sections.now) }
    requires changes { IsRising E.order (map entry_of changes.now) }
    ensures { IfOk result (λ p. p ≡ with_changes E.order changes.now (flat_map of_section sections.now)) }
{
    let room = sections.len().saturating_add(1);
    let grown = Vec::with_capacity(alloc, room)?;
    let sections = apply_to_blocks(alloc, sections, changes, grown)?;
    Ok(Paged::of_sections(alloc, sections))
}

impl<E: PageEntry> Paged<E> {
    /// The list of no entry. It takes no memory.
    pub fn new(alloc: Global) -> Paged<E>
        ensures { result ≡ [] }
    {
        Paged {
            entries: Vec::new(alloc),
            sections: Vec::new(alloc),
        }
    }

    /// A list whose entries stand in place.
    fn of_entries(alloc: Global, entries: Vec<Leaf<E>>) -> Paged<E>
        requires rises { IsRising E.order (flat_map singleton entries.items) }
        requires few { length entries.items ≤ 64 }
        ensures { result ≡ flat_map singleton entries.items }
    {
        Paged {
            entries,
            sections: Vec::new(alloc),
        }
    }

    /// A list whose entries stand in sections.
    fn of_sections(alloc: Global, sections: Vec<Section<E>>) -> Paged<E>
        requires { IsRising E.order (flat_map of_section sections.items) }
        ensures { result ≡ flat_map of_section sections.items }
    {
        Paged {
            entries: Vec::new(alloc),
            sections,
        }
    }

    /// The list of entries that rise.
    pub fn of_sorted(alloc: Global, entries: Vec<E>) -> Result<Paged<E>, AllocError>
        requires { IsRising E.order entries.items }
        ensures { IfOk result (λ p. p ≡ entries.items) }
    {
        if entries.len() <= E::most_in_page() {
            short_of_sorted(alloc, entries)
        } else {
            long_of_sorted(alloc, Layout::Filled, entries)
        }
    }

    /// A copy with changes whose entries rise. This list stays as it is.
    pub fn after(&self, alloc: Global, changes: &[Edit<E>]) -> Result<Paged<E>, AllocError>
        requires { IsRising E.order (map entry_of changes.now) }
        ensures { IfOk result (λ p. p ≡ with_changes E.order changes.now self.now) }
    {
        if self.sections.is_empty() {
            short_after(alloc, &self.entries, changes)
        } else {
            long_after(alloc, &self.sections, changes)
        }
    }

    /// Makes a change in place where no other list holds what it changes and it fits, and says whether it did.
    fn change(&mut self, change: &Edit<E>) -> Result<bool, AllocError>
        ensures { IfOk result (λ is_made. self.new ≡ with_change_if is_made E.order change.now self.old) }
    {
        if self.sections.is_empty() {
            return Leaf::change(&mut self.entries, change);
        }
        Section::change(&mut self.sections, change)
    }

    /// Makes one change, in place where that can be done, and else in a copy.
    fn make(&mut self, alloc: Global, one: &[Edit<E>]) -> Result<(), AllocError>
        requires { IsRising E.order (map entry_of one.now) }
        ensures { IfOk result (λ _. self.new ≡ with_changes E.order one.now self.old) }
    {
        if let [change] = one
            && self.change(change)?
        {
            return Ok(());
        }
        *self = self.after(alloc, one)?;
        Ok(())
    }

    /// The list after changes whose entries rise, in place where no other list holds what they change and they fit.
    /// Each change takes as long as it would alone.
    pub fn into_after(self, alloc: Global, changes: &[Edit<E>]) -> Result<Paged<E>, AllocError>
        requires { IsRising E.order (map entry_of changes.now) }
        ensures { IfOk result (λ p. p ≡ with_changes E.order changes.now self) }
    {
        let mut list = self;
        let mut ahead = changes;
        while !ahead.is_empty() {
            let (one, later) = ahead.split_at(1);
            list.make(alloc, one)?;
            ahead = later;
        }
        Ok(list)
    }

    /// Takes the first entry in a range out of a list whose entries stand in place. Out of sections none is taken.
    pub fn take<S: Span<E>>(self, alloc: Global, span: &S) -> (Paged<E>, Option<E>)
        ensures none { result.1 ≡ None → result.0 ≡ self }
        ensures some { IfSome result.1 (λ e. (Some e ≡ first_within (S.side span.now) self)
            × (result.0 ≡ with_change E.order (Remove e) self)) }
    {
        let Paged { entries, sections } = self;
        let (before, rest) = split_at_edge(&entries, &Before(span));
        let (place, is_there) = (before.len(), is_in(rest, span));
        if !is_there {
            return (Paged { entries, sections }, None);
        }
        let (entries, taken) = taken_at(entries, place);
        (Paged::of_entries(alloc, entries), Some(taken))
    }

    /// The entries from the first on that does not stand before the range.
    fn front_from<S: Span<E>>(&self, span: &S) -> Front<'_, E>
        ensures front { result ≡ from_span (S.side span.now) self.now }
        ensures rising { IsRising E.order self.now }
    {
        if !self.sections.is_empty() {
            return all_from(&self.sections, span);
        }
        Front::of(entries_from(&self.entries, span), &[], &[], &[], &[])
    }

    /// The entries in a range. It takes no memory.
    pub fn range<S: Span<E>>(&self, span: &S) -> Range<'_, E>
        ensures entries { result ≡ within (S.side span.now) self.now }
        ensures rising { IsRising E.order self.now }
    {
        all_until(self.front_from(span), span)
    }

    /// The first entry in a range.
    pub fn first_in<S: Span<E>>(&self, span: &S) -> Option<&E>
        ensures { option_copied result ≡ first_within (S.side span.now) self.now }
    {
        match self.front_from(span).next() {
            Some(first) => only_in(first, span),
            None => None,
        }
    }

    /// The entry that ties with this one.
    pub fn get(&self, like: &E) -> Option<&E>
        ensures { option_copied result ≡ find E.order like.now (keyed self.now) }
    {
        self.first_in(&Tie(like))
    }

    /// The lengths of the pages, for tests.
    pub fn page_sizes(&self, alloc: Global) -> Result<Vec<usize>, AllocError>
        ensures { IfOk result (λ sizes. AreSizes sizes.items (length self.now)) }
    {
        let mut sizes = Vec::new(alloc);
        if !self.entries.is_empty() {
            sizes.push(self.entries.len())?;
            return Ok(sizes);
        }
        let mut left = FrontPages::of(&self.sections);
        while let Some(page) = left.next_page() {
            sizes.push(page.items().len())?;
        }
        Ok(sizes)
    }
}
