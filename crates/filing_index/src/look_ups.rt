//! What the facts of a report answer: cells, queries, and cells that are not allowed. It takes no memory.
ghost use Rattle.std.specs.Prelude.{◌≡◌, [], ◌∷◌, option_map, map, IfSome};
ghost use Rattle.std.specs.List.{filter, fold};
ghost use Rattle.filing_model.specs.Oim.Duplicates.{class_of, facts_of, is_disallowed, lesser_dims, least_disallowed};
ghost use Rattle.filing_model.specs.Sessions.Queries.{cell_facts, cell_ids, ids_for};
ghost use Rattle.oim_fact.specs.PeriodFilterRef.{period_filter_of};
ghost use Rattle.filing_index.specs.Cells.{WasLookedAt};
ghost use Rattle.filing_model.specs.Oim.Facts.{Fact as PlainFact};
ghost use Rattle.filing_facts.specs.Hashes.{query_hash, cell_hash, hash_of_dims};
ghost use Rattle.filing_index.specs.IndexKinds.{hash_in};
ghost use Rattle.filing_index.specs.Wanted.{is_wanted, hash_of, hashed_by};
ghost use Rattle.std.specs.Iterator.{YieldsFirstRef, item_count};
ghost use Rattle.filing_model.specs.Common.TextMap.{TextMap};
ghost use Rattle.filing_index.specs.Index.{IsIndex};
ghost use Rattle.filing_index.specs.Found.{passing, found, side_after};

use crate::cells::{are_these, class_in, least_disallowed, with_cell};
use crate::facts::Facts;
use crate::index_entry::{IndexEntry, IndexKind};
use filing_facts::{IndexedFact, hash_of_concept, hash_of_dims, hash_of_period};
use filing_model::is_same_text;
use oim_fact::{Allowed, Class, DimSet, PeriodFilterRef};
use sorted_pages::{Paged, Range, Span, order_of_keys};
use std::cmp::Ordering;
use std::marker::Model;
use text_map::NamedValue;

impl Facts {
    /// The class of the facts with these dimensions, and their identifiers in byte order.
    pub fn cell<'a>(&'a self, dims: &'a DimSet) -> (Class, Ids<'a>)
        ensures { result ≡ (class_of (cell_facts dims.now self.now), cell_ids dims.now self.now) }
    {
        let index = self.index(IndexKind::Cell);
        let hash = hash_of_dims(dims);
        (class_in(index, hash, dims), Ids::of_cell(index, hash, dims))
    }

    /// The identifiers of a query, in byte order: those that are greater than one, where one is given.
    pub fn ids_of_query<'a>(
        &'a self,
        concept: &'a str,
        period: PeriodFilterRef<'a>,
        after: Option<&str>,
    ) -> Ids<'a>
        ensures { result ≡ ids_for (record {
          concept = concept.now;
          period = period_filter_of period.entry;
          after = option_map (λ t. t.now) after.entry;
        }) self.now }
    {
        Ids::of_query(self.index(index_kind_for(period)), concept, period, after)
    }

    /// The lesser of the least so far, if any, and the dimensions of a fact, if their cell is not allowed.
    /// Dimensions that were looked at right before are not looked at again.
    pub fn lesser_disallowed<'a>(
        &self,
        allowed: Allowed,
        least: Option<&'a DimSet>,
        before: Option<&DimSet>,
        held: &'a IndexedFact,
    ) -> Option<&'a DimSet>
        ensures { WasLookedAt (is_disallowed allowed (facts_of self.now.entries)) (option_map (λ d. d.now) before.entry)
            (option_map (λ d. d.now) least.entry)
            → option_map (λ d. d.now) result
            ≡ fold lesser_dims (option_map (λ d. d.now) least.entry)
            (filter (is_disallowed allowed (facts_of self.now.entries)) (held.now.dims ∷ [])) }
    {
        if are_these(before, held.dims()) {
            return least;
        }
        with_cell(self.index(IndexKind::Cell), allowed, least, held)
    }

    /// The least dimensions whose cell is not allowed. It is one walk.
    pub fn least_disallowed(&self, allowed: Allowed) -> Option<&DimSet>
        ensures { option_map (λ d. d.now) result ≡ least_disallowed allowed self.now.entries }
    {
        least_disallowed(self.index(IndexKind::Cell), allowed)
    }
}

/// The kind of index in which the facts that pass a period filter stand together.
pub(crate) fn index_kind_for(period: PeriodFilterRef<'_>) -> IndexKind
    ensures { (fact : PlainFact) → hash_in result fact ≡ query_hash (period_filter_of period.entry) fact }
{
    match period {
        PeriodFilterRef::Any => IndexKind::Concept,
        PeriodFilterRef::Without | PeriodFilterRef::Text(_) => IndexKind::Period,
    }
}

/// What a fact has that is looked for.
#[derive(Clone, Copy)]
pub(crate) enum Wanted<'a> {
    /// These dimensions.
    Cell(&'a DimSet),
    /// This concept, and a period that passes the filter.
    Query {
        concept: &'a str,
        period: PeriodFilterRef<'a>,
    },
}

impl<'a> Wanted<'a> {
    /// Whether a fact is one that is looked for.
    pub(crate) fn is_met(self, held: &IndexedFact) -> bool
        ensures { result ≡ is_wanted self.entry held.now }
    {
        match self {
            Wanted::Cell(dims) => *dims == held.fact().dims,
            Wanted::Query { concept, period } => {
                is_same_text(concept, held.concept()) && period.is_met(held.period())
            }
        }
    }

    /// The hash of what is looked for.
    pub(crate) fn hash(self) -> u64
        ensures { result ≡ hash_of self.entry }
    {
        match self {
            Wanted::Cell(dims) => hash_of_dims(dims),
            Wanted::Query { concept, period } => match period {
                PeriodFilterRef::Any => hash_of_concept(concept),
                PeriodFilterRef::Without => hash_of_period(concept, None),
                PeriodFilterRef::Text(text) => hash_of_period(concept, Some(text)),
            },
        }
    }
}

/// The entries of one hash whose identifiers are greater than one, where one is given.
#[derive(Drop)]
struct OfHash<'a> {
    hash: u64,
    after: Option<&'a str>,
}

impl<'a> Span<IndexEntry> for OfHash<'a> {
    ghost use Rattle.std.specs.Prelude.{option_map};
    ghost use Rattle.filing_index.specs.Found.{side_of};
    ghost use Rattle.filing_index.specs.HashRanges.{side_is_monotone};

    ghost side = { λ s e. side_of s.hash (option_map (λ t. t.now) s.after) e };

    ghost is_monotone = { λ s. side_is_monotone s.hash (option_map (λ t. t.now) s.after) };

    fn side(&self, entry: &IndexEntry) -> Ordering {
        match entry.hash().cmp(&self.hash) {
            Ordering::Less => Ordering::Less,
            Ordering::Equal => side_after(self.after, entry.record().name()),
            Ordering::Greater => Ordering::Greater,
        }
    }

    fn side_of_key(&self, key: u64) -> Option<Ordering> {
        order_of_keys(key, self.hash)
    }
}

/// A fact under this hash, if there is one. Which it is decides nothing.
pub(crate) fn first_of_hash(index: &Paged<IndexEntry>, hash: u64) -> Option<&IndexedFact> {
    let entry = index.first_in(&OfHash { hash, after: None })?;
    Some(entry.record().value())
}

/// All entries.
#[derive(Drop)]
pub(crate) struct All;

impl Span<IndexEntry> for All {
    ghost use Rattle.std.specs.declared.cmp.Ordering.TheVariants.{Equal};
    ghost use Rattle.filing_index.specs.HashRanges.{all_is_monotone};

    ghost side = { λ a e. Equal };

    ghost is_monotone = { λ a. all_is_monotone };

    fn side(&self, _: &IndexEntry) -> Ordering {
        Ordering::Equal
    }

    fn side_of_key(&self, _: u64) -> Option<Ordering> {
        Some(Ordering::Equal)
    }
}

/// `Equal` where an identifier is greater than `after`, or none is given; else `Less`.
fn side_after(after: Option<&str>, id: &str) -> Ordering
    ensures { result ≡ side_after (option_map (λ t. t.now) after.entry) id.now }
{
    match after {
        None => Ordering::Equal,
        Some(last) => {
            if last < id {
                Ordering::Equal
            } else {
                Ordering::Less
            }
        }
    }
}

/// The facts that are looked for, in byte order of their identifiers. It takes no memory.
///
/// Facts that have their hash by chance are passed over, so nothing depends on how hashes are made.
/// Contracts see the list of those still to come.
#[derive(Drop)]
pub(crate) struct Found<'a> {
    entries: Range<'a, IndexEntry>,
    wanted: Wanted<'a>,
}

impl<'a> Model for Found<'a> {
    ghost use Rattle.std.specs.Prelude.{List};
    ghost use Rattle.filing_model.specs.Common.Text.{Text};
    ghost use Rattle.filing_model.specs.Oim.Facts.{Fact as PlainFact};

    ghost Value = { List (Text × PlainFact) };

    ghost use Rattle.filing_index.specs.Found.{passing};
    ghost use Rattle.filing_index.specs.Wanted.{is_wanted};

    ghost view = { λ f. passing (is_wanted f.wanted) f.entries };
}

/// The next of the entries that is looked for.
fn next_wanted<'a>(
    entries: &mut Range<'a, IndexEntry>,
    wanted: Wanted<'_>,
) -> Option<&'a NamedValue<IndexedFact>>
    ensures { YieldsFirstRef (passing (is_wanted wanted.entry)) entries.old result entries.new }
{
    while let Some(entry) = entries.next() {
        let held = entry.record();
        if wanted.is_met(held.value()) {
            return Some(held);
        }
    }
    None
}

impl<'a> Found<'a> {
    /// The facts that are wanted, out of the index by whose hash they are looked for;
    /// if `after` is given, only those with greater identifiers.
    pub(crate) fn of(
        index: &'a Paged<IndexEntry>,
        wanted: Wanted<'a>,
        after: Option<&str>,
    ) -> Found<'a>
        ensures { (facts : TextMap PlainFact) → IsIndex (hashed_by wanted.entry) facts index.now
            → result ≡ found (is_wanted wanted.entry) (option_map (λ t. t.now) after.entry) facts }
    {
        Found::of_hash(index, wanted.hash(), wanted, after)
    }

    /// The facts that are wanted, out of the index by whose hash they are looked for, which is given;
    /// if `after` is given, only those with greater identifiers.
    pub(crate) fn of_hash(
        index: &'a Paged<IndexEntry>,
        hash: u64,
        wanted: Wanted<'a>,
        after: Option<&str>,
    ) -> Found<'a>
        requires { hash ≡ hash_of wanted }
        ensures { (facts : TextMap PlainFact) → IsIndex (hashed_by wanted.entry) facts index.now
            → result ≡ found (is_wanted wanted.entry) (option_map (λ t. t.now) after.entry) facts }
    {
        let entries = index.range(&OfHash { hash, after });
        Found { entries, wanted }
    }
}

impl<'a> Found<'a> {
    /// The class of the facts of a cell, if pages keep it. It takes no memory.
    pub(crate) fn class_of_pages(&self) -> Option<Class>
        ensures { IfSome result (λ class. class ≡ class_of (map (λ e. e.1) self.now)) }
    {
        let Wanted::Cell(dims) = self.wanted else {
            return None;
        };
        if self.entries.spans_pages() {
            self.entries.total().class(dims)
        } else {
            None
        }
    }
}

impl<'a> Iterator for Found<'a> {
    type Item = &'a NamedValue<IndexedFact>;

    ghost next_gives = { YieldsFirstRef (λ f. f) };

    ghost remaining = { item_count (λ f. f) };

    fn next(&mut self) -> Option<&'a NamedValue<IndexedFact>> {
        next_wanted(&mut self.entries, self.wanted)
    }
}

/// Identifiers of facts, in byte order. It takes no memory.
///
/// Contracts see the list of those still to come.
#[derive(Drop)]
pub struct Ids<'a> {
    facts: Found<'a>,
}

impl<'a> Model for Ids<'a> {
    ghost use Rattle.std.specs.Prelude.{List, map};
    ghost use Rattle.filing_model.specs.Common.Text.{Text};

    ghost Value = { List Text };

    ghost view = { λ i. map (λ e. e.0) i.facts };
}

impl<'a> Ids<'a> {
    /// The identifiers of a cell, out of the index by dimensions. The hash is that of the dimensions.
    pub(crate) fn of_cell(index: &'a Paged<IndexEntry>, hash: u64, dims: &'a DimSet) -> Ids<'a>
        requires { hash ≡ hash_of_dims dims.now }
        ensures { (facts : TextMap PlainFact) → IsIndex cell_hash facts index.now
            → result ≡ cell_ids dims.now facts }
    {
        let facts = Found::of_hash(index, hash, Wanted::Cell(dims), None);
        Ids { facts }
    }

    /// The identifiers of a query, out of the index that answers it; if `after` is given, only those greater than it.
    pub(crate) fn of_query(
        index: &'a Paged<IndexEntry>,
        concept: &'a str,
        period: PeriodFilterRef<'a>,
        after: Option<&str>,
    ) -> Ids<'a>
        ensures { (facts : TextMap PlainFact) → IsIndex (query_hash (period_filter_of period.entry)) facts index.now
            → result ≡ ids_for (record {
              concept = concept.now;
              period = period_filter_of period.entry;
              after = option_map (λ t. t.now) after.entry;
            }) facts }
    {
        let facts = Found::of(index, Wanted::Query { concept, period }, after);
        Ids { facts }
    }
}

impl<'a> Iterator for Ids<'a> {
    type Item = &'a str;

    ghost next_gives = { YieldsFirstRef (λ i. i) };

    ghost remaining = { item_count (λ i. i) };

    fn next(&mut self) -> Option<&'a str> {
        let held = self.facts.next()?;
        Some(held.name())
    }
}
