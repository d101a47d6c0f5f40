//! The class of a cell, and the least of the cells that are not allowed, out of the index by dimensions.
//! Nothing here takes memory.
ghost use Rattle.std.specs.Prelude.{◌≡◌, [], ◌∷◌, List, option_map, ◌++◌, IfSome, IsTrue, true};
ghost use Rattle.std.specs.List.{filter, fold, list_all};
ghost use Rattle.std.specs.Iterator.{IsFinite, Drains, YieldsFirstRef, item_count};
ghost use Rattle.std.specs.Borrow.{Bor};
ghost use Rattle.sorted_pages.specs.Sorted.{IsRising};
ghost use Rattle.filing_model.specs.Common.Text.{Text};
ghost use Rattle.filing_model.specs.Common.TextMap.{TextMap};
ghost use Rattle.filing_model.specs.Oim.Facts.{Fact as PlainFact};
ghost use Rattle.filing_model.specs.Oim.Duplicates.{class_of, facts_of, is_disallowed, lesser_dims, least_disallowed, has_dims};
ghost use Rattle.filing_model.specs.Sessions.Queries.{cell_facts};
ghost use Rattle.filing_facts.specs.Hashes.{cell_hash, hash_of_dims};
ghost use Rattle.filing_index.specs.Index.{hashed_cmp, IsIndex};
ghost use Rattle.filing_index.specs.Cells.{shares_hash, crowded, are_these, facts_given, least_among_facts};
ghost use Rattle.std.specs.Arc.{arc_value};
ghost use Rattle.oim_fact.specs.Tallies.{IsTallyOf};
ghost use Rattle.filing_index.specs.CellSums.{Tells, Keeps};

use crate::index_entry::IndexEntry;
use crate::look_ups::{All, Found, Wanted};
use filing_facts::IndexedFact;
use oim_fact::{Allowed, Class, DimSet, Fact, FactTally, allows, class_over};
use sorted_pages::{Paged, Range};
use std::alloc::Global;
use std::marker::Model;
use std::sync::Arc;
use text_map::NamedValue;

/// The class of the facts with these dimensions, whose hash is given.
///
/// Pages whose facts are all of the cell tell theirs; where others have the hash, the facts are looked at one by one.
pub(crate) fn class_in(index: &Paged<IndexEntry>, hash: u64, dims: &DimSet) -> Class
    requires { hash ≡ hash_of_dims dims.now }
    ensures { (facts : TextMap PlainFact) → IsIndex cell_hash facts index.now
        → result ≡ class_of (cell_facts dims.now facts) }
{
    let cell = Found::of_hash(index, hash, Wanted::Cell(dims), None);
    if let Some(class) = cell.class_of_pages() {
        return class;
    }
    class_over(cell.map(|held| held.value().fact()))
}

/// Whether an entry, if any, has the hash of another.
fn shares_hash(other: Option<&IndexEntry>, entry: &IndexEntry) -> bool
    ensures { result ≡ shares_hash (option_map (λ e. e.now) other.entry) entry.now }
{
    match other {
        Some(other) => other.hash() == entry.hash(),
        None => false,
    }
}

/// A walk over an index that stops at each fact right before another one of its hash.
///
/// A fact that is alone under its hash is alone in its cell, and costs no look-up.
/// Of each cell of two facts or more it meets all but the last.
/// Contracts see the list of the facts still to come.
#[derive(Drop)]
struct Crowded<'a> {
    here: Option<&'a IndexEntry>,
    ahead: Range<'a, IndexEntry>,
}

impl<'a> Model for Crowded<'a> {
    ghost use Rattle.std.specs.Prelude.{List, option_map};
    ghost use Rattle.filing_model.specs.Common.Text.{Text};
    ghost use Rattle.filing_model.specs.Oim.Facts.{Fact as PlainFact};

    ghost Value = { List (Text × PlainFact) };

    ghost use Rattle.filing_index.specs.Cells.{crowded_from};

    ghost view = { λ w. crowded_from (option_map (λ e. e.now) w.here) w.ahead };
}

impl<'a> Crowded<'a> {
    fn of(index: &'a Paged<IndexEntry>) -> Crowded<'a>
        ensures facts { result ≡ crowded index.now }
        ensures rising { IsRising hashed_cmp index.now }
    {
        let mut ahead = index.range(&All);
        let here = ahead.next();
        Crowded { here, ahead }
    }
}

impl<'a> Iterator for Crowded<'a> {
    type Item = &'a NamedValue<IndexedFact>;

    ghost next_gives = { YieldsFirstRef (λ w. w) };

    ghost remaining = { item_count (λ w. w) };

    fn next(&mut self) -> Option<&'a NamedValue<IndexedFact>> {
        while let Some(entry) = self.here {
            self.here = self.ahead.next();
            if shares_hash(self.here, entry) {
                return Some(entry.record());
            }
        }
        None
    }
}

/// Whether other dimensions, if any, are these.
pub(crate) fn are_these(others: Option<&DimSet>, dims: &DimSet) -> bool
    ensures { result ≡ are_these (option_map (λ d. d.now) others.entry) dims.now }
{
    match others {
        Some(others) => others == dims,
        None => false,
    }
}

/// The lesser of two dimension sets, where there is a first.
fn lesser_dims<'a>(least: Option<&'a DimSet>, dims: &'a DimSet) -> Option<&'a DimSet>
    ensures { option_map (λ d. d.now) result ≡ lesser_dims (option_map (λ d. d.now) least.entry) dims.now }
{
    match least {
        None => Some(dims),
        Some(least) => {
            if dims < least {
                Some(dims)
            } else {
                Some(least)
            }
        }
    }
}

/// The lesser of the least so far and the dimensions of a fact, where their cell is not allowed.
pub(crate) fn with_cell<'a>(
    index: &Paged<IndexEntry>,
    allowed: Allowed,
    least: Option<&'a DimSet>,
    held: &'a IndexedFact,
) -> Option<&'a DimSet>
    ensures { (facts : TextMap PlainFact) → IsIndex cell_hash facts index.now
        → option_map (λ d. d.now) result
        ≡ fold lesser_dims (option_map (λ d. d.now) least.entry)
        (filter (is_disallowed allowed (facts_of facts.entries)) (held.now.dims ∷ [])) }
{
    if matches!(allowed, Allowed::All) {
        return least;
    }
    let dims = held.dims();
    if allows(allowed, class_in(index, held.cell_hash(), dims)) {
        return least;
    }
    lesser_dims(least, dims)
}

/// The least dimensions of some facts whose cell is not allowed. The iterator has to end.
///
/// A cell is looked at once for all of its facts that come one after another.
pub(crate) fn least_disallowed_among<'a, I: Iterator<Item = &'a NamedValue<IndexedFact>> + Drop>(
    index: &Paged<IndexEntry>,
    allowed: Allowed,
    facts: I,
) -> Option<&'a DimSet>
    requires can { I.can_next facts }
    requires ends { IsFinite (I.remaining facts) }
    ensures { (given : List (Bor (Text × PlainFact))) × Drains I.next_gives facts given
        × ((all : TextMap PlainFact) → IsIndex cell_hash all index.now
        → option_map (λ d. d.now) result ≡ least_among_facts (facts_given given) allowed all) }
{
    let mut least = None;
    let mut before = None;
    for held in facts {
        let fact = held.value();
        let dims = fact.dims();
        if !are_these(before, dims) {
            least = with_cell(index, allowed, least, fact);
        }
        before = Some(dims);
    }
    least
}

/// The least dimensions of all facts whose cell is not allowed.
pub(crate) fn least_disallowed<'a>(
    index: &'a Paged<IndexEntry>,
    allowed: Allowed,
) -> Option<&'a DimSet>
    ensures { (facts : TextMap PlainFact) → IsIndex cell_hash facts index.now
        → option_map (λ d. d.now) result ≡ least_disallowed allowed facts.entries }
{
    if matches!(allowed, Allowed::All) {
        return None;
    }
    least_disallowed_among(index, allowed, Crowded::of(index))
}

/// A sum of some facts.
#[derive(Drop)]
pub enum CellSum {
    /// There are none.
    Empty,
    /// A tally of them.
    Tally(FactTally),
    /// It says nothing: they may be of several cells.
    Mixed,
}

/// What a page keeps: a tally of its facts, or nothing.
pub type KeptSum = Option<Arc<FactTally>>;

/// The sum that a tally is, if its facts are of one cell.
fn sum_of(tally: FactTally) -> CellSum
    ensures { (facts : List PlainFact) → IsTallyOf tally facts → Tells result facts }
{
    if tally.is_of_one_cell() {
        CellSum::Tally(tally)
    } else {
        CellSum::Mixed
    }
}

/// The sum of one fact. It says nothing where the fact has too many owners.
fn of_fact(fact: &Arc<Fact>) -> CellSum
    ensures { Tells result (arc_value fact.now ∷ []) }
{
    match FactTally::of(fact) {
        Ok(tally) => CellSum::Tally(tally),
        Err(_) => CellSum::Mixed,
    }
}

/// The sum that is a tally. It says nothing where the first fact has too many owners.
fn share_sum(tally: &FactTally) -> CellSum
    ensures { (facts : List PlainFact) → IsTallyOf tally.now facts → Tells result facts }
{
    match tally.share() {
        Ok(tally) => CellSum::Tally(tally),
        Err(_) => CellSum::Mixed,
    }
}

/// A tally as a page keeps it.
fn keep_tally(alloc: Global, tally: FactTally) -> KeptSum
    ensures { (facts : List PlainFact) → IsTallyOf tally facts → Keeps result facts }
{
    match Arc::new(alloc, tally) {
        Ok(kept) => Some(kept),
        Err(_) => None,
    }
}

impl CellSum {
    /// The sum with one more fact at the end.
    pub(crate) fn with(self, fact: &Arc<Fact>) -> CellSum
        ensures { (facts : List PlainFact) → Tells self facts → Tells result (facts ++ arc_value fact.now ∷ []) }
    {
        match self {
            CellSum::Empty => of_fact(fact),
            CellSum::Tally(tally) => with_fact(tally, fact),
            CellSum::Mixed => CellSum::Mixed,
        }
    }

    /// The sum with the facts of a page at the end.
    pub(crate) fn with_kept(self, kept: &KeptSum) -> CellSum
        ensures { (facts more : List PlainFact) → Tells self facts → Keeps kept.now more
            → Tells result (facts ++ more) }
    {
        match kept {
            Some(more) => self.with_tally(more),
            None => CellSum::Mixed,
        }
    }

    /// The sum with the facts of a tally at the end.
    fn with_tally(self, more: &FactTally) -> CellSum
        ensures { (facts others : List PlainFact) → Tells self facts → IsTallyOf more.now others
            → Tells result (facts ++ others) }
    {
        match self {
            CellSum::Empty => share_sum(more),
            CellSum::Tally(tally) => with_facts(tally, more),
            CellSum::Mixed => CellSum::Mixed,
        }
    }

    /// What a page keeps of the sum. It is nothing where memory is refused.
    pub(crate) fn keep(self, alloc: Global) -> KeptSum
        ensures { (facts : List PlainFact) → Tells self facts → Keeps result facts }
    {
        match self {
            CellSum::Tally(tally) => keep_tally(alloc, tally),
            CellSum::Empty | CellSum::Mixed => None,
        }
    }

    /// Whether it says nothing.
    pub(crate) fn is_mixed(&self) -> bool
        ensures { IsTrue result → (facts : List PlainFact) → Tells self.now facts }
    {
        matches!(self, CellSum::Mixed)
    }

    /// The class of the facts, where it says that they have these dimensions.
    pub(crate) fn class(self, dims: &DimSet) -> Option<Class>
        ensures { IfSome result (λ class. (facts : List PlainFact) → Tells self facts
            → (list_all (has_dims dims.now) facts ≡ true) × (class ≡ class_of facts)) }
    {
        let CellSum::Tally(tally) = self else {
            return None;
        };
        if tally.is_of(dims) {
            Some(tally.class())
        } else {
            None
        }
    }
}

/// A tally with one more fact.
fn with_fact(tally: FactTally, fact: &Arc<Fact>) -> CellSum
    ensures { (facts : List PlainFact) → IsTallyOf tally facts → Tells result (facts ++ arc_value fact.now ∷ []) }
{
    let mut tally = tally;
    tally.add(fact);
    sum_of(tally)
}

/// A tally with the facts of another.
fn with_facts(tally: FactTally, more: &FactTally) -> CellSum
    ensures { (facts others : List PlainFact) → IsTallyOf tally facts → IsTallyOf more.now others
        → Tells result (facts ++ others) }
{
    let mut tally = tally;
    tally.add_all(more);
    sum_of(tally)
}
