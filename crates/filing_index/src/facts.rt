//! The facts of one report, by their identifiers and in indexes.
ghost use Rattle.std.specs.Prelude.{◌≡◌, ◌++◌, [], ◌∷◌, Option, length, option_map, T as Holds, IfOk, OnOk};
ghost use Rattle.std.specs.FinMap.Entries.{is_sorted};
ghost use Rattle.sorted_pages.specs.Pages.{AreSizes};
ghost use Rattle.filing_model.specs.Common.Text.{text_cmp};
ghost use Rattle.filing_model.specs.Common.TextMap.{TextMap, empty, get};
ghost use Rattle.filing_model.specs.Oim.Facts.{Fact as PlainFact};
ghost use Rattle.filing_index.specs.Index.{IsIndex};
ghost use Rattle.filing_index.specs.IndexKinds.{hash_in};
ghost use Rattle.filing_facts.specs.FactChanges.{with_changes};
ghost use Rattle.filing_index.specs.ChangedIndexes.{fact_changes_in, AreFactChanges};
ghost use Rattle.std.specs.Arc.{arc_value};

use crate::index_entry::{IndexEntry, IndexKind};
use crate::indexing::{ids_after, ids_into_after, index_after, index_into_after, index_of, pair};
use crate::look_ups::first_of_hash;
use filing_facts::{FactChange, IndexedFact};
use oim_fact::Fact;
use sorted_pages::{PageEntry, Paged, Range};
use std::alloc::{AllocError, Global};
use std::marker::Model;
use std::sync::Arc;
use text_map::{NamedValue, TextPages};

/// The facts of one report by their identifiers, with an index of each kind.
/// A changed copy shares all that did not change.
///
/// Contracts see the finite map.
#[derive(Drop)]
pub struct Facts {
    by_id: TextPages<IndexedFact>,
    by_cell: Paged<IndexEntry>,
    by_period: Paged<IndexEntry>,
    by_concept: Paged<IndexEntry>,
}

impl Model for Facts {
    ghost use Rattle.filing_model.specs.Common.TextMap.{TextMap};
    ghost use Rattle.filing_model.specs.Oim.Facts.{Fact as PlainFact};
    ghost use Rattle.filing_index.specs.IndexKinds.{AreIndexes};

    ghost Value = { TextMap PlainFact };

    ghost view = { λ f. f.by_id };

    ghost invariant = { λ f. AreIndexes f.by_id f.by_cell f.by_period f.by_concept };
}

/// Another owner of a fact. If another fact is given and has its concept and its period, it shares them.
fn share_fact(held: &IndexedFact, other: Option<&IndexedFact>) -> Result<IndexedFact, AllocError>
    ensures { IfOk result (λ h. h ≡ held.now) }
{
    match other {
        Some(other) => held.share_beside(other),
        None => held.share(),
    }
}

impl Facts {
    /// Facts whose identifiers rise. It takes time n log n in the facts.
    pub fn of_sorted(
        alloc: Global,
        facts: Vec<NamedValue<IndexedFact>>,
    ) -> Result<Facts, AllocError>
        requires { Holds (is_sorted text_cmp facts.items) }
        ensures { IfOk result (λ f. f.entries ≡ facts.items) }
    {
        let by_cell = index_of(alloc, IndexKind::Cell, &facts)?;
        let by_period = index_of(alloc, IndexKind::Period, &facts)?;
        let by_concept = index_of(alloc, IndexKind::Concept, &facts)?;
        let by_id = TextPages::of_sorted(alloc, facts)?;
        Ok(Facts {
            by_id,
            by_cell,
            by_period,
            by_concept,
        })
    }

    /// The fact of an identifier. It takes no memory.
    pub fn get(&self, id: &str) -> Option<&Arc<Fact>>
        ensures { option_map (λ f. arc_value f.now) result ≡ get self.now id.now }
    {
        let held = self.by_id.get(id)?;
        Some(held.fact())
    }

    /// The facts in byte order of their identifiers. It takes no memory.
    pub fn iter(&self) -> Range<'_, NamedValue<IndexedFact>>
        ensures { result ≡ self.now.entries }
    {
        self.by_id.iter()
    }

    /// The lengths of the pages of the facts by identifier, for tests.
    pub fn page_sizes(&self, alloc: Global) -> Result<Vec<usize>, AllocError>
        ensures { IfOk result (λ sizes. AreSizes sizes.items (length self.now.entries)) }
    {
        self.by_id.page_sizes(alloc)
    }

    /// The index of a kind.
    pub(crate) fn index(&self, kind: IndexKind) -> &Paged<IndexEntry>
        ensures { IsIndex (hash_in kind) self.now result.now }
    {
        match kind {
            IndexKind::Cell => &self.by_cell,
            IndexKind::Period => &self.by_period,
            IndexKind::Concept => &self.by_concept,
        }
    }

    /// The record of an identifier, which is shared.
    fn record(&self, id: &str) -> Result<Option<NamedValue<IndexedFact>>, AllocError>
        ensures { IfOk result (λ o. o ≡ option_map (λ f. (id.now, f)) (get self.now id.now)) }
    {
        match self.by_id.get_named(id) {
            None => Ok(None),
            Some(record) => Ok(Some(record.share()?)),
        }
    }

    /// The record that a change puts, if it puts one. It shares its concept and its period with a fact that has them.
    fn record_put(
        &self,
        alloc: Global,
        change: &NamedValue<Option<IndexedFact>>,
    ) -> Result<Option<NamedValue<IndexedFact>>, AllocError>
        ensures { IfOk result (λ o. o ≡ option_map (λ f. (change.now.0, f)) change.now.1) }
    {
        match change.value() {
            None => Ok(None),
            Some(held) => {
                let id = String::from_str(alloc, change.name())?;
                let held = share_fact(held, first_of_hash(&self.by_period, held.period_hash()))?;
                Ok(Some(NamedValue::new(alloc, id, held)?))
            }
        }
    }

    /// Pushes the fact change of one identifier, unless no fact stands before or after.
    fn push_fact_change(
        &self,
        alloc: Global,
        change: &NamedValue<Option<IndexedFact>>,
        fact_changes: &mut Vec<FactChange>,
    ) -> Result<(), AllocError>
        ensures { OnOk result (fact_changes.new.items
            ≡ fact_changes.old.items ++ fact_changes_in (change.now ∷ []) self.now) }
    {
        let old = self.record(change.name())?;
        let new = self.record_put(alloc, change)?;
        if old.is_some() || new.is_some() {
            fact_changes.push(FactChange::of(old, new))?;
        }
        Ok(())
    }

    /// The fact change of each changed identifier, in byte order of these; none where no fact stands before or after.
    pub fn fact_changes(
        &self,
        alloc: Global,
        changes: &TextPages<Option<IndexedFact>>,
    ) -> Result<Vec<FactChange>, AllocError>
        ensures { IfOk result (λ fact_changes. fact_changes.items ≡ fact_changes_in changes.now.entries self.now) }
    {
        let mut fact_changes = Vec::new(alloc);
        for change in changes.iter() {
            self.push_fact_change(alloc, change, &mut fact_changes)?;
        }
        Ok(fact_changes)
    }

    /// The facts after these fact changes. This map stays as it is.
    pub fn after(&self, alloc: Global, fact_changes: &[FactChange]) -> Result<Facts, AllocError>
        requires { AreFactChanges self.now fact_changes.now }
        ensures { IfOk result (λ after. (changes : TextMap (Option PlainFact))
            → fact_changes.now ≡ fact_changes_in changes.entries self.now
            → after ≡ with_changes changes.entries self.now) }
    {
        let by_id = ids_after(alloc, &self.by_id, fact_changes)?;
        let (by_cell, by_id) = pair(
            index_after(alloc, IndexKind::Cell, &self.by_cell, fact_changes),
            by_id,
        )?;
        let (by_period, (by_cell, by_id)) = pair(
            index_after(alloc, IndexKind::Period, &self.by_period, fact_changes),
            (by_cell, by_id),
        )?;
        let (by_concept, (by_period, by_cell, by_id)) = pair(
            index_after(alloc, IndexKind::Concept, &self.by_concept, fact_changes),
            (by_period, by_cell, by_id),
        )?;
        Ok(Facts {
            by_id,
            by_cell,
            by_period,
            by_concept,
        })
    }

    /// The facts after these fact changes, in place where no others hold what changes.
    pub fn into_after(self, alloc: Global, fact_changes: &[FactChange]) -> Result<Facts, AllocError>
        requires { AreFactChanges self fact_changes.now }
        ensures { IfOk result (λ after. (changes : TextMap (Option PlainFact))
            → fact_changes.now ≡ fact_changes_in changes.entries self → after ≡ with_changes changes.entries self) }
    {
        let Facts {
            by_id,
            by_cell,
            by_period,
            by_concept,
        } = self;
        let (by_id, (by_cell, by_period, by_concept)) = pair(
            ids_into_after(alloc, by_id, fact_changes),
            (by_cell, by_period, by_concept),
        )?;
        let (by_cell, (by_id, by_period, by_concept)) = pair(
            index_into_after(alloc, IndexKind::Cell, by_cell, fact_changes),
            (by_id, by_period, by_concept),
        )?;
        let (by_period, (by_id, by_cell, by_concept)) = pair(
            index_into_after(alloc, IndexKind::Period, by_period, fact_changes),
            (by_id, by_cell, by_concept),
        )?;
        let (by_concept, (by_id, by_cell, by_period)) = pair(
            index_into_after(alloc, IndexKind::Concept, by_concept, fact_changes),
            (by_id, by_cell, by_period),
        )?;
        Ok(Facts {
            by_id,
            by_cell,
            by_period,
            by_concept,
        })
    }
}
