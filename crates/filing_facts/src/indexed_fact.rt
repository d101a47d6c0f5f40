//! A fact that several maps and indexes hold.
ghost use Rattle.std.specs.Prelude.{◌≡◌, option_map, IfOk, Some};
ghost use Rattle.std.specs.Arc.{arc_value};
ghost use Rattle.filing_model.specs.Oim.Dimensions.{concept_of, period_of};
ghost use Rattle.filing_facts.specs.Hashes.{cell_hash, concept_hash, concept_in, period_hash};
ghost use Rattle.filing_facts.specs.ConceptPeriods.{IsConceptPeriodOf};

use crate::concept_period::{ConceptPeriod, KeyCache};
use crate::hashes::hash_of_dims;
use oim_fact::{DimSet, Fact};
use std::alloc::{AllocError, Global};
use std::marker::Model;
use std::sync::Arc;
use text_map::PagedValue;

/// A shared fact, with what it is compared by next to the pointer, so that most comparisons do not follow it.
/// Contracts see the fact.
#[derive(Drop)]
pub struct IndexedFact {
    fact: Arc<Fact>,
    cell: u64,
    keys: Arc<ConceptPeriod>,
}

impl Model for IndexedFact {
    ghost use Rattle.std.specs.Arc.{arc_value};
    ghost use Rattle.filing_model.specs.Oim.Facts.{Fact as PlainFact};
    ghost use Rattle.filing_facts.specs.ConceptPeriods.{IsKeyed};

    ghost Value = { PlainFact };

    ghost view = { λ h. arc_value h.fact };

    ghost invariant = { λ h. IsKeyed (arc_value h.fact) h.cell (arc_value h.keys) };
}

impl PagedValue for IndexedFact {
    /// A report's facts by identifier stand in pages as long as pages may be.
    fn most_in_page() -> usize {
        64
    }
}

impl IndexedFact {
    /// A fact whose concept and period are shared with those before it that have the same.
    pub fn of(
        alloc: Global,
        key_cache: &mut KeyCache,
        fact: Arc<Fact>,
    ) -> Result<IndexedFact, AllocError>
        ensures { IfOk result (λ h. h ≡ arc_value fact) }
    {
        let keys = key_cache.keys_of(alloc, &fact.dims)?;
        let cell = hash_of_dims(&fact.dims);
        Ok(IndexedFact { fact, cell, keys })
    }

    pub fn fact(&self) -> &Arc<Fact>
        ensures { arc_value result.now ≡ self.now }
    {
        &self.fact
    }

    /// The dimensions of the fact.
    pub fn dims(&self) -> &DimSet
        ensures { result.now ≡ self.now.dims }
    {
        &self.fact.dims
    }

    /// The concept of the fact.
    pub fn concept(&self) -> &str
        ensures { Some result.now ≡ concept_of self.now.dims }
    {
        let _ = &self.fact;
        self.keys.concept()
    }

    /// Its period, where it has one.
    pub fn period(&self) -> Option<&str>
        ensures { option_map (λ t. t.now) result ≡ period_of self.now.dims }
    {
        let _ = &self.fact;
        self.keys.period()
    }

    /// The hash of its cell.
    pub fn cell_hash(&self) -> u64
        ensures { result ≡ cell_hash self.now }
    {
        let _ = &self.fact;
        self.cell
    }

    /// The hash of its concept with its period.
    pub fn period_hash(&self) -> u64
        ensures hash { result ≡ period_hash self.now }
        ensures concept { Some (concept_in self.now) ≡ concept_of self.now.dims }
    {
        let _ = &self.fact;
        self.keys.of_period()
    }

    /// The hash of its concept.
    pub fn concept_hash(&self) -> u64
        ensures hash { result ≡ concept_hash self.now }
        ensures concept { Some (concept_in self.now) ≡ concept_of self.now.dims }
    {
        let _ = &self.fact;
        self.keys.of_concept()
    }

    /// Its concept and its period, shared with another fact if that has the same ones.
    #[tactic(auto, using(crate::proofs::KeptTexts::same_keys))]
    fn keys_beside(&self, other: &IndexedFact) -> Result<Arc<ConceptPeriod>, AllocError>
        ensures { IfOk result (λ keys. IsConceptPeriodOf self.now.dims (arc_value keys)) }
    {
        let _ = &self.fact;
        if other.keys.are_of(self.keys.concept(), self.keys.period()) {
            return Arc::try_clone(&other.keys);
        }
        Arc::try_clone(&self.keys)
    }

    /// Another owner of the fact, for one more map. If another fact has its concept and its period, it shares them.
    pub fn share_beside(&self, other: &IndexedFact) -> Result<IndexedFact, AllocError>
        ensures { IfOk result (λ h. h ≡ self.now) }
    {
        let fact = Arc::try_clone(&self.fact)?;
        let keys = self.keys_beside(other)?;
        Ok(IndexedFact {
            fact,
            cell: self.cell,
            keys,
        })
    }

    /// Another owner of the fact, for one more map.
    pub fn share(&self) -> Result<IndexedFact, AllocError>
        ensures { IfOk result (λ h. h ≡ self.now) }
    {
        let fact = Arc::try_clone(&self.fact)?;
        let keys = Arc::try_clone(&self.keys)?;
        Ok(IndexedFact {
            fact,
            cell: self.cell,
            keys,
        })
    }
}
