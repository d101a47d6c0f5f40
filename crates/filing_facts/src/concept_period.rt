//! A concept with a period, once for all facts that have both.
ghost use Rattle.std.specs.Prelude.{◌≡◌, option_map, string_bytes, IfOk, IfSome, IsTrue};
ghost use Rattle.std.specs.Arc.{arc_value};
ghost use Rattle.filing_facts.specs.Hashes.{hash_of_concept, hash_of_period};
ghost use Rattle.filing_facts.specs.ConceptPeriods.{IsConceptPeriodOf, keys_of};

use crate::hashes::{hash_of_concept, hash_of_period};
use filing_model::is_same_text;
use oim_fact::{DimSet, are_same_texts, own_text};
use std::alloc::{AllocError, Global};
use std::collections::BTreeMap;
use std::marker::Model;
use std::sync::Arc;

/// A concept with a period, or with none, and the hashes of the concept alone and of both. Contracts see the texts.
#[derive(Drop)]
pub(crate) struct ConceptPeriod {
    concept: String,
    period: Option<String>,
    of_concept: u64,
    of_period: u64,
}

impl Model for ConceptPeriod {
    ghost use Rattle.std.specs.Prelude.{option_map, string_bytes};
    ghost use Rattle.filing_facts.specs.ConceptPeriods.{ConceptPeriod as PlainKeys, HasItsHashes};

    ghost Value = { PlainKeys };

    ghost view = { λ k. record { concept = string_bytes k.concept; period = option_map string_bytes k.period } };

    ghost invariant = { λ k. HasItsHashes
        (record {
          concept = string_bytes k.concept;
          period = option_map string_bytes k.period;
        }) k.of_concept k.of_period };
}

impl ConceptPeriod {
    /// A concept and a period, or none. The hash is that of both.
    fn of(
        alloc: Global,
        concept: &str,
        period: Option<&str>,
        of_period: u64,
    ) -> Result<ConceptPeriod, AllocError>
        requires { of_period ≡ hash_of_period concept.now (option_map (λ t. t.now) period) }
        ensures { IfOk result (λ keys. keys ≡ keys_of concept.now (option_map (λ t. t.now) period.entry)) }
    {
        Ok(ConceptPeriod {
            of_concept: hash_of_concept(concept),
            of_period,
            concept: String::from_str(alloc, concept)?,
            period: own_text(alloc, period)?,
        })
    }

    pub(crate) fn concept(&self) -> &str
        ensures { result.now ≡ self.now.concept }
    {
        &self.concept
    }

    pub(crate) fn period(&self) -> Option<&str>
        ensures { option_map (λ t. t.now) result ≡ self.now.period }
    {
        self.period.as_deref()
    }

    pub(crate) fn of_concept(&self) -> u64
        ensures { result ≡ hash_of_concept self.now.concept }
    {
        self.of_concept
    }

    pub(crate) fn of_period(&self) -> u64
        ensures { result ≡ hash_of_period self.now.concept self.now.period }
    {
        self.of_period
    }

    /// Whether this is the concept and the period.
    pub(crate) fn are_of(&self, concept: &str, period: Option<&str>) -> bool
        ensures { IsTrue result → self.now ≡ keys_of concept.now (option_map (λ t. t.now) period.entry) }
    {
        is_same_text(self.concept(), concept) && are_same_texts(self.period(), period)
    }
}

/// The concepts with periods of facts so far, each of which is made once and then shared.
#[derive(Drop)]
pub struct KeyCache {
    /// The first stands in place, so that a fact by itself takes no map.
    first: Option<Arc<ConceptPeriod>>,
    others: BTreeMap<u64, Arc<ConceptPeriod>>,
}

impl KeyCache {
    /// An empty cache. It takes no memory.
    pub fn new(alloc: Global) -> KeyCache {
        KeyCache {
            first: None,
            others: BTreeMap::new(alloc),
        }
    }

    /// What is kept under this hash.
    fn find(&self, hash: u64) -> Option<&Arc<ConceptPeriod>> {
        match &self.first {
            Some(first) if first.of_period() == hash => Some(first),
            _ => self.others.get(&hash),
        }
    }

    /// Another owner of what is under this hash, where it is this concept and this period.
    fn find_same(
        &self,
        hash: u64,
        concept: &str,
        period: Option<&str>,
    ) -> Result<Option<Arc<ConceptPeriod>>, AllocError>
        ensures { IfOk result (λ o. IfSome o (λ keys. arc_value keys
            ≡ keys_of concept.now (option_map (λ t. t.now) period.entry))) }
    {
        match self.find(hash) {
            Some(keys) if keys.are_of(concept, period) => Ok(Some(Arc::try_clone(keys)?)),
            _ => Ok(None),
        }
    }

    /// Keeps it under its hash.
    fn keep(&mut self, hash: u64, keys: Arc<ConceptPeriod>) -> Result<(), AllocError> {
        if self.first.is_none() {
            self.first = Some(keys);
            return Ok(());
        }
        self.others.insert(hash, keys)?;
        Ok(())
    }

    /// A concept and a period, or none, shared with facts so far.
    fn share_keys(
        &mut self,
        alloc: Global,
        concept: &str,
        period: Option<&str>,
    ) -> Result<Arc<ConceptPeriod>, AllocError>
        ensures { IfOk result (λ keys. arc_value keys ≡ keys_of concept.now (option_map (λ t. t.now) period.entry)) }
    {
        let hash = hash_of_period(concept, period);
        if let Some(keys) = self.find_same(hash, concept, period)? {
            return Ok(keys);
        }
        let keys = ConceptPeriod::of(alloc, concept, period, hash)?;
        let keys = Arc::new(alloc, keys)?;
        self.keep(hash, Arc::try_clone(&keys)?)?;
        Ok(keys)
    }

    /// The concept and the period of these dimensions, shared with facts so far.
    pub(crate) fn keys_of(
        &mut self,
        alloc: Global,
        dims: &DimSet,
    ) -> Result<Arc<ConceptPeriod>, AllocError>
        ensures { IfOk result (λ keys. IsConceptPeriodOf dims.now (arc_value keys)) }
    {
        self.share_keys(alloc, dims.concept(), dims.period())
    }
}
