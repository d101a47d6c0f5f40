//! Dimension sets (Open Information Model 1.0).

ghost use Rattle.std.specs.Prelude.{◌≡◌, Option, option_map, is_some, IfOk};
ghost use Rattle.std.specs.List.{list_any};
ghost use Rattle.oim_fact.specs.Texts.{text_view, names_in, NoneFalls, begins_with, has_equal_neighbours};
ghost use Rattle.oim_fact.specs.Dims.{dims_view, pairs_in, unless};
ghost use Rattle.filing_model.specs.Oim.Dimensions.{AreDims, core_value, concept_of, period_of, unit_of, dims_of, is_core, is_null_core, is_concept, is_long_dim};

use crate::texts::clone_text;
use filing_model::{DimFault, is_same_text};
use std::alloc::{AllocError, Global};
use std::marker::Model;
use std::sync::Arc;

/// The most bytes that a dimension's name or value may have.
const LONGEST: usize = 4096;

/// The pairs of one dimension set, or those that several share.
#[derive(Debug, Drop)]
pub(crate) enum Pairs {
    Own(Vec<(String, Option<String>)>),
    Shared(Arc<Vec<(String, Option<String>)>>),
}

/// The dimensions of a fact: names with texts, or with null for a taxonomy dimension that is nil. Contracts see the list of them in byte order of the names.
#[derive(Debug, Drop)]
pub struct DimSet {
    pairs: Pairs,
}

impl Model for DimSet {
    ghost use Rattle.filing_model.specs.Oim.Dimensions.{Dims, AreDims};
    ghost use Rattle.oim_fact.specs.Dims.{dims_view, pairs_in};

    ghost Value = { Dims };

    ghost view = { λ d. dims_view (pairs_in d.pairs) };

    ghost invariant = { λ d. AreDims (dims_view (pairs_in d.pairs)) };
}

impl Clone for DimSet {
    ghost is_clone = { λ old new. new ≡ old };

    /// Copies the texts, unless they are shared (`DimSet::into_shared`).
    fn clone(&self) -> Result<DimSet, AllocError> {
        let pairs = match &self.pairs {
            Pairs::Own(pairs) => Pairs::Own(clone_pairs(pairs)?),
            Pairs::Shared(pairs) => Pairs::Shared(Arc::try_clone(pairs)?),
        };
        Ok(DimSet { pairs })
    }
}

/// The clones of names with their values.
fn clone_pairs(
    pairs: &Vec<(String, Option<String>)>,
) -> Result<Vec<(String, Option<String>)>, AllocError>
    ensures { IfOk result (λ copies. dims_view copies.items ≡ dims_view pairs.now.items) }
{
    let mut copies = Vec::with_capacity(*pairs.allocator(), pairs.len())?;
    for (name, value) in pairs {
        copies.push((name.clone()?, clone_text(value)?))?;
    }
    Ok(copies)
}

impl Pairs {
    fn as_slice(&self) -> &[(String, Option<String>)]
        ensures { result.now ≡ pairs_in self.now }
    {
        match self {
            Pairs::Own(pairs) => pairs,
            Pairs::Shared(pairs) => pairs,
        }
    }

    /// The pairs, from now on shared.
    fn into_shared(self, alloc: Global) -> Result<Pairs, AllocError>
        ensures { IfOk result (λ pairs. pairs_in pairs ≡ pairs_in self) }
    {
        match self {
            Pairs::Own(pairs) => Ok(Pairs::Shared(Arc::new(alloc, pairs)?)),
            shared => Ok(shared),
        }
    }
}

/// Whether a name is that of a dimension which Open Information Model 1.0 defines itself.
pub(crate) fn is_core_name(name: &str) -> bool
    ensures { result ≡ is_core name.now }
{
    is_same_text(name, "concept")
        || is_same_text(name, "entity")
        || is_same_text(name, "period")
        || is_same_text(name, "unit")
        || is_same_text(name, "language")
        || is_same_text(name, "noteId")
}

/// Whether the first of these dimensions has this name.
fn begins_with(pairs: &[(String, Option<String>)], name: &str) -> bool
    ensures { result ≡ begins_with name.now (names_in (dims_view pairs.now)) }
{
    match pairs {
        [first, ..] => is_same_text(name, &first.0),
        [] => false,
    }
}

/// Whether some dimension has the name of the one before it.
fn has_equal_neighbours(pairs: &[(String, Option<String>)]) -> bool
    ensures { result ≡ has_equal_neighbours (names_in (dims_view pairs.now)) }
{
    let mut left = pairs;
    while let [first, rest @ ..] = left {
        if begins_with(rest, &first.0) {
            return true;
        }
        left = rest;
    }
    false
}

fn has_null_core(pairs: &[(String, Option<String>)]) -> bool
    ensures { result ≡ list_any is_null_core (dims_view pairs.now) }
{
    for (name, value) in pairs {
        if value.is_none() && is_core_name(name) {
            return true;
        }
    }
    false
}

fn has_concept(pairs: &[(String, Option<String>)]) -> bool
    ensures { result ≡ list_any is_concept (dims_view pairs.now) }
{
    for (name, _) in pairs {
        if is_same_text(name, "concept") {
            return true;
        }
    }
    false
}

/// Whether a name or a value is longer than `LONGEST`.
fn is_long(name: &str, value: &Option<String>) -> bool
    ensures { result ≡ is_long_dim (name.now, text_view value.now) }
{
    match value {
        Some(text) => name.len() > LONGEST || text.len() > LONGEST,
        None => name.len() > LONGEST,
    }
}

/// Whether some dimension is longer than it may be.
fn has_long(pairs: &[(String, Option<String>)]) -> bool
    ensures { result ≡ list_any is_long_dim (dims_view pairs.now) }
{
    for (name, value) in pairs {
        if is_long(name, value) {
            return true;
        }
    }
    false
}

/// Why dimensions whose names do not fall are no dimension set, the first fault.
#[tactic(auto, using(crate::proofs::SortedDims::dims_of_by_tests))]
fn first_fault(pairs: &[(String, Option<String>)]) -> Option<DimFault>
    requires { NoneFalls (names_in (dims_view pairs.now)) }
    ensures { unless result (dims_view pairs.now) ≡ dims_of (dims_view pairs.now) }
{
    if has_equal_neighbours(pairs) {
        return Some(DimFault::NameTwice);
    }
    if has_null_core(pairs) {
        return Some(DimFault::NullCore);
    }
    if !has_concept(pairs) {
        return Some(DimFault::NoConcept);
    }
    if has_long(pairs) {
        return Some(DimFault::TooLong);
    }
    None
}

impl DimSet {
    /// The dimension set of names with their values in any order, or the first fault. It takes no memory.
    pub fn of(pairs: Vec<(String, Option<String>)>) -> Result<DimSet, DimFault>
        ensures { result ≡ dims_of (dims_view pairs.items) }
    {
        let mut pairs = pairs;
        pairs.sort_unstable();
        match first_fault(&pairs) {
            Some(fault) => Err(fault),
            None => Ok(DimSet {
                pairs: Pairs::Own(pairs),
            }),
        }
    }

    /// The set, whose clones share its texts from now on.
    pub fn into_shared(self, alloc: Global) -> Result<DimSet, AllocError>
        ensures { IfOk result (λ dims. dims ≡ self) }
    {
        Ok(DimSet {
            pairs: self.pairs.into_shared(alloc)?,
        })
    }

    /// The names with their texts or null, in byte order of the names.
    pub fn pairs(&self) -> &[(String, Option<String>)]
        ensures list { dims_view result.now ≡ self.now }
        ensures set { AreDims self.now }
    {
        self.pairs.as_slice()
    }

    pub fn concept(&self) -> &str
        ensures { Some result.now ≡ concept_of self.now }
    {
        match self.core_value("concept") {
            Some(concept) => concept,
            None => unreachable!(),
        }
    }

    pub fn period(&self) -> Option<&str>
        ensures { option_map (λ t. t.now) result ≡ period_of self.now }
    {
        self.core_value("period")
    }

    pub fn unit(&self) -> Option<&str>
        ensures { option_map (λ t. t.now) result ≡ unit_of self.now }
    {
        self.core_value("unit")
    }

    /// The text at a core dimension, where it is there.
    pub(crate) fn core_value(&self, name: &str) -> Option<&str>
        ensures value { option_map (λ t. t.now) result ≡ core_value name.now self.now }
        ensures set { AreDims self.now }
    {
        for (key, value) in self.pairs() {
            if is_same_text(name, key) {
                return value.as_deref();
            }
        }
        None
    }
}
