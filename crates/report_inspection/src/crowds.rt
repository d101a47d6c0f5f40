//! The facts that may share a cell.
//!
//! A fact whose dimensions have a hash of their own is alone in its cell.
//! The others, most often few, are put in order and compared.

ghost use Rattle.std.specs.Prelude.{◌≡◌, IfOk};
ghost use Rattle.oim_report.specs.Parts.{fact_view, facts_view};
ghost use Rattle.report_inspection.specs.Crowds.{AreTwice, KeepsShared, hash_in, with_hashes};

use filing_facts::hash_of_dims;
use oim_fact::Fact;
use std::alloc::{AllocError, Global};
use std::collections::HashSet;
use std::sync::Arc;

/// The hash of the dimensions of a fact.
#[tactic(auto, unfolding(crate::specs::Crowds::hash_at))]
fn hash_of(entry: &(String, Arc<Fact>)) -> u64
    ensures { result ≡ hash_in (fact_view entry.now) }
{
    hash_of_dims(&entry.1.dims)
}

/// The hashes that more than one of these facts has.
fn repeated_hashes(alloc: Global, facts: &[(String, Arc<Fact>)]) -> Result<HashSet<u64>, AllocError>
    ensures { IfOk result (λ s. AreTwice (facts_view facts.now) s.keys) }
{
    let mut seen = HashSet::new(alloc);
    let mut repeated = HashSet::new(alloc);
    for fact in facts {
        let hash = hash_of(fact);
        if !seen.insert(hash)? {
            drop(repeated.insert(hash)?);
        }
    }
    Ok(repeated)
}

/// Those of these facts whose hash is among others.
fn with_hashes(
    alloc: Global,
    facts: Vec<(String, Arc<Fact>)>,
    hashes: &HashSet<u64>,
) -> Result<Vec<(String, Arc<Fact>)>, AllocError>
    ensures { IfOk result (λ v. facts_view v.items ≡ with_hashes hashes.now.keys (facts_view facts.items)) }
{
    let mut kept = Vec::new(alloc);
    for fact in facts {
        if hashes.contains(&hash_of(&fact)) {
            kept.push(fact)?;
        }
    }
    Ok(kept)
}

/// The facts that may share a cell, in their order.
pub(crate) fn crowded_facts(
    alloc: Global,
    facts: Vec<(String, Arc<Fact>)>,
) -> Result<Vec<(String, Arc<Fact>)>, AllocError>
    ensures { IfOk result (λ v. KeepsShared (facts_view facts.items) (facts_view v.items)) }
{
    let hashes = repeated_hashes(alloc, &facts)?;
    with_hashes(alloc, facts, &hashes)
}
