//! A fact under its hash.
ghost use Rattle.std.specs.Prelude.{◌≡◌, IfOk};
ghost use Rattle.filing_index.specs.IndexKinds.{hash_in};

use crate::cells::{CellSum, KeptSum};
use filing_facts::IndexedFact;
use sorted_pages::{PageEntry, Summed};
use std::alloc::{AllocError, Global};
use std::cmp::Ordering;
use std::marker::Model;
use text_map::NamedValue;

/// A fact with its identifier, under its hash in some index.
/// The hash stands next to the pointer, so that most comparisons follow none.
///
/// Contracts see the hash with the identifier, and the fact.
#[derive(Drop)]
pub struct IndexEntry {
    hash: u64,
    held: NamedValue<IndexedFact>,
}

impl Model for IndexEntry {
    ghost use Rattle.filing_index.specs.Index.{IndexEntry as HashedFact};

    ghost Value = { HashedFact };

    ghost view = { λ c. ((c.hash, c.held.0), c.held.1) };
}

impl IndexEntry {
    /// An entry that shares this fact, under its hash in an index of this kind.
    pub fn of(kind: IndexKind, held: &NamedValue<IndexedFact>) -> Result<IndexEntry, AllocError>
        ensures { IfOk result (λ c. c ≡ ((hash_in kind held.now.1, held.now.0), held.now.1)) }
    {
        let hash = kind.hash(held.value());
        let held = held.share()?;
        Ok(IndexEntry { hash, held })
    }

    pub fn hash(&self) -> u64
        ensures { result ≡ self.now.0.0 }
    {
        self.hash
    }

    pub fn record(&self) -> &NamedValue<IndexedFact>
        ensures { result.now ≡ (self.now.0.1, self.now.1) }
    {
        &self.held
    }
}

/// A page of the index by dimensions keeps a tally of its facts if all are of one cell.
/// Any other page keeps nothing, for the cost of two comparisons.
impl Summed for IndexEntry {
    ghost use Rattle.filing_index.specs.CellSums.{Tells, Keeps, facts_in};

    type Sum = CellSum;

    type Kept = KeptSum;

    ghost tells = { λ sum entries. Tells sum (facts_in entries) };

    ghost keeps = { λ kept entries. Keeps kept (facts_in entries) };

    fn none() -> CellSum {
        CellSum::Empty
    }

    fn add_to(&self, sum: CellSum) -> CellSum {
        sum.with(self.held.value().fact())
    }

    fn join(sum: CellSum, kept: &KeptSum) -> CellSum {
        sum.with_kept(kept)
    }

    fn keep(alloc: Global, sum: CellSum) -> KeptSum {
        sum.keep(alloc)
    }

    fn is_settled(sum: &CellSum) -> bool {
        sum.is_mixed()
    }

    fn keep_by_ends(first: &IndexEntry, last: &IndexEntry) -> Option<KeptSum> {
        if first.hash == last.hash && first.hash == first.held.value().cell_hash() {
            None
        } else {
            Some(None)
        }
    }
}

impl PageEntry for IndexEntry {
    ghost use Rattle.filing_index.specs.Index.{hashed_cmp};
    ghost use Rattle.filing_index.specs.KeyOrder.{hashed_cmp_total, hashes_rise};

    ghost order = { hashed_cmp };

    ghost is_total = { hashed_cmp_total };

    ghost key = { λ c. c.0.0 };

    ghost key_rises = { hashes_rise };

    /// Fewer than in a page of facts by identifier: a changed fact changes a page of each of three indexes,
    /// and the owners of the entries of a copied page are counted up where the entries lie.
    fn most_in_page() -> usize {
        16
    }

    fn key(&self) -> u64 {
        self.hash
    }

    fn order(&self, other: &Self) -> Ordering {
        self.hash
            .cmp(&other.hash)
            .then_with(|| self.held.order(&other.held))
    }

    fn owners(&self) -> usize {
        self.held.owners()
    }

    fn share(&self) -> Result<IndexEntry, AllocError> {
        let held = self.held.share()?;
        Ok(IndexEntry {
            hash: self.hash,
            held,
        })
    }
}

/// What facts that stand together in an index have in common.
#[derive(Clone, Copy, Debug, PartialEq, Eq)]
pub enum IndexKind {
    /// Their dimensions.
    Cell,
    /// Their concept and their period, or that they have none.
    Period,
    /// Their concept.
    Concept,
}

impl IndexKind {
    /// The hash of a fact in an index of this kind.
    pub fn hash(self, held: &IndexedFact) -> u64
        ensures { result ≡ hash_in self held.now }
    {
        match self {
            IndexKind::Cell => held.cell_hash(),
            IndexKind::Period => held.period_hash(),
            IndexKind::Concept => held.concept_hash(),
        }
    }
}
