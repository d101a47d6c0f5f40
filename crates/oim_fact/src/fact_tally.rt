//! Some facts by the first of them and a tally. It tells their class, and that of them with others.

ghost use Rattle.std.specs.Prelude.{◌≡◌, IfOk, List, [], ◌∷◌, ◌++◌};
ghost use Rattle.std.specs.Arc.{arc_value};
ghost use Rattle.std.specs.List.{list_all};
ghost use Rattle.filing_model.specs.Oim.Facts.{Fact as PlainFact};
ghost use Rattle.filing_model.specs.Oim.Duplicates.{class_of, has_dims};
ghost use Rattle.oim_fact.specs.Tallies.{IsTallyOf};

use crate::dims::DimSet;
use crate::fact::Fact;
use crate::tally::Tally;
use filing_model::Class;
use std::alloc::AllocError;
use std::marker::Model;
use std::sync::Arc;

/// One fact or more: the first of them, and a tally of all. It shares the first one, and holds no other.
///
/// Contracts say of which facts it is one.
#[derive(Drop)]
pub struct FactTally {
    first: Arc<Fact>,
    tally: Tally,
}

impl Model for FactTally {
    ghost use Rattle.std.specs.Arc.{arc_value};
    ghost use Rattle.filing_model.specs.Oim.Facts.{Fact as PlainFact};
    ghost use Rattle.oim_fact.specs.declared.tally.Tally.{Tally as PlainTally};

    ghost Value = { PlainFact × PlainTally };

    ghost view = { λ t. (arc_value t.first, t.tally) };
}

impl FactTally {
    /// The tally of one fact.
    pub fn of(fact: &Arc<Fact>) -> Result<FactTally, AllocError>
        ensures { IfOk result (λ t. IsTallyOf t (arc_value fact.now ∷ [])) }
    {
        let first = Arc::try_clone(fact)?;
        let tally = Tally::of(&first);
        Ok(FactTally { first, tally })
    }

    /// Another tally of the facts, which shares the first fact. It takes no memory.
    pub fn share(&self) -> Result<FactTally, AllocError>
        ensures { IfOk result (λ t. t ≡ self.now) }
    {
        let first = Arc::try_clone(&self.first)?;
        Ok(FactTally {
            first,
            tally: self.tally,
        })
    }

    /// Counts one more fact in.
    pub fn add(&mut self, fact: &Fact)
        ensures { (facts : List PlainFact) → IsTallyOf self.old facts → IsTallyOf self.new (facts ++ fact.now ∷ []) }
    {
        self.tally.add(&self.first, fact);
    }

    /// Counts the facts of another one in.
    pub fn add_all(&mut self, other: &FactTally)
        ensures { (facts more : List PlainFact) → IsTallyOf self.old facts → IsTallyOf other.now more
            → IsTallyOf self.new (facts ++ more) }
    {
        self.tally.add_all(&self.first, other.tally, &other.first);
    }

    /// Whether all facts have one dimension set.
    pub fn is_of_one_cell(&self) -> bool
        ensures { (facts : List PlainFact) → IsTallyOf self.now facts
            → result ≡ list_all (has_dims self.now.0.dims) facts }
    {
        self.tally.is_together()
    }

    /// Whether all facts have these dimensions.
    pub fn is_of(&self, dims: &DimSet) -> bool
        ensures { (facts : List PlainFact) → IsTallyOf self.now facts → result ≡ list_all (has_dims dims.now) facts }
    {
        if *dims == self.first.dims {
            self.tally.is_together()
        } else {
            false
        }
    }

    /// The class of the facts by all pairs of them.
    pub fn class(&self) -> Class
        ensures { (facts : List PlainFact) → IsTallyOf self.now facts → result ≡ class_of facts }
    {
        self.tally.class()
    }
}
