//! The class of a cell.

ghost use Rattle.std.specs.Prelude.{◌≡◌, List, map};
ghost use Rattle.std.specs.Arc.{arc_value};
ghost use Rattle.std.specs.Iterator.{IsFinite, Drains};
ghost use Rattle.filing_model.specs.Oim.Duplicates.{class_of};
ghost use Rattle.oim_fact.specs.SharedFacts.{FactRef, facts_behind};

use crate::fact::Fact;
use crate::tally::Tally;
use filing_model::Class;
use std::sync::Arc;

/// The class of some facts by all pairs of them (Open Information Model 1.0, `xbrl:allowedDuplicates`).
/// `Mixed` where some two differ in their dimensions. Takes time linear in the facts, and no memory.
pub fn class_of(facts: &[Arc<Fact>]) -> Class
    ensures { result ≡ class_of (map arc_value facts.now) }
{
    class_over(facts.iter())
}

/// The class of all facts that an iterator gives, as of a list of them. The iterator has to end.
pub fn class_over<'a, I: Iterator<Item = &'a Arc<Fact>> + Drop>(mut facts: I) -> Class
    requires can { I.can_next facts }
    requires ends { IsFinite (I.remaining facts) }
    ensures { (given : List FactRef)
        × Drains I.next_gives facts given × (result ≡ class_of (facts_behind given)) }
{
    let Some(first) = facts.next() else {
        return Class::Empty;
    };
    let mut tally = Tally::of(first);
    for fact in facts {
        tally.add(first, fact);
    }
    tally.class()
}
