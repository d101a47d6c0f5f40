//! A change of the record of an identifier.
ghost use Rattle.std.specs.Prelude.{◌≡◌, option_copied, option_map};
ghost use Rattle.filing_facts.specs.Records.{id_of, AreOfOneId};

use crate::indexed_fact::IndexedFact;
use std::marker::Model;
use text_map::NamedValue;

/// The records of an identifier before a change and after it.
///
/// Contracts see the identifier with the two facts.
#[derive(Drop)]
pub struct FactChange {
    old: Option<NamedValue<IndexedFact>>,
    new: Option<NamedValue<IndexedFact>>,
}

impl Model for FactChange {
    ghost use Rattle.std.specs.Prelude.{option_map};
    ghost use Rattle.filing_facts.specs.FactChanges.{FactChange as PlainFactChange};
    ghost use Rattle.filing_facts.specs.Records.{id_of, AreOfOneId};

    ghost Value = { PlainFactChange };

    ghost view = { λ c.
        record {
          id = id_of c.old c.new;
          old = option_map (λ r. r.1) c.old;
          new = option_map (λ r. r.1) c.new;
        } };

    ghost invariant = { λ c. AreOfOneId c.old c.new };
}

impl FactChange {
    /// The change from one record to another. Both are of one identifier.
    pub fn of(
        old: Option<NamedValue<IndexedFact>>,
        new: Option<NamedValue<IndexedFact>>,
    ) -> FactChange
        requires { AreOfOneId old new }
        ensures { result
            ≡ record { id = id_of old new; old = option_map (λ r. r.1) old; new = option_map (λ r. r.1) new } }
    {
        FactChange { old, new }
    }

    /// The record before the change.
    pub fn old(&self) -> Option<&NamedValue<IndexedFact>>
        ensures { option_copied result ≡ option_map (λ f. (self.now.id, f)) self.now.old }
    {
        self.old.as_ref()
    }

    /// The record after the change.
    pub fn new(&self) -> Option<&NamedValue<IndexedFact>>
        ensures { option_copied result ≡ option_map (λ f. (self.now.id, f)) self.now.new }
    {
        self.new.as_ref()
    }
}
