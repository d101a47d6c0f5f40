//! Laws of things as keys, and of limits. Each function carries one, has an empty body and is never called.

ghost use Rattle.filing_model.specs.Laws.ThingLaws.{AreKeys, AreTheirNumbers};

/// Things have a total order in which only a thing and itself tie, and exactly equal things feed a hasher alike.
pub fn things_are_keys()
    ensures { AreKeys }
{}

/// A limit is its number, and every number from 1 to 1,000 is one.
pub fn limits_are_their_numbers()
    ensures { AreTheirNumbers }
{}
