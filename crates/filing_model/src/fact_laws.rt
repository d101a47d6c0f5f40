//! Laws of what is read and fitted. Each function carries one, has an empty body and is never called.

ghost use Rattle.filing_model.specs.Laws.ReadingLaws.{DimsInAnyOrder, DimsAgain, PrefixesInAnyOrder, RowsAreKept, FactsFitAgain};

/// The order in which dimensions are listed makes no difference.
pub fn dims_in_any_order()
    ensures { DimsInAnyOrder }
{}

/// A dimension set is made of itself.
pub fn dims_again()
    ensures { DimsAgain }
{}

/// The order in which prefixes are listed makes no difference.
pub fn prefixes_in_any_order()
    ensures { PrefixesInAnyOrder }
{}

/// A numeric table has the rows that it is made of.
pub fn rows_are_kept()
    ensures { RowsAreKept }
{}

/// What is written for a fitted fact fits to the same fact.
pub fn facts_fit_again()
    ensures { FactsFitAgain }
{}
