//! Laws of duplicates. Each function carries one, has an empty body and is never called.

ghost use Rattle.filing_model.specs.Oim.Duplicates.{ObeysWhereNoCellIsDisallowed, MixedWhereDimensionsDiffer};

/// A report obeys its allowed duplicates, pair by pair, exactly where it has no cell that is not allowed.
pub fn reports_obey_where_no_cell_is_disallowed()
    ensures { ObeysWhereNoCellIsDisallowed }
{}

/// Facts are mixed exactly where not every two of them have the same dimensions.
pub fn facts_are_mixed_where_dimensions_differ()
    ensures { MixedWhereDimensionsDiffer }
{}
