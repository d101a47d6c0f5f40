//! Of allowed duplicates: by pairs of facts, and by cells.

ghost use Rattle.filing_laws.specs.Updating.Obeying.{ObeysWhereEachCellIsAllowed, LeastDisallowedIsTheLeast, RepositoryObeysWhereNotRefused};

/// A report obeys its declared value, which is said of pairs of facts, exactly where each of its cells is of a class that it allows.
pub fn obeys_where_each_cell_is_allowed()
    ensures { ObeysWhereEachCellIsAllowed }
{}

/// The least disallowed cell is disallowed, and each cell of lesser dimensions is allowed.
pub fn least_disallowed_is_the_least()
    ensures { LeastDisallowedIsTheLeast }
{}

/// A repository obeys exactly where nothing in it refuses a commit.
pub fn repository_obeys_where_not_refused()
    ensures { RepositoryObeysWhereNotRefused }
{}
