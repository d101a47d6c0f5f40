//! Of the repository as its loads and net changes, one laid over another.

ghost use Rattle.filing_laws.specs.Updating.Updates.{EachRepositoryIsThatOfItsUpdates};

/// The repository of a lawful history is the empty one with each accepted load and each committed session's net change laid over it.
/// These are laid in order. The repository obeys its declared allowed duplicates.
#[tactic(auto, using(crate::proofs::Updating::UpdatesInTurn::each_repository_is_that_of_its_updates))]
pub fn each_repository_is_that_of_its_updates()
    ensures { EachRepositoryIsThatOfItsUpdates }
{}
