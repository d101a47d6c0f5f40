//! Of an open amendment's net change, laid over the repository as it is.

ghost use Rattle.filing_laws.specs.Updating.NetChange.{EachNetChangeMakesTheCopy, EachCommitLaysItsNetChange};
ghost use Rattle.filing_laws.specs.Updating.NetChange.{EachDisallowedCellHoldsANewFact};
ghost use Rattle.filing_laws.specs.Updating.NetChange.{EachDisallowedCellOfACopyHoldsANewFact};
ghost use Rattle.filing_laws.specs.Updating.NetChange.{EachChangeIsDecidedByItsNewFacts, EachCopyIsDecidedByItsNewFacts};

/// Where nothing in the read set of an open amendment was touched, its net change laid over the current repository makes its copy.
/// That is its copy at the end of its solo run there.
#[tactic(auto, using(crate::proofs::Updating::NetChanges::each_net_change_makes_the_copy))]
pub fn each_net_change_makes_the_copy()
    ensures { EachNetChangeMakesTheCopy }
{}

/// Each accepted commit lays its session's net change over the repository before it, and counts.
#[tactic(auto, using(crate::proofs::Updating::NetChanges::each_commit_lays_its_net_change))]
pub fn each_commit_lays_its_net_change()
    ensures { EachCommitLaysItsNetChange }
{}

/// Where a change is laid over a repository that obeys, each disallowed cell of the result holds a new fact of the change.
/// So does each disallowed cell of an untouched amendment's copy.
pub fn each_disallowed_cell_holds_a_new_fact()
    ensures changes { EachDisallowedCellHoldsANewFact }
    ensures copies { EachDisallowedCellOfACopyHoldsANewFact }
{}

/// Where a change is laid over a repository that obeys, the least report and cell that are disallowed among its new facts are the least of all.
/// The refusal reports them. That holds for an untouched amendment's copy too.
#[tactic(auto, using(crate::proofs::Updating::NewFacts::each_change_is_decided_by_its_new_facts, crate::proofs::Updating::NewFacts::each_copy_is_decided_by_its_new_facts))]
pub fn each_change_is_decided_by_its_new_facts()
    ensures changes { EachChangeIsDecidedByItsNewFacts }
    ensures copies { EachCopyIsDecidedByItsNewFacts }
{}
