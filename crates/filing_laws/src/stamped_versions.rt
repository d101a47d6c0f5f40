//! Of the stamps that versions carry.

ghost use Rattle.filing_laws.specs.Stamping.StampedVersions.{EachConflictIsStamped, EachStagedChangeMakesTheCopy, EachLoadMakesItsVersion, EachCommitMakesItsVersion, EachOtherEntryLeavesTheVersion};

/// The conflict of a session is the first thing that it has read whose stamp is greater than the number of its base, with that stamp.
/// The stamps are those of the version of the history.
#[tactic(auto, using(crate::proofs::Stamping::StampedVersions::each_conflict_is_stamped))]
pub fn each_conflict_is_stamped()
    ensures { EachConflictIsStamped }
{}

/// All that an untouched amendment has staged, also removals of what was not there, makes of the current repository what its net change makes.
#[tactic(auto, using(crate::proofs::Stamping::StampedVersions::each_staged_change_makes_the_copy))]
pub fn each_staged_change_makes_the_copy()
    ensures { EachStagedChangeMakesTheCopy }
{}

/// An accepted load turns the version of a history into that of the history with its entry.
/// So does a commit that passes, by what its session has staged. Every other entry leaves it.
#[tactic(auto, using(crate::proofs::Stamping::StampedVersions::each_load_makes_its_version, crate::proofs::Stamping::StampedVersions::each_commit_makes_its_version, crate::proofs::Stamping::StampedVersions::each_other_entry_leaves_the_version))]
pub fn each_entry_makes_its_version()
    ensures loads { EachLoadMakesItsVersion }
    ensures commits { EachCommitMakesItsVersion }
    ensures others { EachOtherEntryLeavesTheVersion }
{}
