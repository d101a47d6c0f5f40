//! What a difference laid over the one version makes.

ghost use Rattle.version_differences.specs.Laid.{EachDifferenceMakesTheOther, EachLineIsToldOfBoth};

/// Laid over the one repository, the difference turns each report that both have into that of the other:
/// its facts and its declared value.
pub fn each_difference_makes_the_other()
    ensures { EachDifferenceMakesTheOther }
{}

/// Each line reports what is in the one and not in the other.
#[tactic(auto, using(crate::proofs::ToldLines::each_line_is_told_of_both))]
pub fn each_line_is_told_of_both()
    ensures { EachLineIsToldOfBoth }
{}
