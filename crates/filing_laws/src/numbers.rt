//! Of the numbers of loads and commits.

ghost use Rattle.filing_laws.specs.Stamping.Numbers.{NumbersRiseByOne, EachNumberIsTheCount, NumbersTellWhatIsLater, EachTouchIsTheGreatest, StampsTellTheLastTouch};

/// The accepted loads and commits of a lawful history have the numbers 1, 2, 3 and so on, in order.
pub fn numbers_rise_by_one()
    ensures { NumbersRiseByOne }
{}

/// The number of an accepted load or commit is the count of the repository that it leaves.
pub fn each_number_is_the_count()
    ensures { EachNumberIsTheCount }
{}

/// A load or a commit comes after a session's opening exactly where its number is greater than that of the repository at the opening.
pub fn numbers_tell_what_is_later()
    ensures { NumbersTellWhatIsLater }
{}

/// The greatest number of a load or a commit that touched a thing, which is the thing's stamp, is that of the newest.
pub fn each_touch_is_the_greatest()
    ensures { EachTouchIsTheGreatest }
{}

/// A thing was touched since a session's opening exactly where its stamp is greater than the number of the repository at the opening.
/// The stamp is then the number of its last touch.
pub fn stamps_tell_the_last_touch()
    ensures { StampsTellTheLastTouch }
{}
