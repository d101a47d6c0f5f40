//! Of the marks that commits leave, from which the stamps of ranges are read.

ghost use Rattle.filing_laws.specs.Stamping.Marks.{EachMarkIsTheGreatest, RangesAreTouchedByMarks, EachRangeHasTheGreatestOfItsMarks};

/// The greatest number of a commit that left a mark, which is the mark's stamp, is that of the newest.
pub fn each_mark_is_the_greatest()
    ensures { EachMarkIsTheGreatest }
{}

/// An entry touches a range exactly where it leaves a mark in it.
pub fn ranges_are_touched_by_marks()
    ensures { RangesAreTouchedByMarks }
{}

/// The stamp of a range is the greatest of the stamps of the marks in it.
pub fn each_range_has_the_greatest_of_its_marks()
    ensures { EachRangeHasTheGreatestOfItsMarks }
{}
