//! Laws of numbers and intervals. Each function carries one, has an empty body and is never called.

ghost use Rattle.filing_model.specs.Oim.Intervals.{HoldsWhatIsNear, MeetsWhereANumberIsShared, NumbersHaveTheirInterval};
ghost use Rattle.filing_model.specs.Oim.Numerals.{ShortSpellingsHaveTheirNumber, LongSpellingsAreTooLarge, OnlySpellingsAreNumbers, NumbersAreBounded};

/// A spelling with few enough digits has the number of its signed digits.
pub fn short_spellings_have_their_number()
    ensures { ShortSpellingsHaveTheirNumber }
{}

/// A spelling with more digits is too large.
pub fn long_spellings_are_too_large()
    ensures { LongSpellingsAreTooLarge }
{}

/// What is not refused as no number is spelled as one.
pub fn only_spellings_are_numbers()
    ensures { OnlySpellingsAreNumbers }
{}

/// A number has at most 20 digits before the point and 15 after it.
pub fn numbers_are_bounded()
    ensures { NumbersAreBounded }
{}

/// An interval holds what is no further from its middle than its half width.
pub fn intervals_hold_what_is_near()
    ensures { HoldsWhatIsNear }
{}

/// The interval of a number is not empty.
pub fn numbers_have_their_interval()
    ensures { NumbersHaveTheirInterval }
{}

/// Two intervals that are not empty meet exactly where some number is in both.
pub fn intervals_meet_where_a_number_is_shared()
    ensures { MeetsWhereANumberIsShared }
{}
