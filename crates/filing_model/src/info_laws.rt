//! Laws of a report's info, and of JSON texts. Each function carries one, has an empty body and is never called.

ghost use Rattle.filing_model.specs.Laws.ReadingLaws.{TheLastValueStays, TheOthersStay, TextsAreReadAgain};

/// Of two declared values that are set in a text the last stays.
pub fn the_last_value_stays()
    ensures { TheLastValueStays }
{}

/// Where a declared value is set, the other features and the other members of the info stay.
pub fn the_others_stay()
    ensures { TheOthersStay }
{}

/// A value with whole numbers alone that was read of a text is read of its compact text again.
pub fn texts_are_read_again()
    ensures { TextsAreReadAgain }
{}
