//! Of histories that are made step by step.

ghost use Rattle.filing_laws.specs.Histories.Played.{PlayedAreTheLawful};

/// The lawful histories are those that steps make, each answered by its one next reply. A step of a session that is not open makes no entry.
pub fn played_histories_are_the_lawful_ones()
    ensures { PlayedAreTheLawful }
{}
