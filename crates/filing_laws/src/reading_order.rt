//! Of histories in the order of reading, the first entry first.

ghost use Rattle.filing_laws.specs.Histories.SameReplies.{EqualRepliesAreDecided};
ghost use Rattle.filing_laws.specs.Histories.ReadingOrder.{EachRepositoryIsReadInOrder, LawfulInOrderIsLawful, EachNextEntryIsDecided, EachDepartureIsTheFirstThatDoesNotFollow, EachDepartureIsDetermined};

/// The repository that is folded from the first entry on is the one that is folded from the last.
#[tactic(auto, using(crate::proofs::Histories::ReadingOrders::each_repository_is_read_in_order))]
pub fn each_repository_is_read_in_order()
    ensures { EachRepositoryIsReadInOrder }
{}

/// A history is lawful exactly where each entry, in the order of reading, may follow those before it.
pub fn lawful_in_order_is_lawful()
    ensures { LawfulInOrderIsLawful }
{}

/// It can be decided whether two replies are equal, and whether an entry may follow a lawful history.
/// It may where it stands under the number of its step and has the one next reply.
pub fn each_next_entry_is_decided()
    ensures replies { EqualRepliesAreDecided }
    ensures entries { EachNextEntryIsDecided }
{}

/// A list of entries departs at the first that may not follow those before it; what the entries give decides.
/// It departs at one place at most, and at none exactly where it is a lawful history.
pub fn each_departure_is_determined()
    ensures first { EachDepartureIsTheFirstThatDoesNotFollow }
    ensures determined { EachDepartureIsDetermined }
{}
