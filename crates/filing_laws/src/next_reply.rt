//! Of the one next reply of a lawful history.

ghost use Rattle.filing_laws.specs.Histories.NextReply.{EachStepHasOneReply, EachEntryFollowsLawfully};

/// After a lawful history each load, each opening and each step of an open session has exactly one reply that keeps it lawful.
#[tactic(auto, using(crate::proofs::Histories::UntouchedIsSerial::each_step_has_one_reply))]
pub fn each_step_has_one_reply()
    ensures { EachStepHasOneReply }
{}

/// Each entry that follows a lawful history lawfully was one that may be taken, under its number, and has the one next reply.
pub fn each_entry_follows_lawfully()
    ensures { EachEntryFollowsLawfully }
{}
