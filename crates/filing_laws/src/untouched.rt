//! Of sessions that read nothing that was touched since their opening.

ghost use Rattle.filing_laws.specs.Serial.Untouched.{EachSessionRepliesAsAtItsOpening, EachUntouchedSessionRepliesAsNow, EachUntouchedSessionReadsAsNow};

/// In a lawful history an open session's replies are those of its solo run at the repository of its opening.
#[tactic(auto, using(crate::proofs::Opening::OwnReplies::own_replies))]
pub fn each_session_replies_as_at_its_opening()
    ensures { EachSessionRepliesAsAtItsOpening }
{}

/// Where nothing that a session has read was touched since, its replies are also those of its solo run at the repository of the history.
#[tactic(auto, using(crate::proofs::Histories::UntouchedIsSerial::serial))]
pub fn each_untouched_session_replies_as_now()
    ensures { EachUntouchedSessionRepliesAsNow }
{}

/// Where nothing that a session has read was touched since, it would read just those things at the repository of the history.
#[tactic(auto, using(crate::proofs::Histories::UntouchedIsSerial::reads_as_now))]
pub fn each_untouched_session_reads_as_now()
    ensures { EachUntouchedSessionReadsAsNow }
{}
