//! Laws of sessions, call by call and as a whole. Each function carries one, has an empty body and is never called.

ghost use Rattle.filing_session.specs.Runs.{EachAmendmentStagesItsNetChange, EachEffectIsItsCall, EachReviewStagesNothing, EachSessionRunsAlone};

/// What is made ready of a call, taken at once, leaves the session as the call does.
#[tactic(auto, using(crate::proofs::CallEffects::each_effect_is_its_call))]
pub fn each_effect_is_its_call()
    ensures { EachEffectIsItsCall }
{}

/// After any calls the copy, the things read and the replies are those of the solo run at the repository of the opening.
pub fn each_session_runs_alone()
    ensures { EachSessionRunsAlone }
{}

/// What an amendment has staged is its net change, but for removals of what was not there, and makes its copy of its base.
pub fn each_amendment_stages_its_net_change()
    ensures { EachAmendmentStagesItsNetChange }
{}

#[tactic(auto, using(crate::proofs::StagedChanges::each_review_stages_nothing))]
pub fn each_review_stages_nothing()
    ensures { EachReviewStagesNothing }
{}
