//! Sessions: each reads and stages over a version that does not change.
//!
//! - `session`: an open session.
//! - `staging`: what a session has staged.
//! - `ready`: what is made ready of a call before anything changes.
//! - `hash_keys`: the keys of the hashes by which it finds what it has read.
//! - `reads`: the calls that only read, but for pages.
//! - `writes`: the calls that stage.
//! - `reviewed`: the reply to a review for which no session is kept.
//! - `runs`: the laws of what a session is after any calls.
//!
//! A session has a copy of its version of its own, which shares with the version all that is not staged.
//! What is staged is applied to it when a cell or a page is read; what stands at an identifier is read from both.
//!
//! It knows nothing of histories, of other sessions, or of how a commit is decided.
#![tactic(auto)]

mod hash_keys;
mod reads;
mod ready;
mod reviewed;
mod runs;
mod session;
mod staging;
mod writes;

pub use filing_model::Kind;
pub use filing_step::{Call, Limit, PageQuery, PeriodFilter, Reply, Thing};
pub use hash_keys::HashKeys;
pub use reads::{period_of, texts_of};
pub use ready::Ready;
pub use reviewed::reply_at;
pub use runs::{
    each_amendment_stages_its_net_change, each_effect_is_its_call, each_review_stages_nothing,
    each_session_runs_alone,
};
pub use session::Session;
