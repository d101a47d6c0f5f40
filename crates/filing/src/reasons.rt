//! Why lines were refused, why a history departs, and why a journal is refused.
//!
//! - `damage`: why the file of a journal is refused.
//! - `departure`: why a history departs.
//! - `echo`: a writer that keeps a copy of what it took.
//! - `explainer`: why lines were refused.
//! - `open_sessions`: the sessions that a script never ended.
//! - `threads`: why lines of theirs were refused.

pub(crate) mod damage;
pub(crate) mod departure;
pub(crate) mod echo;
pub(crate) mod explainer;
pub(crate) mod open_sessions;
pub(crate) mod threads;
