//! The facts of a report as maps and indexes hold them, and the hashes by which look-ups find them.
//!
//! - `indexed_fact`: a fact that several maps hold, with what it is compared by.
//! - `concept_period`: a concept with a period, which many facts share.
//! - `hashes`: the hashes by which look-ups find facts.
//! - `fact_change`: a fact before a change and after it.
//!
//! It knows nothing of indexes, stamps or versions.
#![tactic(auto)]

mod concept_period;
mod fact_change;
mod hashes;
mod indexed_fact;

pub use concept_period::KeyCache;
pub use fact_change::FactChange;
pub use hashes::{hash_of_concept, hash_of_dims, hash_of_period};
pub use indexed_fact::IndexedFact;
