//! The facts of one report, by their identifiers and in indexes.
//!
//! - `facts`: the facts by their identifiers, with their indexes.
//! - `index_entry`: a fact under its hash.
//! - `indexing`: how an index is built and changed.
//! - `cells`: which class a cell has, and which cell is not allowed.
//! - `look_ups`: what the facts answer.
//!
//! It knows nothing of stamps, of other reports, of versions or of sessions.
#![tactic(auto)]

mod cells;
mod facts;
mod index_entry;
mod indexing;
mod look_ups;

pub use facts::Facts;
pub use look_ups::Ids;
