//! The steps of a repository and what they are answered: the words in which a core, its history and the lines of a script speak of it.
//!
//! - `step`: what may be asked of a repository.
//! - `reply`: what a step is answered.
//! - `entry`: a step that was taken, with its session and its reply.
//! - `call`: what a session may be asked.
//! - `page_query`: what a page looks for.
//! - `limit`: how many identifiers a page has at most.
//! - `thing`: what a session reads and a commit touches.
//! - `compared_things`: whether two things are equal, and the hash of one.
//! - `ordered_things`: how two things stand to each other.
//!
//! It knows nothing of how a step is answered: nothing of versions, of open sessions or of a core. Nor does it know JSON.
#![tactic(auto)]

mod call;
mod compared_things;
mod entry;
mod limit;
mod ordered_things;
mod page_query;
mod reply;
mod step;
mod thing;

pub use call::Call;
pub use entry::Entry;
pub use filing_model::Kind;
pub use limit::Limit;
pub use page_query::{PageQuery, PeriodFilter};
pub use reply::Reply;
pub use step::Step;
pub use thing::Thing;
