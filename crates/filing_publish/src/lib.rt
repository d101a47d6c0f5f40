//! Editions: the versions of a repository as one writer publishes them, and readers read them with no lock.
//!
//! - `edition`: a version with the list of all versions up to it. That list exists in proofs alone.
//! - `law`: the rule of the one list of a book of editions: versions are only added, each following the one before.
//! - `unopened_log`: a book of editions at its beginning.
//! - `published`: the rule of what readers see.
//! - `publisher`: adds to the list, and publishes.
//! - `reviewer`: enters what is published, and learns what receipts report.
//! - `receipt`: what a load or a commit gets if it made a version.
//! - `review`: answers at one version, for as long as it is kept.
//! - `fault`: why no reviewers could be given a place.
//!
//! It knows nothing of a core, of a lock or of threads.
#![tactic(auto)]

mod edition;
mod fault;
mod law;
mod published;
mod publisher;
mod receipt;
mod review;
mod reviewer;
mod unopened_log;

pub use edition::Edition;
pub use fault::OfficeFault;
pub use law::{Law, Naming, Version};
pub use publisher::{PendingPublish, Publisher};
pub use receipt::Receipt;
pub use review::Review;
pub use reviewer::Reviewer;
pub use unopened_log::UnopenedLog;
