//! Unchanging sorted lists in pages, of which a changed copy shares every page where nothing changed.
//!
//! - `entry`: what an entry and a range of entries are.
//! - `paged`: the list itself.
//! - `range`: the entries in a range.
//! - `spans`: ranges by entries of the list's own type.
//! - `level`: what stands at a level: an entry, a page, a run of pages, a group of runs, or a section of groups.
//! - `block`: what a page, a run, a group and a section are.
//! - `edge`: the place where a test stops to hold.
//! - `apply`: changes applied to a level.
//! - `in_place`: one change made where nothing is shared.
//!
//! It knows nothing of what an entry holds. Contracts see a list as its entries, and no caller names a page.
#![tactic(auto)]

mod apply;
mod block;
mod edge;
mod entry;
mod in_place;
mod level;
mod paged;
mod range;
mod spans;

pub use apply::Edit;
pub use entry::{PageEntry, Span, Summed, are_rising, is_rising, order_of_keys};
pub use paged::Paged;
pub use range::Range;
pub use spans::Between;
