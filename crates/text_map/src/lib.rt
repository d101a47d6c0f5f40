//! Maps from texts: unchanging ones in shared pages, and one that changes in place.
//!
//! - `named_value`: a value under a name, how many of a kind of value a page holds, and a name that is looked for.
//! - `text_pages`: the unchanging map of such values.
//! - `name_map`: the map that changes in place.
//!
//! It knows nothing of reports, of versions or of orders by anything but a name.
#![tactic(auto)]

mod name_map;
mod named_value;
mod text_pages;

pub use name_map::NameMap;
pub use named_value::{NamedValue, PagedValue, SoughtName};
pub use text_pages::TextPages;
