//! What differs between two versions of a repository.
//!
//! - `places`: where two versions may differ.
//! - `lines`: the text of each line of a difference.
//! - `report_lines`: the lines of one report.
//! - `difference`: the lines of all reports.
//! - `laws`: what a difference laid over the one version makes.
//!
//! It knows nothing of histories: whoever followed one says which places it looks at.
#![tactic(auto)]

mod difference;
mod laws;
mod lines;
mod places;
mod report_lines;

pub use difference::difference_text;
pub use laws::{each_difference_makes_the_other, each_line_is_told_of_both};
pub use places::Places;
