//! What the repository of filing reports is, as plain data and functions.
//!
//! - `duplicates`: how facts stand to one another, and what a report allows.
//! - `kind`: what a session may do.
//! - `faults`: why a numeral, dimensions, a fact, names, a table or a report are refused.
//! - `text`: whether two texts are the same.
//! - `by_pairs`: slow programs that follow the definitions pair by pair.
//! - `number_laws`: laws of numbers and intervals.
//! - `fact_laws`: laws of what is read and fitted.
//! - `duplicate_laws`: laws of duplicates.
//! - `info_laws`: laws of a report's info, and of JSON texts.
//! - `thing_laws`: laws of things as keys, and of limits.
//!
//! `specs/` has the definitions on which every contract above rests. This crate's Rust has:
//!
//! - the vocabulary that definitions and code share: enums without texts, with derives alone;
//! - the slow programs;
//! - laws of the definitions.
//!
//! It knows nothing of how anything is stored, shared, locked or read from a device.
#![tactic(auto)]

mod by_pairs;
mod duplicate_laws;
mod duplicates;
mod fact_laws;
mod faults;
mod info_laws;
mod kind;
mod number_laws;
mod text;
mod thing_laws;

pub use by_pairs::{PairedFact, allows, class_by_pairs, least_disallowed_by_pairs};
pub use duplicate_laws::{
    facts_are_mixed_where_dimensions_differ, reports_obey_where_no_cell_is_disallowed,
};
pub use duplicates::{Allowed, Class, Pair};
pub use fact_laws::{
    dims_again, dims_in_any_order, facts_fit_again, prefixes_in_any_order, rows_are_kept,
};
pub use faults::{DimFault, FactFault, NamesFault, NumberFault, TableFault, Trouble};
pub use info_laws::{texts_are_read_again, the_last_value_stays, the_others_stay};
pub use kind::Kind;
pub use number_laws::{
    intervals_hold_what_is_near, intervals_meet_where_a_number_is_shared,
    long_spellings_are_too_large, numbers_are_bounded, numbers_have_their_interval,
    only_spellings_are_numbers, short_spellings_have_their_number,
};
pub use text::is_same_text;
pub use thing_laws::{limits_are_their_numbers, things_are_keys};
