//! Facts of xBRL-JSON reports: dimension sets, the names of a report, and facts fitted to them.
//!
//! - `dims`: dimension sets.
//! - `compared_dims`: the order, the equality and the hash of dimension sets.
//! - `names`: the prefixes of a report, with the numeric table by which it is read.
//! - `table`: the numeric concepts.
//! - `fact`: facts as they are read, and facts that fit the names of their report.
//! - `fitting`: the way from the one to the other.
//! - `pairs`: what two facts are to one another.
//! - `tally`: the class of a cell in one pass.
//! - `fact_tally`: some facts by the first of them and a tally.
//! - `classes`: the class of a list or of an iterator.
//! - `period_filter_ref`: the period filter of a query, borrowed.
//! - `texts`: texts that may be missing.
//!
//! It knows nothing of JSON, of reports as a whole, or of versions.
#![tactic(auto)]

mod classes;
mod compared_dims;
mod dims;
mod fact;
mod fact_tally;
mod fitting;
mod names;
mod pairs;
mod period_filter_ref;
mod table;
mod tally;
mod texts;

pub use classes::{class_of, class_over};
pub use dims::DimSet;
pub use fact::{Fact, FactValue, RawFact};
pub use fact_tally::FactTally;
pub use filing_model::{Allowed, Class, DimFault, FactFault, NamesFault, Pair, allows};
pub use fitting::fit;
pub use names::Names;
pub use pairs::compare;
pub use period_filter_ref::PeriodFilterRef;
pub use table::NumericTable;
pub use texts::{are_same_texts, clone_text, own_text};
