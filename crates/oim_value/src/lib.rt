//! Decimal numerals, how far a number may be off, and the intervals that rounded numbers mean.
//!
//! - `decimal`: exact decimal numbers, and the numerals that spell them.
//! - `accuracy`: how far a number may be off.
//! - `interval`: the numbers that a rounded number may mean.
//!
//! A unit is the last place that a numeral may have after its point, 10^-15 (`decimal::MOST_FRACTION_DIGITS`).
//! Numbers are counted in units, and the ends of intervals in half units.
//!
//! It knows nothing of facts, of dimensions, of units of measure, of JSON or of reports. It takes no memory.
#![tactic(auto)]

mod accuracy;
mod decimal;
mod interval;

pub use accuracy::{Accuracy, Decimals};
pub use decimal::Decimal;
pub use filing_model::NumberFault;
pub use interval::Interval;
