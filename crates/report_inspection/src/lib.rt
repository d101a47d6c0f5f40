//! Every fault and every duplicate of a report, where a load reports the first fault alone.
//!
//! - `inspection`: what an inspection tells, and `inspect`.
//! - `fault`: a fault of a report with its reasons.
//! - `info`: what `documentInfo` declares, each check by itself.
//! - `facts`: each fact by itself.
//! - `cell`: a cell as it is reported.
//! - `cells`: the cells of more than one fact.
//! - `crowds`: the facts that may share a cell.
//! - `warning`: what loads but is probably a mistake.
//! - `warnings`: all that is warned of in a report.
//! - `part_names`: the names that are warned of in a report, and in one fact.
//! - `repeats`: names that stand more than once in an object.
//! - `known_names`: the members that are known.
//! - `concepts`: concepts that the numeric table lacks.
//! - `lines`: the lines of an inspection.
//! - `words`: the words in them.
//! - `plain`: an inspection as lines for people.
//! - `fault_laws`: the laws of the faults.
//!
//! It knows nothing of versions, of sessions, of how a line of a script is read, or of files.
#![tactic(auto)]

mod cell;
mod cells;
mod concepts;
mod crowds;
mod facts;
mod fault;
mod fault_laws;
mod info;
mod inspection;
mod known_names;
mod lines;
mod part_names;
mod plain;
mod repeats;
mod warning;
mod warnings;
mod words;

pub use cell::Cell;
pub use fault::Fault;
pub use fault_laws::{facts_have_faults_where_refused, first_fault_is_the_readings};
pub use inspection::{Inspection, inspect};
pub use lines::push_inspection;
pub use plain::push_plain;
pub use warning::{Warning, WarningKind};
