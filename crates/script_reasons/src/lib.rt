//! Why a line of a script was refused, in words for people.
//!
//! - `refusal`: the words of replies that refuse, whether a reply is one, and whether it reports a mistake in the script.
//! - `refusal_laws`: the laws of these words.
//! - `reasons`: what is reported about one line, and its text.
//! - `explaining`: the reasons of a line by its reply.
//! - `gathered`: the reasons of one line, as they are gathered.
//! - `told`: what is wrong with a line or with one fact, as it is found.
//! - `shown`: texts and values as reasons show them.
//! - `bad_line`: what is no line.
//! - `json_fault`: where a text stops to be JSON, and what was expected there.
//! - `forms`: the parts that each line has.
//! - `nearest`: the word that was meant.
//! - `reports`: what is wrong with a report.
//! - `info`: what is wrong with `documentInfo`.
//! - `facts`: what is wrong with a fact as it is read.
//! - `fits`: what is wrong with a fact by the names of its report.
//! - `states`: what the state of the repository refused.
//!
//! The reasons are looked for after the reply, of refused lines alone, by the functions that read the line before.
//!
//! It knows nothing of how a line is answered: nothing of a core, of versions or of the names in use.
#![tactic(auto)]

mod bad_line;
mod explaining;
mod facts;
mod fits;
mod forms;
mod gathered;
mod info;
mod json_fault;
mod nearest;
mod reasons;
mod refusal;
mod refusal_laws;
mod reports;
mod shown;
mod states;
mod told;

pub use bad_line::reading_stop;
pub use explaining::explain;
pub use facts::tell_not_whole;
pub use info::{names_of, tell_features_fault, tell_info_faults, tell_type_fault};
pub use reasons::{Reason, Reasons, push_reasons};
pub use refusal::{Refusal, reports_mistake, tells_mistake};
pub use refusal_laws::{words_tell_refusals, words_tell_replies};
pub use reports::{faults_of_fact, faults_of_facts, faults_of_text, without_mark};
pub use told::Told;
