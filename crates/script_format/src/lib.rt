//! The lines of a script and of its output, as texts.
//!
//! - `line_value`: the JSON value of a line.
//! - `json_array`: the parts of an array, in either form of value.
//! - `line`: the kind of a line, with its parts.
//! - `asked_step`: the step that a line asks of a session.
//! - `line_outcome`: what a line comes to before its step is taken.
//! - `texts`: the text of each reply.
//!
//! `specs/` says what a script has as its output. The crate knows nothing of how a step is answered, nor of devices: nothing of a core or of versions.
#![tactic(auto)]

mod asked_step;
mod json_array;
mod line;
mod line_outcome;
mod line_value;
mod texts;

pub use asked_step::{own_period, step_asked, step_from};
pub use json_array::{JsonArray, allowed_at};
pub use line::{Asking, Line, Verb, kind_of_word, line_of, taken_at};
pub use line_outcome::{LineOutcome, Loaded, classify_line, classify_line_in};
pub use line_value::json_value_in;
pub use texts::{
    bad_fact_reply, bad_line_reply, bad_report_reply, class_word, exported_reply,
    exported_reply_of, name_in_use_reply, no_session_reply, push_asked, push_later, push_number,
    push_reply, push_texts, push_word, reply_text, trouble_word,
};
