//! The lines of replies, as compact JSON, without the LF that ends them.

mod lines;
mod refusals;
mod replies;
mod things;
mod words;

pub use lines::{bad_line_reply, name_in_use_reply, no_session_reply};
pub use refusals::{bad_fact_reply, bad_report_reply, push_word};
pub use replies::{
    exported_reply, exported_reply_of, push_number, push_reply, push_texts, reply_text,
};
pub use things::{push_asked, push_later};
pub use words::{class_word, trouble_word};
