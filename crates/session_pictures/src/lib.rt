//! Pictures of sessions: what is reported about them, drawn in SVG.
//!
//! - `told`: what is reported about a session.
//! - `columns`: the versions that a picture shows, and where each stands among them.
//! - `picture`: what a picture shows.
//! - `drawing`: draws it.
//! - `elements`: groups of elements, and the marks of ends.
//! - `labels`: names and times, as parts of an XML text.
//! - `rows`: draws the row of a session.
//! - `arrows`: draws the arrow into the bar of a session that ended by a conflict.
//! - `legend`: says what the elements mean.
//!
//! What a picture shows is proved; how it is drawn is not.
//! It knows nothing of where sessions come from: nothing of histories, of steps or replies, or of devices.
#![tactic(auto)]

mod arrows;
mod columns;
mod drawing;
mod elements;
mod labels;
mod legend;
mod picture;
mod rows;
mod told;

pub use drawing::{Drawing, draw};
pub use picture::{Arrow, Label, Picture, Row, RowEnd, picture_of_sessions};
pub use told::{Ending, SessionEnd, ToldSession};
