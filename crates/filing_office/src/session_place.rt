//! `SessionPlace`: where a session is.

use filing_publish::Review;

/// Where the session of a name is: under the lock of the office, by its number, or at a version of the desk's own reviewer.
#[derive(Drop)]
pub(crate) enum SessionPlace {
    Office(u64),
    Review(Review),
}
