//! What came of something that was to be shown.

/// What came of what was asked for.
#[derive(Clone, Copy)]
pub enum Shown {
    /// It is written.
    Written,
    /// The version has no report of this name.
    NoReport,
    /// The history has no version of this number.
    NoVersion,
}
