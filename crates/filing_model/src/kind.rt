/// What a session may do.
#[derive(Clone, Copy, Debug, PartialEq, Eq, Hash)]
pub enum Kind {
    /// It only reads.
    Review,
    /// It reads, adds and removes facts, and is validated at its commit.
    Amend,
}
