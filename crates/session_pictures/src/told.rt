//! `ToldSession`: what is reported about a session.

ghost use Rattle.std.specs.Prelude.{◌≡◌};
ghost use Rattle.session_pictures.specs.Columns.{touching};

use filing_model::Kind;

/// How a session ended.
#[derive(Clone, Copy)]
pub enum Ending {
    Committed,
    /// The number of the version that touched what it had read.
    Conflict(u64),
    Closed,
    Disallowed,
}

impl Ending {
    /// The number of the version that touched what it had read.
    pub fn touching(self) -> Option<u64>
        ensures { result ≡ touching self }
    {
        match self {
            Ending::Conflict(number) => Some(number),
            Ending::Committed | Ending::Closed | Ending::Disallowed => None,
        }
    }
}

/// The end of a session.
#[derive(Drop)]
pub struct SessionEnd {
    pub ending: Ending,
    /// The reply by which it ended.
    pub reply: String,
    /// The number of the version then.
    pub version: u64,
}

/// What is reported about a session.
#[derive(Drop)]
pub struct ToldSession {
    pub kind: Kind,
    /// The number of the version at its opening.
    pub opened_at: u64,
    /// How many of its calls were staged.
    pub staged: u64,
    /// None while it is open.
    pub ended: Option<SessionEnd>,
    /// The session whose commit touched what it had read, where it ended by a conflict with one.
    pub touched_by: Option<u64>,
    /// Its name, where that is known.
    pub name: Option<String>,
    /// When it ended, or was opened where it has not ended; none where that is not known.
    pub time: Option<String>,
}
