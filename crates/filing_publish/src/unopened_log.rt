//! `UnopenedLog`: a book of editions at its beginning.

ghost use Rattle.std.specs.Prelude.{◌≡◌, [], ◌∷◌};
ghost use Rattle.filing_model.specs.Sessions.Repository.{nothing};
ghost use Rattle.filing_publish.specs.Rules.{head_of};

use crate::law::{Law, Version};
use logbook::{Seen, Start, Word};

/// A book of editions at its beginning, which has no name yet: its list is the empty repository alone.
#[derive(Drop)]
pub struct UnopenedLog {
    pub(crate) head: Word<Version, u64, Law>,
    pub(crate) seen: Seen<Version, u64, Law>,
    pub ghost begins: { seen.log ≡ nothing ∷ [] },
    pub ghost head_is: { head ≡ head_of seen.book },
}

impl UnopenedLog {
    /// It takes no memory.
    pub fn new() -> UnopenedLog {
        let (seen, mut first, _second) = Seen::open(Start::alone(), 1, 0);
        UnopenedLog {
            head: Word::tracked(1, &mut first),
            seen,
        }
    }
}
