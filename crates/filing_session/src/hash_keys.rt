//! `HashKeys`: the keys of the hashes by which sessions find what they have read.

ghost use Rattle.std.specs.Prelude.{◌≡◌, true, IfOk};
ghost use Rattle.filing_session.specs.HashKeys.{is_drawn};

use std::hash::{BuildHasher, DefaultHasher, RandomState};
use std::io;
use std::random::RandomSource;

/// The keys of the hashes by which a session finds what it has read.
/// Whoever knows them can name many things of one hash, and each is then compared with all before it.
#[derive(Clone, Copy)]
pub enum HashKeys {
    /// Both keys are 0, as everybody knows.
    Fixed,
    /// Nobody knows the keys.
    Drawn(RandomState),
}

impl HashKeys {
    /// Draws keys from the random bytes of the system.
    #[tactic(auto, unfolding(crate::specs::HashKeys::is_drawn))]
    pub fn draw(rt: &impl RandomSource) -> io::Result<HashKeys>
        ensures { IfOk result (λ keys. is_drawn keys ≡ true) }
    {
        Ok(HashKeys::Drawn(RandomState::new(rt)?))
    }
}

impl BuildHasher for HashKeys {
    type Hasher = DefaultHasher;

    ghost use Rattle.filing_session.specs.HashKeys.{begun};

    ghost build_hasher = { begun };

    #[tactic(auto, unfolding(crate::specs::HashKeys::begun))]
    fn build_hasher(&self) -> DefaultHasher {
        match self {
            HashKeys::Fixed => DefaultHasher::new(),
            HashKeys::Drawn(keys) => keys.build_hasher(),
        }
    }
}
