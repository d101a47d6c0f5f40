//! `Edition`: a version, with the list of all versions up to it.

ghost use Rattle.std.specs.Prelude.{◌≡◌, ◌+◌, length, IfOk};
ghost use Rattle.std.specs.Arc.{arc_value};
ghost use Rattle.filing_version.specs.StampedReports.{repository_in};
ghost use Rattle.filing_publish.specs.Lists.{IsEdition, IsLastCount, IsLonger, EndsWith};

use crate::law::{Law, Version};
use crate::review::Review;
use filing_version::RepoVersion;
use left_right::Absorb;
use logbook::Seen;
use std::alloc::AllocError;
use std::marker::Model;
use std::sync::Arc;

/// A version, with the list of all versions up to it. Contracts see the list, and the book that it is of.
#[derive(Drop)]
pub struct Edition {
    pub(crate) version: Arc<RepoVersion>,
    pub(crate) seen: Seen<Version, u64, Law>,
}

impl Model for Edition {
    ghost use Rattle.filing_publish.specs.Lists.{Listed, IsEdition};

    ghost Value = { Listed };

    ghost use Rattle.std.specs.Arc.{arc_value};
    ghost use Rattle.filing_version.specs.StampedReports.{repository_in};

    ghost view = { λ e. record { book = e.seen.book; versions = e.seen.log } };

    ghost invariant = { λ e. IsEdition (record { book = e.seen.book; versions = e.seen.log })
        (repository_in (arc_value e.version)) };
}

impl Edition {
    ghost use Rattle.filing_model.specs.Histories.Versions.{IsChain};

    /// The last version of the list.
    pub fn version(&self) -> &Arc<RepoVersion>
        ensures { IsEdition self.now (repository_in (arc_value result.now)) }
    {
        &self.version
    }

    /// The number of its version, which is one less than how many versions the list has.
    pub fn number(&self) -> u64
        ensures count { IsLastCount self.now.versions result }
        ensures chain { IsChain self.now.versions }
        ensures length { result + 1 ≡ length self.now.versions }
    {
        self.version.number()
    }

    /// The edition once more. Its version is shared.
    pub(crate) fn share(&self) -> Result<Edition, AllocError>
        ensures { IfOk result (λ e. e ≡ self.now) }
    {
        Ok(Edition {
            version: Arc::try_clone(&self.version)?,
            seen: self.seen.again(),
        })
    }

    /// The longer of two editions of one book.
    pub(crate) fn longer_of(&self, other: &Edition) -> Result<Edition, AllocError>
        requires { other.now.book ≡ self.now.book }
        ensures book { IfOk result (λ e. e.book ≡ self.now.book) }
        ensures longer { IfOk result (λ e. IsLonger self.now.versions other.now.versions e.versions) }
        ensures chain { IfOk result (λ e. IsChain e.versions) }
    {
        let mut both = self.seen.again();
        both.learn(&other.seen);
        if self.number() < other.number() {
            other.share()
        } else {
            self.share()
        }
    }

    /// A review of its version.
    pub(crate) fn review(&self) -> Result<Review, AllocError>
        ensures { IfOk result (λ r. IsEdition self.now r) }
    {
        Review::of(&self.version)
    }
}

/// There is nothing to absorb: each edition takes the place of the one before it.
impl Absorb<()> for Edition {
    type State = ();

    ghost state = { λ _. tt };

    ghost applied = { λ s _. s };

    ghost never_fails = { Unit {0} };

    fn absorb_first(&mut self, _operation: &(), _other: &Edition) -> Result<(), AllocError> {
        Ok(())
    }
}
