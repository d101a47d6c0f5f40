//! `Reviewer`: what reads the version that was published last, with no lock.

ghost use Rattle.std.specs.Prelude.{◌≡◌, ◌+◌, length, OnErr, OnOk, IfOk};
ghost use mathlib.Core.List.{IsPrefix};
ghost use Rattle.filing_publish.specs.Lists.{EndsWith, IsLastCount, IsLonger};

use crate::edition::Edition;
use crate::law::Naming;
use crate::published::{Known, Looks, Published};
use crate::receipt::Receipt;
use crate::review::Review;
use left_right::reader::Reader;
use std::alloc::AllocError;
use std::marker::Model;

type ReaderPlace<J> = Reader<Edition, Known, Published<J>>;

/// The longer of the edition that is published and this one; this one where nothing is published any more. The place comes back.
#[tactic(auto, using(crate::proofs::Beginnings::prefix_self))]
fn look<J: Naming>(
    place: ReaderPlace<J>,
    newest: &Edition,
) -> (Result<Edition, AllocError>, ReaderPlace<J>)
    requires { newest.now.book ≡ J.book }
    ensures book { IfOk result.0 (λ e. e.book ≡ J.book) }
    ensures goes_on { IfOk result.0 (λ e. IsPrefix newest.now.versions e.versions) }
{
    match place.enter_as::<Looks<J>>() {
        Ok(reading) => {
            let longer = newest.longer_of(reading.get());
            (longer, reading.leave())
        }
        Err(place) => (newest.share(), place),
    }
}

/// What reads the version that was published last. It takes no lock and waits for nobody. Contracts see the list of versions that it has seen or learnt.
#[derive(Drop)]
pub struct Reviewer<J: Naming> {
    pub(crate) place: Option<ReaderPlace<J>>,
    pub(crate) newest: Edition,
}

impl<J: Naming> Model for Reviewer<J> {
    ghost use Rattle.std.specs.Prelude.{◌≡◌, IsSome, List};
    ghost use Rattle.filing_model.specs.Sessions.Repository.{Repository};

    ghost Value = { List Repository };

    ghost view = { λ r. r.newest.versions };

    ghost invariant = { λ r. IsSome r.place × (r.newest.book ≡ J.book) };
}

impl<J: Naming> Reviewer<J> {
    ghost use Rattle.filing_model.specs.Histories.Versions.{IsChain};

    /// A review of the version that was published last, or of the last version seen or learnt where nothing is published any more.
    /// Where memory is refused nothing is changed.
    pub fn open(&mut self) -> Result<Review, AllocError>
        ensures newest { IfOk result (λ r. EndsWith self.new r) }
        ensures chain { OnOk result (IsChain self.new) }
        ensures goes_on { OnOk result (IsPrefix self.old self.new) }
        ensures err { OnErr result (self.new ≡ self.old) }
    {
        let Some(place) = self.place.take() else {
            unreachable!()
        };
        let (newest, place) = look(place, &self.newest);
        self.place = Some(place);
        let newest = newest?;
        let review = newest.review()?;
        self.newest = newest;
        Ok(review)
    }

    /// Takes in the versions of a receipt: no later review is of an older one. Where memory is refused nothing is changed.
    pub fn learn(&mut self, receipt: &Receipt<J>) -> Result<(), AllocError>
        ensures longer { OnOk result (IsLonger self.old receipt.now self.new) }
        ensures chain { OnOk result (IsChain self.new) }
        ensures err { OnErr result (self.new ≡ self.old) }
    {
        self.newest = self.newest.longer_of(&receipt.edition)?;
        Ok(())
    }

    /// The number of the last version seen or learnt: the count of the last of the list, which is a chain.
    /// It is one less than how many versions the list has. It takes no memory.
    pub fn seen(&self) -> u64
        ensures count { IsLastCount self.now result }
        ensures chain { IsChain self.now }
        ensures length { result + 1 ≡ length self.now }
    {
        self.newest.number()
    }
}
