//! `Receipt`: what a load or a commit gets if it made a version.

ghost use Rattle.std.specs.Prelude.{◌≡◌, ◌+◌, length};
ghost use Rattle.filing_publish.specs.Lists.{IsLastCount};

use crate::edition::Edition;
use crate::law::Naming;
use std::marker::{Model, PhantomData};

/// What a load or a commit gets if it made a version. Contracts see the list of versions that ends with it.
#[derive(Drop)]
pub struct Receipt<J: Naming> {
    pub(crate) edition: Edition,
    pub(crate) of: PhantomData<J>,
}

impl<J: Naming> Model for Receipt<J> {
    ghost use Rattle.std.specs.Prelude.{◌≡◌, List};
    ghost use Rattle.filing_model.specs.Sessions.Repository.{Repository};

    ghost Value = { List Repository };

    ghost view = { λ r. r.edition.versions };

    ghost invariant = { λ r. r.edition.book ≡ J.book };
}

impl<J: Naming> Receipt<J> {
    ghost use Rattle.filing_model.specs.Histories.Versions.{IsChain};

    /// The number of the version: the count of the last of the list, which is a chain. It is one less than how many versions the list has. It takes no memory.
    pub fn number(&self) -> u64
        ensures count { IsLastCount self.now result }
        ensures chain { IsChain self.now }
        ensures length { result + 1 ≡ length self.now }
    {
        self.edition.number()
    }
}
