//! `Law`: the rule of the list of versions. It is kept in proofs alone, but for one word, its length.

use filing_version::RepoVersion;
use logbook::{Gain, Plain, Play, Rule};
use std::marker::{Brand, Model};

/// A version, as the list has it: its plain repository. No value of it is made.
pub struct Version {
    pub version: RepoVersion,
}

impl Model for Version {
    ghost use Rattle.filing_model.specs.Sessions.Repository.{Repository};

    ghost Value = { Repository };

    ghost use Rattle.filing_version.specs.StampedReports.{repository_in};

    ghost view = { λ v. repository_in v.version };
}

/// The list begins with the empty repository, and is a chain.
pub struct Law;

impl Rule<Version, u64> for Law {
    ghost use Rattle.std.specs.Prelude.{[], ◌∷◌};
    ghost use base.Fml.{ftrue};
    ghost use Rattle.filing_model.specs.Sessions.Repository.{nothing};
    ghost use Rattle.filing_publish.specs.Rules.{IsKept};

    ghost holds = { λ cells log. IsKept cells log };

    ghost first = { nothing ∷ [] };

    ghost hinted = { λ n log. Unit {0} };

    ghost shows = { λ log. [] };

    ghost keeps = { λ names log. ftrue };

    ghost moves = { λ ask before after answer. Unit {0} };
}

/// Nothing is traded for a version.
pub(crate) struct Nothing;

impl Gain<Version, u64> for Nothing {
    ghost use base.Fml.{ftrue};

    ghost after = { λ names about answer. ftrue };
}

/// The step that adds a version.
pub(crate) struct Add;

impl Play<Version, u64> for Add {
    ghost use Rattle.filing_publish.specs.Rules.{Adds};

    ghost then = { Adds };
}

impl Plain<RepoVersion, Version, u64> for Add {
    ghost use Rattle.std.specs.Prelude.{None};
    ghost use Rattle.filing_version.specs.StampedReports.{repository_in};

    ghost ask = { λ v. repository_in v };

    ghost state = { λ v. None };
}

/// Which book of editions it is. Each run of a program picks one.
pub trait Naming {
    ghost use Rattle.logbook.specs.Pages.{Book};

    ghost book: { Book };
}

impl Naming for Brand {
    ghost book = { record { number = 0; log_name = 0; cells_name = 0 } };
}
