//! `Publisher`: what adds versions to the list, and shows each to the readers.

ghost use Rattle.std.specs.Prelude.{◌≡◌, ◌+◌, ◌<◌, ◌≤◌, ◌^◌, [], ◌∷◌, ◌++◌, length, vec_len, All, IfOk};
ghost use Rattle.std.specs.Arc.{arc_value};
ghost use mathlib.Core.List.{IsPrefix};
ghost use Rattle.filing_model.specs.Sessions.Repository.{nothing};
ghost use Rattle.filing_version.specs.StampedReports.{repository_in};

use crate::edition::Edition;
use crate::fault::OfficeFault;
use crate::law::{Add, Law, Naming, Nothing, Version};
use crate::published::{Known, Looks, Published};
use crate::receipt::Receipt;
use crate::reviewer::Reviewer;
use crate::unopened_log::UnopenedLog;
use core::mem::replace_with;
use filing_version::RepoVersion;
use left_right::writer::Writer;
use logbook::{Offer, Seen, Word};
use std::alloc::{AllocError, Global};
use std::marker::{Model, PhantomData};
use std::sync::{Arc, Wait};

/// A version that is to be published: what publishing needs of memory. Contracts see its plain repository.
#[derive(Drop)]
pub struct PendingPublish {
    shown: Arc<RepoVersion>,
    told: Arc<RepoVersion>,
}

impl Model for PendingPublish {
    ghost use Rattle.filing_model.specs.Sessions.Repository.{Repository};

    ghost Value = { Repository };

    ghost use Rattle.std.specs.Prelude.{◌≡◌};
    ghost use Rattle.std.specs.Arc.{arc_value};
    ghost use Rattle.filing_version.specs.StampedReports.{repository_in};

    ghost view = { λ p. repository_in (arc_value p.shown) };

    ghost invariant = { λ p. arc_value p.told ≡ arc_value p.shown };
}

impl PendingPublish {
    pub fn of(version: &Arc<RepoVersion>) -> Result<PendingPublish, AllocError>
        ensures { IfOk result (λ p. p ≡ repository_in (arc_value version.now)) }
    {
        Ok(PendingPublish {
            shown: Arc::try_clone(version)?,
            told: Arc::try_clone(version)?,
        })
    }
}

type EditionWriter<J> = Writer<Edition, (), Known, Published<J>>;

/// Shows an edition in place of the one before. It waits for those that still read the one before that.
fn show<J: Naming, R: Wait>(
    rt: &R,
    mut writer: EditionWriter<J>,
    edition: Edition,
) -> EditionWriter<J>
    requires { (edition.book ≡ J.book) × IsPrefix writer.desk.shown.value.versions edition.versions }
    ensures { result.desk.shown.value ≡ edition }
{
    let (open, mut spare) = writer.desk.open(rt);
    *spare = edition;
    writer.desk = open.show_as::<Looks<J>>(spare);
    writer
}

/// What adds versions to the list of its book, and shows each to the readers. It is not `Drop`: end it by `give_up`.
/// Contracts see the list, whose last version is the one that is published.
pub struct Publisher<J: Naming> {
    head: Word<Version, u64, Law>,
    writer: EditionWriter<J>,
}

impl<J: Naming> Model for Publisher<J> {
    ghost use Rattle.std.specs.Prelude.{◌≡◌, List};
    ghost use Rattle.filing_model.specs.Sessions.Repository.{Repository};

    ghost Value = { List Repository };

    ghost use Rattle.left_right.specs.Sides.{view as seen_at};
    ghost use Rattle.filing_publish.specs.Rules.{head_of};

    ghost view = { λ p. p.writer.desk.shown.value.versions };

    ghost invariant = { λ p. (p.head ≡ head_of J.book) × (p.writer.desk.shown.value.book ≡ J.book) };
}

impl<J: Naming> Publisher<J> {
    ghost use Rattle.filing_publish.specs.Lists.{IsEdition};
    ghost use Rattle.filing_model.specs.Histories.Versions.{IsChain};

    /// Begins to publish the book of an unopened log, with places for this many reviewers, of which each has seen the empty repository alone.
    pub fn open<R: Wait>(
        rt: &R,
        alloc: Global,
        unopened_log: UnopenedLog,
        reviewers: usize,
    ) -> Result<(Publisher<J>, Vec<Reviewer<J>>), OfficeFault>
        requires book { unopened_log.seen.book ≡ J.book }
        requires some { (0 < reviewers) × (reviewers < 2 ^ 32) }
        ensures begins { IfOk result (λ o. o.0 ≡ nothing ∷ []) }
        ensures reviewers { IfOk result (λ o. vec_len o.1 ≡ reviewers) }
        ensures seen { IfOk result (λ o. All (λ r. r ≡ nothing ∷ []) o.1.items) }
    {
        let UnopenedLog { head, seen } = unopened_log;
        let version = Arc::new(alloc, RepoVersion::empty(alloc))?;
        let beginning = Edition { version, seen };
        let writer = Writer::new(alloc, beginning.share()?, beginning.share()?, reviewers)?;
        let publisher = Publisher { head, writer };
        match publisher.places(alloc, &beginning, reviewers) {
            Ok(places) => Ok((publisher, places)),
            Err(fault) => {
                publisher.give_up(rt);
                Err(fault)
            }
        }
    }

    /// This many reviewers, each of which has seen this edition.
    fn places(
        &self,
        alloc: Global,
        beginning: &Edition,
        reviewers: usize,
    ) -> Result<Vec<Reviewer<J>>, OfficeFault>
        requires { beginning.now.book ≡ J.book }
        ensures reviewers { IfOk result (λ v. vec_len v ≡ reviewers) }
        ensures seen { IfOk result (λ v. All (λ r. r ≡ beginning.now.versions) v.items) }
    {
        let mut places = Vec::with_capacity(alloc, reviewers)?;
        for _ in 0..reviewers {
            let newest = beginning.share()?;
            let Ok(place) = self.writer.factory().reader() else {
                return Err(OfficeFault::NoPlace);
            };
            places.push(Reviewer {
                place: Some(place),
                newest,
            })?;
        }
        Ok(places)
    }

    /// The edition that readers see.
    pub fn edition(&self) -> &Edition
        ensures { (result.now.versions ≡ self.now) × (result.now.book ≡ J.book) }
    {
        self.writer.published()
    }

    /// Adds a version to the list that was published.
    fn add<R: Wait>(&self, rt: &R, version: &RepoVersion) -> Seen<Version, u64, Law>
        requires { IsChain (self.now ++ repository_in version.now ∷ []) }
        ensures { (result.book ≡ J.book) × (result.log ≡ self.now ++ repository_in version.now ∷ []) }
    {
        let mut seen = self.edition().seen.again();
        let mut offer: Offer<Version, u64, Law, Nothing> = seen.plain::<Nothing, RepoVersion, Add>(
            version,
        );
        let mut pen = seen.no_pen();
        // A list of 2^64 versions, or one that somebody else made longer: neither comes.
        let length = version.number();
        if length < u64::MAX {
            let found = self
                .head
                .compare_exchange::<Add, Nothing>(
                    length,
                    length + 1,
                    &mut seen,
                    &mut offer,
                    &mut pen,
                );
            if found == length {
                return seen;
            }
        }
        for _ in rt.forever() {}
        unreachable!()
    }

    /// Adds a version and shows it to the readers. It takes no memory; it waits for those that still read the version before the last.
    pub fn publish<R: Wait>(&mut self, rt: &R, pending: PendingPublish) -> Receipt<J>
        requires { IsChain (self.old ++ pending ∷ []) }
        ensures published { self.new ≡ self.old ++ pending ∷ [] }
        ensures told { result ≡ self.new }
    {
        let PendingPublish { shown, told } = pending;
        let seen = self.add(rt, &shown);
        let receipt = Receipt {
            edition: Edition {
                version: told,
                seen: seen.again(),
            },
            of: PhantomData,
        };
        let edition = Edition {
            version: shown,
            seen,
        };
        replace_with(
            &mut self.writer,
            edition,
            |writer: EditionWriter<J>, edition: Edition| -> (EditionWriter<J>, ())
                requires { (edition.book ≡ J.book) × IsPrefix writer.desk.shown.value.versions edition.versions }
                ensures { result.0.desk.shown.value ≡ edition }
            { (show(rt, writer, edition), ()) },
        );
        receipt
    }

    /// Takes the writer back and drops what it gives. It waits for the readers.
    /// A reviewer that opens from now on answers at the last version that it has seen or learnt.
    pub fn give_up<R: Wait>(self, rt: &R) {
        let Publisher {
            head: _head,
            writer,
        } = self;
        writer.take(rt);
    }
}
