//! `Office`: a repository that many threads use.

ghost use Rattle.std.specs.Prelude.{◌≡◌, ◌≢◌, [], ◌∷◌, length, vec_len, All, sum, map, IfOk, OnOk, MatchResult};
ghost use Rattle.filing_model.specs.Sessions.Repository.{nothing};
ghost use Rattle.filing_model.specs.Histories.History.{repository};
ghost use Rattle.filing_office.specs.Sizes.{FitsOffice};
ghost use Rattle.filing_office.specs.Tallies.{nothing_taken};

use crate::blanks::Blanks;
use crate::desk::Desk;
use crate::fault::FinishFault;
use crate::locked::Locked;
use crate::roster::Roster;
use crate::shared::Shared;
use filing_core::{Core, HashKeys};
use filing_publish::{Naming, OfficeFault, Reviewer};
use std::alloc::{AllocError, Global};
use std::sync::ledger::{Ledger, Share};
use std::sync::{Mutex, Wait};

/// The desks of an office at most, and its reviewers. Each has one or more.
pub const MOST_DESKS: usize = 16;

/// A repository that many threads use: desks take steps under its lock, and reviewers read what is published under none.
/// It is not `Drop`: end it by `finish` or `give_up`.
pub struct Office<L: Ledger + Naming, M: Ledger> {
    pub(crate) locked: Mutex<Locked<L, M>>,
    steps: Roster<L>,
    receipts: Roster<M>,
    ghost alike: { steps.desks ≡ receipts.desks },
}

impl<L: Ledger + Naming, M: Ledger> Office<L, M> {
    ghost use Rattle.filing_office.specs.Ends.{gives_back};

    /// Opens an office over the empty history of `Shared::open`. Steps and receipts are counted in two ledgers, each of one part a desk.
    pub fn open<R: Wait>(
        rt: &R,
        alloc: Global,
        keys: HashKeys,
        desks: usize,
        reviewers: usize,
        blanks: Blanks,
    ) -> Result<(Office<L, M>, Vec<Desk<L, M>>, Vec<Reviewer<L>>), OfficeFault>
        requires book { blanks.unopened_log.seen.book ≡ L.book }
        requires desks_fit { FitsOffice desks }
        requires reviewers_fit { FitsOffice reviewers }
        requires steps { (blanks.steps.name ≡ L.name) × (blanks.steps.parts ≡ L.parts) × (blanks.steps.parts ≡ desks) }
        requires receipts { (blanks.receipts.name ≡ M.name) × (blanks.receipts.parts ≡ M.parts)
            × (blanks.receipts.parts ≡ desks) }
        ensures desks { IfOk result (λ o. (vec_len o.1 ≡ desks) × All (λ d. d ≡ nothing_taken) o.1.items) }
        ensures reviewers { IfOk result (λ o. (vec_len o.2 ≡ reviewers) × All (λ r. r ≡ nothing ∷ []) o.2.items) }
    {
        let Blanks {
            unopened_log,
            steps,
            receipts,
        } = blanks;
        let (steps, mut all_steps) = steps.open::<L>();
        let (receipts, mut all_receipts) = receipts.open::<M>();
        let shares = hand_out(alloc, desks, &mut all_steps, &mut all_receipts)?;
        let (shared, reviewers) = Shared::open(rt, alloc, keys, unopened_log, reviewers)?;
        let locked = Locked::new(shared, steps, receipts, all_steps, all_receipts);
        let office = Office {
            locked: Mutex::new(locked),
            steps: Roster::of(desks),
            receipts: Roster::of(desks),
        };
        Ok((office, shares, reviewers))
    }

    /// Ends the office with all its desks. It waits for the readers of reviews that are being opened; reviews that are kept go on answering.
    pub fn finish<R: Wait>(self, rt: &R, desks: Vec<Desk<L, M>>) -> Result<Core, FinishFault<L, M>>
        ensures counted { MatchResult result (λ c. length c.history ≡ sum (map (λ d. d.steps) desks.items))
            (λ f. gives_back f desks) }
        ensures numbered { IfOk result (λ c. (repository c.history).count ≡ sum (map (λ d. d.receipts) desks.items)) }
        ensures missing { MatchResult result (λ c. vec_len desks ≡ L.parts) (λ f. vec_len desks ≢ L.parts) }
    {
        if desks.len() != self.steps.desks() {
            return Err(FinishFault::DeskMissing {
                office: self,
                desks,
            });
        }
        let Office {
            locked,
            steps: _steps,
            receipts: _receipts,
        } = self;
        Ok(locked.into_inner().close(rt, desks))
    }

    /// Ends an office whose desks are gone. What publishes is taken back, and the core is dropped.
    pub fn give_up<R: Wait>(self, rt: &R) {
        let Office {
            locked,
            steps: _steps,
            receipts: _receipts,
        } = self;
        locked.into_inner().give_up(rt);
    }
}

/// This many desks, each with one part of both ledgers.
fn hand_out<L: Ledger, M: Ledger>(
    alloc: Global,
    desks: usize,
    steps: &mut Share<L>,
    receipts: &mut Share<M>,
) -> Result<Vec<Desk<L, M>>, AllocError>
    requires steps { (steps.old.parts ≡ desks) × (steps.old.amount ≡ 0) }
    requires receipts { (receipts.old.parts ≡ desks) × (receipts.old.amount ≡ 0) }
    ensures desks { IfOk result (λ v. (vec_len v ≡ desks) × All (λ d. d ≡ nothing_taken) v.items) }
    ensures no_parts { OnOk result ((steps.new.parts ≡ 0) × (receipts.new.parts ≡ 0)) }
{
    let mut shares = Vec::with_capacity(alloc, desks)?;
    for _ in 0..desks {
        shares.push(Desk {
            steps: steps.split_off(1, 0),
            receipts: receipts.split_off(1, 0),
        })?;
    }
    Ok(shares)
}
