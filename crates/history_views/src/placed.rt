//! `PlacedVersions`: two versions, with the places where they may differ, looked for on the way through a history.

ghost use Rattle.std.specs.Prelude.{◌≡◌, ◌∷◌, ◌&&◌, [], Some, is_some, IfOk, OnOk};
ghost use Rattle.filing_model.specs.Histories.History.{Entry as PlainEntry, History};
ghost use Rattle.filing_core.specs.Engines.{IsEngineOf};
ghost use Rattle.filing_step.specs.Steps.{step_of};
ghost use Rattle.history_views.specs.Placed.{HasPlaces, SeeksPlaced};
ghost use Rattle.history_views.specs.Versions.{version_kept};

use crate::sought::SoughtVersion;
use filing_core::Engine;
use filing_step::{Entry, Step};
use script_runs::View;
use std::alloc::{AllocError, Global};
use version_differences::Places;

/// Two versions that are asked for, once they were met, and the places of what loads, puts and removes so far.
#[derive(Drop)]
pub(crate) struct PlacedVersions {
    pub(crate) from: SoughtVersion,
    pub(crate) to: SoughtVersion,
    pub(crate) places: Places,
}

/// Adds the place of a step, if it has one.
fn add_step(places: &mut Places, alloc: Global, step: &Step) -> Result<(), AllocError>
    ensures { (h : History) (e : PlainEntry) → e.step ≡ step_of step.now → HasPlaces places.old h
        → OnOk result (HasPlaces places.new (e ∷ h)) }
{
    match step {
        Step::Load(name, _) => places.add_name(alloc, name),
        Step::Add { report, id, .. } | Step::Remove { report, id } => {
            places.add_place(alloc, report, id)
        }
        _ => Ok(()),
    }
}

impl PlacedVersions {
    /// What is found before the first entry.
    pub(crate) fn new(alloc: Global, from: u64, to: u64) -> Result<PlacedVersions, AllocError>
        ensures from { IfOk result (λ v. v.from.number ≡ Some from) }
        ensures to { IfOk result (λ v. v.to.number ≡ Some to) }
        ensures seeks { IfOk result (λ v. SeeksPlaced v []) }
    {
        Ok(PlacedVersions {
            from: SoughtVersion::new(alloc, Some(from))?,
            to: SoughtVersion::new(alloc, Some(to))?,
            places: Places::new(alloc),
        })
    }

    /// Whether both versions were met.
    fn are_met(&self) -> bool
        ensures { result ≡ (is_some (version_kept self.now.from.found) && is_some (version_kept self.now.to.found)) }
    {
        self.from.is_met() && self.to.is_met()
    }

    /// Looks at an entry until both versions are met.
    fn look_at(&mut self, alloc: Global, engine: &Engine, entry: &Entry) -> Result<(), AllocError>
        ensures from { self.new.from.number ≡ self.old.from.number }
        ensures to { self.new.to.number ≡ self.old.to.number }
        ensures seeks { (h : History) → IsEngineOf (entry.now ∷ h) engine.now → SeeksPlaced self.old h
            → OnOk result (SeeksPlaced self.new (entry.now ∷ h)) }
    {
        if self.are_met() {
            return Ok(());
        }
        add_step(&mut self.places, alloc, &entry.step)?;
        self.from.look_at(engine)?;
        self.to.look_at(engine)
    }
}

impl View for PlacedVersions {
    ghost use Rattle.history_views.specs.Placed.{SeeksPlacedOn};

    ghost sees = { SeeksPlacedOn };

    fn look(&mut self, alloc: Global, engine: &Engine, entry: Entry) -> Result<(), AllocError> {
        self.look_at(alloc, engine, &entry)
    }
}
