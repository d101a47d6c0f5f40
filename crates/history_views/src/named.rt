//! `NamedVersion`: the version of a number, with the names of its reports, looked for on the way through a history.

ghost use Rattle.std.specs.Prelude.{◌≡◌, ◌∷◌, [], option_map, IfOk, OnOk};
ghost use Rattle.filing_model.specs.Histories.History.{Entry as PlainEntry, History, repository};
ghost use Rattle.filing_model.specs.Histories.Lawful.{IsLawful};
ghost use Rattle.filing_core.specs.Engines.{IsEngineOf};
ghost use Rattle.history_views.specs.Names.{HasNames, SeeksNamed, name_loaded};

use crate::sought::SoughtVersion;
use filing_core::Engine;
use filing_step::{Entry, Reply, Step};
use script_runs::View;
use std::alloc::{AllocError, Global};
use text_map::{PagedValue, TextPages};

/// The value under the name of a report that is there.
#[derive(Drop)]
pub(crate) struct Loaded;

impl PagedValue for Loaded {}

/// The version that is asked for, once it was met, and the names of its reports; of those so far until then.
#[derive(Drop)]
pub(crate) struct NamedVersion {
    pub(crate) version: SoughtVersion,
    pub(crate) names: TextPages<Loaded>,
}

/// The name of the report that an entry has put into the repository.
fn name_loaded(entry: &Entry) -> Option<&str>
    ensures { option_map (λ n. n.now) result ≡ name_loaded entry.now }
{
    match (&entry.step, &entry.reply) {
        (Step::Load(name, _), Reply::Loaded(_)) => Some(name),
        _ => None,
    }
}

impl NamedVersion {
    /// What is found before the first entry.
    pub(crate) fn new(alloc: Global, number: Option<u64>) -> Result<NamedVersion, AllocError>
        ensures number { IfOk result (λ n. n.version.number ≡ number) }
        ensures seeks { IfOk result (λ n. SeeksNamed n []) }
    {
        Ok(NamedVersion {
            version: SoughtVersion::new(alloc, number)?,
            names: TextPages::new(alloc),
        })
    }

    /// Adds the name of the report that an entry has put into the repository, if it has.
    fn add_name(&mut self, alloc: Global, entry: &Entry) -> Result<(), AllocError>
        ensures version { self.new.version ≡ self.old.version }
        ensures names { (h : History) → IsLawful (entry.now ∷ h) → HasNames self.old.names (repository h)
            → OnOk result (HasNames self.new.names (repository (entry.now ∷ h))) }
    {
        let Some(name) = name_loaded(entry) else {
            return Ok(());
        };
        let name = String::from_str(alloc, name)?;
        self.names = self.names.with(alloc, name, Loaded)?;
        Ok(())
    }

    /// Looks at an entry until the version is met.
    fn look_at(&mut self, alloc: Global, engine: &Engine, entry: &Entry) -> Result<(), AllocError>
        ensures number { self.new.version.number ≡ self.old.version.number }
        ensures seeks { (h : History) → IsEngineOf (entry.now ∷ h) engine.now → SeeksNamed self.old h
            → OnOk result (SeeksNamed self.new (entry.now ∷ h)) }
    {
        if self.version.is_met() {
            return Ok(());
        }
        self.add_name(alloc, entry)?;
        self.version.look_at(engine)
    }
}

impl View for NamedVersion {
    ghost use Rattle.history_views.specs.Names.{SeeksNamedOn};

    ghost sees = { SeeksNamedOn };

    fn look(&mut self, alloc: Global, engine: &Engine, entry: Entry) -> Result<(), AllocError> {
        self.look_at(alloc, engine, &entry)
    }
}
