//! `View`: what is seen of a history, entry by entry.

ghost use Rattle.std.specs.Prelude.{◌∷◌, OnOk};
ghost use Rattle.filing_model.specs.Histories.History.{History};
ghost use Rattle.filing_core.specs.Engines.{IsEngineOf};

use filing_core::Engine;
use filing_step::Entry;
use std::alloc::{AllocError, Global};

/// What looks at the entries of a lawful history, one after another.
pub trait View {
    /// Whether a view, which was the first one before any entry, has become the second one over a history.
    ghost sees: { Self → Self → History → Type 0 };

    /// Looks at an entry, which the engine took last.
    fn look(&mut self, alloc: Global, engine: &Engine, entry: Entry) -> Result<(), AllocError>
        ensures { (first : Self) (h : History) → IsEngineOf (entry ∷ h) engine.now → sees first self.old h
            → OnOk result (sees first self.new (entry ∷ h)) };
}

/// The view of whoever wants to know only whether a history is lawful, and its engine.
#[derive(Drop)]
pub struct NoView;

impl View for NoView {
    ghost sees = { λ _ _ _. Unit {0} };

    fn look(&mut self, _alloc: Global, _engine: &Engine, _entry: Entry) -> Result<(), AllocError> {
        Ok(())
    }
}
