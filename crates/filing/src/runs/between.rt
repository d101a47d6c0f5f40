//! What runs and commands give back: the streams between which they worked, and what they left.

use crate::fault::Fault;
use crate::reasons::explainer::Explainer;
use filing_cli::JournaledRun;
use journal::Device;

/// A reader and a writer that are given back, with what was made between them.
#[derive(Drop)]
pub(crate) struct Between<R: Drop, W: Drop, T: Drop> {
    pub(crate) reader: R,
    pub(crate) writer: W,
    pub(crate) left: T,
}

/// How a run ended that began with a history, if one was given: what took its steps is left.
#[derive(Drop)]
pub(crate) struct ResumedRun<H: Drop, T: Drop> {
    /// The source of that history.
    pub(crate) from: Option<H>,
    pub(crate) explainer: Explainer,
    pub(crate) ended: Result<T, Fault>,
}

/// How a run with a journal ended, with the explainer that was shown its lines.
#[derive(Drop)]
pub(crate) struct ExplainedRun<D: Device> {
    pub(crate) run: JournaledRun<D>,
    pub(crate) explainer: Explainer,
}
