//! Runs over scripts: alone, with a journal, with a file of their entries.
//!
//! - `script`: runs a script.
//! - `machine`: answers its lines, each by the step that it takes.
//! - `taker`: what takes its steps: a core, an engine, or an engine with a journal or with a file of its entries.
//! - `journal_keeper`: an engine with a journal.
//! - `journal_steps`: the steps that it takes.
//! - `durability`: keeps in the journal what was accepted before it is reported.
//! - `with_journal`: runs a script with a journal.
//! - `entry_file`: a file of entries.
//! - `recorder`: an engine whose entries are written to one.
//! - `with_entry_file`: runs a script with that.

pub(crate) mod durability;
pub(crate) mod entry_file;
pub(crate) mod journal_keeper;
pub(crate) mod journal_steps;
pub(crate) mod machine;
pub(crate) mod recorder;
pub(crate) mod script;
pub(crate) mod taker;
pub(crate) mod with_entry_file;
pub(crate) mod with_journal;
