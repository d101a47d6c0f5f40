//! Runs of scripts: alone, with a history, with a journal, in threads.
//!
//! - `beginning`: histories to begin with.
//! - `between`: what runs and commands give back.
//! - `new_journal`: journals that are made.
//! - `opening`: journals that are opened.
//! - `plain`: scripts that begin with an empty repository, or go on from a history.
//! - `threads`: scripts in threads.
//! - `with_history`: such scripts whose history goes to a file.
//! - `with_journal`: scripts that keep a journal.

pub(crate) mod beginning;
pub(crate) mod between;
pub(crate) mod new_journal;
pub(crate) mod opening;
pub(crate) mod plain;
pub(crate) mod threads;
pub(crate) mod with_history;
pub(crate) mod with_journal;
