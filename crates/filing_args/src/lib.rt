//! The words of the command line of `filing`, and what they ask for.
//!
//! - `invocation`: what words ask for.
//! - `reading`: how they are read.
//! - `commands`: the commands, as `clap` takes them.
//! - `arguments`: their arguments.
//! - `given`: what each command was given.
//! - `combined`: words that do not go together.
//! - `numbers`: numbers among the words.
//! - `seals`: seals among the words.
//! - `stray`: a word after `run` that it does not take.
//! - `help`: shows people what there is.
//! - `fault`: why words ask for nothing that can be done.
//!
//! It knows nothing of reports, of histories or of files: it hands on what was written.
#![tactic(auto)]

mod arguments;
mod combined;
mod commands;
mod fault;
mod given;
mod help;
mod invocation;
mod numbers;
mod reading;
mod seals;
mod stray;

pub use combined::{
    refuse_misfit, refuse_misfit_of_inspect, refuse_misfit_of_load, refuse_misfit_of_log,
    refuse_misfit_of_threads,
};
pub use commands::VERSION;
pub use fault::WordsFault;
pub use help::REFUSALS;
pub use invocation::{
    CheckWords, DiffWords, HistoryWords, InspectWords, Invocation, LoadWords, LogWords,
    RepairWords, RunWords, SealWords, ShowWords, ThreadsWords, VerifyWords,
};
pub use numbers::{number_given, number_of};
pub use reading::{given_words, read_words};
pub use seals::seal_given;
