//! `run_threads`: scripts, each in a thread of its own, on a history that was found or on none.

ghost use Rattle.std.specs.Prelude.{length, reverse, option_map};
ghost use Rattle.std.specs.Arc.{arc_value};
ghost use Rattle.filing_model.specs.Histories.Lawful.{IsLawful};
ghost use Rattle.filing_office.specs.Sizes.{FitsOffice};
ghost use Rattle.filing_threads.specs.FoundHistories.{ThreadsWrite, ThreadsWriteOn};

use crate::fault::ThreadsFault;
use crate::office::run_on_history;
use crate::watch::{Unwatched, Watch};
use crate::written::write_replies;
use filing_core::HashKeys;
use filing_office::{Core, OfficeFault};
use filing_step::Entry;
use line_io::Sink;
use oim_fact::NumericTable;
use std::alloc::Global;
use std::marker::{Brand, Sync};
use std::sync::{Arc, Wait};
use std::thread::Threads;

/// How scripts on a history ended, and the core that they leave.
#[derive(Drop)]
pub struct ThreadsOnHistory {
    pub ended: Result<(), ThreadsFault>,
    /// None where the scripts were not run to an end, and nothing is written.
    pub core: Option<Core>,
}

/// Runs scripts as `run_threads` does, at an office that begins with these entries, oldest first.
/// Its keys hash things read.
///
/// One desk takes their steps again. Then each script begins, with no name in use and a reviewer that has seen
/// the last version.
/// The watch is called for each step that is taken after them.
/// The core has the whole history, which begins with the lines of these entries.
pub fn run_threads_on_history<W: Sink, R: Threads + Wait + Sync, V: Watch>(
    rt: &R,
    alloc: Global,
    keys: HashKeys,
    scripts: &[Vec<u8>],
    first: &[Entry],
    output: &mut W,
    table: &Arc<NumericTable>,
    watch: &V,
) -> ThreadsOnHistory
    requires fit { FitsOffice (length scripts.now) }
    requires lawful { IsLawful (reverse first.now) }
    ensures { ThreadsWriteOn Brand (arc_value table.now) scripts.now (reverse first.now)
        (option_map (λ c. c.history) result.core) result.ended (W.state output.old) (W.state output.new) }
{
    match run_on_history(rt, alloc, keys, watch, scripts, table, first, false) {
        Ok((core, all_replies)) => ThreadsOnHistory {
            ended: write_replies(all_replies, output),
            core: Some(core),
        },
        Err(OfficeFault::NoMemory) => ThreadsOnHistory {
            ended: Err(ThreadsFault::NoMemory),
            core: None,
        },
        Err(OfficeFault::NoPlace) => ThreadsOnHistory {
            ended: Err(ThreadsFault::NoPlace),
            core: None,
        },
    }
}

/// Runs scripts, each in a thread of its own with a desk and a reviewer of one office,
/// and writes the replies of one script after the other.
///
/// A script is answered as `run_script` answers one, but its reviews take no lock, names are its own,
/// and an export is a bad line.
/// Where a step runs out of memory, the replies of that script end before it, all other replies are written,
/// and the answer is `NoMemory`.
/// Where anything else runs out of memory, nothing is written after the replies so far.
/// After any other fault a prefix of the replies is written.
pub fn run_threads<W: Sink, R: Threads + Wait + Sync>(
    rt: &R,
    alloc: Global,
    scripts: &[Vec<u8>],
    output: &mut W,
    table: &Arc<NumericTable>,
) -> Result<(), ThreadsFault>
    requires fit { FitsOffice (length scripts.now) }
    ensures { ThreadsWrite Brand (arc_value table.now) scripts.now result (W.state output.old) (W.state output.new) }
{
    let keys = HashKeys::Fixed;
    run_threads_on_history(rt, alloc, keys, scripts, &[], output, table, &Unwatched).ended
}
