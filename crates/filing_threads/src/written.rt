//! The replies of several scripts, written one after the other.

ghost use Rattle.filing_threads.specs.Writing.{Writes};

use crate::fault::ThreadsFault;
use crate::replies::{Ending, Replies};
use line_io::{Sink, write_all};
use std::alloc::AllocError;

/// Writes the replies of one script after the other.
/// After those of a script that ran out of memory otherwise than for a step, nothing is written.
pub(crate) fn write_replies<W: Sink>(
    all_replies: Vec<Result<Replies, AllocError>>,
    output: &mut W,
) -> Result<(), ThreadsFault>
    ensures { Writes all_replies.items result (W.state output.old) (W.state output.new) }
{
    let mut whole = true;
    for replies in all_replies {
        let Replies { text, ending, .. } = replies?;
        let Ok(()) = write_all(output, text.as_bytes()) else {
            return Err(ThreadsFault::Write);
        };
        match ending {
            Ending::Whole | Ending::TooDeep(_) => {}
            Ending::StepStarved => whole = false,
            Ending::LineStarved => return Err(ThreadsFault::NoMemory),
        }
    }
    if whole {
        Ok(())
    } else {
        Err(ThreadsFault::NoMemory)
    }
}
