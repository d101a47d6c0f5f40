//! Lines that nest too deep for a journal.

ghost use Rattle.std.specs.Prelude.{◌≡◌};
ghost use Rattle.filing_threads.specs.DeepLines.{deep_from, deep_line};

use crate::fault::DeepLine;
use crate::replies::{Ending, Replies};
use std::alloc::AllocError;

/// The line before which the run of a script ended since it nests too deep for the journal.
fn deep_line(script: usize, replies: &Result<Replies, AllocError>) -> Option<DeepLine>
    ensures { result ≡ deep_line script replies.now }
{
    match replies {
        Ok(
            Replies {
                ending: Ending::TooDeep(line),
                ..
            },
        ) => Some(DeepLine {
            script,
            line: *line,
        }),
        _ => None,
    }
}

/// The first of these lines, script by script.
pub(crate) fn first_deep(all_replies: &[Result<Replies, AllocError>]) -> Option<DeepLine>
    ensures { result ≡ deep_from 0 all_replies.now }
{
    for (script, replies) in all_replies.iter().enumerate() {
        if let Some(line) = deep_line(script, replies) {
            return Some(line);
        }
    }
    None
}
