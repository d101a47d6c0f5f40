//! `Sink`: a device that takes bytes.

ghost use Rattle.std.specs.Prelude.{◌≡◌, ◌+◌, ◌≤◌, length, IfOk, MatchResult};
ghost use Rattle.std.specs.Io.KnownBytes.{WriteAppends};
ghost use Rattle.line_io.specs.Devices.{SinkState, CountsNothing, Took, TookPart};

use crate::fault::Failed;

/// A device that takes bytes. It tells what is written, where that is known, and counts the writes that failed.
pub trait Sink {
    ghost state: { Self → SinkState };

    /// Takes the first bytes. A write that takes nothing of something counts as failed, and a failed write leaves what is written as it is.
    fn write(&mut self, bytes: &[u8]) -> Result<usize, Failed>
        ensures within { IfOk result (λ count. count ≤ length bytes.now) }
        ensures bytes { WriteAppends (state self.old).written (state self.new).written result bytes.now }
        ensures failed { MatchResult result
            (λ count. CountsNothing (state self.old).failed (state self.new).failed count (length bytes.now))
            (λ _. (state self.new).failed ≡ (state self.old).failed + 1) };
}

/// Writes all of the bytes, in as many writes as it takes, and stops at the first that fails.
pub fn write_all<W: Sink>(sink: &mut W, bytes: &[u8]) -> Result<(), Failed>
    ensures { MatchResult result
        (λ _. Took (W.state sink.old) (W.state sink.new) bytes.now 0)
        (λ _. TookPart (W.state sink.old) (W.state sink.new) bytes.now) }
{
    let mut rest = bytes;
    while !rest.is_empty() {
        let count = sink.write(rest)?;
        if count == 0 {
            return Err(Failed);
        }
        rest = &rest[count..];
    }
    Ok(())
}
