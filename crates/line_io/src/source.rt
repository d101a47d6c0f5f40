//! `Source`: a device that gives bytes.

ghost use Rattle.std.specs.Prelude.{◌≡◌, ◌+◌, ◌≤◌, length, is_ok, IfOk, MatchResult, if◌then◌else◌};
ghost use Rattle.std.specs.Io.KnownBytes.{ReadConsumes};
ghost use Rattle.line_io.specs.Devices.{SourceState, CountsNothing};

use crate::fault::Failed;

/// A device that gives bytes. It tells what is still to come, where that is known, and counts its reads.
pub trait Source {
    ghost state: { Self → SourceState };

    /// Gives the first bytes of what is still to come, at most as many as the buffer holds. A failed read takes nothing away.
    /// It returns 0 at the end, for a buffer that is not empty.
    fn read(&mut self, buffer: &mut [u8]) -> Result<usize, Failed>
        ensures within { IfOk result (λ count. count ≤ length buffer.new) }
        ensures bytes { ReadConsumes (state self.old).rest (state self.new).rest result buffer.new }
        ensures reads { (state self.new).reads ≡ (state self.old).reads + 1 }
        ensures ends { MatchResult result
            (λ count. CountsNothing (state self.old).ends (state self.new).ends count (length buffer.new))
            (λ _. (state self.new).ends ≡ (state self.old).ends) }
        ensures failed { (state self.new).failed ≡ (state self.old).failed + (if is_ok result then 0 else 1) };
}
