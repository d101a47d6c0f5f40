//! `Outbox`: replies on their way to a sink. All are written by `tell`, and so only when the machine may tell them.

ghost use Rattle.std.specs.Prelude.{◌≡◌, ◌≤◌, ◌↔◌, [], ◌∷◌, ◌++◌, IsTrue, MatchResult, MatchBool, OnOk, vec_len};
ghost use Rattle.line_io.specs.Devices.{Took, TookPart};
ghost use Rattle.line_io.specs.Pieces.{HoldsOrTells, Tells, Untold, WritesOut};
ghost use Rattle.line_io.specs.declared.outbox.TheConstants.{ROOM};

use crate::fault::{Failed, ScriptFault};
use crate::machine::Mode;
use crate::sink::{Sink, write_all};
use std::alloc::Global;

// Bytes of replies that wait at most.
const ROOM: usize = 32768;

/// Replies that wait to be written, so that many short ones go out in one write.
#[derive(Drop)]
pub(crate) struct Outbox {
    pub(crate) waiting: Vec<u8>,
    ghost few: { vec_len waiting ≤ ROOM },
}

// Writes replies that the machine may tell. No reply is written otherwise.
fn tell<M, D: Mode<M>, W: Sink>(machine: &M, sink: &mut W, replies: &[u8]) -> Result<(), Failed>
    requires { D.conduct.may_tell machine.now }
    ensures { MatchResult result
        (λ _. Took (W.state sink.old) (W.state sink.new) replies.now 0)
        (λ _. TookPart (W.state sink.old) (W.state sink.new) replies.now) }
{
    write_all(sink, replies)
}

impl Outbox {
    pub(crate) fn new(alloc: Global) -> Outbox
        ensures { result.waiting.items ≡ [] }
    {
        Outbox {
            waiting: Vec::new(alloc),
        }
    }

    /// Whether no reply waits.
    pub(crate) fn is_empty(&self) -> bool
        ensures { IsTrue result ↔ (self.now.waiting.items ≡ []) }
    {
        self.waiting.is_empty()
    }

    // Lets a reply wait, where it fits and there is memory for it.
    fn hold(&mut self, reply: &[u8]) -> bool
        ensures { MatchBool result
            (self.new.waiting.items ≡ self.old.waiting.items ++ (reply.now ++ 10 ∷ []))
            (self.new.waiting.items ≡ self.old.waiting.items) }
    {
        let before = self.waiting.len();
        if reply.len() >= ROOM.saturating_sub(before) {
            return false;
        }
        if self.waiting.extend_from_slice(reply).is_err() {
            return false;
        }
        if self.waiting.push(b'\n').is_err() {
            self.waiting.truncate(before);
            return false;
        }
        true
    }

    // Has the machine keep what it did, and writes all that waits.
    fn flush<M, D: Mode<M>, W: Sink>(&mut self, machine: &mut M, sink: &mut W) -> Result<(), Failed>
        ensures written { MatchResult result
            (λ _. Tells D.conduct machine.old machine.new (W.state sink.old) (W.state sink.new) self.old.waiting.items)
            (λ _. Untold D.conduct machine.old machine.new (W.state sink.old) (W.state sink.new)
            self.old.waiting.items) }
        ensures empty { OnOk result (self.new.waiting.items ≡ []) }
    {
        D::keep(machine)?;
        tell::<M, D, W>(machine, sink, self.waiting.as_slice())?;
        self.waiting.clear();
        Ok(())
    }

    /// Sends a reply and a line feed: they wait, or are written after all that waits once the machine kept what it did.
    pub(crate) fn send<M, D: Mode<M>, W: Sink>(
        &mut self,
        machine: &mut M,
        sink: &mut W,
        reply: &[u8],
    ) -> Result<(), Failed>
        ensures { MatchResult result
            (λ _. HoldsOrTells D.conduct machine.old machine.new (W.state sink.old) (W.state sink.new)
            self.old.waiting.items self.new.waiting.items (reply.now ++ 10 ∷ []))
            (λ _. Untold D.conduct machine.old machine.new (W.state sink.old) (W.state sink.new)
            (self.old.waiting.items ++ (reply.now ++ 10 ∷ []))) }
    {
        if self.hold(reply) {
            return Ok(());
        }
        self.flush::<M, D, W>(machine, sink)?;
        tell::<M, D, W>(machine, sink, reply)?;
        tell::<M, D, W>(machine, sink, b"\n")
    }

    /// Has the machine keep what it did, and writes all that waits, after an outcome that is no failed write.
    pub(crate) fn write_out<M, D: Mode<M>, W: Sink>(
        &mut self,
        machine: &mut M,
        sink: &mut W,
        outcome: Result<(), ScriptFault>,
    ) -> Result<(), ScriptFault>
        ensures written { WritesOut D.conduct outcome result machine.old machine.new
            (W.state sink.old) (W.state sink.new) self.old.waiting.items }
        ensures tells { OnOk result (D.conduct.may_tell machine.new) }
        ensures empty { OnOk result (self.new.waiting.items ≡ []) }
    {
        if let Err(ScriptFault::Write) = outcome {
            return outcome;
        }
        let Ok(()) = self.flush::<M, D, W>(machine, sink) else {
            return Err(ScriptFault::Write);
        };
        outcome
    }
}
