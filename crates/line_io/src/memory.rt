//! Devices over memory, whose calls can be made to fail.

ghost use Rattle.std.specs.Prelude.{◌≡◌, ◌<◌, [], Some, IfOk};
ghost use Rattle.line_io.specs.Devices.{new_source, new_sink};

use crate::counts::{ReadCounts, WriteCounts};
use crate::fault::Failed;
use crate::sink::Sink;
use crate::source::Source;
use std::alloc::{AllocError, Global};

// Counts the calls down to one, from 1, that goes wrong; none does where there is no number.
#[derive(Drop)]
struct Countdown {
    calls: Option<u64>,
}

impl Countdown {
    // Whether this call is the one.
    fn is_now(&mut self) -> bool {
        let Some(calls) = self.calls else {
            return false;
        };
        self.calls = calls.checked_sub(1);
        calls == 1
    }
}

/// A source over memory. A read gives at most `piece` bytes.
#[derive(Drop)]
pub struct MemoryIn<'a> {
    rest: &'a [u8],
    piece: usize,
    failing: Countdown,
    counts: ReadCounts,
    ghost some_piece: { 0 < piece },
}

impl<'a> MemoryIn<'a> {
    /// A source of these bytes.
    pub fn new(bytes: &'a [u8], piece: usize) -> MemoryIn<'a>
        requires some { 0 < piece }
        ensures { ⟦<MemoryIn<'a> as Source>⟧.state result ≡ new_source (Some bytes.entry.now) }
    {
        MemoryIn {
            rest: bytes,
            piece,
            failing: Countdown { calls: None },
            counts: ReadCounts::new(),
        }
    }

    /// This source, whose read of this number, from 1 on, fails.
    pub fn failing_at(mut self, read: u64) -> MemoryIn<'a>
        ensures { ⟦<MemoryIn<'a> as Source>⟧.state result ≡ ⟦<MemoryIn<'a> as Source>⟧.state self.entry }
    {
        self.failing = Countdown { calls: Some(read) };
        self
    }
}

impl<'a> Source for MemoryIn<'a> {
    ghost state = { λ s. record {
      rest = Some s.rest.now;
      reads = s.counts.reads.amount;
      ends = s.counts.ends.amount;
      failed = s.counts.failed.amount;
    } };

    fn read(&mut self, buffer: &mut [u8]) -> Result<usize, Failed> {
        self.counts.count_read();
        if self.failing.is_now() {
            self.counts.count_failed();
            return Err(Failed);
        }
        let count = buffer.len().min(self.piece).min(self.rest.len());
        let (given, rest) = self.rest.split_at(count);
        buffer[..count].copy_from_slice(given);
        self.rest = rest;
        if count == 0 && !buffer.is_empty() {
            self.counts.count_end();
        }
        Ok(count)
    }
}

/// A sink over memory. A write takes at most `piece` bytes, and one that is refused memory fails.
#[derive(Drop)]
pub struct MemoryOut {
    written: Vec<u8>,
    piece: usize,
    failing: Countdown,
    idle: Countdown,
    counts: WriteCounts,
}

impl MemoryOut {
    /// A sink with capacity for `room` bytes, which are written without a growth.
    pub fn new(alloc: Global, room: usize, piece: usize) -> Result<MemoryOut, AllocError>
        ensures { IfOk result (λ sink. ⟦<MemoryOut as Sink>⟧.state sink ≡ new_sink (Some [])) }
    {
        Ok(MemoryOut {
            written: Vec::with_capacity(alloc, room)?,
            piece,
            failing: Countdown { calls: None },
            idle: Countdown { calls: None },
            counts: WriteCounts::new(),
        })
    }

    /// This sink, whose write of this number, from 1 on, fails.
    pub fn failing_at(mut self, write: u64) -> MemoryOut
        ensures { ⟦<MemoryOut as Sink>⟧.state result ≡ ⟦<MemoryOut as Sink>⟧.state self }
    {
        self.failing = Countdown { calls: Some(write) };
        self
    }

    /// This sink, whose write of this number, from 1 on, takes nothing.
    pub fn idle_at(mut self, write: u64) -> MemoryOut
        ensures { ⟦<MemoryOut as Sink>⟧.state result ≡ ⟦<MemoryOut as Sink>⟧.state self }
    {
        self.idle = Countdown { calls: Some(write) };
        self
    }

    /// What is written.
    pub fn contents(&self) -> &[u8]
        ensures { (⟦<MemoryOut as Sink>⟧.state self.now).written ≡ Some result.now }
    {
        self.written.as_slice()
    }
}

impl Sink for MemoryOut {
    ghost state = { λ s. record { written = Some s.written.items; failed = s.counts.failed.amount } };

    fn write(&mut self, bytes: &[u8]) -> Result<usize, Failed> {
        if self.failing.is_now() {
            self.counts.count_failed();
            return Err(Failed);
        }
        let piece = if self.idle.is_now() { 0 } else { self.piece };
        let count = bytes.len().min(piece);
        if self.written.extend_from_slice(&bytes[..count]).is_err() {
            self.counts.count_failed();
            return Err(Failed);
        }
        if count == 0 && !bytes.is_empty() {
            self.counts.count_failed();
        }
        Ok(count)
    }
}
