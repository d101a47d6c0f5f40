//! Sources and sinks made of readers and writers.

ghost use Rattle.std.specs.Prelude.{◌≡◌};
ghost use Rattle.line_io.specs.Devices.{new_source, new_sink};

use crate::counts::{ReadCounts, WriteCounts};
use crate::fault::Failed;
use crate::sink::Sink;
use crate::source::Source;
use std::io::{Read, Write};

/// A source made of any reader: what is still to come is what the reader has left, where that is known.
#[derive(Drop)]
pub struct FromReader<R: Read> {
    reader: R,
    counts: ReadCounts,
}

impl<R: Read> FromReader<R> {
    /// A source of what the reader gives.
    pub fn new(reader: R) -> FromReader<R>
        ensures { ⟦<FromReader<R> as Source>⟧.state result ≡ new_source (R.remaining reader) }
    {
        FromReader {
            reader,
            counts: ReadCounts::new(),
        }
    }

    pub fn into_inner(self) -> R
        ensures { R.remaining result ≡ (⟦<FromReader<R> as Source>⟧.state self).rest }
    {
        self.reader
    }
}

impl<R: Read> Source for FromReader<R> {
    ghost state = { λ s. record {
      rest = R.remaining s.reader;
      reads = s.counts.reads.amount;
      ends = s.counts.ends.amount;
      failed = s.counts.failed.amount;
    } };

    fn read(&mut self, buffer: &mut [u8]) -> Result<usize, Failed> {
        self.counts.count_read();
        let Ok(count) = self.reader.read(buffer) else {
            self.counts.count_failed();
            return Err(Failed);
        };
        if count == 0 && !buffer.is_empty() {
            self.counts.count_end();
        }
        Ok(count)
    }
}

/// A sink made of any writer: what is written is what the writer holds, where that is known.
/// Nothing waits in it: each write is one of the writer.
#[derive(Drop)]
pub struct ToWriter<W: Write> {
    writer: W,
    counts: WriteCounts,
}

impl<W: Write> ToWriter<W> {
    /// A sink that gives to the writer.
    pub fn new(writer: W) -> ToWriter<W>
        ensures { ⟦<ToWriter<W> as Sink>⟧.state result ≡ new_sink (W.contents writer) }
    {
        ToWriter {
            writer,
            counts: WriteCounts::new(),
        }
    }

    pub fn into_inner(self) -> W
        ensures { W.contents result ≡ (⟦<ToWriter<W> as Sink>⟧.state self).written }
    {
        self.writer
    }
}

impl<W: Write> Sink for ToWriter<W> {
    ghost state = { λ s. record { written = W.contents s.writer; failed = s.counts.failed.amount } };

    fn write(&mut self, bytes: &[u8]) -> Result<usize, Failed> {
        let Ok(count) = self.writer.write(bytes) else {
            self.counts.count_failed();
            return Err(Failed);
        };
        if count == 0 && !bytes.is_empty() {
            self.counts.count_failed();
        }
        Ok(count)
    }
}
