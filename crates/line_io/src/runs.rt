//! A whole run, from the first read to the last write.
ghost use Rattle.std.specs.Prelude.{◌≡◌, ◌+◌, ◌≤◌, ◌<◌, IfOk, length, vec_len, ◌^◌, [], ◌∷◌, ◌++◌, OnOk, OnErr, IfErr, IfSome, MatchOption};
ghost use Rattle.line_io.specs.Conduct.{conduct};
ghost use Rattle.line_io.specs.KeptRun.{RunsKept};
ghost use Rattle.line_io.specs.Run.{Runs};
ghost use Rattle.line_io.specs.Lines.{line_begun, is_blank as is_blank_line, is_line_feed, lines_of, spoken};
ghost use Rattle.line_io.specs.declared.fault.ScriptFault.TheVariants.{NoMemory};
ghost use Rattle.line_io.specs.Pieces.{standing, Takes, TakesOut, whole_from, rest_from, count_from, IsCut};
ghost use Rattle.std.specs.List.{position, position_or_len};

use crate::fault::ScriptFault;
use crate::machine::{Durable, DurableMachine, Machine, Mode, Plain};
use crate::outbox::Outbox;
use crate::sink::Sink;
use crate::source::Source;
use memchr::memchr;
use std::alloc::{AllocError, Global};

// Bytes read at once.
const PIECE: usize = 262144;

// A buffer for a piece.
fn new_buffer(alloc: Global) -> Result<Vec<u8>, AllocError>
    ensures { IfOk result (λ buffer. vec_len buffer ≡ PIECE) }
{
    vec![in alloc; 0u8; PIECE]
}

// The run, with a buffer for a piece.
fn run_with<M, D: Mode<M>, R: Source, W: Sink>(
    alloc: Global,
    machine: &mut M,
    source: &mut R,
    sink: &mut W,
    reads: u64,
    buffer: &mut [u8],
) -> Result<(), ScriptFault>
    requires some { 0 < length buffer.old }
    requires few { length buffer.old ≤ PIECE }
    ensures runs { RunsKept D.conduct R.state reads result machine.old machine.new
        source.old source.new (W.state sink.old) (W.state sink.new) }
    ensures bounded { (R.state source.new).reads ≤ (R.state source.old).reads + reads }
{
    let mut progress = Progress::new(alloc);
    for _turn in 0..reads {
        let Ok(count) = source.read(buffer) else {
            let fault = Err(ScriptFault::Read);
            return progress.outbox.write_out::<M, D, W>(machine, sink, fault);
        };
        if count == 0 {
            return progress.finish::<M, D, W>(alloc, machine, sink);
        }
        progress.take_piece::<M, D, W>(alloc, machine, sink, &buffer[..count])?;
    }
    let fault = Err(ScriptFault::Endless);
    progress.outbox.write_out::<M, D, W>(machine, sink, fault)
}

// The run, as one asks machines of this mode.
fn run_as<M, D: Mode<M>, R: Source, W: Sink>(
    alloc: Global,
    machine: &mut M,
    source: &mut R,
    sink: &mut W,
    reads: u64,
) -> Result<(), ScriptFault>
    ensures runs { RunsKept D.conduct R.state reads result machine.old machine.new
        source.old source.new (W.state sink.old) (W.state sink.new) }
    ensures bounded { (R.state source.new).reads ≤ (R.state source.old).reads + reads }
{
    let Ok(mut buffer) = new_buffer(alloc) else {
        let fault = Err(ScriptFault::NoMemory(1));
        return Outbox::new(alloc).write_out::<M, D, W>(machine, sink, fault);
    };
    run_with::<M, D, R, W>(alloc, machine, source, sink, reads, buffer.as_mut_slice())
}

/// Reads a source to its end, has a machine answer each line that is not blank, and writes the replies, each ended by a line feed.
/// The replies to the lines of one read are written before the next. At most `reads` reads are made.
pub fn run<M: Machine, R: Source, W: Sink>(
    alloc: Global,
    machine: &mut M,
    source: &mut R,
    sink: &mut W,
    reads: u64,
) -> Result<(), ScriptFault>
    ensures runs { Runs M.replies R.state reads result machine.old machine.new
        source.old source.new (W.state sink.old) (W.state sink.new) }
    ensures bounded { (R.state source.new).reads ≤ (R.state source.old).reads + reads }
{
    run_as::<M, Plain, R, W>(alloc, machine, source, sink, reads)
}

/// Runs a machine that has something to keep over a source, as `run` runs one that has not: it keeps what it did right before replies are written,
/// and at the end of the run in any case. Where that fails, the run ends with `Write`, and the replies that wait are dropped.
pub fn run_kept<M: DurableMachine, R: Source, W: Sink>(
    alloc: Global,
    machine: &mut M,
    source: &mut R,
    sink: &mut W,
    reads: u64,
) -> Result<(), ScriptFault>
    ensures runs { RunsKept (conduct M.replies M.starves M.keeps M.may_tell M.has_failed) R.state reads result
        machine.old machine.new source.old source.new (W.state sink.old) (W.state sink.new) }
    ensures bounded { (R.state source.new).reads ≤ (R.state source.old).reads + reads }
{
    run_as::<M, Durable, R, W>(alloc, machine, source, sink, reads)
}

/// What a run has in hand between two reads: the line begun, how many lines there were before it, and the replies that wait.
#[derive(Drop)]
pub(crate) struct Progress {
    pub(crate) begun: Vec<u8>,
    pub(crate) lines: u128,
    pub(crate) outbox: Outbox,
}

// Answers a line, unless it is blank.
fn answer_line<M, D: Mode<M>, W: Sink>(
    alloc: Global,
    machine: &mut M,
    outbox: &mut Outbox,
    sink: &mut W,
    number: u128,
    line: &[u8],
) -> Result<(), ScriptFault>
    ensures { Takes D.conduct result
        (standing machine.old (W.state sink.old) outbox.old.waiting.items)
        (standing machine.new (W.state sink.new) outbox.new.waiting.items)
        (line.now ∷ []) 1 number }
{
    if is_blank(line) {
        return Ok(());
    }
    let Ok(reply) = D::answer(machine, alloc, number, line) else {
        return Err(ScriptFault::NoMemory(number));
    };
    let Ok(()) = outbox.send::<M, D, W>(machine, sink, reply.as_bytes()) else {
        return Err(ScriptFault::Write);
    };
    Ok(())
}

impl Progress {
    pub(crate) fn new(alloc: Global) -> Progress
        ensures begun { result.begun.items ≡ [] }
        ensures lines { result.lines ≡ 0 }
        ensures outbox { result.outbox.waiting.items ≡ [] }
    {
        Progress {
            begun: Vec::new(alloc),
            lines: 0,
            outbox: Outbox::new(alloc),
        }
    }

    // Goes on with the line begun.
    fn go_on(&mut self, bytes: &[u8]) -> Result<(), ScriptFault>
        requires { self.old.lines + 1 < 2 ^ 128 }
        ensures ok { OnOk result (self.new.begun.items ≡ self.old.begun.items ++ bytes.now) }
        ensures err { IfErr result (λ fault. fault ≡ NoMemory (self.old.lines + 1)) }
        ensures some { OnErr result (0 < length bytes.now) }
        ensures lines { self.new.lines ≡ self.old.lines }
        ensures outbox { self.new.outbox ≡ self.old.outbox }
    {
        if self.begun.extend_from_slice(bytes).is_err() {
            return Err(ScriptFault::NoMemory(self.lines + 1));
        }
        Ok(())
    }

    // Ends the line begun with these bytes, and answers it.
    fn end_line<M, D: Mode<M>, W: Sink>(
        &mut self,
        alloc: Global,
        machine: &mut M,
        sink: &mut W,
        bytes: &[u8],
    ) -> Result<(), ScriptFault>
        requires { self.old.lines + 1 < 2 ^ 128 }
        ensures takes { Takes D.conduct result
            (standing machine.old (W.state sink.old) self.old.outbox.waiting.items)
            (standing machine.new (W.state sink.new) self.new.outbox.waiting.items)
            ((self.old.begun.items ++ bytes.now) ∷ []) 1 (self.old.lines + 1) }
        ensures begun { OnOk result (self.new.begun.items ≡ []) }
        ensures lines { OnOk result (self.new.lines ≡ self.old.lines + 1) }
    {
        self.go_on(bytes)?;
        let number = self.lines + 1;
        answer_line::<M, D, W>(
            alloc,
            machine,
            &mut self.outbox,
            sink,
            number,
            self.begun.as_slice(),
        )?;
        self.begun.clear();
        self.lines = number;
        Ok(())
    }

    // Takes the lines of a piece, and keeps what follows the last of them.
    fn take_lines<M, D: Mode<M>, W: Sink>(
        &mut self,
        alloc: Global,
        machine: &mut M,
        sink: &mut W,
        piece: &[u8],
    ) -> Result<(), ScriptFault>
        requires { self.old.lines + length piece.now + 1 < 2 ^ 128 }
        ensures takes { Takes D.conduct result
            (standing machine.old (W.state sink.old) self.old.outbox.waiting.items)
            (standing machine.new (W.state sink.new) self.new.outbox.waiting.items)
            (whole_from self.old.begun.items piece.now) (count_from self.old.begun.items piece.now)
            (self.old.lines + 1) }
        ensures begun { OnOk result (self.new.begun.items ≡ rest_from self.old.begun.items piece.now) }
        ensures lines { OnOk result (self.new.lines
            ≡ self.old.lines + length (whole_from self.old.begun.items piece.now)) }
    {
        let mut rest = piece;
        while let Some((line, others)) = split_line(rest) {
            self.end_line::<M, D, W>(alloc, machine, sink, line)?;
            rest = others;
        }
        self.go_on(rest)
    }

    /// Takes the lines of a piece, and writes their replies.
    pub(crate) fn take_piece<M, D: Mode<M>, W: Sink>(
        &mut self,
        alloc: Global,
        machine: &mut M,
        sink: &mut W,
        piece: &[u8],
    ) -> Result<(), ScriptFault>
        requires { self.old.lines + length piece.now + 1 < 2 ^ 128 }
        ensures takes { TakesOut D.conduct result
            (standing machine.old (W.state sink.old) self.old.outbox.waiting.items)
            (standing machine.new (W.state sink.new) [])
            (whole_from self.old.begun.items piece.now) (count_from self.old.begun.items piece.now)
            (self.old.lines + 1) }
        ensures outbox { OnOk result (self.new.outbox.waiting.items ≡ []) }
        ensures begun { OnOk result (self.new.begun.items ≡ rest_from self.old.begun.items piece.now) }
        ensures lines { OnOk result (self.new.lines
            ≡ self.old.lines + length (whole_from self.old.begun.items piece.now)) }
    {
        let taken = self.take_lines::<M, D, W>(alloc, machine, sink, piece);
        match taken {
            Ok(()) if self.outbox.is_empty() => Ok(()),
            _ => self.outbox.write_out::<M, D, W>(machine, sink, taken),
        }
    }

    /// Takes the line begun, since nothing follows it, and writes its reply. The machine keeps what it did in any case.
    pub(crate) fn finish<M, D: Mode<M>, W: Sink>(
        &mut self,
        alloc: Global,
        machine: &mut M,
        sink: &mut W,
    ) -> Result<(), ScriptFault>
        requires { self.old.lines + 1 < 2 ^ 128 }
        ensures takes { TakesOut D.conduct result
            (standing machine.old (W.state sink.old) self.old.outbox.waiting.items)
            (standing machine.new (W.state sink.new) [])
            (line_begun self.old.begun.items) (length (line_begun self.old.begun.items)) (self.old.lines + 1) }
        ensures tells { OnOk result (D.conduct.may_tell machine.new) }
    {
        if self.begun.is_empty() {
            return self.outbox.write_out::<M, D, W>(machine, sink, Ok(()));
        }
        let taken = self.end_line::<M, D, W>(alloc, machine, sink, &[]);
        self.outbox.write_out::<M, D, W>(machine, sink, taken)
    }
}

/// Whether a line has only spaces, tabs and carriage returns. Such a line is passed over.
pub fn is_blank(line: &[u8]) -> bool
    ensures { result ≡ is_blank_line line.now }
{
    line.iter()
        .all(|byte| *byte == b' ' || *byte == b'\t' || *byte == b'\r')
}

/// The place of the first line feed.
pub fn line_end(text: &[u8]) -> Option<usize>
    ensures { result ≡ position is_line_feed text.now }
{
    memchr(b'\n', text)
}

/// The bytes before the first line feed, and those after it.
pub(crate) fn split_line(text: &[u8]) -> Option<(&[u8], &[u8])>
    ensures { MatchOption result
        (position_or_len is_line_feed text.now ≡ length text.now)
        (λ cut. IsCut text.now cut.0.now cut.1.now) }
{
    let end = line_end(text)?;
    let (line, _) = text.split_at(end);
    let (_, others) = text.split_at(end + 1);
    Some((line, others))
}

/// The first line of a text and what follows it; none of an empty text.
fn first_line(text: &[u8]) -> Option<(&[u8], &[u8])>
    ensures lines { MatchOption result (lines_of text.now ≡ [])
        (λ cut. lines_of text.now ≡ cut.0.now ∷ lines_of cut.1.now) }
    ensures shorter { IfSome result (λ cut. length cut.1.now < length text.now) }
{
    if let Some((line, others)) = split_line(text) {
        return Some((line, others));
    }
    if text.is_empty() {
        return None;
    }
    Some(text.split_at(text.len()))
}

/// The first line of a text that is not blank, and what follows it; none where there is no such line. The lines are those that a run over the text answers.
pub fn next_line(text: &[u8]) -> Option<(&[u8], &[u8])>
    ensures lines { MatchOption result (spoken (lines_of text.now) ≡ [])
        (λ cut. spoken (lines_of text.now) ≡ cut.0.now ∷ spoken (lines_of cut.1.now)) }
    ensures shorter { IfSome result (λ cut. length cut.1.now < length text.now) }
{
    let mut rest = text;
    while let Some((line, others)) = first_line(rest) {
        if !is_blank(line) {
            return Some((line, others));
        }
        rest = others;
    }
    None
}
