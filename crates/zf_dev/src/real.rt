//! Devices over the streams of the system. Their bytes are those of the stream, where it exposes them, as one
//! in memory does, and those that the device holds: before what is still to come from a source, and behind
//! what went to a sink.

ghost use Rattle.std.specs.Prelude.{◌≡◌, ◌<◌, ◌≤◌, ◌↔◌, List, [], length, take, drop, Ok, IsTrue, IsErr, IfOk, OnOk, OnErr};
ghost use Rattle.zf_dev.specs.Faults.{HasCause, next_count};
ghost use Rattle.zf_dev.specs.Sink.{Appends};
ghost use Rattle.zf_dev.specs.Source.{Takes, EndsAt, SeesEnd};

use crate::buffer::{Buffer, ROOM};
use crate::faults::raise;
use crate::retrying::{flush_retrying, write_retrying};
use crate::{Failed, Sink, Source};
use std::io;
use std::io::{Read, Write};
use std::rt::{Stdin, Stdout};

/// Standard input as a source. It takes no more than it is asked for, so what is left is for the next
/// program; where it is told that it will be read to its end, it takes up to 64 KiB at a time.
///
/// A read that a signal interrupts is begun again. Each other error is a fault.
#[derive(Debug, Drop)]
pub struct RealSource<R = Stdin> {
    stream: R,
    held: Buffer,
    ahead: bool,
    faults: u64,
    ends: u64,
    ghost exact: { ¬ IsTrue ahead → held ≡ [] },
}

impl<R> RealSource<R> {
    ghost use Rattle.zf_dev.specs.Real.{source_stream, source_held, source_ahead, source_faults, source_ends};

    pub fn new(stream: R) -> RealSource<R>
        ensures stream { source_stream result ≡ stream }
        ensures held { source_held result ≡ [] }
        ensures ahead { ¬ IsTrue (source_ahead result) }
        ensures faults { source_faults result ≡ 0 }
        ensures ends { source_ends result ≡ 0 }
    {
        RealSource {
            stream,
            held: Buffer::new(),
            ahead: false,
            faults: 0,
            ends: 0,
        }
    }

    /// How many reads failed.
    pub fn faults(&self) -> u64
        ensures { result ≡ source_faults self.now }
    {
        self.faults
    }
}

impl<R: Read> Source for RealSource<R> {
    ghost use Rattle.zf_dev.specs.Real.{source_stream, source_ahead, source_faults, source_ends, source_contents};

    ghost Kept = { Unit {0} };

    ghost contents = { source_contents R.remaining };

    ghost faults = { λ s. source_faults s };

    // Where it was not told that it will be read to its end.
    ghost is_exact = { λ s. ¬ IsTrue (source_ahead s) };

    ghost ends_seen = { λ s. source_ends s };

    ghost never_fails = { λ _. ⊥ };

    ghost kept = { λ _. tt };

    fn read(&mut self, buf: &mut [u8]) -> Result<usize, Failed>
        requires { 0 < length buf.old }

        // Where it was not told, it takes from the stream what it gives.
        ensures exact { ¬ IsTrue (source_ahead self.old) → IfOk result (λ n.
            Takes (R.remaining (source_stream self.old)) (R.remaining (source_stream self.new)) (take n buf.new)) }
        ensures same_way { source_ahead self.new ≡ source_ahead self.old }
        ensures err { OnErr result (source_faults self.new ≡ next_count (source_faults self.old)) }

        // Those of the trait.
        ensures bound { IfOk result (λ n. n ≤ length buf.old) }
        ensures taken { IfOk result (λ n.
            Takes (source_contents R.remaining self.old) (source_contents R.remaining self.new) (take n buf.new)) }
        ensures rest { IfOk result (λ n. drop n buf.new ≡ drop n buf.old) }
        ensures end { IfOk result (λ n.
            EndsAt (source_contents R.remaining self.old) (source_contents R.remaining self.new) n) }
        ensures untaken { OnErr result (Takes (source_contents R.remaining self.old)
            (source_contents R.remaining self.new) []) }
        ensures seen { IfOk result (λ n. SeesEnd (n ≡ 0) (source_ends self.old) (source_ends self.new)) }
        ensures unseen { OnErr result (source_ends self.new ≤ source_ends self.old) }
        ensures unchanged { OnOk result (source_faults self.new ≡ source_faults self.old) }
        ensures cause { HasCause (IsErr result) (source_faults self.old) (source_faults self.new) }
    {
        if !self.held.is_empty() {
            return Ok(self.held.give(buf));
        }
        // A read may leave anything in the room behind the bytes that it gives, so it never goes into `buf`.
        let answer = self
            .held
            .fill(&mut self.stream, most_of(self.ahead, buf.len()));
        if counted(answer, &mut self.faults)? == 0 {
            raise(&mut self.ends);
        }
        Ok(self.held.give(buf))
    }

    fn read_ahead(&mut self)
        ensures ahead { IsTrue (source_ahead self.new) }
        // Nothing is read yet.
        ensures stream { source_stream self.new ≡ source_stream self.old }

        // Those of the trait.
        ensures contents_stay { source_contents R.remaining self.new ≡ source_contents R.remaining self.old }
        ensures unseen { source_ends self.new ≤ source_ends self.old }
        ensures faults_stay { source_faults self.new ≡ source_faults self.old }
    {
        self.ahead = true;
    }
}

/// Standard output or standard error as a sink. It holds up to 64 KiB back until it is flushed; a piece of
/// that length or more is handed on as it is. What it holds when it is dropped is lost.
///
/// A write that a signal interrupts is begun again. Each other error is a fault, and so is a write that takes
/// no byte.
#[derive(Debug, Drop)]
pub struct RealSink<W = Stdout> {
    stream: W,
    held: Buffer,
    faults: u64,
}

impl<W> RealSink<W> {
    ghost use Rattle.zf_dev.specs.Real.{sink_stream, sink_held, sink_faults};

    pub fn new(stream: W) -> RealSink<W>
        ensures stream { sink_stream result ≡ stream }
        ensures flushed { sink_held result ≡ [] }
        ensures faults { sink_faults result ≡ 0 }
    {
        RealSink {
            stream,
            held: Buffer::new(),
            faults: 0,
        }
    }

    /// How many writes and flushes failed, the writes that took no byte among them.
    pub fn faults(&self) -> u64
        ensures { result ≡ sink_faults self.now }
    {
        self.faults
    }
}

impl<W: Write> RealSink<W> {
    ghost use Rattle.zf_dev.specs.Real.{sink_held, sink_faults, sink_contents};

    // Hands on all that is held. After a fault the rest is held still.
    fn hand_on(&mut self) -> Result<(), Failed>
        ensures flushed { OnOk result (sink_held self.new ≡ []) }
        ensures stays { Appends (sink_contents W.contents self.old) (sink_contents W.contents self.new) [] }
        ensures unchanged { OnOk result (sink_faults self.new ≡ sink_faults self.old) }
        ensures err { OnErr result (sink_faults self.new ≡ next_count (sink_faults self.old)) }
        ensures cause { HasCause (IsErr result) (sink_faults self.old) (sink_faults self.new) }
    {
        while !self.held.is_empty() {
            let answer = write_retrying(&mut self.stream, self.held.held());
            let count = counted(answer, &mut self.faults)?;
            self.held.discard(count);
        }
        Ok(())
    }

    // Writes the first of these bytes behind those that are held: into the buffer, unless they are as many as
    // it has room for.
    fn put(&mut self, bytes: &[u8]) -> Result<usize, Failed>
        requires some { 0 < length bytes.now }
        requires flushed { sink_held self.old ≡ [] }
        ensures some { IfOk result (λ n. 0 < n) }
        ensures bound { IfOk result (λ n. n ≤ length bytes.now) }
        ensures appended { IfOk result (λ n.
            Appends (sink_contents W.contents self.old) (sink_contents W.contents self.new) (take n bytes.now)) }
        ensures unwritten { OnErr result (Appends (sink_contents W.contents self.old)
            (sink_contents W.contents self.new) []) }
        ensures unchanged { OnOk result (sink_faults self.new ≡ sink_faults self.old) }
        ensures err { OnErr result (sink_faults self.new ≡ next_count (sink_faults self.old)) }
        ensures cause { HasCause (IsErr result) (sink_faults self.old) (sink_faults self.new) }
    {
        if bytes.len() < ROOM {
            return Ok(self.held.push(bytes));
        }
        let answer = write_retrying(&mut self.stream, bytes);
        counted(answer, &mut self.faults)
    }
}

impl<W: Write> Sink for RealSink<W> {
    ghost use Rattle.zf_dev.specs.Real.{sink_held, sink_faults, sink_contents};

    ghost Kept = { Unit {0} };

    ghost contents = { sink_contents W.contents };

    ghost faults = { λ s. sink_faults s };

    // Nothing is held, so what was written is what the stream has.
    ghost is_flushed = { λ s. sink_held s ≡ [] };

    ghost kept = { λ _. tt };

    fn write(&mut self, bytes: &[u8]) -> Result<usize, Failed>
        requires { 0 < length bytes.now }
        ensures some { IfOk result (λ n. 0 < n) }
        ensures bound { IfOk result (λ n. n ≤ length bytes.now) }
        ensures appended { IfOk result (λ n.
            Appends (sink_contents W.contents self.old) (sink_contents W.contents self.new) (take n bytes.now)) }
        ensures unwritten { OnErr result (Appends (sink_contents W.contents self.old)
            (sink_contents W.contents self.new) []) }
        ensures unchanged { OnOk result (sink_faults self.new ≡ sink_faults self.old) }
        ensures err { OnErr result (sink_faults self.new ≡ next_count (sink_faults self.old)) }
        ensures cause { HasCause (IsErr result) (sink_faults self.old) (sink_faults self.new) }
    {
        if bytes.len() < ROOM {
            let count = self.held.push(bytes);
            if count > 0 {
                return Ok(count);
            }
        }
        self.hand_on()?;
        self.put(bytes)
    }

    fn flush(&mut self) -> Result<(), Failed>
        ensures flushed { OnOk result (sink_held self.new ≡ []) }
        ensures stays { Appends (sink_contents W.contents self.old) (sink_contents W.contents self.new) [] }
        ensures unchanged { OnOk result (sink_faults self.new ≡ sink_faults self.old) }
        ensures err { OnErr result (sink_faults self.new ≡ next_count (sink_faults self.old)) }
        ensures cause { HasCause (IsErr result) (sink_faults self.old) (sink_faults self.new) }
    {
        self.hand_on()?;
        // The stream may hold bytes back itself.
        if flush_retrying(&mut self.stream).is_err() {
            raise(&mut self.faults);
            return Err(Failed);
        }
        Ok(())
    }
}

// How many bytes a source reads at once where it is asked for so many.
fn most_of(ahead: bool, asked: usize) -> usize
    ensures some { 0 < asked → 0 < result }
    ensures fits { result ≤ 65536 }
    ensures exact { ¬ IsTrue ahead → result ≤ asked }
{
    if ahead { ROOM } else { asked.min(ROOM) }
}

// What a stream answered, as the answer of a device: a count is handed on, and each error is a fault.
fn counted(answer: io::Result<usize>, faults: &mut u64) -> Result<usize, Failed>
    ensures ok { IfOk answer (λ n. (result ≡ Ok n) × (faults.new ≡ faults.old)) }
    ensures err { OnErr answer (IsErr result × (faults.new ≡ next_count faults.old)) }
    ensures cause { HasCause (IsErr result) faults.old faults.new }
{
    match answer {
        Ok(count) => Ok(count),
        Err(_) => {
            raise(faults);
            Err(Failed)
        }
    }
}
