//! Devices in memory: what a test or a caller with the bytes in hand puts in the place of the streams.

ghost use Rattle.std.specs.Prelude.{◌≡◌, ℕ, ◌<◌, ◌≤◌, ◌↔◌, min, List, [], ◌++◌, length, take, drop, Some, IsTrue, IsOk, IsErr, IfOk, OnOk, OnErr, Contains};
ghost use Rattle.zf_dev.specs.Faults.{HasCause, next_count};
ghost use Rattle.zf_dev.specs.Memory.{given_count, ends_after, source_after_read, source_after_fault, sink_after_write, sink_after_flush, sink_after_fault, sink_after_starving};
ghost use Rattle.zf_dev.specs.Sink.{Appends};
ghost use Rattle.zf_dev.specs.Source.{Takes, EndsAt, SeesEnd};

use crate::faults::raise;
use crate::{Failed, Sink, Source};
use std::alloc::Global;
use std::marker::Model;

/// A source that gives bytes from memory, and fails at the calls that it was told to.
#[derive(Debug, Drop)]
pub struct MemSource {
    bytes: Vec<u8>,
    at: usize,
    fail: Vec<u64>,
    piece: usize,
    call: u64,
    faults: u64,
    ends: u64,
}

impl Model for MemSource {
    ghost use Rattle.std.specs.Prelude.{◌<◌, ◌≤◌, drop, vec_len};
    ghost use Rattle.zf_dev.specs.Memory.{SourceState};

    ghost Value = { SourceState };

    ghost view = { λ s. record {
      left = drop s.at s.bytes.items;
      fail = s.fail.items;
      piece = s.piece;
      call = s.call;
      faults = s.faults;
      ends = s.ends;
    } };

    ghost invariant = { λ s. (s.at ≤ vec_len s.bytes) × (0 < s.piece) };
}

impl MemSource {
    /// Gives `bytes`, at most `piece` of them a call; `piece` is at least 1. The calls that `fail` names
    /// fail; they are numbered from 0.
    pub fn new(bytes: Vec<u8>, fail: Vec<u64>, piece: usize) -> MemSource
        requires { 0 < piece }
        ensures { result ≡ record {
          left = bytes.items;
          fail = fail.items;
          piece = piece;
          call = 0;
          faults = 0;
          ends = 0;
        } }
    {
        MemSource {
            bytes,
            at: 0,
            fail,
            piece,
            call: 0,
            faults: 0,
            ends: 0,
        }
    }

    /// The bytes still to come.
    pub fn left(&self) -> &[u8]
        ensures { result.now ≡ self.now.left }
    {
        &self.bytes[self.at..]
    }

    /// How many calls failed.
    pub fn faults(&self) -> u64
        ensures { result ≡ self.now.faults }
    {
        self.faults
    }

    /// How many calls saw the end.
    pub fn ends(&self) -> u64
        ensures { result ≡ self.now.ends }
    {
        self.ends
    }
}

impl Source for MemSource {
    ghost Kept = { Unit {0} };

    ghost contents = { λ s. Some s.left };

    ghost faults = { λ s. s.faults };

    ghost ends_seen = { λ s. s.ends };

    ghost never_fails = { λ s. s.fail ≡ [] };

    ghost kept = { λ _. tt };

    fn read(&mut self, buf: &mut [u8]) -> Result<usize, Failed>
        requires { 0 < length buf.old }

        ensures fails { IsErr result ↔ Contains self.old.fail self.old.call }
        ensures given { IfOk result (λ n. n ≡ given_count self.old (length buf.old)) }
        ensures bytes { IfOk result (λ n. buf.new ≡ take n self.old.left ++ drop n buf.old) }
        ensures ok { IfOk result (λ n. self.new ≡ source_after_read self.old n) }
        ensures err { OnErr result (self.new ≡ source_after_fault self.old) }
        ensures unread { OnErr result (buf.new ≡ buf.old) }

        // Those of the trait.
        ensures bound { IfOk result (λ n. n ≤ length buf.old) }
        ensures taken { IfOk result (λ n. Takes (Some self.old.left) (Some self.new.left) (take n buf.new)) }
        ensures rest { IfOk result (λ n. drop n buf.new ≡ drop n buf.old) }
        ensures end { IfOk result (λ n. EndsAt (Some self.old.left) (Some self.new.left) n) }
        ensures untaken { OnErr result (Takes (Some self.old.left) (Some self.new.left) []) }
        ensures seen { IfOk result (λ n. SeesEnd (n ≡ 0) self.old.ends self.new.ends) }
        ensures unseen { OnErr result (self.new.ends ≤ self.old.ends) }
        ensures unchanged { OnOk result (self.new.faults ≡ self.old.faults) }
        ensures cause { HasCause (IsErr result) self.old.faults self.new.faults }
        ensures sure { self.old.fail ≡ [] → IsOk result × (self.new.fail ≡ []) }
    {
        if is_failing(&self.fail, &mut self.call, &mut self.faults) {
            return Err(Failed);
        }
        let count = give(&self.bytes[self.at..], self.piece, buf);
        self.at += count;
        count_end(count, &mut self.ends);
        Ok(count)
    }
}

/// A sink that keeps the bytes in memory, and fails at the calls that it was told to and where memory runs
/// out.
#[derive(Debug, Drop)]
pub struct MemSink {
    bytes: Vec<u8>,
    fail: Vec<u64>,
    piece: usize,
    call: u64,
    faults: u64,
    starved: u64,
}

impl Model for MemSink {
    ghost use Rattle.std.specs.Prelude.{◌<◌};
    ghost use Rattle.zf_dev.specs.Memory.{SinkState};

    ghost Value = { SinkState };

    ghost view = { λ s. record {
      written = s.bytes.items;
      fail = s.fail.items;
      piece = s.piece;
      call = s.call;
      faults = s.faults;
      starved = s.starved;
    } };

    ghost invariant = { λ s. 0 < s.piece };
}

impl MemSink {
    /// Takes at most `piece` bytes a call; `piece` is at least 1. The calls that `fail` names fail; they are
    /// numbered from 0.
    pub fn new(alloc: Global, fail: Vec<u64>, piece: usize) -> MemSink
        requires { 0 < piece }
        ensures { result ≡ record {
          written = [];
          fail = fail.items;
          piece = piece;
          call = 0;
          faults = 0;
          starved = 0;
        } }
    {
        MemSink {
            bytes: Vec::new(alloc),
            fail,
            piece,
            call: 0,
            faults: 0,
            starved: 0,
        }
    }

    /// The bytes written.
    pub fn bytes(&self) -> &[u8]
        ensures { result.now ≡ self.now.written }
    {
        &self.bytes
    }

    /// How many calls failed.
    pub fn faults(&self) -> u64
        ensures { result ≡ self.now.faults }
    {
        self.faults
    }

    /// How many of these failed as memory ran out.
    pub fn starved(&self) -> u64
        ensures { result ≡ self.now.starved }
    {
        self.starved
    }
}

impl Sink for MemSink {
    ghost Kept = { Unit {0} };

    ghost contents = { λ s. Some s.written };

    ghost faults = { λ s. s.faults };

    ghost kept = { λ _. tt };

    fn write(&mut self, bytes: &[u8]) -> Result<usize, Failed>
        requires { 0 < length bytes.now }

        ensures taken { IfOk result (λ n. n ≡ min self.old.piece (length bytes.now)) }
        ensures ok { IfOk result (λ n. self.new ≡ sink_after_write self.old (take n bytes.now)) }
        ensures listed { Contains self.old.fail self.old.call → IsErr result
            × (self.new ≡ sink_after_fault self.old) }
        // Any other call fails only as memory ran out, and counts that.
        ensures starved { OnErr result (¬ Contains self.old.fail self.old.call → self.new
            ≡ sink_after_starving self.old) }

        // Those of the trait.
        ensures some { IfOk result (λ n. 0 < n) }
        ensures bound { IfOk result (λ n. n ≤ length bytes.now) }
        ensures appended { IfOk result (λ n. Appends (Some self.old.written) (Some self.new.written)
            (take n bytes.now)) }
        ensures unwritten { OnErr result (Appends (Some self.old.written) (Some self.new.written) []) }
        ensures unchanged { OnOk result (self.new.faults ≡ self.old.faults) }
        ensures cause { HasCause (IsErr result) self.old.faults self.new.faults }
    {
        if is_failing(&self.fail, &mut self.call, &mut self.faults) {
            return Err(Failed);
        }
        let count = self.piece.min(bytes.len());
        if self.bytes.extend_from_slice(&bytes[..count]).is_err() {
            raise(&mut self.starved);
            raise(&mut self.faults);
            return Err(Failed);
        }
        Ok(count)
    }

    // It holds nothing back, but it is a call, which fails if it is listed.
    fn flush(&mut self) -> Result<(), Failed>
        ensures fails { IsErr result ↔ Contains self.old.fail self.old.call }
        ensures ok { OnOk result (self.new ≡ sink_after_flush self.old) }
        ensures err { OnErr result (self.new ≡ sink_after_fault self.old) }

        // Those of the trait.
        ensures stays { Appends (Some self.old.written) (Some self.new.written) [] }
        ensures unchanged { OnOk result (self.new.faults ≡ self.old.faults) }
        ensures cause { HasCause (IsErr result) self.old.faults self.new.faults }
    {
        if is_failing(&self.fail, &mut self.call, &mut self.faults) {
            return Err(Failed);
        }
        Ok(())
    }
}

// Counts that a call saw the end, where it gave so many bytes.
fn count_end(given: usize, ends: &mut u64)
    ensures after { ends.new ≡ ends_after given ends.old }
    ensures seen { SeesEnd (given ≡ 0) ends.old ends.new }
{
    if given == 0 {
        raise(ends);
    }
}

// Puts the first of these bytes, at most `piece`, into the start of `buf`, and says how many.
fn give(left: &[u8], piece: usize, buf: &mut [u8]) -> usize
    ensures count { result ≡ min (min piece (length buf.old)) (length left.now) }
    ensures bytes { buf.new ≡ take result left.now ++ drop result buf.old }
    ensures taken { left.now ≡ take result buf.new ++ drop result left.now }
    ensures rest { drop result buf.new ≡ drop result buf.old }
{
    let count = piece.min(buf.len()).min(left.len());
    buf[..count].copy_from_slice(&left[..count]);
    count
}

// Counts a call, and says whether it is one that is to fail: then a fault is counted, too.
pub(crate) fn is_failing(fail: &[u64], call: &mut u64, faults: &mut u64) -> bool
    ensures listed { IsTrue result ↔ Contains fail.now call.old }
    ensures call { call.new ≡ next_count call.old }
    ensures fault { IsTrue result → faults.new ≡ next_count faults.old }
    ensures none { ¬ IsTrue result → faults.new ≡ faults.old }
    ensures kept { faults.old ≤ faults.new }
{
    let listed = fail.contains(call);
    raise(call);
    if listed {
        raise(faults);
    }
    listed
}
