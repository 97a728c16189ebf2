//! What a device over a stream holds from one call to the next.

ghost use Rattle.std.specs.Prelude.{◌≡◌, ◌<◌, ◌≤◌, ◌↔◌, min, [], ◌++◌, length, take, drop, IsTrue, IfOk, OnErr};
ghost use Rattle.zf_dev.specs.Source.{Takes, EndsAt};

use crate::retrying::read_retrying;
use std::io;
use std::io::Read;
use std::marker::Model;

/// How many bytes a buffer has room for.
pub(crate) const ROOM: usize = 65536;

/// Bytes in the order in which they came: those that a source has read and not given, or that a sink has
/// taken and not handed on.
#[derive(Debug, Drop)]
pub(crate) struct Buffer {
    bytes: [u8; ROOM],
    start: usize,
    end: usize,
}

impl Model for Buffer {
    ghost use Rattle.std.specs.Prelude.{ℕ, ◌≤◌, List, take, drop};

    ghost Value = { List ℕ };

    ghost view = { λ b. drop b.start (take b.end b.bytes) };

    ghost invariant = { λ b. (b.start ≤ b.end) × (b.end ≤ 65536) };
}

impl Buffer {
    /// Holds nothing.
    pub(crate) fn new() -> Buffer
        ensures { result ≡ [] }
    {
        Buffer {
            bytes: [0; ROOM],
            start: 0,
            end: 0,
        }
    }

    pub(crate) fn is_empty(&self) -> bool
        ensures { IsTrue result ↔ (self.now ≡ []) }
    {
        self.start == self.end
    }

    /// The bytes that are held.
    pub(crate) fn held(&self) -> &[u8]
        ensures { result.now ≡ self.now }
    {
        &self.bytes[self.start..self.end]
    }

    /// Lets go of the first bytes, so many.
    pub(crate) fn discard(&mut self, count: usize)
        requires { count ≤ length self.old }
        ensures { self.new ≡ drop count self.old }
    {
        self.start += count;
    }

    /// Takes the first of these bytes behind those that are held, as many as there is room for, and says how
    /// many.
    pub(crate) fn push(&mut self, bytes: &[u8]) -> usize
        ensures bound { result ≤ length bytes.now }
        ensures held { self.new ≡ self.old ++ take result bytes.now }
        ensures some { self.old ≡ [] → 0 < length bytes.now → 0 < result }
    {
        if self.is_empty() {
            self.refill(bytes)
        } else {
            self.append(bytes)
        }
    }

    // The same where nothing is held, so that all is room.
    fn refill(&mut self, bytes: &[u8]) -> usize
        requires { self.old ≡ [] }
        ensures count { result ≡ min 65536 (length bytes.now) }
        ensures held { self.new ≡ take result bytes.now }
    {
        let count = bytes.len().min(ROOM);
        self.bytes[..count].copy_from_slice(&bytes[..count]);
        self.start = 0;
        self.end = count;
        count
    }

    // The same behind those that are held.
    fn append(&mut self, bytes: &[u8]) -> usize
        ensures bound { result ≤ length bytes.now }
        ensures held { self.new ≡ self.old ++ take result bytes.now }
    {
        let end = self.end;
        let count = bytes.len().min(ROOM - end);
        self.bytes[end..end + count].copy_from_slice(&bytes[..count]);
        self.end = end + count;
        count
    }

    /// Reads from a stream at most so many bytes, where none are held, and says how many came: none at its
    /// end.
    pub(crate) fn fill<R: Read>(&mut self, stream: &mut R, most: usize) -> io::Result<usize>
        requires empty { self.old ≡ [] }
        requires some { 0 < most }
        requires fits { most ≤ 65536 }
        ensures held { IfOk result (λ n. (length self.new ≡ n) × (n ≤ most)) }
        ensures taken { IfOk result (λ n. Takes (R.remaining stream.old) (R.remaining stream.new) self.new) }
        ensures end { IfOk result (λ n. EndsAt (R.remaining stream.old) (R.remaining stream.new) n) }
        ensures err { OnErr result ((self.new ≡ [])
            × Takes (R.remaining stream.old) (R.remaining stream.new) []) }
    {
        self.start = 0;
        self.end = 0;
        let count = read_retrying(stream, &mut self.bytes[..most])?;
        self.end = count;
        Ok(count)
    }

    /// Gives the first bytes that are held, as many as there is room for, into the start of `buf`, and says
    /// how many.
    pub(crate) fn give(&mut self, buf: &mut [u8]) -> usize
        ensures count { result ≡ min (length self.old) (length buf.old) }
        ensures given { self.old ≡ take result buf.new ++ self.new }
        ensures rest { drop result buf.new ≡ drop result buf.old }
    {
        let held = &self.bytes[self.start..self.end];
        let count = held.len().min(buf.len());
        buf[..count].copy_from_slice(&held[..count]);
        self.start += count;
        count
    }
}
