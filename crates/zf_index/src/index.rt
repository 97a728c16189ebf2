//! Indexes of codes.

ghost use Rattle.std.specs.Prelude.{◌≡◌, ◌+◌, ◌*◌, ◌<◌, ◌≤◌, ◌^◌, length, IfOk, IfErr};
ghost use Rattle.zf_header.specs.declared.header.Mode.TheVariants as Mode;
ghost use Rattle.zf_parse.specs.Parsing.{parse};
ghost use Rattle.zf_parse.specs.ReadStreams.{BeginsWithHeader, IsFault};
ghost use Rattle.zf_index.specs.Spans.{Index, index_of, place, span_at, ArePlaces, IsKept};
ghost use Rattle.zf_index.specs.Files.{HasHeader, IsIndexOf, stream_fault};

use crate::walk::{check_rate, code_lengths};
use crate::{IndexFault, Span};
use std::alloc::{AllocError, Global};
use std::marker::Model;
use zf_header::{Header, Mode, header_len};

/// The spans of the codes of a stream. At a fixed rate each code has as many bits, and its place is computed;
/// else there are a place for each `STEP` blocks and a length of 16 bits for each block.
///
/// It is seen as where the first code begins, and how long each is.
#[derive(Drop)]
pub struct Spans<const STEP: usize> {
    kept: Kept,
}

// What is kept of the spans.
#[derive(Drop)]
enum Kept {
    // codes of as many bits each, from this bit of the file on
    Even { start: u64, len: u64, count: u64 },
    // where the first of each `STEP` codes begins, in bits of the file, and how many bits each code has
    Listed { places: Vec<u64>, lens: Vec<u16> },
}

/// A place for each block: a span is there at once.
pub type Verbatim = Spans<1>;

/// A place for each 16 blocks: the least memory.
pub type Chunked = Spans<16>;

impl<const STEP: usize> Model for Spans<STEP> {
    ghost use Rattle.zf_index.specs.Spans.{Index, index_in, IsKeptIn};

    ghost Value = { Index };

    ghost view = { λ s. index_in s.kept };

    ghost invariant = { λ s. IsKeptIn STEP s.kept };
}

impl<const STEP: usize> Spans<STEP> {
    /// The index of a file that begins with the header `h`, in any mode. `STEP` is at least 1.
    ///
    /// `h` is what `zf_header::read` gives for the file. `Truncated(b)`: the code of block b is the first
    /// that ends too early; b is the number of blocks where only fill bits are missing. `Pad`: a bit of the
    /// fill is one. `Trailing`: a byte follows the fill. The first that holds, in this order; or `Memory`:
    /// there was no memory.
    #[tactic(auto, using(crate::proofs::Read::begun))]
    pub fn build(alloc: Global, h: &Header, file: &[u8]) -> Result<Self, IndexFault>
        requires header { HasHeader file.now h.now }
        requires step { 0 < STEP }
        ensures ok { IfOk result (IsIndexOf file.now h.now) }
        ensures fault { IfErr result (λ e. IsFault (parse file.now) (stream_fault e)) }
    {
        let start = u64::from(header_len(h));
        match h.mode {
            Mode::Rate(bits) => Spans::even(h, bits, file, start),
            _ => Spans::listed(alloc, h, file, start),
        }
    }

    // The index at a fixed rate, where the header has `start` bits. No code is looked at.
    fn even(h: &Header, rate: u32, file: &[u8], start: u64) -> Result<Self, IndexFault>
        requires begun { BeginsWithHeader file.now h.now start }
        requires rate { h.now.mode ≡ Mode.Rate rate }
        ensures ok { IfOk result (IsIndexOf file.now h.now) }
        ensures fault { IfErr result (λ e. IsFault (parse file.now) (stream_fault e)) }
    {
        check_rate(h, rate, file, start)?;
        Ok(Spans {
            kept: Kept::Even {
                start,
                len: u64::from(rate),
                count: h.shape.blocks(),
            },
        })
    }

    // The index in any mode, by a walk over the codes, where the header has `start` bits.
    fn listed(alloc: Global, h: &Header, file: &[u8], start: u64) -> Result<Self, IndexFault>
        requires begun { BeginsWithHeader file.now h.now start }
        requires step { 0 < STEP }
        ensures ok { IfOk result (IsIndexOf file.now h.now) }
        ensures fault { IfErr result (λ e. IsFault (parse file.now) (stream_fault e)) }
    {
        let lens = code_lengths(alloc, h, file, start)?;
        let places = places_of(alloc, start, &lens, STEP)?;
        Ok(Spans {
            kept: Kept::Listed { places, lens },
        })
    }

    /// The place and the length of the code of block `b`, in bits. The header's bits stand in front of the
    /// first.
    pub fn span(&self, b: u64) -> Span
        requires { b < length self.now.lens }
        ensures { result ≡ span_at self.now b }
    {
        match &self.kept {
            Kept::Even { start, len, .. } => Span {
                at: start + b * len,
                len: *len,
            },
            Kept::Listed { places, lens } => listed_span(places, lens, STEP, b as usize),
        }
    }
}

// The span of code `b`, from a place for each `step` codes.
fn listed_span(places: &[u64], lens: &[u16], step: usize, b: usize) -> Span
    requires kept { IsKept step places.now lens.now }
    requires below { b < length lens.now }
    ensures { result ≡ span_at (index_of places.now lens.now) b }
{
    let mut at = places[b / step];
    for code in b - b % step..b {
        at += u64::from(lens[code]);
    }
    Span {
        at,
        len: u64::from(lens[b]),
    }
}

// Where the first of each `step` codes of these lengths begins.
fn places_of(alloc: Global, start: u64, lens: &[u16], step: usize) -> Result<Vec<u64>, AllocError>
    requires step { 0 < step }
    requires within { place (record { start = start; lens = lens.now }) (length lens.now) < 2 ^ 64 }
    ensures { IfOk result
        (λ places. ArePlaces step (record { start = start; lens = lens.now }) places.items) }
{
    let mut places = Vec::with_capacity(alloc, lens.len().div_ceil(step))?;
    let mut at = start;
    let mut first = 0;
    while first < lens.len() {
        places.push(at)?;
        let end = first + step.min(lens.len() - first);
        for code in first..end {
            at += u64::from(lens[code]);
        }
        first = end;
    }
    Ok(places)
}
