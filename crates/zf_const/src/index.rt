//! The index of an array.

ghost use Rattle.std.specs.Prelude.{◌≡◌, ◌<◌, length, IfOk, IfErr};
ghost use Rattle.zf_parse.specs.Parsing.{parse};
ghost use Rattle.zf_parse.specs.ReadStreams.{IsFault};
ghost use Rattle.zf_index.specs.Spans.{span_at};
ghost use Rattle.zf_index.specs.Files.{HasHeader, IsIndexOf, stream_fault};
ghost use Rattle.zf_const.specs.Parts.{seen};

use std::alloc::Global;
use zf_header::Header;
use zf_index::{Chunked, IndexFault, Span, Verbatim};

/// The most blocks of an array that keeps a place for each of them.
const MOST_VERBATIM: u64 = 4096;

/// The spans of an array's codes.
#[derive(Drop)]
pub(crate) enum Index {
    Verbatim(Verbatim),
    Chunked(Chunked),
}

impl Index {
    /// The index of a file that begins with the header `h`.
    pub(crate) fn build(alloc: Global, h: &Header, file: &[u8]) -> Result<Index, IndexFault>
        requires { HasHeader file.now h.now }
        ensures ok { IfOk result (λ i. IsIndexOf file.now h.now (seen i)) }
        ensures fault { IfErr result (λ e. IsFault (parse file.now) (stream_fault e)) }
    {
        if h.shape.blocks() <= MOST_VERBATIM {
            Ok(Index::Verbatim(Verbatim::build(alloc, h, file)?))
        } else {
            Ok(Index::Chunked(Chunked::build(alloc, h, file)?))
        }
    }

    /// The place and the length of the code of block `b`.
    pub(crate) fn span(&self, b: u64) -> Span
        requires { b < length (seen self.now).lens }
        ensures { result ≡ span_at (seen self.now) b }
    {
        match self {
            Index::Verbatim(spans) => spans.span(b),
            Index::Chunked(spans) => spans.span(b),
        }
    }
}
