//! The plane from which on the planes of each block are whole.

ghost use Rattle.std.specs.Prelude.{◌≡◌, ◌+◌, ◌-◌, ◌*◌, ◌≤◌, max, length, take, drop, IsTrue};
ghost use Rattle.zf_spec.specs.Grid.{blocks};
ghost use Rattle.zf_spec.specs.Stream.{to_bits};
ghost use Rattle.zf_bits.specs.Reader.{rest};
ghost use Rattle.zf_block.specs.WholePlanes.{rate_whole_from};
ghost use Rattle.zf_index.specs.Spans.{codes_in};
ghost use Rattle.zf_bound.specs.Bounds.{plane_of};
ghost use Rattle.zf_bound.specs.Spans.{AreInside, AreFrom};

use zf_base::Lane;
use zf_bits::{BitReader, Excerpt};
use zf_block::{Dims, plane_from};
use zf_header::Header;
use zf_index::{Span, Verbatim};

/// The greatest over the codes of the blocks, which stand at the spans of the index in this file, by way of
/// `excerpt`. Of each code no more is looked at than tells whether its plane is greater than those so far.
pub(crate) fn stream_plane<T: Lane>(
    h: &Header,
    index: &Verbatim,
    file: &[u8],
    excerpt: &mut Excerpt,
) -> u32
    requires count { length index.now.lens ≡ blocks h.now.shape }
    requires inside { AreInside index.now (8 * length file.now) (64 * excerpt.old.room) }
    requires some { 1 ≤ excerpt.old.room }
    ensures value { result ≡ plane_of T.width (length h.now.shape) (codes_in index.now (to_bits file.now)) }
    ensures bound { result ≤ T.WIDTH }
{
    let mut plane = 0;
    let mut from = 0;
    excerpt.take(file, 0);
    for b in 0..h.shape.blocks() {
        let span = index.span(b);
        from = see_code(span, file, from, excerpt);
        plane = code_plane::<T>(
            Dims::new(h.shape.dims()),
            plane,
            span,
            file,
            from,
            excerpt.reader(),
        );
    }
    plane
}

// Takes the bits of the file from a code on, where the excerpt has not all of its bits. The answer is where
// the bits of the excerpt begin, as `from` is before.
#[inline]
fn see_code(span: Span, file: &[u8], from: u64, excerpt: &mut Excerpt) -> u64
    requires inside { span.at + span.len ≤ 8 * length file.now }
    requires fits { span.len + 64 ≤ 64 * excerpt.old.room }
    requires bits { AreFrom from (to_bits file.now) (rest excerpt.old.reader) }
    ensures bits { AreFrom result (to_bits file.now) (rest excerpt.new.reader) }
    ensures behind { result ≤ span.at }
    ensures there { span.at - result + span.len ≤ length (rest excerpt.new.reader) }
    ensures room { excerpt.new.room ≡ excerpt.old.room }
{
    if has_code(span, from, &excerpt.reader()) {
        return from;
    }
    excerpt.take(file, span.at);
    span.at
}

// Whether the bits of a code are among those of a reader, which begin at bit `from` of the file.
#[inline]
fn has_code(span: Span, from: u64, reader: &BitReader<'_>) -> bool
    ensures behind { IsTrue result → from ≤ span.at }
    ensures there { IsTrue result → span.at - from + span.len ≤ length (rest reader.now) }
{
    let left = reader.left();
    from <= span.at && span.at - from <= left && span.len <= left - (span.at - from)
}

// The greater of `least` and the plane from which on the planes of a code are whole. The reader's bits begin
// at bit `from` of the file.
#[inline]
fn code_plane<T: Lane>(
    d: Dims,
    least: u32,
    span: Span,
    file: &[u8],
    from: u64,
    reader: BitReader<'_>,
) -> u32
    requires least { least ≤ T.WIDTH }
    requires len { span.len ≤ 32768 }
    requires bits { AreFrom from (to_bits file.now) (rest reader) }
    requires behind { from ≤ span.at }
    requires there { span.at - from + span.len ≤ length (rest reader) }
    ensures value { result ≡ max least
        (rate_whole_from T.width d.count (take span.len (drop span.at (to_bits file.now)))) }
    ensures bound { result ≤ T.WIDTH }
{
    let mut reader = reader;
    reader.skip(span.at - from);
    plane_from::<T>(d, least, span.len as u32, &reader)
}
