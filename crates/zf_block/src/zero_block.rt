//! A look for zeros that come next.

ghost use Rattle.std.specs.Prelude.{◌≤◌, ◌↔◌, IsTrue};
ghost use Rattle.zf_bits.specs.Reader.{rest};
ghost use Rattle.zf_block.specs.Decoding.{ZerosNext};
ghost use Rattle.zf_block.specs.Passing.{HasNext};

use zf_bits::BitReader;

/// Whether the next `count` bits are there and zero. They are those of `word`.
#[inline(always)]
pub(crate) fn are_zeros(count: u32, word: u64, reader: &BitReader<'_>) -> bool
    requires next { HasNext word (rest reader.now) }
    requires in_word { count ≤ 64 }
    ensures { IsTrue result ↔ ZerosNext count count (rest reader.now) }
{
    u64::from(count) <= reader.left() && count <= word.trailing_zeros()
}
