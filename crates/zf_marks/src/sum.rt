//! A sum by which bytes are known again.

// Odd numbers of which about half of the bits are ones, as every word changes a sum by them.
const FIRST: u64 = 0x9E37_79B9_7F4A_7C15;

const SECOND: u64 = 0xC2B2_AE3D_27D4_EB4F;

/// What bytes add up to, in two ways. Other bytes have another sum, but for one case among so many that only who
/// looks for it finds it.
#[derive(Clone, Copy, PartialEq, Eq)]
pub struct Sum {
    first: u64,
    second: u64,
}

impl Sum {
    /// The sum of no bytes.
    pub fn new() -> Sum {
        Sum {
            first: FIRST,
            second: SECOND,
        }
    }

    /// The sum with these bytes behind. Pieces of words of eight bytes, but for the last one, add up as they do
    /// together.
    pub fn with(self, bytes: &[u8]) -> Sum {
        let (words, rest) = bytes.as_chunks::<8>();
        let mut sum = self;
        for word in words {
            sum = sum.with_word(u64::from_le_bytes(*word));
        }
        for byte in rest {
            sum = sum.with_word(u64::from(*byte));
        }
        sum
    }

    fn with_word(self, word: u64) -> Sum {
        Sum {
            first: (self.first ^ word).wrapping_mul(FIRST).rotate_left(29),
            second: (self.second ^ word).wrapping_mul(SECOND).rotate_left(41),
        }
    }
}
