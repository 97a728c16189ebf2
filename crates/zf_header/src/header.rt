//! What a header says, and why bytes have none.
//!
//! Its fields, least significant bit first (zfp 1.0 documentation):
//!
//! | Bits | Field |
//! |---|---|
//! | 0 to 23 | the letters "zfp" |
//! | 24 to 31 | the codec's number: 5 in one and two dimensions, 69 in three and four |
//! | 32 to 33 | the type's number less 1: 0 for `i32`, 1 for `i64` |
//! | 34 to 35 | the number of dimensions less 1 |
//! | 36 to 83 | the sizes, each less 1, x first: they share the 48 bits |
//! | 84 to 95 | the mode's number |
//! | 96 to 110 | the least bits of a block, less 1. These and the next fields stand only where the mode's number is 4095 |
//! | 111 to 125 | the most bits of a block, less 1 |
//! | 126 to 132 | the most planes, less 1 |
//! | 133 to 147 | the least exponent |

ghost use Rattle.std.specs.Prelude.{◌≡◌, length};
ghost use Rattle.zf_spec.specs.Stream.{mode_number, codec, type_number};
ghost use Rattle.zf_base.specs.Widths.{width_of};
ghost use Rattle.zf_header.specs.HeaderBits.{coding, IsMode, IsRate, header_bits, rate_bytes_of};

use thiserror::Error;
use zf_base::{Shape, Ty};

/// The length of a header with the long form, in bits. Any other has 96 bits.
pub const LONG_HEADER_BITS: u32 = 148;

/// The bytes that the longest header lies in.
pub const FULL_HEADER_BYTES: usize = 19;

/// The bytes that any other header has.
pub(crate) const SHORT_HEADER_BYTES: usize = 12;

/// The greatest rate, in bits per block.
pub const MAX_RATE: u32 = 32768;

/// The greatest precision, in bit planes.
pub const MAX_PRECISION: u32 = 128;

/// The most bytes of a stream with a fixed rate that a command makes, and of a file of an array.
pub const MAX_FILE: u64 = 1_200_000_000;

/// The letters "zfp" as a number, the first letter lowest.
pub(crate) const MAGIC: u64 = 0x70667a;

/// The codec's numbers, in one and two dimensions and in three and four.
pub(crate) const CODEC: u8 = 5;

pub(crate) const OWN_CODEC: u8 = 69;

/// The last fields of the long form of a fixed rate: the most planes, less 1, and the least exponent.
pub(crate) const LONG_FORM_PLANES: u64 = 63;

pub(crate) const LONG_FORM_EXPONENT: u64 = 15421;

// The length of a header without the long form, in bits.
const SHORT_HEADER_BITS: u32 = 96;

/// The greatest rate that the mode's number holds.
pub(crate) const MAX_SHORT_RATE: u32 = 2048;

/// What the number of a precision is more than the precision.
pub(crate) const BEFORE_PRECISIONS: u32 = 2047;

/// The numbers of the least precision and of the greatest.
pub(crate) const FIRST_PRECISION: u16 = 2048;

pub(crate) const LAST_PRECISION: u16 = 2175;

/// The number of the reversible mode, and the one that begins the long form.
pub(crate) const REVERSIBLE: u16 = 2176;

pub(crate) const LONG_FORM: u16 = 4095;

/// How the blocks of a stream are coded.
#[derive(Clone, Copy, Debug, PartialEq, Eq)]
pub enum Mode {
    /// Without loss, each block in as many bits as its code has.
    Reversible,
    /// Each block in this many bits, 1 to 32768.
    Rate(u32),
    /// Each block to this many bit planes from the top, 1 to 128: to all of them where its values have fewer.
    /// zfp's fixed precision.
    Precision(u32),
}

/// What the header of a stream says: the type and the shape of the array, and how its blocks are coded.
#[derive(Clone, Copy, Debug, PartialEq, Eq)]
pub struct Header {
    pub ty: Ty,
    pub shape: Shape,
    pub mode: Mode,
}

/// Why bytes begin with no header that this library reads.
#[derive(Clone, Copy, Debug, PartialEq, Eq, Error)]
pub enum HeaderFault {
    /// The bytes end before the header does: it has 12 bytes, and 19 with the long form.
    #[error("header: short")]
    Short,
    /// The bytes do not begin with the letters "zfp".
    #[error("header: magic")]
    Magic,
    /// The codec's number is neither 5, zfp's own, nor 69, this library's for three and four dimensions.
    #[error("header: codec")]
    Codec,
    /// The values are floating-point numbers.
    #[error("header: type")]
    Scalar,
    /// The codec's number is the one for other dimensions: the order of coefficients is another.
    #[error("header: order")]
    Order,
    /// The array has more than 2^27 values.
    #[error("header: too large")]
    TooLarge,
    /// The mode with this number is not read: fixed accuracy, or a long form (4095) other than that of a
    /// fixed rate above 2048.
    #[error("header: mode {0}")]
    Mode(u16),
}

/// The number of a mode: the rate less 1 up to 2048, the precision plus 2047, 2176 for the reversible mode,
/// and else 4095, which begins the long form (zfp 1.0 documentation; the layout of the reversible codes
/// behind it is this project's own). A rate is 1 to 32768, a precision 1 to 128.
pub fn mode_number(m: &Mode) -> u16
    requires { IsMode m.now }
    ensures { result ≡ mode_number (coding m.now) }
{
    match *m {
        Mode::Reversible => REVERSIBLE,
        Mode::Rate(rate) => rate_number(rate),
        Mode::Precision(precision) => (precision + BEFORE_PRECISIONS) as u16,
    }
}

// The number of a fixed rate.
fn rate_number(rate: u32) -> u16
    requires { IsRate (Mode.Rate rate) }
    ensures { result ≡ mode_number (coding (Mode.Rate rate)) }
{
    if rate <= MAX_SHORT_RATE {
        (rate - 1) as u16
    } else {
        LONG_FORM
    }
}

/// The bytes of the stream of an array with a fixed rate, 1 to 32768: its header, its blocks, and the fill to
/// whole words of 64 bits.
pub fn rate_bytes(h: &Header) -> u64
    requires { IsRate h.now.mode }
    ensures { result ≡ rate_bytes_of h.now }
{
    let Mode::Rate(rate) = h.mode else {
        unreachable!()
    };
    let bits = u64::from(header_len(h)) + h.shape.blocks() * u64::from(rate);
    8 * bits.div_ceil(64)
}

/// The length of a header, in bits: 96, or 148 with the long form.
pub fn header_len(h: &Header) -> u32
    requires { IsMode h.now.mode }
    ensures { result ≡ length (header_bits h.now) }
{
    // there are one to four sizes
    let _dims = h.shape.dims();
    if mode_number(&h.mode) == LONG_FORM {
        LONG_HEADER_BITS
    } else {
        SHORT_HEADER_BITS
    }
}

/// The codec's number in this many dimensions.
pub(crate) fn codec(dims: u8) -> u8
    ensures { result ≡ codec dims }
{
    if dims <= 2 { CODEC } else { OWN_CODEC }
}

/// The number of a type.
pub(crate) fn type_number(ty: Ty) -> u8
    ensures { result ≡ type_number (width_of ty) }
{
    match ty {
        Ty::I32 => 1,
        Ty::I64 => 2,
    }
}
