//! The header that bytes begin with.

ghost use Rattle.std.specs.Prelude.{◌≡◌, ◌+◌, ◌*◌, ◌^◌, ◌<◌, ◌≤◌, length, Ok, IfOk};
ghost use Rattle.std.specs.Result.{result_err};
ghost use Rattle.zf_spec.specs.Stream.{to_bits};
ghost use Rattle.zf_header.specs.declared.header.Header.{Header};
ghost use Rattle.zf_header.specs.HeaderBits.{IsHeader, BeginsWith, header_bits};
ghost use Rattle.zf_header.specs.HeaderFields.{number_at, dims_in, size_in, sizes_in, mode_in, header_in};
ghost use Rattle.zf_header.specs.HeaderFaults.{first_fault, prefix_faults, size_faults, mode_faults, header_fault};

use crate::header::{
    BEFORE_PRECISIONS, CODEC, FIRST_PRECISION, FULL_HEADER_BYTES, Header, HeaderFault,
    LAST_PRECISION, LONG_FORM, LONG_FORM_EXPONENT, LONG_FORM_PLANES, LONG_HEADER_BITS, MAGIC,
    MAX_SHORT_RATE, Mode, OWN_CODEC, REVERSIBLE, SHORT_HEADER_BYTES, codec, header_len,
};
use zf_base::{Shape, Ty};
use zf_bits::word_of_bytes_at;

/// The header that the bytes begin with and its length in bits, 96 or 148; or the first fault, field by
/// field.
///
/// `Short`: there are fewer bytes than the header has, 12, or 19 with the long form of its mode. `Magic`,
/// `Codec`, `Scalar`: the letters, the codec or the type are others. `Order`: the codec does not go with the
/// number of dimensions. `TooLarge`: there are more than 2^27 values. `Mode(m)`: mode m is not read.
///
/// Bytes may follow the header: of all no more than the first [`FULL_HEADER_BYTES`] are looked at.
pub fn read(bytes: &[u8]) -> Result<(Header, u32), HeaderFault>
    // What is read stands there.
    ensures found { IfOk result (λ found. BeginsWith bytes.now found.0) }
    ensures len { IfOk result (λ found. found.1 ≡ length (header_bits found.0)) }
    ensures within { IfOk result (λ found. found.1 ≤ 8 * length bytes.now) }
    ensures header { IfOk result (λ found. IsHeader found.0) }
    // What stands there is read.
    ensures only { (h : Header) → IsHeader h → BeginsWith bytes.now h
        → result ≡ Ok (h, length (header_bits h)) }
    // Which fault it is.
    ensures fault { result_err result ≡ header_fault bytes.now }
    ensures fields { IfOk result (λ found. found.0 ≡ header_in (to_bits bytes.now)) }
{
    fields(bytes)
}

// What the fields say, or the first fault.
fn fields(bytes: &[u8]) -> Result<(Header, u32), HeaderFault>
    ensures fault { result_err result ≡ header_fault bytes.now }
    ensures header { IfOk result (λ found. found.0 ≡ header_in (to_bits bytes.now)) }
    ensures len { IfOk result (λ found. found.1 ≡ length (header_bits found.0)) }
{
    let (ty, dims) = prefix(bytes)?;
    let shape = shape(bytes, dims)?;
    let mode = mode(bytes)?;
    let header = Header { ty, shape, mode };
    Ok((header, header_len(&header)))
}

// The type and the number of dimensions.
fn prefix(bytes: &[u8]) -> Result<(Ty, u8), HeaderFault>
    ensures fault { result_err result ≡ first_fault (prefix_faults bytes.now) }
    ensures ty { IfOk result (λ prefix. prefix.0 ≡ (header_in (to_bits bytes.now)).ty) }
    ensures dims { IfOk result (λ prefix. prefix.1 ≡ dims_in (to_bits bytes.now)) }
    ensures enough { IfOk result (λ _. 12 ≤ length bytes.now) }
{
    if bytes.len() < SHORT_HEADER_BYTES {
        return Err(HeaderFault::Short);
    }
    if number_at(bytes, 0, 24) != MAGIC {
        return Err(HeaderFault::Magic);
    }
    let codec_number = number_at(bytes, 24, 8) as u8;
    if codec_number != CODEC && codec_number != OWN_CODEC {
        return Err(HeaderFault::Codec);
    }
    let ty = match number_at(bytes, 32, 2) {
        0 => Ty::I32,
        1 => Ty::I64,
        _ => return Err(HeaderFault::Scalar),
    };
    let dims = number_at(bytes, 34, 2) as u8 + 1;
    if codec_number != codec(dims) {
        return Err(HeaderFault::Order);
    }
    Ok((ty, dims))
}

// The shape: the sizes share 48 bits, x first.
#[tactic(auto, using(crate::proofs::Bits::number_at_below))]
fn shape(bytes: &[u8], dims: u8) -> Result<Shape, HeaderFault>
    requires enough { 12 ≤ length bytes.now }
    requires dims { dims ≡ dims_in (to_bits bytes.now) }
    ensures fault { result_err result ≡ first_fault (size_faults bytes.now) }
    ensures shape { IfOk result (λ shape. shape ≡ sizes_in (to_bits bytes.now)) }
{
    // a size that was read is neither zero nor more than its field holds
    Shape::new(
        dims,
        size(bytes, dims, 0),
        size(bytes, dims, 1),
        size(bytes, dims, 2),
        size(bytes, dims, 3),
    )
    .map_err(|_| HeaderFault::TooLarge)
}

// The size along an axis, and 1 along an unused one.
fn size(bytes: &[u8], dims: u8, axis: u8) -> u64
    requires enough { 12 ≤ length bytes.now }
    requires one_at_least { 1 ≤ dims }
    requires four_at_most { dims ≤ 4 }
    ensures { result ≡ size_in dims axis (to_bits bytes.now) }
{
    if axis >= dims {
        return 1;
    }
    let width = 48 / u32::from(dims);
    number_at(bytes, 36 + u32::from(axis) * width, width) + 1
}

// How the blocks are coded.
fn mode(bytes: &[u8]) -> Result<Mode, HeaderFault>
    requires enough { 12 ≤ length bytes.now }
    ensures fault { result_err result ≡ first_fault (mode_faults bytes.now) }
    ensures mode { IfOk result (λ mode. mode ≡ (header_in (to_bits bytes.now)).mode) }
{
    let number = number_at(bytes, 84, 12) as u16;
    match number {
        0..=2047 => Ok(Mode::Rate(u32::from(number) + 1)),
        FIRST_PRECISION..=LAST_PRECISION => {
            Ok(Mode::Precision(u32::from(number) - BEFORE_PRECISIONS))
        }
        REVERSIBLE => Ok(Mode::Reversible),
        LONG_FORM => long_rate(bytes),
        _ => Err(HeaderFault::Mode(number)),
    }
}

// The rate of the long form.
fn long_rate(bytes: &[u8]) -> Result<Mode, HeaderFault>
    requires begun { mode_in (to_bits bytes.now) ≡ 4095 }
    ensures fault { result_err result ≡ first_fault (mode_faults bytes.now) }
    ensures mode { IfOk result (λ mode. mode ≡ (header_in (to_bits bytes.now)).mode) }
{
    if bytes.len() < FULL_HEADER_BYTES {
        return Err(HeaderFault::Short);
    }
    let rate = number_at(bytes, 96, 15) as u32 + 1;
    let most = number_at(bytes, 111, 15) as u32 + 1;
    let is_rate = rate > MAX_SHORT_RATE
        && most == rate
        && number_at(bytes, 126, 7) == LONG_FORM_PLANES
        && number_at(bytes, 133, 15) == LONG_FORM_EXPONENT;
    if !is_rate {
        return Err(HeaderFault::Mode(LONG_FORM));
    }
    Ok(Mode::Rate(rate))
}

// The number in the `n` bits from bit `at` on, the least significant first. They lie in one word: that from
// the byte of the first bit on, or the last of all.
#[inline]
fn number_at(bytes: &[u8], at: u32, n: u32) -> u64
    requires some { 0 < n }
    requires width { n ≤ 48 }
    requires near { at ≤ LONG_HEADER_BITS }
    requires enough { 8 ≤ length bytes.now }
    requires within { at + n ≤ 8 * length bytes.now }
    ensures value { result ≡ number_at at n (to_bits bytes.now) }
    ensures bound { result < 2 ^ n }
{
    let first = (at as usize / 8).min(bytes.len() - 8);
    let shift = at - 8 * first as u32;
    (word_of_bytes_at(bytes, first) >> shift) % (1 << n)
}
