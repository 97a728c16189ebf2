//! Bits at places of words, bytes as words, and the bits of a header of the format, written and read.

ghost use Rattle.std.specs.Prelude.{◌≡◌, ◌+◌, ◌≤◌, length, OnOk};

use std::alloc::{AllocError, Global};
use std::process::Abort;
use std::test::Fail;
use zf_bits::{BitReader, BitWriter, bytes_of_words, get_bits, put_bits, words_of_bytes};

// Places, widths and values of fields in two words that held only ones or only zeros, and the words
// afterwards.
static FIELDS: [(u64, u32, u64, [u64; 2], [u64; 2]); 7] = [
    (0, 64, 0x1234, [0x1234, u64::MAX], [0x1234, 0]),
    (64, 64, 0x1234, [u64::MAX, 0x1234], [0, 0x1234]),
    (
        60,
        8,
        0xa5,
        [0x5fff_ffff_ffff_ffff, 0xffff_ffff_ffff_fffa],
        [0x5000_0000_0000_0000, 0xa],
    ),
    (
        63,
        64,
        0x8000_0000_0000_0001,
        [u64::MAX, 0xc000_0000_0000_0000],
        [1 << 63, 0x4000_0000_0000_0000],
    ),
    (1, 63, 0, [1, u64::MAX], [0, 0]),
    (8, 4, 5, [0xffff_ffff_ffff_f5ff, u64::MAX], [0x500, 0]),
    (128, 0, 0, [u64::MAX, u64::MAX], [0, 0]),
];

// Whether the field is put into these two words, and is got again.
fn is_put(at: u64, n: u32, v: u64, mut words: [u64; 2], expected: &[u64; 2]) -> bool
    requires { (n ≤ 64) × (at + n ≤ 128) }
{
    put_bits(&mut words, at, v, n);
    words == *expected && get_bits(&words, at, n) == v
}

fn are_put(rt: &impl Abort, rows: &[(u64, u32, u64, [u64; 2], [u64; 2])]) {
    for (at, n, v, among_ones, among_zeros) in rows {
        assert!(rt; *n <= 64 && *at <= 128 - u64::from(*n));
        assert!(rt; is_put(*at, *n, *v, [u64::MAX; 2], among_ones));
        assert!(rt; is_put(*at, *n, *v, [0; 2], among_zeros));
    }
}

#[test]
fn puts_and_gets_the_bits_of_a_place(rt: HostRuntime) {
    are_put(&rt, &FIELDS);
}

// Bytes, their words, and the bytes of these words.
static PACKED: [(&[u8], &[u64], &[u8]); 2] = [
    (
        &[
            0x7a, 0x66, 0x70, 0x05, 0x00, 0x00, 0x00, 0x00, 0x00, 0x00, 0x00, 0x88, 0x1f,
        ],
        &[0x0570667a, 0x1f_8800_0000],
        &[
            0x7a, 0x66, 0x70, 0x05, 0x00, 0x00, 0x00, 0x00, 0x00, 0x00, 0x00, 0x88, 0x1f, 0, 0, 0,
        ],
    ),
    (&[], &[], &[]),
];

// Whether these are the bytes of words.
fn have_bytes(alloc: Global, words: &[u64], bytes: &[u8]) -> Result<bool, AllocError> {
    let found = bytes_of_words(alloc, words)?;
    let same = found.as_slice() == bytes;
    drop(found);
    Ok(same)
}

// Whether these are the words of bytes, and the bytes of these words.
fn are_packed(
    alloc: Global,
    bytes: &[u8],
    words: &[u64],
    filled: &[u8],
) -> Result<bool, AllocError> {
    let found = words_of_bytes(alloc, bytes)?;
    let same = found.as_slice() == words;
    drop(found);
    Ok(same && have_bytes(alloc, words, filled)?)
}

fn all_are_packed(
    rt: &impl Abort,
    alloc: Global,
    rows: &[(&[u8], &[u64], &[u8])],
) -> Result<(), AllocError> {
    for (bytes, words, filled) in rows {
        assert!(rt; are_packed(alloc, bytes, words, filled)?);
    }
    Ok(())
}

#[test]
fn packs_eight_bytes_a_word(rt: HostRuntime) -> Result<(), Fail> {
    all_are_packed(&rt, rt.alloc(), &PACKED)?;
    Ok(())
}

// The header of one int32 value without loss, 7a 66 70 05 00 00 00 00 00 00 00 88, and the first bits of its
// block.
static HEADER: [u64; 2] = [0x0570667a, 0x1f_8800_0000];

const HEADER_LEN: u64 = 102;

// The fields of the header one after another, the last one too long: the width and the value, and the place
// behind.
static HEADER_FIELDS: [(u32, Option<u64>, u64); 9] = [
    (24, Some(0x70667a), 24),
    (8, Some(5), 32),
    (2, Some(0), 34),
    (2, Some(0), 36),
    (48, Some(0), 84),
    (12, Some(2176), 96),
    (5, Some(31), 101),
    (0, Some(0), 101),
    (2, None, 101),
];

// Whether the next field is this one, and ends at this place.
fn reads(reader: &mut BitReader<'_>, width: u32, value: Option<u64>, at: u64) -> bool
    requires { width ≤ 64 }
{
    reader.read(width) == value && reader.at() == at
}

// Whether one bit is left, a zero.
fn has_a_last_zero(reader: &mut BitReader<'_>) -> bool {
    reader.left() == 1
        && reader.read_bit() == Some(false)
        && reader.left() == 0
        && reader.read_bit().is_none()
}

fn reads_all(rt: &impl Abort, reader: &mut BitReader<'_>, rows: &[(u32, Option<u64>, u64)]) {
    for (width, value, at) in rows {
        assert!(rt; *width <= 64 && reads(reader, *width, *value, *at));
    }
}

#[test]
fn reads_a_header(rt: HostRuntime) {
    let mut reader = BitReader::new(&HEADER, HEADER_LEN);
    reads_all(&rt, &mut reader, &HEADER_FIELDS);
    assert!(rt; has_a_last_zero(&mut reader));
}

// Whether the bits from place 32 on are the code, as they are looked at and as they are read.
fn looks_ahead(reader: &mut BitReader<'_>) -> bool
    requires { length reader.old.all ≡ 102 }
    ensures { reader.new.all ≡ reader.old.all }
{
    reader.seek(32);
    let ahead = reader.another().read(64);
    let stays = reader.at() == 32 && reader.peek() == 0x8800_0000_0000_0000;
    let read = reader.read(64);
    stays && ahead == Some(0x8800_0000_0000_0000) && read == ahead
}

// Whether the bits from place 95 on are the last ones of the header.
fn goes_back(reader: &mut BitReader<'_>) -> bool
    requires { length reader.old.all ≡ 102 }
{
    reader.seek(0);
    reader.skip(95);
    reader.peek() % 128 == 0x3f
}

#[test]
fn looks_ahead_and_goes_back(rt: HostRuntime) {
    let mut reader = BitReader::new(&HEADER, HEADER_LEN);
    let ahead = looks_ahead(&mut reader);
    assert!(rt; ahead && goes_back(&mut reader));
}

// The first bytes of a stream are 7a 66 70 05: three fields of a header, then a one.
fn writes_a_header(writer: &mut BitWriter) -> Result<bool, AllocError>
    ensures { OnOk result (64 ≤ writer.new.room) }
{
    let empty = writer.is_empty();
    writer.write(0x70667a, 24)?;
    writer.reserve(128)?;
    writer.write_reserved(5, 8);
    writer.write_bit_reserved(true);
    Ok(empty && writer.len() == 33 && writer.words() == [0x1_0570_667a].as_slice())
}

// The fill of the word.
#[tactic(auto, using(zf_spec::proofs::Bytes::fill_short))]
fn fills_the_word(writer: &mut BitWriter) -> bool
    requires { 64 ≤ writer.old.room }
{
    writer.pad_to_word();
    writer.len() == 64 && writer.words() == [0x1_0570_667a].as_slice()
}

// Other bits in place of all.
fn begins_again(writer: &mut BitWriter) -> Result<bool, AllocError> {
    writer.clear();
    let empty = writer.is_empty() && writer.words().is_empty();
    writer.write(2, 2)?;
    Ok(empty && writer.words() == [2].as_slice())
}

fn header_is_written(writer: &mut BitWriter) -> Result<bool, AllocError> {
    let header = writes_a_header(writer)?;
    let whole = fills_the_word(writer);
    Ok(begins_again(writer)? && header && whole)
}

#[test]
fn writes_a_header_and_fills_the_word(rt: HostRuntime) -> Result<(), Fail> {
    let mut writer = BitWriter::new(rt.alloc());
    let written = header_is_written(&mut writer);
    drop(writer);
    assert!(rt; written?);
    Ok(())
}

static OVER_TWO_WORDS: [u64; 2] = [0x8000_0000_0000_0000, 0x4000_0000_0000_0000];

// A field over the end of a word: its lowest bit is the last of the first word.
fn two_words_are_written(writer: &mut BitWriter) -> Result<bool, AllocError> {
    writer.write(0, 63)?;
    writer.write(0x8000_0000_0000_0001, 64)?;
    Ok(writer.len() == 127 && writer.words() == OVER_TWO_WORDS.as_slice())
}

static AROUND_ZEROS: [u64; 3] = [1, 0, 1 << 13];

// Zeros behind a one, up to a place in the third word, and a one behind them.
fn zeros_are_written(writer: &mut BitWriter) -> Result<bool, AllocError> {
    writer.write(1, 1)?;
    writer.reserve(192)?;
    writer.write_zeros_reserved(140);
    writer.write_bit_reserved(true);
    Ok(writer.len() == 142 && writer.words() == AROUND_ZEROS.as_slice())
}

#[test]
fn writes_over_the_ends_of_words(rt: HostRuntime) -> Result<(), Fail> {
    let mut writer = BitWriter::new(rt.alloc());
    let field = two_words_are_written(&mut writer);
    writer.clear();
    let zeros = zeros_are_written(&mut writer);
    drop(writer);
    assert!(rt; field? && zeros?);
    Ok(())
}
