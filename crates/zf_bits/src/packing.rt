//! Bytes as words of 64, and words as bytes.
ghost use Rattle.std.specs.Prelude.{◌≡◌, ◌+◌, ◌-◌, ◌*◌, ◌%◌, ◌^◌, ◌<◌, ◌≤◌, ◌++◌, length, take, drop, vec_len, IfOk};
ghost use Rattle.std.specs.Int.{div_ceil};
ghost use Rattle.zf_spec.specs.Numbers.{field, word_bits};
ghost use Rattle.zf_spec.specs.Stream.{with_fill, to_bits, to_bytes};
ghost use Rattle.zf_bits.specs.Packing.{word_of, words_from, words_of};

use std::alloc::{AllocError, Global};

/// The words that hold these bytes, the least significant byte of each word first. The last word is filled
/// with zeros.
///
/// Bit i of the words is then bit `i % 8` of byte `i / 8` (zfp 1.0 documentation). `AllocError`: there was no
/// memory.
pub fn words_of_bytes(alloc: Global, bytes: &[u8]) -> Result<Vec<u64>, AllocError>
    ensures len { IfOk result (λ words. vec_len words ≡ div_ceil (length bytes.now) 8) }
    ensures words { IfOk result (λ words. words.items ≡ words_of bytes.now) }
    ensures bits { IfOk result (λ words. word_bits words.items ≡ with_fill (to_bits bytes.now)) }
{
    let mut words = Vec::with_capacity(alloc, bytes.len().div_ceil(8))?;
    for piece in bytes.chunks(8) {
        words.push(word_of_bytes(piece))?;
    }
    Ok(words)
}

/// The word of at most 8 bytes, the least significant first. Where there are fewer, the others are zeros.
#[inline]
pub fn word_of_bytes(bytes: &[u8]) -> u64
    requires { length bytes.now ≤ 8 }
    ensures { result ≡ word_of bytes.now }
{
    let mut all = [0; 8];
    all[..bytes.len()].copy_from_slice(bytes);
    u64::from_le_bytes(all)
}

/// The word of the 8 bytes from byte `at` on, the least significant first.
#[inline]
pub fn word_of_bytes_at(bytes: &[u8], at: usize) -> u64
    requires { at + 8 ≤ length bytes.now }
    ensures { field 64 result ≡ take 64 (drop (8 * at) (to_bits bytes.now)) }
{
    let b = &bytes[at..at + 8];
    u64::from_le_bytes([b[0], b[1], b[2], b[3], b[4], b[5], b[6], b[7]])
}

/// Puts the bits of a file into words, from the word on in which bit `at` lies, as many as there is room for;
/// how many there are.
pub(crate) fn take_words(file: &[u8], at: u64, words: &mut [u64]) -> u64
    requires within { at ≤ 8 * length file.now }
    requires some { 1 ≤ length words.old }
    requires few { 64 * length words.old < 2 ^ 64 }
    ensures seen { drop (at % 64) (take result (word_bits words.new))
        ≡ take (64 * length words.old - at % 64) (drop at (to_bits file.now)) }
    ensures within { result ≤ 64 * length words.new }
    ensures place { at % 64 ≤ result }
    ensures len { length words.new ≡ length words.old }
{
    let first = 8 * (at / 64) as usize;
    let count = (file.len() - first).min(8 * words.len());
    put_words_at(&file[first..first + count], words, 0);
    8 * count as u64
}

/// Makes words of bytes, from word `at` on: the bits of the bytes come behind those of the words before.
pub fn put_words_at(bytes: &[u8], words: &mut [u64], at: usize)
    requires { 8 * at + length bytes.now ≤ 8 * length words.old }
    ensures bits { take (64 * at + 8 * length bytes.now) (word_bits words.new)
        ≡ take (64 * at) (word_bits words.old) ++ to_bits bytes.now }
    ensures len { length words.new ≡ length words.old }
{
    put_words(bytes, &mut words[at..at + bytes.len().div_ceil(8)]);
}

// The same of just as many words as hold the bytes. A last word of fewer bytes is filled with zeros.
fn put_words(bytes: &[u8], words: &mut [u64])
    requires enough { length bytes.now ≤ 8 * length words.old }
    requires no_more { 8 * length words.old < length bytes.now + 8 }
    ensures { words.new ≡ words_from (length words.old) bytes.now }
{
    let whole = bytes.len() / 8;
    for i in 0..whole {
        words[i] = word_of_bytes(&bytes[8 * i..8 * i + 8]);
    }
    if whole < words.len() {
        words[whole] = word_of_bytes(&bytes[8 * whole..]);
    }
}

/// The bytes of words, the least significant byte of each word first. `AllocError`: there was no memory.
pub fn bytes_of_words(alloc: Global, words: &[u64]) -> Result<Vec<u8>, AllocError>
    ensures { IfOk result (λ bytes. bytes.items ≡ to_bytes (word_bits words.now)) }
{
    let mut bytes = Vec::with_capacity(alloc, 8 * words.len())?;
    for word in words {
        bytes.extend_from_slice(&word.to_le_bytes())?;
    }
    Ok(bytes)
}
