//! Runs of bits that move between words, up to 64 bits at a time.

ghost use Rattle.std.specs.Prelude.{◌≡◌, ◌+◌, ◌-◌, ◌*◌, ◌^◌, ◌<◌, ◌≤◌, ◌++◌, false, length, take, drop, replicate};
ghost use Rattle.std.specs.Int.{div_ceil};
ghost use Rattle.zf_spec.specs.Numbers.{field, word_bits};

use zf_bits::{get_bits, put_bits};

/// Makes the `len` bits from bit `at` on the first `len` bits of `code`. All other bits stay.
pub(crate) fn put_run(words: &mut [u64], at: u64, code: &[u64], len: u64)
    requires within { at + len ≤ 64 * length words.old }
    requires code { len ≤ 64 * length code.now }
    requires small { at + len < 2 ^ 63 }
    ensures bits { word_bits words.new ≡ take at (word_bits words.old) ++ take len (word_bits code.now)
        ++ drop (at + len) (word_bits words.old) }
    ensures count { length words.new ≡ length words.old }
{
    for i in 0..len.div_ceil(64) {
        let from = 64 * i;
        let n = (len - from).min(64) as u32;
        put_bits(words, at + from, code[i as usize], n);
    }
}

/// Moves the `len` bits from bit `at` on to the front, and fills their last word with zeros. What the words
/// behind it hold is not said.
pub(crate) fn move_to_front(words: &mut [u64], at: u64, len: u64)
    requires behind { 64 ≤ at }
    requires within { at + len ≤ 64 * length words.old }
    requires small { at + len < 2 ^ 63 }
    ensures bits { take (64 * div_ceil len 64) (word_bits words.new)
        ≡ take len (drop at (word_bits words.old)) ++ replicate (64 * div_ceil len 64 - len) false }
    ensures count { length words.new ≡ length words.old }
{
    for i in 0..len.div_ceil(64) {
        let from = 64 * i;
        let n = (len - from).min(64) as u32;
        words[i as usize] = get_bits(words, at + from, n);
    }
}

/// Word `i` of the first `prefix_len` bits of `prefix`, then the first `len` bits of `words`, and then zeros.
pub(crate) fn joined_word(prefix: &[u64], prefix_len: u64, words: &[u64], len: u64, i: u64) -> u64
    requires prefix { prefix_len ≤ 64 * length prefix.now }
    requires words { len ≤ 64 * length words.now }
    requires within { 64 * i ≤ prefix_len + len }
    requires small { prefix_len + len < 2 ^ 63 }
    ensures { field 64 result
        ≡ take 64 (drop (64 * i) (take prefix_len (word_bits prefix.now) ++ take len (word_bits words.now))
        ++ replicate 64 false) }
{
    let at = 64 * i;
    if prefix_len <= at {
        return word_of_run(words, at - prefix_len, len);
    }
    let word = word_of_run(prefix, at, prefix_len);
    if at + 64 <= prefix_len {
        return word;
    }
    let held = (prefix_len - at) as u32;
    let mut joined = [word];
    put_bits(
        &mut joined,
        u64::from(held),
        word_of_run(words, 0, len),
        64 - held,
    );
    joined[0]
}

// The 64 bits from bit `at` on, with zeros from bit `len` on.
fn word_of_run(words: &[u64], at: u64, len: u64) -> u64
    requires within { at ≤ len }
    requires held { len ≤ 64 * length words.now }
    ensures { field 64 result ≡ take 64 (drop at (take len (word_bits words.now)) ++ replicate 64 false) }
{
    get_bits(words, at, (len - at).min(64) as u32)
}
