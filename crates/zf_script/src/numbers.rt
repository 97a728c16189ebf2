//! Words that are numbers.

ghost use Rattle.std.specs.Prelude.{◌≡◌, ◌≢◌, ℕ, ℤ, ◌+◌, ◌*◌, ◌^◌, ◌<◌, ◌≤◌, List, [], ◌∷◌, ◌++◌, IfSome, IfNone, IsTrue, codes, decimal};
ghost use Rattle.std.specs.Fmt.{signed_decimal};
ghost use Rattle.std.specs.Char.{digit_value};
ghost use Rattle.std.specs.Option.{SomeIff};
ghost use Rattle.std.specs.Str.Parse.{digits_value};
ghost use Rattle.zf_spec.specs.Grid.{IsDimension};
ghost use Rattle.zf_cached.specs.Grammar.{numbers_text, is_value, has_axes, has_sizes, cut_at, IsNoDigit};
ghost use Rattle.zf_script.specs.NumberWords.{IsAxesWord, IsSizesWord, IsShortNumeral, IsDigitMore};

use zf_base::Pos;

// No other digit stands behind it where it stands first.
const ZERO: u8 = b'0';

/// The number that a word is.
pub(crate) fn number_in(word: &[u8]) -> Option<u64>
    ensures number { IfSome result (λ n. word.now ≡ decimal n) }
    ensures none { IfNone result ((n : ℕ) → n < 2 ^ 64 → word.now ≢ decimal n) }
{
    let first = *word.first()?;
    if word.len() > 1 && first == ZERO {
        return None;
    }
    digits_in(word)
}

// The number that digits say.
fn digits_in(word: &[u8]) -> Option<u64>
    ensures { SomeIff result (IsShortNumeral word.now) (digits_value 10 word.now) }
{
    let mut number = 0;
    for byte in word {
        number = one_digit_more(number, *byte)?;
    }
    Some(number)
}

// The number with one more digit behind it.
fn one_digit_more(number: u64, byte: u8) -> Option<u64>
    ensures { SomeIff result (IsDigitMore number byte) (number * 10 + digit_value byte) }
{
    let digit = char::from(byte).to_digit(10)?;
    number.checked_mul(10)?.checked_add(u64::from(digit))
}

/// The value that a word is: a number, or a minus and a number other than zero.
pub(crate) fn value_in(word: &[u8]) -> Option<i128>
    ensures value { IfSome result (λ v. IsTrue (is_value v) × (word.now ≡ signed_decimal v)) }
    ensures none { IfNone result ((v : ℤ) → IsTrue (is_value v) → word.now ≢ signed_decimal v) }
{
    match word {
        [b'-', digits @ ..] => negative_in(digits),
        _ => Some(i128::from(number_in(word)?)),
    }
}

// The value that digits behind a minus are.
fn negative_in(digits: &[u8]) -> Option<i128>
    ensures value { IfSome result (λ v. IsTrue (is_value v) × (codes "-" ++ digits.now ≡ signed_decimal v)) }
    ensures none { IfNone result ((v : ℤ) → IsTrue (is_value v) → codes "-" ++ digits.now ≢ signed_decimal v) }
{
    match number_in(digits)? {
        0 => None,
        number => Some(-i128::from(number)),
    }
}

/// One to four numbers with this byte between two of them: how many they are, and the numbers, with `unused`
/// along the other axes.
#[inline(always)]
pub(crate) fn sizes_in(byte: u8, unused: u64, word: &[u8]) -> Option<(u8, Pos)>
    requires { IsNoDigit byte }
    ensures sizes { IfSome result (λ r. IsSizesWord byte unused word.now r.0 r.1) }
    ensures none { IfNone result ((ns : List ℕ) → IsTrue (has_sizes ns) → word.now ≢ numbers_text byte ns) }
{
    let mut numbers = [unused; 4];
    let mut rest = word;
    for count in 0..4 {
        let (number, behind) = number_before(byte, rest)?;
        numbers[count] = number;
        let Some(more) = behind else {
            let [x, y, z, w] = numbers;
            return Some((count as u8 + 1, Pos { x, y, z, w }));
        };
        rest = more;
    }
    None
}

// The number before the first such byte and what stands behind that byte; where there is no such byte, the
// number that the whole word is. Each byte is looked at once.
fn number_before(byte: u8, word: &[u8]) -> Option<(u64, Option<&[u8]>)>
    requires { IsNoDigit byte }
    ensures number { IfSome result (λ r. r.0 < 2 ^ 64) }
    ensures last { IfSome result (λ r. IfNone r.1 (cut_at byte word.now ≡ decimal r.0 ∷ [])) }
    ensures first { IfSome result (λ r. IfSome r.1 (λ rest.
        cut_at byte word.now ≡ decimal r.0 ∷ cut_at byte rest.now)) }
    ensures none { IfNone result ((n : ℕ) (rest : List (List ℕ)) → n < 2 ^ 64
        → cut_at byte word.now ≢ decimal n ∷ rest) }
{
    let first = *word.first()?;
    let mut number = one_digit_more(0, first)?;
    for at in 1..word.len() {
        let next = word[at];
        if next == byte {
            return Some((number, Some(&word[at + 1..])));
        }
        if first == ZERO {
            return None;
        }
        number = one_digit_more(number, next)?;
    }
    Some((number, None))
}

/// One number for each axis, with this byte between two of them, and `unused` along the other axes.
#[inline(always)]
pub(crate) fn axes_in(dims: u8, byte: u8, unused: u64, word: &[u8]) -> Option<Pos>
    requires no_digit { IsNoDigit byte }
    requires dimension { IsDimension dims }
    ensures axes { IfSome result (IsAxesWord dims byte unused word.now) }
    ensures none { IfNone result ((ns : List ℕ) → IsTrue (has_axes dims ns) → word.now ≢ numbers_text byte ns) }
{
    let (count, numbers) = sizes_in(byte, unused, word)?;
    if count != dims {
        return None;
    }
    Some(numbers)
}
