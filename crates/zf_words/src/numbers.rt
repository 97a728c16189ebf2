//! Numbers and shapes as words.

ghost use Rattle.std.specs.Prelude.{◌≡◌, ◌≢◌, ℕ, ◌<◌, ◌^◌, List, IfSome, IfNone, decimal};
ghost use Rattle.zf_spec.specs.Grid.{IsShape};
ghost use Rattle.zf_words.specs.Words.{shape_word};

use zf_base::Shape;

/// The number that a word says: `0`, or digits that do not begin with `0`, and no sign. `None`: it says no
/// number below 2^64.
pub fn number_in(word: &str) -> Option<u64>
    ensures number { IfSome result (λ n. word.now ≡ decimal n) }
    ensures none { IfNone result ((n : ℕ) → n < 2 ^ 64 → word.now ≢ decimal n) }
{
    if word.starts_with('+') {
        return None;
    }
    if word.starts_with('0') && word.len() > 1 {
        return None;
    }
    word.parse().ok()
}

/// The shape that a word says: one to four sizes, x first, joined by the letter x. `None`: it says no shape.
pub fn shape_in(word: &str) -> Option<Shape>
    ensures shape { IfSome result (λ shape. IsShape shape × (word.now ≡ shape_word shape)) }
    ensures none { IfNone result ((ns : List ℕ) → IsShape ns → word.now ≢ shape_word ns) }
{
    let mut sizes = [1; 4];
    let mut dims = 0;
    for part in word.split('x') {
        if dims == sizes.len() {
            return None;
        }
        sizes[dims] = number_in(part)?;
        dims += 1;
    }
    let [nx, ny, nz, nw] = sizes;
    Shape::new(dims as u8, nx, ny, nz, nw).ok()
}
