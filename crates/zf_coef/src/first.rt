//! Planes in which no coefficient but the first has a one, as those of a block of one value.

ghost use Rattle.std.specs.Prelude.{◌≡◌, ◌-◌, ◌*◌, ◌<◌, ◌≤◌, ◌∷◌, length, map, replicate};
ghost use Rattle.zf_spec.specs.Planes.{planes_of};
ghost use Rattle.zf_spec.specs.HeldPlanes.{planes_held};
ghost use Rattle.zf_coef.specs.HeldDigits.{digits_in};

use zf_bits::Plane;

/// Writes these digits as those of the first coefficient and zeros as those of all others, and their planes.
/// There are at most 64 planes.
#[inline(always)]
pub fn planes_of_first<P: Plane>(first: u64, digits: &mut [u64], planes: &mut [P])
    requires some { 0 < length digits.old }
    requires words { length digits.old ≤ 64 * P.word_count }
    requires planes { length planes.old ≤ 64 }
    ensures digits { digits.new ≡ first ∷ replicate (length digits.old - 1) 0 }
    ensures planes { let n = length planes.new in
        planes_held (length digits.new) (map P.words planes.new) ≡ planes_of n (digits_in n digits.new) }
{
    digits.fill(0);
    digits[0] = first;
    for k in 0..planes.len() {
        let mut plane = P::zero();
        plane.set_word(0, (first >> k) % 2);
        planes[k] = plane;
    }
}
