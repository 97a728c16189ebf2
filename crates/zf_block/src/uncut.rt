//! The code of planes without a budget.

ghost use Rattle.std.specs.Prelude.{◌≡◌, ◌≤◌, ◌+◌, ◌*◌, map, length, take, replicate};
ghost use Rattle.zf_spec.specs.Planes.{planes_of, code};
ghost use Rattle.zf_spec.specs.ReadPlanes.{planes_in};
ghost use Rattle.zf_spec.specs.HeldPlanes.{planes_held};
ghost use Rattle.zf_coef.specs.HeldDigits.{digits_in};
ghost use Rattle.zf_bits.specs.Writer.{Appends};
ghost use Rattle.zf_block.specs.Block.{AreTopZeros};
ghost use Rattle.zf_block.specs.Held.{IsHeldSize, IsWorkRoom};
ghost use Rattle.zf_block.specs.Decoding.{Decodes, HoldsAbove};
ghost use Rattle.zf_block.specs.ReadBlocks.{uncut_len};

use crate::upper::write_upper;
use zf_base::Lane;
use zf_bits::{BitReader, BitWriter, Plane};

/// How many of the top `prec` planes of these digits have no one, as the digits tell at once.
#[inline(always)]
pub(crate) fn zeros_above<T: Lane>(prec: u32, digits: &[u64]) -> u32
    ensures { AreTopZeros result prec (length digits.now) (planes_of T.WIDTH (digits_in T.WIDTH digits.now)) }
{
    zf_coef::zero_planes(digits, T::WIDTH).min(prec)
}

/// Appends the whole code of the top `prec` planes. The top `zeros` planes have no one.
pub(crate) fn write_uncut<P: Plane>(
    zeros: u32,
    prec: u32,
    size: usize,
    planes: &[P],
    out: &mut BitWriter,
)
    requires size { IsHeldSize size P.word_count }
    requires planes { prec ≤ length planes.now }
    requires few { length planes.now ≤ 64 }
    requires fits { size * prec + size ≤ out.old.room }
    requires zeros { AreTopZeros zeros prec size (planes_held size (map P.words planes.now)) }
    ensures { Appends out.old out.new (code (take prec (planes_held size (map P.words planes.now)))) }
{
    zf_planes::write_planes_below(zeros, u64::MAX, prec, size, planes, out);
}

/// Appends the whole code of the top `prec` planes of these digits. Planes that have no one, and those that
/// are not kept, are not turned where few are left. The top `zeros` planes have no one. Digits and planes
/// become anything.
#[inline(always)]
pub(crate) fn write_uncut_digits<T: Lane, P: Plane>(
    zeros: u32,
    prec: u32,
    size: usize,
    digits: &mut [u64],
    planes: &mut [P],
    out: &mut BitWriter,
)
    requires room { IsWorkRoom size P.word_count T.WIDTH digits.old planes.old }
    requires planes { prec ≤ T.WIDTH }
    requires fits { size * prec + size ≤ out.old.room }
    requires zeros { AreTopZeros zeros prec size (planes_of T.WIDTH (digits_in T.WIDTH digits.old)) }
    ensures { Appends out.old out.new (code (take prec (planes_of T.WIDTH (digits_in T.WIDTH digits.old)))) }
{
    if zeros == prec {
        out.write_zeros_reserved(u64::from(prec));
    } else if size > 16 && prec <= zeros + 16 {
        write_upper::<T, P>(zeros, u64::MAX, prec, 16, digits, planes, out);
    } else if T::WIDTH == 64 && prec <= zeros + 32 {
        write_upper::<T, P>(zeros, u64::MAX, prec, 32, digits, planes, out);
    } else {
        zf_coef::planes_of_digits(digits, planes);
        write_uncut(zeros, prec, size, planes, out);
    }
}

/// Appends the whole code of the top `prec` planes of four coefficients, from their digits. The top `zeros`
/// planes have no one.
#[inline(always)]
pub(crate) fn write_uncut_four<T: Lane>(
    zeros: u32,
    prec: u32,
    digits: &[u64; 4],
    out: &mut BitWriter,
)
    requires planes { prec ≤ T.WIDTH }
    requires fits { 4 * prec + 4 ≤ out.old.room }
    requires zeros { AreTopZeros zeros prec 4 (planes_of T.WIDTH (digits_in T.WIDTH digits.now)) }
    ensures { Appends out.old out.new
        (code (take prec (planes_of T.WIDTH (digits_in T.WIDTH digits.now)))) }
{
    zf_planes::write_four(zeros, u64::MAX, prec, T::WIDTH, digits, out);
}

/// Reads the whole code of the top `prec` planes, or answers `None` where the bits end before it does. The
/// planes below are zero.
pub(crate) fn read_uncut<P: Plane>(
    prec: u32,
    size: usize,
    reader: &mut BitReader<'_>,
    planes: &mut [P],
) -> Option<()>
    requires size { IsHeldSize size P.word_count }
    requires planes { prec ≤ length planes.old }
    requires few { length planes.old ≤ 64 }
    requires blank { map P.words planes.old ≡ replicate (length planes.old) (replicate P.word_count 0) }
    ensures { Decodes (uncut_len prec size)
        (HoldsAbove size (planes_in prec size) (planes_held size (map P.words planes.new)))
        result reader.old reader.new }
{
    // Known by this call: the greatest budget is more than what is left.
    let _left = reader.left();
    zf_planes::read_planes(u64::MAX, prec, size, reader, planes)?;
    Some(())
}

/// Reads the whole code of the top `prec` planes of four coefficients, into their digits.
#[inline(always)]
pub(crate) fn read_uncut_four<T: Lane>(
    prec: u32,
    reader: &mut BitReader<'_>,
    digits: &mut [u64; 4],
) -> Option<()>
    requires planes { prec ≤ T.WIDTH }
    ensures { Decodes (uncut_len prec 4)
        (HoldsAbove 4 (planes_in prec 4) (planes_of T.WIDTH (digits_in T.WIDTH digits.new)))
        result reader.old reader.new }
{
    // Known by this call: the greatest budget is more than what is left.
    let _left = reader.left();
    zf_planes::read_four(u64::MAX, prec, T::WIDTH, reader, digits)?;
    Some(())
}
