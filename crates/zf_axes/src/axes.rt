//! Passes along the axes of a block.

ghost use Rattle.std.specs.Prelude.{◌≡◌, ◌*◌, ◌%◌, ◌^◌, ◌<◌, map, length};
ghost use Rattle.zf_spec.specs.Lift.{along, along_axes, along_axes_back};
ghost use Rattle.zf_axes.specs.Lines.{AreLines};

use crate::line::{LineMap, map_line};
use zf_base::Lane;

/// Maps each line along one axis, whose neighbours are `step` places apart.
///
/// That is `4^k` for axis `k`, counted from 0 for x. `step` is not 0, and the block is a whole number of
/// `4 * step` values.
pub fn pass<T: Lane, M: LineMap<T>>(line_map: &M, step: usize, block: &mut [T])
    requires step { 0 < step }
    requires whole { length block.old % (4 * step) ≡ 0 }
    ensures { map T.value block.new ≡ along (M.line line_map.now) step (map T.value block.old) }
{
    pass_by(line_map, step, block.len(), block);
}

// Passes over the lines, compiled anew for each step and length that is a constant.
#[inline(always)]
fn pass_by<T: Lane, M: LineMap<T>>(line_map: &M, step: usize, len: usize, block: &mut [T])
    requires lines { AreLines step len block.old }
    ensures { map T.value block.new ≡ along (M.line line_map.now) step (map T.value block.old) }
{
    // The block is made of groups of `4 * step` values, and the lines of a group begin at its first `step`
    // places.
    for group in 0..len / step / 4 {
        let first = 4 * step * group;
        for start in first..first + step {
            map_line(line_map, start, step, block);
        }
    }
}

/// A pass along each axis of a block of `d` dimensions, along x first.
#[inline(always)]
pub fn passes<T: Lane, M: LineMap<T>>(line_map: &M, d: u8, block: &mut [T])
    requires { length block.old ≡ 4 ^ d }
    ensures { map T.value block.new ≡ along_axes (M.line line_map.now) 1 d (map T.value block.old) }
{
    // Where the step and the length are constants, the compiler makes lanes of the lines beside one another,
    // and needs no loop for few lines.
    match d {
        1 => pass_by(line_map, 1, 4, block),
        2 => {
            pass_by(line_map, 1, 16, block);
            pass_by(line_map, 4, 16, block);
        }
        3 => {
            pass_by(line_map, 1, 64, block);
            pass_by(line_map, 4, 64, block);
            pass_by(line_map, 16, 64, block);
        }
        4 => {
            pass_by(line_map, 1, 256, block);
            pass_by(line_map, 4, 256, block);
            pass_by(line_map, 16, 256, block);
            pass_by(line_map, 64, 256, block);
        }
        _ => passes_any(line_map, d, block),
    }
}

// Passes along the axes of any number of dimensions, which no block has but those of one to four.
#[cold]
#[inline(never)]
fn passes_any<T: Lane, M: LineMap<T>>(line_map: &M, d: u8, block: &mut [T])
    requires { length block.old ≡ 4 ^ d }
    ensures { map T.value block.new ≡ along_axes (M.line line_map.now) 1 d (map T.value block.old) }
{
    for axis in 0..d {
        pass(line_map, step_along(axis), block);
    }
}

/// A pass along each axis of a block of `d` dimensions, along x last.
#[inline(always)]
pub fn passes_back<T: Lane, M: LineMap<T>>(map_back: &M, d: u8, block: &mut [T])
    requires { length block.old ≡ 4 ^ d }
    ensures { map T.value block.new ≡ along_axes_back (M.line map_back.now) 1 d (map T.value block.old) }
{
    match d {
        1 => pass_by(map_back, 1, 4, block),
        2 => {
            pass_by(map_back, 4, 16, block);
            pass_by(map_back, 1, 16, block);
        }
        3 => {
            pass_by(map_back, 16, 64, block);
            pass_by(map_back, 4, 64, block);
            pass_by(map_back, 1, 64, block);
        }
        4 => {
            pass_by(map_back, 64, 256, block);
            pass_by(map_back, 16, 256, block);
            pass_by(map_back, 4, 256, block);
            pass_by(map_back, 1, 256, block);
        }
        _ => passes_back_any(map_back, d, block),
    }
}

// Passes back along the axes of any number of dimensions, which no block has but those of one to four.
#[cold]
#[inline(never)]
fn passes_back_any<T: Lane, M: LineMap<T>>(line_map: &M, d: u8, block: &mut [T])
    requires { length block.old ≡ 4 ^ d }
    ensures { map T.value block.new ≡ along_axes_back (M.line line_map.now) 1 d (map T.value block.old) }
{
    for axis in (0..d).rev() {
        pass(line_map, step_along(axis), block);
    }
}

/// How many places apart neighbours along an axis are, counted from 0 for x.
fn step_along(axis: u8) -> usize
    requires { 4 ^ axis < 2 ^ 64 }
    ensures { result ≡ 4 ^ axis }
{
    4usize.pow(u32::from(axis))
}
