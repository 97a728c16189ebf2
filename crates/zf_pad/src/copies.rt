//! Copies between a list of values and a block.

ghost use Rattle.std.specs.Prelude.{◌≡◌, ◌⊎◌, ◌+◌, ◌<◌, ◌≤◌, ◌*◌, ◌^◌, ◌↔◌, IsTrue, length, map};
ghost use Rattle.zf_spec.specs.Grid.{is_inside, fours};
ghost use Rattle.zf_base.specs.Positions.{axes, used_axes};
ghost use Rattle.zf_pad.specs.Layouts.{place_indices, block_layout, HasWholeRows, IsOneToOne};
ghost use Rattle.zf_pad.specs.Layouts.{CanCopy, CanCopyRuns};
ghost use Rattle.zf_pad.specs.Copies.{IsGathered, IsScattered, IsCopied, IsRunCopied};

use crate::layout::Layout;
use crate::padding::is_whole;
use zf_base::{Extent, Lane, Pos, block_len};

/// Copies the values at the positions of the extent `e`, which stand where `layout` puts them, into a block
/// of `d` dimensions.
///
/// Each position of `e` has its place in `values`. `block` has `4^d` values, x fastest; those at places that
/// do not exist stay.
#[tactic(auto, using(crate::proofs::Copying::gathered))]
pub fn gather<T: Lane>(layout: &Layout, e: &Extent, d: u8, values: &[T], block: &mut [T])
    requires fits { CanCopy layout.now e.now d (length values.now) (length block.old) }
    ensures { IsGathered layout.now e.now
        (map T.value values.now) (map T.value block.old) (map T.value block.new) }
{
    let from = layout.counted_from(&e.origin);
    let to = places();
    if !has_whole_rows(layout, e) {
        copy(e, d, 1, &from, values, &to, block);
    } else if d > 1 && is_whole(&e.size, d) {
        gather_whole(&from, e, d, values, block);
    } else {
        copy(e, d, 4, &from, values, &to, block);
    }
}

/// Copies the values of a block of `d` dimensions to where `layout` puts the positions of the extent `e`.
///
/// Each position of `e` has its place in `values`, and no two have the same. `block` has `4^d` values, x
/// fastest; those at places that do not exist are not looked at.
#[tactic(auto, using(crate::proofs::Copying::scattered))]
pub fn scatter<T: Lane>(layout: &Layout, e: &Extent, d: u8, block: &[T], values: &mut [T])
    requires fits { CanCopy layout.now e.now d (length values.old) (length block.now) }
    requires one_to_one { IsOneToOne layout.now e.now }
    ensures { IsScattered layout.now e.now
        (map T.value block.now) (map T.value values.old) (map T.value values.new) }
{
    let from = places();
    let to = layout.counted_from(&e.origin);
    if has_whole_rows(layout, e) {
        copy(e, d, 4, &from, block, &to, values);
    } else {
        copy(e, d, 1, &from, block, &to, values);
    }
}

// Whether the extent has whole rows, whose values stand beside one another.
fn has_whole_rows(layout: &Layout, e: &Extent) -> bool
    ensures { IsTrue result ↔ HasWholeRows layout.now e.now }
{
    layout.step.x == 1 && e.size.x == 4
}

// The layout of a block, by the indices of its places.
#[inline(always)]
#[tactic(auto, unfolding(crate::specs::Layouts::block_layout))]
fn places() -> Layout
    ensures { result ≡ block_layout }
{
    Layout {
        start: 0,
        step: Pos {
            x: 1,
            y: 4,
            z: 16,
            w: 64,
        },
    }
}

// Copies what is at the places of an extent, by their indices, `len` at a time: one, or a row of four.
#[inline(always)]
fn copy<T: Lane>(
    e: &Extent,
    d: u8,
    len: usize,
    from: &Layout,
    source: &[T],
    to: &Layout,
    target: &mut [T],
)
    requires { CanCopyRuns e.now d len from.now (length source.now) to.now (length target.old) }
    ensures { IsCopied e.now from.now to.now
        (map T.value source.now) (map T.value target.old) (map T.value target.new) }
{
    for run in 0..block_len(d) / len {
        let at = indices(len * run);
        if is_inside(&e.size, &at) {
            let there = from.index(&at) as usize;
            copy_run(len, source, there, target, to.index(&at) as usize);
        }
    }
}

// Gathers a whole block of more than one dimension.
fn gather_whole<T: Lane>(from: &Layout, e: &Extent, d: u8, values: &[T], block: &mut [T])
    requires more { 1 < d }
    requires all { used_axes d e.now.size ≡ fours d }
    requires fits { CanCopyRuns e.now d 4 from.now (length values.now) block_layout (length block.old) }
    ensures { IsCopied e.now from.now block_layout
        (map T.value values.now) (map T.value block.old) (map T.value block.new) }
{
    // A number of slices that is known needs no loop where it is small.
    match d {
        2 => gather_slices(from, e, d, 1, values, block),
        3 => gather_slices(from, e, d, 4, values, block),
        _ => gather_slices(from, e, d, 16, values, block),
    }
}

// Gathers so many slices of four rows, in which each row begins as far behind the one before.
#[inline(always)]
fn gather_slices<T: Lane>(
    from: &Layout,
    e: &Extent,
    d: u8,
    slices: usize,
    values: &[T],
    block: &mut [T],
)
    requires slices { 16 * slices ≡ 4 ^ d }
    requires few { slices ≤ 16 }
    requires all { used_axes d e.now.size ≡ fours d }
    requires fits { CanCopyRuns e.now d 4 from.now (length values.now) block_layout (length block.old) }
    ensures { IsCopied e.now from.now block_layout
        (map T.value values.now) (map T.value block.old) (map T.value block.new) }
{
    let step = from.step.y as usize;
    for slice in 0..slices {
        let first = from.index(&indices(4 * (4 * slice))) as usize;
        for y in 0..4 {
            copy_run(4, values, first + y * step, block, 4 * (4 * slice + y));
        }
    }
}

// Copies the values from `from` on, one or four, to the places from `to` on, in one step, as none is written
// before all are read.
#[inline(always)]
fn copy_run<T: Lane>(len: usize, source: &[T], from: usize, target: &mut [T], to: usize)
    requires len { (len ≡ 1) ⊎ (len ≡ 4) }
    requires there { from + len ≤ length source.now }
    requires room { to + len ≤ length target.old }
    ensures { IsRunCopied len from to
        (map T.value source.now) (map T.value target.old) (map T.value target.new) }
{
    if len == 1 {
        target[to] = source[from];
        return;
    }
    let a = source[from];
    let b = source[from + 1];
    let c = source[from + 2];
    let d = source[from + 3];
    target[to] = a;
    target[to + 1] = b;
    target[to + 2] = c;
    target[to + 3] = d;
}

// The indices of a place along the axes.
#[tactic(auto, unfolding(crate::specs::Layouts::place_indices))]
fn indices(place: usize) -> Pos
    ensures { result ≡ place_indices place }
{
    let place = place as u64;
    Pos {
        x: place % 4,
        y: place / 4 % 4,
        z: place / 16 % 4,
        w: place / 64 % 4,
    }
}

// Whether a position lies in a box of these sizes.
fn is_inside(size: &Pos, at: &Pos) -> bool
    ensures { result ≡ is_inside (axes size.now) (axes at.now) }
{
    at.x < size.x && at.y < size.y && at.z < size.z && at.w < size.w
}
