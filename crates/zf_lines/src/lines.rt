//! Blocks of one length in one allocation.
ghost use Rattle.std.specs.Prelude.{◌≡◌, ◌+◌, ◌*◌, ◌-◌, ◌^◌, ◌<◌, ◌≤◌, ◌++◌, length};
ghost use Rattle.std.specs.Prelude.{slice_index_or, Some, None, IfOk};
ghost use Rattle.std.specs.Borrow.{sem};
ghost use Rattle.zf_lines.specs.Rows.{line_at, part};
ghost use Rattle.zf_lines.specs.Seen.{none_written, written_to};
ghost use Rattle.zf_lines.specs.Places.{IsFront, IsFilledTo};

use crate::cells::{Base, Cells, Deed, allocate, deallocate};
use std::alloc::{AllocError, Global};
use std::marker::Model;
use std_alloc::room::may_hold;

/// `lines` blocks of `len` values each, seen as the list of the blocks, with how many of them are written.
///
/// Block `i` lies from the value `i * len` of the allocation on. The first `written` blocks hold values; one
/// behind them is seen as zeros, and takes no memory yet. `write_to` makes it one of the written; only those
/// are lent, so that a loan tests nothing. `zero` is in a box, so that how large the lines are by themselves
/// does not depend on `T`. The allocation is given back when the lines are dropped.
pub struct Lines<T> {
    base: Base<T>,
    lines: u32,
    written: u32,
    len: usize,
    zero: Box<T>,
    cells: Cells<T>,
    deed: Deed<T, Global>,
    alloc: Global,
}

impl<T> Model for Lines<T> {
    ghost use Rattle.zf_lines.specs.Seen.{Seen, seen_code};

    ghost Value = { Seen T };

    ghost coded = { seen_code T.code };

    ghost use Rattle.zf_lines.specs.Filled.{IsFilled};
    ghost use Rattle.zf_lines.specs.Places.{values};
    ghost use Rattle.zf_lines.specs.Rows.{rows};

    ghost view = { λ s. record {
      blocks = rows s.lines s.len (values s.zero.value s.cells.slots);
      written = s.written;
    } };

    ghost invariant = { λ s. IsFilled s.base s.lines s.written s.len s.cells s.deed s.alloc };
}

/// Writes `zero` into the places from `from` on, up to `to`; those before it hold values, and no other does.
fn fill<T: Copy>(cells: &mut Cells<T>, base: Base<T>, from: usize, to: usize, zero: T)
    requires at { base.ptr ≡ cells.old.at }
    requires front { IsFront cells.old.slots from }
    requires within { (from ≤ to) × (to ≤ length cells.old.slots) }
    ensures at { cells.new.at ≡ cells.old.at }
    ensures filled { IsFilledTo zero cells.old.slots cells.new.slots to }
{
    for i in from..to {
        cells.write(base, i, zero);
    }
}

impl<T: Copy> Lines<T> {
    ghost use Rattle.zf_lines.specs.LinesLend.{LendsLine, LendsPart, LendsValue};

    /// `lines` blocks of `len` values, all of them `zero`, and none written. `AllocError`: there was no
    /// memory for them.
    pub fn new(alloc: Global, lines: u32, len: usize, zero: T) -> Result<Lines<T>, AllocError>
        requires count { lines ≤ 2 ^ 16 }
        requires size { len ≤ 2 ^ 8 }
        ensures { IfOk result (λ s. s ≡ none_written lines len zero) }
    {
        let count = lines as usize * len;
        if !may_hold::<T>(count) {
            return Err(AllocError);
        }
        let zero = Box::new(alloc, zero)?;
        let (base, cells, deed) = allocate(&alloc, count)?;
        Ok(Lines {
            base,
            lines,
            written: 0,
            len,
            zero,
            cells,
            deed,
            alloc,
        })
    }

    /// Writes blocks behind those that are written, until block `i` is one of them.
    pub fn write_to(&mut self, i: u32)
        requires { i < length self.old.blocks }
        ensures { self.new ≡ written_to self.old i }
    {
        if i < self.written {
            return;
        }
        let (base, len) = (self.base, self.len);
        let from = self.written as usize * len;
        fill(
            &mut self.cells,
            base,
            from,
            i as usize * len + len,
            *self.zero,
        );
        self.written = i + 1;
    }

    /// Block `i`.
    #[inline]
    pub fn line(&self, i: u32) -> &[T]
        requires { i < self.now.written }
        ensures { result.now ≡ line_at self.now.blocks i }
    {
        self.cells.slice(self.base, i as usize * self.len, self.len)
    }

    /// Block `i` for writing; all others stay.
    #[inline]
    pub fn line_mut(&mut self, i: u32) -> &mut [T]
        requires { i < self.old.written }
        ensures* writes_back { sem 𝓛 (LendsLine T.row self.entry i result) }
        ensures value { result.now ≡ line_at self.old.blocks i }
    {
        let (base, len) = (self.base, self.len);
        self.cells.slice_mut(base, i as usize * len, len)
    }

    /// The `n` values of block `i` from its place `a` on, for writing; all others stay.
    #[inline]
    pub fn part_mut(&mut self, i: u32, a: usize, n: usize) -> &mut [T]
        requires line { i < self.old.written }
        requires within { a + n ≤ length (line_at self.old.blocks i) }
        ensures* writes_back { sem 𝓛 (LendsPart T.row self.entry i a n result) }
        ensures value { result.now ≡ part (line_at self.old.blocks i) a n }
    {
        let (base, len) = (self.base, self.len);
        self.cells.slice_mut(base, i as usize * len + a, n)
    }

    /// The value of block `i` at its place `a`, for writing; all others stay.
    #[inline]
    pub fn value_mut(&mut self, i: u32, a: usize) -> &mut T
        requires line { i < self.old.written }
        requires within { a < length (line_at self.old.blocks i) }
        ensures* writes_back { sem 𝓛 (LendsValue T.row self.entry i a result) }
        ensures value { slice_index_or (line_at self.old.blocks i) a result.now ≡ result.now }
    {
        let (base, len) = (self.base, self.len);
        self.cells.value_mut(base, i as usize * len + a)
    }
}

// Values are made only where `T: Copy`, so none of them has to be dropped by itself.
impl<T: Drop> Drop for Lines<T> {
    fn drop(self) {
        let Lines {
            base,
            lines,
            written: _,
            len,
            zero: _,
            cells,
            deed,
            alloc,
        } = self;
        deallocate(&alloc, base, lines as usize * len, cells, deed);
    }
}
