//! The cache.
ghost use Rattle.std.specs.Prelude.{◌≡◌, ℕ, ◌+◌, ◌*◌, ◌^◌, ◌<◌, ◌≤◌, ◌↔◌, pos, length, true};
ghost use Rattle.std.specs.Prelude.{slice_index_or};
ghost use Rattle.std.specs.Prelude.{IsTrue, IfOk, OnOk, OnErr};
ghost use Rattle.std.specs.Bool.{OnTrue};
ghost use Rattle.std.specs.Borrow.{sem};
ghost use Rattle.zf_cached.specs.State.{no_counts};
ghost use Rattle.zf_cached.specs.Touch.{touch_at, touch_for_writing_at};
ghost use Rattle.zf_cached.specs.Changes.{flush, relined};
ghost use Rattle.zf_lines.specs.Rows.{line_at, part};
ghost use Rattle.zf_cache.specs.Kept.{IsLineCount, IsClean, IsDirtyAt, IsEmpty, HasRowAt, HoldsAt, line_by};
ghost use Rattle.zf_cache.specs.Kept.{is_dirty_at};
ghost use Rattle.zf_cache.specs.Standing.{state_at, values_by, FitsAt};
ghost use Rattle.zf_cache.specs.Steps.{put_at};
ghost use Rattle.zf_cache.specs.Backed.{Backed, BackedAt, StepsTo, Shows, KeepsFormat};

use crate::body::Body;
use crate::rule::Rule;
use std::alloc::{AllocError, Global};
use std::marker::{Model, PhantomData};
use zf_base::{Backing, Lane, Reading, Stats, block_len};
use zf_cached::placing::Direct;
use zf_lines::Lines;

/// A cache of blocks of `4^D` values, which stands on a backing that is passed to each call. In which line a
/// block is, or goes, is told by its rule `R`.
///
/// It is seen as the values in its lines, a tag for each of them and three counts. A cache and the backing
/// that it is used with fit: each line that is not empty holds a block that is looked for there, and a clean
/// one has the values that the block's code means. An empty cache fits every backing, and each call leaves
/// the two fitting. Values are stated at the places that exist.
#[derive(Drop)]
pub struct CacheBy<R, T, const D: usize> {
    alloc: Global,
    body: Body<T>,
    rule: PhantomData<R>,
}

/// A cache in which each block has one line, its number modulo the number of lines.
pub type Cache<T, const D: usize> = CacheBy<Direct, T, D>;

impl<R, T, const D: usize> Model for CacheBy<R, T, D> {
    ghost use Rattle.zf_cache.specs.Kept.{Kept, kept_code};

    ghost Value = { Kept T };

    ghost coded = { kept_code T.code };

    ghost use Rattle.std.specs.Prelude.{◌^◌, ◌≤◌};
    ghost use Rattle.zf_cache.specs.Bodies.{IsWhole, kept_of};

    ghost view = { λ c. kept_of c.body };

    ghost invariant = { λ c. IsWhole c.body (4 ^ D) × (D ≤ 4) };
}

impl<R: Rule, T: Lane, const D: usize> CacheBy<R, T, D> {
    ghost use Rattle.zf_cache.specs.Loans.{EndsWithBlock, EndsWithPart, EndsWithValue, EndsTouched, EndsRead};
    ghost use Rattle.zf_cache.specs.Loans.{LendsBlockAt};
    ghost use Rattle.zf_cache.specs.Bodies.{counts_of};

    /// An empty cache of so many lines. `AllocError`: there was no memory for them.
    pub fn new(alloc: Global, lines: u32) -> Result<CacheBy<R, T, D>, AllocError>
        requires dims { D ≤ 4 }
        requires count { IsLineCount lines }
        ensures empty { IfOk result (λ c. IsEmpty c lines) }
        ensures counts { IfOk result (λ c. c.counts ≡ no_counts) }
    {
        let body = Body::new(alloc, lines, block_len(D as u8))?;
        Ok(CacheBy {
            alloc,
            body,
            rule: PhantomData,
        })
    }

    /// Touches block `b`; the value at its place `p`.
    #[inline]
    pub fn get<B: Backing<T>>(&mut self, back: &mut B, b: u64, p: usize) -> T
        requires backed { BackedAt B.Reading (FitsAt R.place T.value) D self.old back.old b }
        requires place { p < 4 ^ D }
        ensures step { StepsTo B.Reading (state_at R.place T.value) (FitsAt R.place T.value)
            (λ f s. touch_at R.line f s b) self.old back.old self.new back.new }
        ensures value { OnTrue ((B.format back.old).exists b p)
            (T.value result ≡ slice_index_or
            (values_by R.place T.value self.new (B.format back.new) (B.codes back.new) b) p
            (pos 0)) }
    {
        let l = self.body.touch::<R, B>(back, b);
        self.body.lines.line(l)[p]
    }

    /// Touches block `b` for writing, and makes the value at its place `p` be `v`; the others stay.
    #[inline]
    pub fn set<B: Backing<T>>(&mut self, back: &mut B, b: u64, p: usize, v: T)
        requires backed { BackedAt B.Reading (FitsAt R.place T.value) D self.old back.old b }
        requires place { p < 4 ^ D }
        ensures step { StepsTo B.Reading (state_at R.place T.value) (FitsAt R.place T.value)
            (λ f s. put_at R.line f s b p (T.value v)) self.old back.old self.new back.new }
    {
        self.body.set::<R, B>(back, b, p, v);
    }

    /// Touches block `b` for writing, so that `part_mut` can lend parts of it.
    #[inline]
    pub fn touch_mut<B: Backing<T>>(&mut self, back: &mut B, b: u64)
        requires backed { BackedAt B.Reading (FitsAt R.place T.value) D self.old back.old b }
        ensures step { StepsTo B.Reading (state_at R.place T.value) (FitsAt R.place T.value)
            (λ f s. touch_for_writing_at R.line f s b) self.old back.old self.new back.new }
        ensures dirty { IsDirtyAt R.place self.new b }
    {
        self.body.touch_for_writing::<R, B>(back, b);
    }

    /// The `n` values of block `b` from its place `a` on, for writing. The block is in its line and dirty.
    #[inline]
    pub fn part_mut(&mut self, b: u64, a: usize, n: usize) -> &mut [T]
        requires dirty { IsDirtyAt R.place self.old b }
        requires within { a + n ≤ 4 ^ D }
        ensures* writes_back { sem 𝓛 (EndsWithPart R.row T.row D.row self.entry R.place b a n result) }
        ensures value { result.now ≡ part (line_at self.old.lines (line_by R.place self.old b)) a n }
        ensures size { HasRowAt R.place self.old b (4 ^ D) }
    {
        let l = self.body.line_of::<R>(b);
        self.body.lines.part_mut(l, a, n)
    }

    /// The value of block `b` at its place `p`, for writing. The block is in its line and dirty.
    #[inline]
    pub fn dirty_value_mut(&mut self, b: u64, p: usize) -> &mut T
        requires dirty { IsDirtyAt R.place self.old b }
        requires place { p < 4 ^ D }
        ensures* writes_back { sem 𝓛 (EndsWithValue R.row T.row D.row self.entry R.place b p result) }
        ensures value { slice_index_or (line_at self.old.lines (line_by R.place self.old b)) p result.now
            ≡ result.now }
        ensures size { HasRowAt R.place self.old b (4 ^ D) }
    {
        let l = self.body.line_of::<R>(b);
        self.body.lines.value_mut(l, p)
    }

    /// Touches block `b`, so that `line` can show it.
    #[inline]
    pub fn touch<B: Backing<T>>(&mut self, back: &mut B, b: u64)
        requires backed { BackedAt B.Reading (FitsAt R.place T.value) D self.old back.old b }
        ensures step { StepsTo B.Reading (state_at R.place T.value) (FitsAt R.place T.value)
            (λ f s. touch_at R.line f s b) self.old back.old self.new back.new }
        ensures here { HoldsAt R.place self.new b }
    {
        self.body.touch::<R, B>(back, b);
    }

    /// The `4^D` values of block `b`, which is in its line.
    #[inline]
    pub fn line(&self, b: u64) -> &[T]
        requires { HoldsAt R.place self.now b }
        ensures value { result.now ≡ line_at self.now.lines (line_by R.place self.now b) }
        ensures size { length result.now ≡ 4 ^ D }
    {
        let l = self.body.line_of::<R>(b);
        self.body.lines.line(l)
    }

    /// Touches block `b`; its `4^D` values.
    #[inline]
    pub fn block<B: Backing<T>>(&mut self, back: &mut B, b: u64) -> &[T]
        requires backed { BackedAt B.Reading (FitsAt R.place T.value) D self.old back.old b }
        ensures* touched { sem 𝓛 (EndsTouched R.row T.row D.row self.entry R.place R.line T.value
            (B.format back.old) (B.codes back.old) (B.codes back.new) b) }
        ensures shows { Shows B.Reading T.value
            (touch_at R.line (B.format back.old)
            (state_at R.place T.value self.old (B.format back.old) (B.codes back.old)) b)
            D b result.now back.old back.new }
    {
        let l = self.body.touch::<R, B>(back, b);
        self.body.lines.line(l)
    }

    /// Touches block `b` for writing; its `4^D` values. What is written to them is the block's value
    /// afterwards.
    #[inline]
    pub fn block_mut<B: Backing<T>>(&mut self, back: &mut B, b: u64) -> &mut [T]
        requires backed { BackedAt B.Reading (FitsAt R.place T.value) D self.old back.old b }
        ensures* writes_back { sem 𝓛 (EndsWithBlock R.row T.row D.row self.entry R.place R.line T.value
            (B.format back.old) (B.codes back.old) b result) }
        ensures loan { LendsBlockAt R.place T.value R.line (B.format back.old) (B.codes back.old)
            (B.codes back.new) self.old b result.now }
        ensures size { length result.now ≡ 4 ^ D }
        ensures keeps { KeepsFormat B.Reading back.old back.new }
    {
        let l = self.body.touch_for_writing::<R, B>(back, b);
        self.body.lines.line_mut(l)
    }

    /// Writes every dirty block back, in the order of lines; then the cache is empty.
    pub fn flush<B: Backing<T>>(&mut self, back: &mut B)
        requires backed { Backed B.Reading (FitsAt R.place T.value) D self.old back.old }
        ensures step { StepsTo B.Reading (state_at R.place T.value) (FitsAt R.place T.value)
            (λ f s. flush f s) self.old back.old self.new back.new }
        ensures empty { IsEmpty self.new (length self.old.tags) }
    {
        self.body.flush::<R, B>(back)
    }

    /// Empties the cache; nothing is written.
    pub fn discard(&mut self)
        ensures empty { IsEmpty self.new (length self.old.tags) }
        ensures counts { self.new.counts ≡ self.old.counts }
    {
        self.body.discard();
    }

    /// A flush, and then this number of lines. The memory is taken first: after `AllocError` nothing has
    /// changed.
    pub fn relined<B: Backing<T>>(&mut self, back: &mut B, lines: u32) -> Result<(), AllocError>
        requires backed { Backed B.Reading (FitsAt R.place T.value) D self.old back.old }
        requires count { IsLineCount lines }
        ensures fits { FitsAt R.place T.value self.new (B.format back.new) (B.codes back.new) }
        ensures ok { OnOk result (state_at R.place T.value self.new (B.format back.new) (B.codes back.new)
            ≡ relined (B.format back.old)
            (state_at R.place T.value self.old (B.format back.old) (B.codes back.old)) lines) }
        ensures empty { OnOk result (IsEmpty self.new lines) }
        ensures err { OnErr result ((self.new ≡ self.old) × (B.codes back.new ≡ B.codes back.old)) }
        ensures keeps { KeepsFormat B.Reading back.old back.new }
    {
        let taken = Body::new(self.alloc, lines, block_len(D as u8))?;
        self.body.flush::<R, B>(back);
        self.body.replace(taken);
        Ok(())
    }

    /// As `get`, over a backing that is only read. Nothing is dirty.
    #[inline]
    pub fn get_read<B: Reading<T>>(&mut self, back: &mut B, b: u64, p: usize) -> T
        requires backed { BackedAt B.Reading (FitsAt R.place T.value) D self.old back.old b }
        requires clean { IsClean self.old }
        requires place { p < 4 ^ D }
        ensures step { StepsTo B.Reading (state_at R.place T.value) (FitsAt R.place T.value)
            (λ f s. touch_at R.line f s b) self.old back.old self.new back.new }
        ensures clean { IsClean self.new }
        ensures value { OnTrue ((B.format back.old).exists b p)
            (T.value result ≡ slice_index_or
            (values_by R.place T.value self.new (B.format back.new) (B.codes back.new) b) p
            (pos 0)) }
    {
        let l = self.body.touch_read::<R, B>(back, b);
        self.body.lines.line(l)[p]
    }

    /// As `touch`, over a backing that is only read. Nothing is dirty.
    #[inline]
    pub fn touch_read<B: Reading<T>>(&mut self, back: &mut B, b: u64)
        requires backed { BackedAt B.Reading (FitsAt R.place T.value) D self.old back.old b }
        requires clean { IsClean self.old }
        ensures step { StepsTo B.Reading (state_at R.place T.value) (FitsAt R.place T.value)
            (λ f s. touch_at R.line f s b) self.old back.old self.new back.new }
        ensures clean { IsClean self.new }
        ensures here { HoldsAt R.place self.new b }
    {
        self.body.touch_read::<R, B>(back, b);
    }

    /// As `block`, over a backing that is only read. Nothing is dirty.
    #[inline]
    pub fn block_read<B: Reading<T>>(&mut self, back: &mut B, b: u64) -> &[T]
        requires backed { BackedAt B.Reading (FitsAt R.place T.value) D self.old back.old b }
        requires clean { IsClean self.old }
        ensures* touched { sem 𝓛 (EndsRead R.row T.row D.row self.entry R.place R.line T.value
            (B.format back.old) (B.codes back.old) (B.codes back.new) b) }
        ensures shows { Shows B.Reading T.value
            (touch_at R.line (B.format back.old)
            (state_at R.place T.value self.old (B.format back.old) (B.codes back.old)) b)
            D b result.now back.old back.new }
    {
        let l = self.body.touch_read::<R, B>(back, b);
        self.body.lines.line(l)
    }

    /// As `relined`, where nothing is dirty: the cache is empty, and its counts go on.
    pub fn relined_read(&mut self, lines: u32) -> Result<(), AllocError>
        requires clean { IsClean self.old }
        requires count { IsLineCount lines }
        ensures ok { OnOk result (IsEmpty self.new lines × (self.new.counts ≡ self.old.counts)) }
        ensures err { OnErr result (self.new ≡ self.old) }
    {
        let body = Body::new(self.alloc, lines, block_len(D as u8))?;
        self.body.replace(body);
        Ok(())
    }

    /// The number of lines.
    pub fn lines(&self) -> u32
        ensures count { result ≡ length self.now.tags }
        ensures bound { (0 < result) × (result ≤ 2 ^ 16) }
    {
        self.body.tags.len() as u32
    }

    /// The counts.
    pub fn stats(&self) -> Stats
        ensures { counts_of result ≡ self.now.counts }
    {
        self.body.counts
    }

    /// Whether block `b` is in its line and dirty.
    pub fn is_dirty(&self, b: u64) -> bool
        ensures { result ≡ is_dirty_at R.place self.now b }
    {
        self.body.is_dirty::<R>(b)
    }
}
