//! The fields of a cache, and what a touch does to them.
ghost use Rattle.std.specs.Prelude.{◌≡◌, ◌+◌, ◌*◌, ◌-◌, ◌/◌, ◌%◌, ◌^◌, ◌<◌, ◌≤◌, ◌==◌, ℕ, Some, None, length};
ghost use Rattle.std.specs.Prelude.{slice_set, slice_index_or, replicate, IfOk};
ghost use Rattle.zf_base.specs.Formats.{with_at};
ghost use Rattle.zf_cached.specs.State.{risen as risen_count};
ghost use Rattle.zf_cached.specs.Touch.{soiled};
ghost use Rattle.zf_cached.specs.Changes.{flush};
ghost use Rattle.zf_cache.specs.Kept.{line_by, tag_at, clean_tag, dirty_tag, dirty_of, IsClean, IsLineCount};
ghost use Rattle.zf_cache.specs.Kept.{IsAway};
ghost use Rattle.zf_lines.specs.Rows.{line_at};
ghost use Rattle.zf_cache.specs.Standing.{evicted};
ghost use Rattle.zf_cache.specs.Backed.{StepsTo};

use crate::rule::Rule;
use std::alloc::{AllocError, Global};
use zf_base::{Backing, Lane, Reading, Stats};
use zf_lines::Lines;

/// A row of values and a tag for each line, and the counts. A row is written when a block first comes into
/// its line: so a hit tests nothing, and lines that no block has come to take no memory.
///
/// A tag is 0 for an empty line, `2 * b + 2` for the clean block `b`, and `2 * b + 3` for the dirty block
/// `b`. In which line a block is, or goes, is told by a `Rule`.
#[derive(Drop)]
pub struct Body<T> {
    pub lines: Lines<T>,
    pub tags: Vec<u64>,
    pub counts: Stats,
}

/// The dirty block that a tag names.
fn dirty_block(tag: u64) -> Option<u64>
    ensures { result ≡ dirty_of tag }
{
    if tag >= 3 && tag % 2 == 1 {
        Some(tag / 2 - 1)
    } else {
        None
    }
}

/// A count that rises by one; at its most it stays. By a sum, which takes less time here than a saturating sum.
#[inline]
fn risen(count: u64) -> u64
    ensures { result ≡ risen_count count }
{
    count + u64::from(count < u64::MAX)
}

impl<T: Lane> Body<T> {
    ghost use Rattle.zf_cache.specs.Bodies.{AreLines, IsWhole, IsNewBody, IsSound, IsSoundAt, IsTouchedAt};
    ghost use Rattle.zf_cache.specs.Bodies.{kept_of, state_in};
    ghost use Rattle.zf_cache.specs.Steps.{taken_in, touch_in, with_value};

    /// Empty lines of `len` values each, and counts of 0.
    pub fn new(alloc: Global, lines: u32, len: usize) -> Result<Body<T>, AllocError>
        requires count { IsLineCount lines }
        requires size { len ≤ 2 ^ 8 }
        ensures { IfOk result (λ c. IsNewBody c lines len) }
    {
        let tags = Vec::from_elem(alloc, 0u64, lines as usize)?;
        let lines = Lines::new(alloc, lines, len, T::zero())?;
        let counts = Stats {
            hits: 0,
            misses: 0,
            writes: 0,
        };
        Ok(Body {
            lines,
            tags,
            counts,
        })
    }

    /// The lines and tags of another cache in the place of its own; the counts stay.
    pub fn replace(&mut self, other: Body<T>)
        ensures lines { self.new.lines ≡ other.lines }
        ensures tags { self.new.tags.items ≡ other.tags.items }
        ensures counts { self.new.counts ≡ self.old.counts }
        ensures whole { (len : ℕ) → IsWhole other len → IsWhole self.new len }
    {
        let Body {
            lines,
            tags,
            counts: _,
        } = other;
        self.lines = lines;
        self.tags = tags;
    }

    /// Empties all lines; nothing is written.
    pub fn discard(&mut self)
        ensures lines { self.new.lines ≡ self.old.lines }
        ensures tags { self.new.tags.items ≡ replicate (length self.old.tags.items) 0 }
        ensures counts { self.new.counts ≡ self.old.counts }
        ensures whole { (len : ℕ) → IsWhole self.old len → IsWhole self.new len }
    {
        self.tags.fill(0);
    }

    /// Whether block `b` is in its line and dirty.
    pub fn is_dirty<R: Rule>(&self, b: u64) -> bool
        requires { AreLines (length self.now.tags.items) }
        ensures { result
            ≡ (tag_at self.now.tags.items (line_by R.place (kept_of self.now) b) == dirty_tag b) }
    {
        dirty_block(self.tags[self.line_of::<R>(b) as usize]) == Some(b)
    }

    /// The line of block `b`.
    #[inline]
    pub fn line_of<R: Rule>(&self, b: u64) -> u32
        requires { AreLines (length self.now.tags.items) }
        ensures place { result ≡ line_by R.place (kept_of self.now) b }
        ensures inside { result < length self.now.tags.items }
    {
        R::line_for(&self.tags, b)
    }

    /// Writes the block of line `l` back where it is dirty, and empties the line.
    #[cold]
    #[inline(never)]
    pub fn evict<R: Rule, B: Backing<T>>(&mut self, back: &mut B, l: u32)
        requires sound { IsSound R.place T.value self.old (B.format back.old) (B.codes back.old) }
        requires line { l < length self.old.tags.items }
        ensures step { StepsTo B.Reading (state_in R.place T.value) (IsSound R.place T.value)
            (λ f s. evicted f s l) self.old back.old self.new back.new }
        ensures tags { self.new.tags.items ≡ slice_set self.old.tags.items l 0 }
        ensures lines { self.new.lines ≡ self.old.lines }
    {
        if let Some(b) = dirty_block(self.tags[l as usize]) {
            back.store(b, self.lines.line(l));
            self.counts.writes = risen(self.counts.writes);
        }
        self.tags[l as usize] = 0;
    }

    /// Puts block `b`, which is in no line, into line `l`, which is empty and may hold it.
    #[cold]
    #[inline(never)]
    pub fn take_in<R: Rule, B: Reading<T>>(&mut self, back: &mut B, l: u32, b: u64)
        requires sound { IsSound R.place T.value self.old (B.format back.old) (B.codes back.old) }
        requires line { (l < length self.old.tags.items) × R.may_hold (length self.old.tags.items) b l }
        requires empty { tag_at self.old.tags.items l ≡ 0 }
        requires away { IsAway self.old.tags.items b }
        requires block { (b < (B.format back.old).blocks) × ((B.format back.old).blocks ≤ 2 ^ 32) }
        ensures step { StepsTo B.Reading (state_in R.place T.value) (IsSound R.place T.value)
            (λ f s. taken_in s l b) self.old back.old self.new back.new }
        ensures tags { self.new.tags.items ≡ slice_set self.old.tags.items l (clean_tag b) }
        ensures lines { self.new.lines.blocks
            ≡ slice_set self.old.lines.blocks l (line_at self.new.lines.blocks l) }
        ensures written { l < self.new.lines.written }
    {
        self.lines.write_to(l);
        back.load(b, self.lines.line_mut(l));
        self.tags[l as usize] = 2 * b + 2;
        self.counts.misses = risen(self.counts.misses);
    }

    /// Touches block `b`, and gives its line.
    #[inline]
    pub fn touch<R: Rule, B: Backing<T>>(&mut self, back: &mut B, b: u64) -> u32
        requires ready { IsSoundAt R.place T.value self.old (B.format back.old) (B.codes back.old) b }
        ensures step { StepsTo B.Reading (state_in R.place T.value) (IsSound R.place T.value)
            (λ f s. touch_in f s result b) self.old back.old self.new back.new }
        ensures line { IsTouchedAt R.place self.old self.new b result }
    {
        let l = self.line_of::<R>(b);
        if self.tags[l as usize] / 2 == b + 1 {
            self.counts.hits = risen(self.counts.hits);
            return l;
        }
        self.evict::<R, B>(back, l);
        self.take_in::<R, B>(back, l, b);
        l
    }

    /// Touches block `b` for writing, and gives its line.
    #[inline]
    pub fn touch_for_writing<R: Rule, B: Backing<T>>(&mut self, back: &mut B, b: u64) -> u32
        requires ready { IsSoundAt R.place T.value self.old (B.format back.old) (B.codes back.old) b }
        ensures step { StepsTo B.Reading (state_in R.place T.value) (IsSound R.place T.value)
            (λ f s. soiled (touch_in f s result b) b) self.old back.old self.new back.new }
        ensures line { IsTouchedAt R.place self.old self.new b result }
        ensures dirty { tag_at self.new.tags.items result ≡ dirty_tag b }
    {
        let l = self.touch::<R, B>(back, b);
        self.tags[l as usize] = 2 * b + 3;
        l
    }

    /// Touches block `b` where nothing is dirty, so that the backing is only read, and gives its line.
    #[inline]
    pub fn touch_read<R: Rule, B: Reading<T>>(&mut self, back: &mut B, b: u64) -> u32
        requires ready { IsSoundAt R.place T.value self.old (B.format back.old) (B.codes back.old) b }
        requires clean { IsClean (kept_of self.old) }
        ensures step { StepsTo B.Reading (state_in R.place T.value) (IsSound R.place T.value)
            (λ f s. touch_in f s result b) self.old back.old self.new back.new }
        ensures clean { IsClean (kept_of self.new) }
        ensures line { IsTouchedAt R.place self.old self.new b result }
    {
        let l = self.line_of::<R>(b);
        if self.tags[l as usize] / 2 == b + 1 {
            self.counts.hits = risen(self.counts.hits);
            return l;
        }
        self.tags[l as usize] = 0;
        self.take_in::<R, B>(back, l, b);
        l
    }

    /// Touches block `b` for writing, and puts `v` at its place `p`.
    pub fn set<R: Rule, B: Backing<T>>(&mut self, back: &mut B, b: u64, p: usize, v: T)
        requires ready { IsSoundAt R.place T.value self.old (B.format back.old) (B.codes back.old) b }
        requires place { p < (B.format back.old).block_len }
        ensures step { StepsTo B.Reading (state_in R.place T.value) (IsSound R.place T.value)
            (λ f s. with_value f (soiled (touch_in f s (line_by R.place (kept_of self.old) b) b) b) b p
            (T.value v))
            self.old back.old self.new back.new }
    {
        let l = self.touch_for_writing::<R, B>(back, b);
        self.lines.line_mut(l)[p] = v;
    }

    /// Writes every dirty block back, in the order of lines, and empties all lines.
    pub fn flush<R: Rule, B: Backing<T>>(&mut self, back: &mut B)
        requires sound { IsSound R.place T.value self.old (B.format back.old) (B.codes back.old) }
        ensures step { StepsTo B.Reading (state_in R.place T.value) (IsSound R.place T.value)
            (λ f s. flush f s) self.old back.old self.new back.new }
        ensures empty { self.new.tags.items ≡ replicate (length self.old.tags.items) 0 }
    {
        for l in 0..self.tags.len() as u32 {
            self.evict::<R, B>(back, l);
        }
    }
}
