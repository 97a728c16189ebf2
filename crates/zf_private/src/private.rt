//! A private view.
ghost use Rattle.std.specs.Prelude.{◌≡◌, ℕ, ◌+◌, ◌^◌, ◌<◌, ◌≤◌, ◌↔◌, length, Some, IsTrue, IfOk};
ghost use Rattle.zf_spec.specs.Grid.{IsShape, blocks};
ghost use Rattle.zf_cached.specs.State.{no_counts};
ghost use Rattle.zf_cache.specs.Kept.{IsLineCount, IsEmpty};
ghost use Rattle.zf_cached.specs.Acts.{Act};
ghost use Rattle.zf_cached.specs.Views.{answered};
ghost use Rattle.zf_private.specs.Standing.{Own, block_at, place_at, state, IsSameView, IsWhole};
ghost use Rattle.zf_private.specs.Doing.{SitsOn, SitsOnAt, DoesAct};

use std::alloc::{AllocError, Global};
use std::marker::Model;
use zf_base::{Backing, Lane, Pos, Shape, Stats};
use zf_cache::Cache;

/// A view of an array: a cache of its own over some of the array's blocks, those that it owns.
///
/// The backing is passed to each call, and may stand under other views too. A view reads and writes the codes
/// of its own blocks alone, so what another view does to its blocks changes nothing here, and what is not yet
/// written back here is seen by no other view.
#[derive(Drop)]
pub struct Private<T, const D: usize> {
    cache: Cache<T, D>,
    shape: Shape,
    // the owned blocks
    first: u64,
    count: u64,
}

impl<T, const D: usize> Model for Private<T, D> {
    ghost use Rattle.zf_private.specs.Standing.{Held, held_code, IsWhole};

    ghost Value = { Held T };

    ghost coded = { held_code T.code };

    ghost view = { λ v. record { cache = v.cache; shape = v.shape; first = v.first; count = v.count } };

    ghost invariant = { λ v. IsWhole D
        (record { cache = v.cache; shape = v.shape; first = v.first; count = v.count }) };
}

impl<T: Lane, const D: usize> Private<T, D> {
    ghost use Rattle.zf_cache.specs.Bodies.{counts_of};

    /// An empty view of so many lines, of the `count` blocks from `first` on. `AllocError`: there was no memory
    /// for the lines.
    pub fn new(
        alloc: Global,
        shape: Shape,
        first: u64,
        count: u64,
        lines: u32,
    ) -> Result<Private<T, D>, AllocError>
        requires dims { length shape ≡ D }
        requires some { 1 ≤ count }
        requires inside { first + count ≤ blocks shape }
        requires lines { IsLineCount lines }
        ensures empty { IfOk result (λ v. IsEmpty v.cache lines) }
        ensures counts { IfOk result (λ v. v.cache.counts ≡ no_counts) }
        ensures blocks { IfOk result (λ v. (v.shape ≡ shape) × (v.first ≡ first) × (v.count ≡ count)) }
        ensures whole { IfOk result (IsWhole D) }
    {
        let cache = Cache::new(alloc, lines)?;
        Ok(Private {
            cache,
            shape,
            first,
            count,
        })
    }

    /// Whether block `b` is one of the view's.
    pub fn owns(&self, b: u64) -> bool
        ensures { IsTrue result ↔ Own self.now b }
    {
        b >= self.first && b - self.first < self.count
    }

    /// The view's counts.
    pub fn stats(&self) -> Stats
        ensures { counts_of result ≡ self.now.cache.counts }
    {
        self.cache.stats()
    }

    /// The value at position `p`, by one touch.
    pub fn get<B: Backing<T>>(&mut self, back: &mut B, p: Pos) -> T
        requires sits { SitsOnAt B.Reading T.value self.old back.old p }
        ensures does { DoesAct B.Reading T.value T.width D
            (Act.get (block_at self.old p) (place_at self.old p)) self.old back.old self.new back.new }
        ensures value { Some (T.value result)
            ≡ answered (state T.value self.new (B.format back.new) (B.codes back.new))
            (Act.get (block_at self.old p) (place_at self.old p)) }
    {
        let (b, place) = self.shape.place(p);
        self.cache.get(back, b, place)
    }

    /// Makes the value at position `p` be `v`, by one touch for writing.
    pub fn set<B: Backing<T>>(&mut self, back: &mut B, p: Pos, v: T)
        requires sits { SitsOnAt B.Reading T.value self.old back.old p }
        ensures does { DoesAct B.Reading T.value T.width D
            (Act.set (block_at self.old p) (place_at self.old p) (T.value v))
            self.old back.old self.new back.new }
    {
        let (b, place) = self.shape.place(p);
        self.cache.set(back, b, place, v);
    }

    /// Adds `v` to the value at position `p`, by one touch for writing. The sum wraps.
    pub fn add<B: Backing<T>>(&mut self, back: &mut B, p: Pos, v: T)
        requires sits { SitsOnAt B.Reading T.value self.old back.old p }
        ensures does { DoesAct B.Reading T.value T.width D
            (Act.add (block_at self.old p) (place_at self.old p) (T.value v))
            self.old back.old self.new back.new }
    {
        let (b, place) = self.shape.place(p);
        self.cache.touch_mut(back, b);
        let value = self.cache.dirty_value_mut(b, place);
        *value = value.add(v);
    }

    /// Writes the dirty blocks back, in the order of lines; then the lines are empty.
    pub fn flush<B: Backing<T>>(&mut self, back: &mut B)
        requires sits { SitsOn B.Reading T.value self.old back.old }
        ensures does { DoesAct B.Reading T.value T.width D Act.flush self.old back.old self.new back.new }
        ensures empty { IsEmpty self.new.cache (length self.old.cache.tags) }
    {
        self.cache.flush(back);
    }

    /// Empties the lines; nothing is written.
    pub fn discard(&mut self)
        ensures empty { IsEmpty self.new.cache (length self.old.cache.tags) }
        ensures counts { self.new.cache.counts ≡ self.old.cache.counts }
        ensures same { IsSameView self.old self.new }
        ensures whole { IsWhole D self.new }
    {
        self.cache.discard();
    }
}
