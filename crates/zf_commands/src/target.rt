//! What a script runs on, and what its lines work on.

ghost use Rattle.std.specs.Prelude.{◌≡◌, ◌<◌, ◌≤◌, ◌^◌, ◌+ℤ◌, pos, slice_index_or, None, OnOk, OnErr};
ghost use Rattle.zf_spec.specs.Numbers.{wrap};
ghost use Rattle.zf_spec.specs.Grid.{blocks};
ghost use Rattle.zf_cached.specs.Commands.{Command};
ghost use Rattle.zf_cached.specs.Windows.{LiesIn};
ghost use Rattle.zf_cached.specs.Steps.{total};
ghost use Rattle.zf_commands.specs.Kinds.{asked, IsPlain};
ghost use Rattle.zf_commands.specs.Sittings.{place_in};
ghost use Rattle.zf_window.specs.Bounds.{IsUpTo};
ghost use Rattle.zf_commands.specs.Calls.{IsReady, HasPosition, HasPlace, Leads, StaysReady};
ghost use Rattle.zf_commands.specs.Steps.{said, Takes, Touches, Changes, Fills, Performs};

use crate::subject::Subject;
use std::alloc::AllocError;
use zf_base::{Lane, Pos};
use zf_script::{Cmd, Reply, Stats};
use zf_window::Window;

/// What the lines of a script work on: a whole array, read by touches, and the current window. Whether it can
/// be changed is its own affair.
pub trait Target: Subject {
    /// The current window.
    fn window(&self) -> Window
        ensures { result ≡ (Self.session self.now).window };

    /// Makes another window the current one.
    fn use_window(&mut self, window: Window)
        requires sound { Self.sound self.old }
        requires inside { LiesIn (Self.session self.old).shape window }
        ensures { Leads Self.Subject (λ k s t. record s { window = window } ≡ t) self.old self.new };

    /// The value at place `place` of block `b`, by one touch. It is the place of a position.
    fn value_at(&mut self, b: u64, place: usize) -> i128
        requires { HasPlace Self.Subject b place self.old }
        ensures touched { Leads Self.Subject (λ k s t. Touches k b s t) self.old self.new }
        ensures value { result ≡ slice_index_or ((Self.session self.new).state.values b) place (pos 0) }
        ensures bound { IsUpTo (2 ^ 63) result };

    /// The sum of the values of block `b`, by one touch.
    fn sum_of_block(&mut self, b: u64) -> i128
        requires sound { Self.sound self.old }
        requires block { b < blocks (Self.session self.old).shape }
        ensures touched { Leads Self.Subject (λ k s t. Touches k b s t) self.old self.new }
        ensures sum { result ≡ total ((Self.session self.new).state.values b) }
        ensures bound { IsUpTo (2 ^ 71) result };

    /// Another number of lines. The memory is taken first: after `AllocError` nothing has changed.
    fn use_lines(&mut self, count: u32) -> Result<(), AllocError>
        requires sound { Self.sound self.old }
        requires count { (0 < count) × (count ≤ 2 ^ 16) }
        ensures ok { OnOk result
            (Leads Self.Subject (λ k s t. Performs k (Command.lines count) s t) self.old self.new) }
        ensures err { OnErr result (self.new ≡ self.old) };

    /// The counts of the cache.
    fn counts(&self) -> Stats
        ensures { record { hits = result.hits; misses = result.misses; writes = result.writes }
            ≡ (Self.session self.now).state.counts };

    // It is never split.
    ghost whole: { (a : Self) → (Self.session a).split ≡ None };
}

/// What the lines of a script change, too: an array of values of `T`.
pub trait Changing<T: Lane>: Target {
    /// Makes the value at a position be `v`, by one touch for writing.
    fn put(&mut self, p: Pos, v: T)
        requires { HasPosition Self.Subject p self.old }
        ensures { Leads Self.Subject (λ k s t. Changes k (place_in s p) (λ old. T.value v) s t)
            self.old self.new };

    /// Adds `v` to the value at a position, by one touch for writing. The sum wraps.
    fn increase(&mut self, p: Pos, v: T)
        requires { HasPosition Self.Subject p self.old }
        ensures { Leads Self.Subject
            (λ k s t. Changes k (place_in s p) (λ old. wrap T.width (old +ℤ T.value v)) s t)
            self.old self.new };

    /// Makes all values of block `b` be `v`, by one touch for writing.
    fn fill_block(&mut self, b: u64, v: T)
        requires sound { Self.sound self.old }
        requires block { b < blocks (Self.session self.old).shape }
        ensures { Leads Self.Subject (λ k s t. Fills k b (T.value v) s t) self.old self.new };

    /// Writes back what is dirty, in the order of lines, and empties the cache.
    fn flush_all(&mut self)
        requires sound { Self.sound self.old }
        ensures { Leads Self.Subject (λ k s t. Performs k Command.flush s t) self.old self.new };

    /// Empties the cache, and writes nothing back.
    fn discard_all(&mut self)
        requires sound { Self.sound self.old }
        ensures { Leads Self.Subject (λ k s t. Performs k Command.discard s t) self.old self.new };

    // The values of a setting are those of the type.
    ghost same_width: { (k : Self.Kept) → (Self.setting k).width ≡ T.width };
}

/// What a script runs on: an array, whole or split into private views.
pub trait Scripted: Subject {
    /// Does what a command asks for; its reply, if any. A command that is refused changes nothing.
    fn obey(&mut self, cmd: Cmd) -> Option<Reply>
        requires ready { IsReady Self.Subject self.old }
        requires plain { IsPlain (Self.session self.old) cmd }
        ensures step { Takes (Self.setting (Self.kept self.old)) (Self.session self.old)
            (asked (Self.session self.old) cmd) (Self.session self.new) (said result) }
        ensures stays { StaysReady Self.Subject self.old self.new };
}
