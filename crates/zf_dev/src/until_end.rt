//! A source that is not read behind its end.

ghost use Rattle.std.specs.Prelude.{◌≡◌, ℕ, ◌+◌, ◌<◌, ◌≤◌, true, [], length, take, drop, IsTrue, IsOk, IsErr, IfOk, OnOk, OnErr};
ghost use Rattle.std.specs.Coded.{→_prop};
ghost use Rattle.zf_dev.specs.Facts.{IsAtEnd-prop, is_true-prop};
ghost use Rattle.zf_dev.specs.Faults.{HasCause};
ghost use Rattle.zf_dev.specs.Source.{Takes, Gives, IsAtEnd, EndsAt, SeesEnd};

use crate::{Failed, Source};
use std::marker::{Brand, PhantomData};

/// What a call began with, as its types tell: for proofs alone.
pub trait Begun {
    /// How many reads had seen the end.
    ghost ends_seen: { ℕ };
}

impl Begun for Brand {
    ghost ends_seen = { 0 };
}

/// Reads another source, and never behind its end: once a read gave no byte, it answers the end itself.
///
/// So the end of `src` is seen once at most, whoever reads.
#[derive(Drop)]
pub struct UntilEnd<'a, S: Source, K: Begun> {
    pub src: &'a mut S,
    pub ended: bool,
    pub begun: PhantomData<K>,
    pub ghost at_end: { IsTrue ended → IsAtEnd (S.contents src.now) } by { →_prop (IsAtEnd-prop (S.contents src.now)) },
    pub ghost known: { IsTrue ended → S.ended src.now ≡ true } by { →_prop (is_true-prop (S.ended src.now)) },
    pub ghost once: { S.ends_seen src.now ≤ K.ends_seen + 1 },
    pub ghost none: { ¬ IsTrue ended → S.ends_seen src.now ≤ K.ends_seen },
}

impl<'a, S: Source, K: Begun> Source for UntilEnd<'a, S, K> {
    ghost use base.Fml.{GName};

    ghost Kept = { GName × S.Kept };

    ghost contents = { λ u. S.contents u.src.now };

    ghost gave = { λ u. S.gave u.src.now };

    ghost ended = { λ u. S.ended u.src.now };

    ghost is_exact = { λ u. S.is_exact u.src.now };

    ghost faults = { λ u. S.faults u.src.now };

    ghost ends_seen = { λ u. S.ends_seen u.src.now };

    ghost never_fails = { λ u. S.never_fails u.src.now };

    ghost kept = { λ u. (u.src.ghost_name, S.kept u.src.now) };

    fn read(&mut self, buf: &mut [u8]) -> Result<usize, Failed> {
        read_on(&mut *self.src, &mut self.ended, buf)
    }

    fn read_ahead(&mut self) {
        self.src.read_ahead();
    }
}

// Reads a source, unless it is known to be at its end; where it gives no byte, that is known from then on.
fn read_on<S: Source>(src: &mut S, ended: &mut bool, buf: &mut [u8]) -> Result<usize, Failed>
    requires room { 0 < length buf.old }
    requires at_end { IsTrue ended.old → IsAtEnd (S.contents src.old) }
    requires known { IsTrue ended.old → S.ended src.old ≡ true }
    ensures at_end { IsTrue ended.new → IsAtEnd (S.contents src.new) }
    ensures known { IsTrue ended.new → S.ended src.new ≡ true }
    ensures once { (start : ℕ) → SeesEnd (IsTrue ended.old) start (S.ends_seen src.old)
        → SeesEnd (IsTrue ended.new) start (S.ends_seen src.new) }
    ensures bound { IfOk result (λ n. n ≤ length buf.old) }
    ensures taken { IfOk result (λ n. Takes (S.contents src.old) (S.contents src.new) (take n buf.new)) }
    ensures rest { IfOk result (λ n. drop n buf.new ≡ drop n buf.old) }
    ensures end { IfOk result (λ n. EndsAt (S.contents src.old) (S.contents src.new) n) }
    ensures ended { IfOk result (λ n. n ≡ 0 → S.ended src.new ≡ true) }
    ensures untaken { OnErr result (Takes (S.contents src.old) (S.contents src.new) []) }
    ensures gave { IfOk result (λ n. Gives (S.gave src.old) (S.gave src.new) (take n buf.new)) }
    ensures ungiven { OnErr result (Gives (S.gave src.old) (S.gave src.new) []) }
    ensures seen { IfOk result (λ n. SeesEnd (n ≡ 0) (S.ends_seen src.old) (S.ends_seen src.new)) }
    ensures unseen { OnErr result (S.ends_seen src.new ≤ S.ends_seen src.old) }
    ensures still_exact { S.is_exact src.old → S.is_exact src.new }
    ensures unchanged { OnOk result (S.faults src.new ≡ S.faults src.old) }
    ensures same_source { S.kept src.new ≡ S.kept src.old }
    ensures cause { HasCause (IsErr result) (S.faults src.old) (S.faults src.new) }
    ensures sure { S.never_fails src.old → IsOk result × S.never_fails src.new }
{
    if *ended {
        return Ok(0);
    }
    let count = src.read(buf)?;
    if count == 0 {
        *ended = true;
    }
    Ok(count)
}
