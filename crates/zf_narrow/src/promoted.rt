//! A source of raw narrow values as a source of raw int32 values: those that stand for them.

ghost use Rattle.std.specs.Prelude.{◌≡◌, true, ◌<◌, ◌≤◌, [], length, take, drop, IsTrue, IsOk, IsErr, IfOk, OnOk};
ghost use Rattle.std.specs.Prelude.{OnErr};
ghost use Rattle.std.specs.Coded.{→_prop};
ghost use Rattle.zf_dev.specs.Facts.{IsAtEnd-prop, is_true-prop};
ghost use Rattle.zf_dev.specs.Faults.{HasCause};
ghost use Rattle.zf_dev.specs.Source.{Takes, IsAtEnd, EndsAt};
ghost use Rattle.zf_narrow.specs.Promotions.{exposed, read_so_far, HasGivenOf, is_over};
ghost use Rattle.zf_narrow.specs.Facts.{Takes-prop};

use crate::begun::Begun;
use crate::promotion::Promotion;
use std::marker::PhantomData;
use zf_dev::{Failed, Source, UntilEnd};

/// Gives the int32 bytes of the values that stand for the whole narrow values of `src`, and a zero byte where
/// half a value is left over at its end.
///
/// It reads no value before it gives the first byte of it, and nothing behind the end of `src`, also where
/// the zero byte is still to be given once the end was seen.
#[derive(Drop)]
pub(crate) struct Promoted<'a, S: Source, K: Begun, E: zf_dev::Begun> {
    pub(crate) src: UntilEnd<'a, S, E>,
    pub(crate) promotion: Promotion,
    pub(crate) begun: PhantomData<K>,
    ghost same_type: { promotion.narrow ≡ K.narrow },
    ghost at_end: { IsTrue promotion.spent → IsAtEnd (S.contents src.src.now) } by { →_prop (IsAtEnd-prop (S.contents src.src.now)) },
    ghost known: { IsTrue promotion.spent → S.ended src.src.now ≡ true } by { →_prop (is_true-prop (S.ended src.src.now)) },
    ghost read: { Takes K.start (S.contents src.src.now) (read_so_far promotion) } by { Takes-prop K.start (S.contents src.src.now) (read_so_far promotion) },
}

impl<'a, S: Source, K: Begun, E: zf_dev::Begun> Source for Promoted<'a, S, K, E> {
    ghost use base.Fml.{GName};

    ghost Kept = { GName × S.Kept };

    ghost contents = { λ p. exposed p.promotion (S.contents p.src.src.now) };

    ghost gave = { λ p. HasGivenOf p.promotion K.gave (S.gave p.src.src.now) };

    ghost ended = { λ p. is_over p.promotion (S.ended p.src.src.now) };

    ghost faults = { λ p. S.faults p.src.src.now };

    ghost never_fails = { λ p. S.never_fails p.src.src.now };

    ghost kept = { λ p. (p.src.src.ghost_name, S.kept p.src.src.now) };

    fn read(&mut self, buf: &mut [u8]) -> Result<usize, Failed> {
        self.promotion.read(&mut self.src, buf)
    }

    fn read_ahead(&mut self) {
        self.src.read_ahead();
    }
}
