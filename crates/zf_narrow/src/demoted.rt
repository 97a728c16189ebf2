//! A sink of raw narrow values as a sink of raw int32 values, which stand for them.

ghost use Rattle.std.specs.Prelude.{◌≡◌, [], Some, None, IsErr, OnOk};
ghost use Rattle.zf_dev.specs.Faults.{HasCause};
ghost use Rattle.zf_dev.specs.Sink.{Appends};
ghost use Rattle.zf_dev.specs.Logs.{noted};
ghost use Rattle.zf_narrow.specs.Demotions.{taken_so_far};
ghost use Rattle.zf_narrow.specs.Facts.{Appends-prop};

use crate::Narrow;
use crate::begun::Begun;
use crate::demotion::Demotion;
use std::marker::PhantomData;
use zf_dev::{Failed, Sink};

/// Takes int32 bytes, and writes to `out` the narrow bytes that their whole values stand for.
#[derive(Drop)]
pub(crate) struct Demoted<'a, O: Sink, K: Begun> {
    pub(crate) out: &'a mut O,
    pub(crate) demotion: Demotion,
    pub(crate) begun: PhantomData<K>,
    ghost same_type: { demotion.narrow ≡ K.narrow },
    ghost written: { Appends K.start (O.contents out.now) (noted demotion.given) } by { Appends-prop K.start (O.contents out.now) (noted demotion.given) },
}

impl<'a, O: Sink, K: Begun> Demoted<'a, O, K> {
    /// Writes the byte that is owed, where one is.
    pub(crate) fn settle(&mut self) -> Result<(), Failed>
        ensures taken { taken_so_far self.new.demotion ≡ taken_so_far self.old.demotion }
        ensures same_sink { (self.new.out.ghost_name ≡ self.old.out.ghost_name) ×
            (O.kept self.new.out.now ≡ O.kept self.old.out.now) }
        ensures settled { OnOk result (self.new.demotion.owed ≡ None) }
        ensures unchanged { OnOk result (O.faults self.new.out.now ≡ O.faults self.old.out.now) }
        ensures cause { HasCause (IsErr result) (O.faults self.old.out.now) (O.faults self.new.out.now) }
    {
        self.demotion.settle(&mut *self.out)
    }
}

impl<'a, O: Sink, K: Begun> Sink for Demoted<'a, O, K> {
    ghost use base.Fml.{GName};

    ghost Kept = { GName × O.Kept };

    ghost contents = { λ d. Some (taken_so_far d.demotion) };

    ghost faults = { λ d. O.faults d.out.now };

    // What is less than a value is no narrow byte yet, and is held.
    ghost is_flushed = { λ d. (d.demotion.owed ≡ None) × O.is_flushed d.out.now };

    ghost kept = { λ d. (d.out.ghost_name, O.kept d.out.now) };

    fn write(&mut self, bytes: &[u8]) -> Result<usize, Failed> {
        self.demotion.write(&mut *self.out, bytes)
    }

    fn flush(&mut self) -> Result<(), Failed> {
        self.settle()?;
        self.out.flush()
    }
}
