//! A sink over bytes that are lent.

ghost use Rattle.std.specs.Prelude.{◌≡◌, ℕ, ◌<◌, ◌≤◌, ◌-◌, ◌^◌, ◌++◌, List, [], Some, length, take, drop, min, IfOk};
ghost use Rattle.zf_dev.specs.Logs.{noted};
ghost use Rattle.zf_lent.specs.Over.{over};

use zf_dev::{Failed, Log, Sink};

/// Writes into bytes that are lent, from the first one on. It never fails: what there is no room for is
/// counted, and lost.
#[derive(Drop)]
pub(crate) struct SliceSink<'a> {
    room: &'a mut [u8],
    /// How many bytes were written. It stands still at the last value of a `u64`.
    pub(crate) len: u64,
    before: Log,
    written: Log,
    ghost count: { len ≡ min (length (noted written)) (2 ^ 64 - 1) },
    ghost lies: { room.now ≡ over (noted written) (noted before) },
}

impl<'a> SliceSink<'a> {
    /// Writes into these. That they are as they were is noted, for proofs alone.
    pub(crate) fn new(room: &'a mut [u8]) -> SliceSink<'a>
        ensures before { noted result.before ≡ room.old }
        ensures written { noted result.written ≡ [] }
        ensures same { result.room.ghost_name ≡ room.entry.ghost_name }
    {
        let mut before = Log::new();
        before.note(&[], room);
        SliceSink {
            room,
            len: 0,
            before,
            written: Log::new(),
        }
    }
}

impl<'a> Sink for SliceSink<'a> {
    ghost use base.Fml.{GName};

    ghost Kept = { GName × List ℕ };

    ghost contents = { λ s. Some (noted s.written) };

    ghost faults = { λ _. 0 };

    ghost kept = { λ s. (s.room.ghost_name, noted s.before) };

    fn write(&mut self, bytes: &[u8]) -> Result<usize, Failed> {
        let at = self.len.min(self.room.len() as u64) as usize;
        let count = bytes.len().min(self.room.len() - at);
        self.room[at..at + count].copy_from_slice(&bytes[..count]);
        self.len = self.len.saturating_add(bytes.len() as u64);
        self.written.note(&[], bytes);
        Ok(bytes.len())
    }

    fn flush(&mut self) -> Result<(), Failed> {
        Ok(())
    }
}
