//! How far values were demoted: what is between int32 bytes and a sink of narrow bytes.

ghost use Rattle.std.specs.Prelude.{◌≡◌, ◌%◌, ◌*◌, ◌<◌, ◌≤◌, ◌++◌, [], None, length, take, IsErr, IfOk, OnOk};
ghost use Rattle.std.specs.Prelude.{OnErr};
ghost use Rattle.zf_dev.specs.Devices.{AsksSink};
ghost use Rattle.zf_dev.specs.Logs.{noted};
ghost use Rattle.zf_narrow.specs.RawNarrow.{demoted_bytes};
ghost use Rattle.zf_narrow.specs.Promoting.{listed};

use crate::Narrow;
use crate::log::note;
use crate::raw::{put_demoted, size};
use zf_dev::{Failed, Log, Sink};

// The most narrow bytes that are written at a time.
const PIECE: usize = 4096;

/// What is kept of the int32 bytes that were taken: less than a value of them, and of the narrow bytes the
/// second of a value whose first was written.
#[derive(Drop)]
pub(crate) struct Demotion {
    narrow: Narrow,
    // The first int32 bytes of a value, as many as are held.
    value: [u8; 4],
    held: usize,
    // The second byte of a value of two.
    owed: Option<u8>,
    // The int32 bytes of whole values, and the narrow bytes that were written.
    taken: Log,
    given: Log,
    ghost within: { held ≤ 3 },
    ghost whole: { length (noted taken) % 4 ≡ 0 },
    ghost written: { noted given ++ listed owed ≡ demoted_bytes narrow (noted taken) },
}

impl Demotion {
    ghost use Rattle.zf_narrow.specs.Demotions.{taken_so_far, Gives};

    /// Nothing was taken.
    pub(crate) fn new(narrow: Narrow) -> Demotion
        ensures narrow { result.narrow ≡ narrow }
        ensures taken { taken_so_far result ≡ [] }
        ensures given { noted result.given ≡ [] }
        ensures owed { result.owed ≡ None }
    {
        Demotion {
            narrow,
            value: [0; 4],
            held: 0,
            owed: None,
            taken: Log::new(),
            given: Log::new(),
        }
    }

    /// Takes the first of these int32 bytes, at least one, and says how many, as a sink does.
    pub(crate) fn write<O: Sink>(&mut self, out: &mut O, bytes: &[u8]) -> Result<usize, Failed>
        requires { 0 < length bytes.now }
        ensures some { IfOk result (λ k. 0 < k) }
        ensures bound { IfOk result (λ k. k ≤ length bytes.now) }
        ensures taken { IfOk result (λ k. taken_so_far self.new ≡ taken_so_far self.old ++ take k bytes.now) }
        ensures untaken { OnErr result (taken_so_far self.new ≡ taken_so_far self.old) }
        ensures given { Gives self.old self.new (O.contents out.old) (O.contents out.new) }
        ensures sink { AsksSink O.Sink result out.old out.new }
    {
        self.settle(out)?;
        if self.held == 0 && bytes.len() >= 4 {
            return self.write_values(out, bytes);
        }
        self.write_rest(out, bytes)
    }

    /// Writes the byte that is owed, where one is.
    pub(crate) fn settle<O: Sink>(&mut self, out: &mut O) -> Result<(), Failed>
        ensures held { self.new.held ≡ self.old.held }
        ensures value { self.new.value ≡ self.old.value }
        ensures taken { noted self.new.taken ≡ noted self.old.taken }
        ensures settled { OnOk result (self.new.owed ≡ None) }
        ensures given { Gives self.old self.new (O.contents out.old) (O.contents out.new) }
        ensures sink { AsksSink O.Sink result out.old out.new }
    {
        if let Some(byte) = self.owed {
            let bytes = [byte];
            out.write(&bytes)?;
            note(&mut self.given, &bytes);
            self.owed = None;
        }
        Ok(())
    }

    // Takes bytes of a value behind those that are held, and writes it where it is whole.
    fn write_rest<O: Sink>(&mut self, out: &mut O, bytes: &[u8]) -> Result<usize, Failed>
        requires some { 0 < length bytes.now }
        requires settled { self.old.owed ≡ None }
        ensures some { IfOk result (λ k. 0 < k) }
        ensures bound { IfOk result (λ k. k ≤ length bytes.now) }
        ensures taken { IfOk result (λ k. taken_so_far self.new ≡ taken_so_far self.old ++ take k bytes.now) }
        ensures untaken { OnErr result (taken_so_far self.new ≡ taken_so_far self.old) }
        ensures given { Gives self.old self.new (O.contents out.old) (O.contents out.new) }
        ensures sink { AsksSink O.Sink result out.old out.new }
    {
        let held = self.held;
        let count = (4 - held).min(bytes.len());
        let mut value = self.value;
        value[held..held + count].copy_from_slice(&bytes[..count]);
        if held + count < 4 {
            self.value = value;
            self.held = held + count;
            return Ok(count);
        }
        self.write_values(out, &value)?;
        self.held = 0;
        Ok(count)
    }

    // Takes the first of these whole values, at least one, and says how many bytes they have.
    fn write_values<O: Sink>(&mut self, out: &mut O, raw: &[u8]) -> Result<usize, Failed>
        requires room { 4 ≤ length raw.now }
        requires settled { self.old.owed ≡ None }
        ensures held { self.new.held ≡ self.old.held }
        ensures value { self.new.value ≡ self.old.value }
        ensures some { IfOk result (λ k. 4 ≤ k) }
        ensures bound { IfOk result (λ k. k ≤ length raw.now) }
        ensures taken { IfOk result (λ k. noted self.new.taken ≡ noted self.old.taken ++ take k raw.now) }
        ensures untaken { OnErr result (noted self.new.taken ≡ noted self.old.taken) }
        ensures given { Gives self.old self.new (O.contents out.old) (O.contents out.new) }
        ensures sink { AsksSink O.Sink result out.old out.new }
    {
        let len = size(self.narrow);
        let count = (raw.len() / 4).min(PIECE / 2);
        let mut piece = [0; PIECE];
        put_demoted(
            self.narrow,
            count,
            &raw[..count * 4],
            &mut piece[..count * len],
        );
        let written = out.write(&piece[..count * len])?;
        let values = written.div_ceil(len);
        note(&mut self.given, &piece[..written]);
        self.owed = if written < values * len {
            Some(piece[written])
        } else {
            None
        };
        note(&mut self.taken, &raw[..values * 4]);
        Ok(values * 4)
    }
}
