//! How far values were promoted: what is between a source of narrow bytes and its int32 bytes.

ghost use Rattle.std.specs.Prelude.{◌≡◌, true, ◌+◌, ◌-◌, ◌%◌, ◌<◌, ◌≤◌, ◌++◌, ◌↔◌, [], length, take, drop};
ghost use Rattle.std.specs.Prelude.{replicate, IsTrue, IsOk, IsErr, IfOk, OnOk, OnErr};
ghost use Rattle.zf_dev.specs.Devices.{AsksSource};
ghost use Rattle.zf_dev.specs.Source.{Takes, Gives, IsAtEnd};
ghost use Rattle.zf_dev.specs.Logs.{noted};
ghost use Rattle.zf_narrow.specs.Values.{size_of};
ghost use Rattle.zf_narrow.specs.Promoting.{listed};

use crate::Narrow;
use crate::log::note;
use crate::raw::{put_promoted, size};
use crate::taking::take_values;
use zf_dev::{Failed, Log, Source};

// The most narrow bytes that are read at a time.
const PIECE: usize = 4096;

/// What is kept of the narrow bytes that were read: less than a value of them, and less than a value of the
/// int32 bytes.
#[derive(Drop)]
pub(crate) struct Promotion {
    narrow: Narrow,
    // The int32 bytes of a value, of which those from `at` on are still to be given.
    value: [u8; 4],
    at: usize,
    // The first byte of a value of two.
    half: Option<u8>,
    // The source is at its end, and the zero byte for half a value was given.
    spent: bool,
    // The narrow bytes of whole values that were read.
    taken: Log,
    ghost some_given: { 1 ≤ at },
    ghost within: { at ≤ 4 },
    ghost all_given: { IsTrue spent → at ≡ 4 },
    ghost few: { length (listed half) < size_of narrow },
    ghost whole: { length (noted taken) % size_of narrow ≡ 0 },
}

impl Promotion {
    ghost use Rattle.zf_narrow.specs.Promotions.{exposed, is_over, IsIdle, Logs, TakesRaw, GivesRaw, GivesHalf};

    /// Nothing was read.
    pub(crate) fn new(narrow: Narrow) -> Promotion
        ensures narrow { result.narrow ≡ narrow }
        ensures at { result.at ≡ 4 }
        ensures half { listed result.half ≡ [] }
        ensures spent { ¬ IsTrue result.spent }
        ensures taken { noted result.taken ≡ [] }
    {
        Promotion {
            narrow,
            value: [0; 4],
            at: 4,
            half: None,
            spent: false,
            taken: Log::new(),
        }
    }

    /// How many int32 bytes of a value are still to be given: less than a value.
    pub(crate) fn pending(&self) -> usize
        ensures count { result + self.now.at ≡ 4 }
        ensures value { length self.now.value ≡ 4 }
    {
        4 - self.at
    }

    /// Reads some of the next int32 bytes into the start of `buf`, and says how many, as a source does.
    pub(crate) fn read<S: Source>(&mut self, src: &mut S, buf: &mut [u8]) -> Result<usize, Failed>
        requires room { 0 < length buf.old }
        requires at_end { IsTrue self.old.spent → IsAtEnd (S.contents src.old) }
        requires known { IsTrue self.old.spent → S.ended src.old ≡ true }
        ensures bound { IfOk result (λ k. k ≤ length buf.old) }
        ensures given { IfOk result (λ k. GivesRaw self.old self.new (S.contents src.old) (S.contents src.new)
            (take k buf.new)) }
        ensures rest { IfOk result (λ k. drop k buf.new ≡ drop k buf.old) }
        ensures end { IfOk result (λ k. k ≡ 0 → IsAtEnd (exposed self.new (S.contents src.new))) }
        ensures ungiven { OnErr result (GivesRaw self.old self.new (S.contents src.old) (S.contents src.new)
            []) }
        ensures taken { Logs self.old self.new (S.contents src.old) (S.contents src.new)
            (Gives (S.gave src.old) (S.gave src.new)) }
        ensures over { IfOk result (λ k. k ≡ 0 → is_over self.new (S.ended src.new) ≡ true) }
        ensures at_end { IsTrue self.new.spent → IsAtEnd (S.contents src.new) }
        ensures known { IsTrue self.new.spent → S.ended src.new ≡ true }
        ensures source { AsksSource S.Source result src.old src.new }
    {
        if self.at < 4 {
            return Ok(give(&self.value, &mut self.at, buf));
        }
        if self.spent {
            return Ok(0);
        }
        if buf.len() < 4 {
            return self.read_one(src, buf);
        }
        let count = self.read_values(src, buf)?;
        if count == 0 {
            return Ok(self.give_half(buf));
        }
        Ok(count)
    }

    // Reads one value, and gives the first of its bytes.
    fn read_one<S: Source>(&mut self, src: &mut S, buf: &mut [u8]) -> Result<usize, Failed>
        requires room { 0 < length buf.old }
        requires idle { IsIdle self.old }
        ensures bound { IfOk result (λ k. k ≤ length buf.old) }
        ensures given { IfOk result (λ k. GivesRaw self.old self.new (S.contents src.old) (S.contents src.new)
            (take k buf.new)) }
        ensures rest { IfOk result (λ k. drop k buf.new ≡ drop k buf.old) }
        ensures end { IfOk result (λ k. k ≡ 0 → IsAtEnd (exposed self.new (S.contents src.new))) }
        ensures ungiven { OnErr result (GivesRaw self.old self.new (S.contents src.old) (S.contents src.new)
            []) }
        ensures taken { Logs self.old self.new (S.contents src.old) (S.contents src.new)
            (Gives (S.gave src.old) (S.gave src.new)) }
        ensures over { IfOk result (λ k. k ≡ 0 → is_over self.new (S.ended src.new) ≡ true) }
        ensures at_end { IsTrue self.new.spent → IsAtEnd (S.contents src.new) }
        ensures known { IsTrue self.new.spent → S.ended src.new ≡ true }
        ensures source { AsksSource S.Source result src.old src.new }
    {
        let mut value = [0; 4];
        let count = self.read_values(src, &mut value)?;
        if count == 0 {
            return Ok(self.give_half(buf));
        }
        let mut at = 0;
        let given = give(&value, &mut at, buf);
        self.value = value;
        self.at = at;
        Ok(given)
    }

    // Reads the int32 bytes of as many whole values as come at once, at least one, and says how many: none at
    // the end.
    fn read_values<S: Source>(&mut self, src: &mut S, buf: &mut [u8]) -> Result<usize, Failed>
        requires room { 4 ≤ length buf.old }
        requires idle { IsIdle self.old }
        ensures bound { IfOk result (λ k. k ≤ length buf.old) }
        ensures some { IfOk result (λ k. 0 < k → 4 ≤ k) }
        ensures values { IfOk result (λ k. TakesRaw self.old self.new (S.contents src.old)
            (S.contents src.new) (Gives (S.gave src.old) (S.gave src.new)) (take k buf.new)) }
        ensures rest { IfOk result (λ k. drop k buf.new ≡ drop k buf.old) }
        ensures end { IfOk result (λ k. k ≡ 0 → IsAtEnd (S.contents src.new)) }
        ensures ended { IfOk result (λ k. k ≡ 0 → S.ended src.new ≡ true) }
        ensures err { OnErr result (TakesRaw self.old self.new (S.contents src.old) (S.contents src.new)
            (Gives (S.gave src.old) (S.gave src.new)) []) }
        ensures source { AsksSource S.Source result src.old src.new }
    {
        let len = size(self.narrow);
        let mut piece = [0; PIECE];
        let room = (buf.len() / 4).min(PIECE / 2) * len;
        let count = take_values(self.narrow, src, &mut self.half, &mut piece[..room])?;
        if count == 0 {
            return Ok(0);
        }
        let values = count / len;
        put_promoted(self.narrow, values, &piece[..count], &mut buf[..values * 4]);
        note(&mut self.taken, &piece[..count]);
        Ok(values * 4)
    }

    // Gives a zero byte where half a value is left over, and says how many bytes that are.
    fn give_half(&mut self, buf: &mut [u8]) -> usize
        requires room { 0 < length buf.old }
        requires idle { IsIdle self.old }
        ensures half { GivesHalf self.old self.new result (take result buf.new) }
        ensures rest { drop result buf.new ≡ drop result buf.old }
    {
        match self.half {
            Some(_) => {
                buf[0] = 0;
                self.spent = true;
                1
            }
            None => 0,
        }
    }
}

// Gives bytes of a value from `at` on, as many as there is room for, and says how many.
fn give(value: &[u8; 4], at: &mut usize, buf: &mut [u8]) -> usize
    requires left { at.old < 4 }
    requires room { 0 < length buf.old }
    ensures given { drop at.old value.now ≡ take result buf.new ++ drop at.new value.now }
    ensures some { 0 < result }
    ensures bound { result ≤ length buf.old }
    ensures at { at.new ≡ at.old + result }
    ensures within { at.new ≤ 4 }
    ensures rest { drop result buf.new ≡ drop result buf.old }
{
    let count = (4 - *at).min(buf.len());
    buf[..count].copy_from_slice(&value[*at..*at + count]);
    *at += count;
    count
}
