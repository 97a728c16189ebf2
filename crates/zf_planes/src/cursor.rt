//! A place in a code, with the bits that come next.

ghost use Rattle.std.specs.Prelude.{◌≡◌, ◌+◌, ◌-◌, ◌<◌, ◌≤◌, true, min, false, ◌++◌, length, take, replicate, IfNone, IfSome, OnSome};
ghost use Rattle.{zf_spec.specs.Numbers.{field}, zf_bits.specs.Reader.{rest}};
ghost use Rattle.zf_planes.specs.Decoding.{IsWindow, Takes, Lacks};

use zf_bits::BitReader;

/// A reader, what is left of a budget, and the bits that come next, as far as they were looked at.
#[derive(Drop)]
pub(crate) struct Cursor<'a> {
    pub(crate) reader: BitReader<'a>,
    /// The bits that are left of the budget.
    pub(crate) left: u64,
    /// The next bits, the first one lowest.
    pub(crate) bits: u64,
    /// How many of them are in the budget and are there.
    pub(crate) count: u64,
    ghost window: { IsWindow left bits count (rest reader) },
}

impl<'a> Cursor<'a> {
    /// A cursor where a reader stands, with so much of a budget.
    #[inline]
    #[tactic(auto, using(crate::proofs::Peeking::peeked))]
    pub(crate) fn new(left: u64, reader: &BitReader<'a>) -> Cursor<'a>
        ensures left { result.left ≡ left }
        ensures reader { result.reader ≡ reader.now }
        ensures most { result.count ≡ min 64 (min left (length (rest reader.now))) }
    {
        let count = reader.left().min(left).min(64);
        Cursor {
            reader: reader.another(),
            left,
            bits: reader.peek(),
            count,
        }
    }

    /// Passes bits that were looked at.
    #[inline]
    #[tactic(auto, using(crate::proofs::Peeking::window_long))]
    pub(crate) fn pass(&mut self, n: u64)
        requires some { 0 < n }
        requires within { n ≤ self.old.count }
        ensures count { self.new.count + n ≡ self.old.count }
        ensures taken { Takes self.old.reader self.new.reader self.old.left self.new.left n }
    {
        self.reader.skip(n);
        self.left -= n;
        // In two steps, since all 64 may be passed.
        self.bits = self.bits >> (n - 1) >> 1;
        self.count -= n;
    }

    /// Looks again where fewer bits are in sight than are wanted, and there may be more.
    #[inline]
    #[tactic(auto, using(crate::proofs::Peeking::window_long))]
    pub(crate) fn look_on(&mut self, wanted: u64)
        ensures reader { self.new.reader ≡ self.old.reader }
        ensures left { self.new.left ≡ self.old.left }
        ensures all { self.new.count < wanted → self.new.count
            ≡ min 64 (min self.new.left (length (rest self.new.reader))) }
    {
        // Where all that is left of the budget is in sight, there is no more to see.
        if self.count < wanted && self.count < self.left {
            *self = Cursor::new(self.left, &self.reader);
        }
    }

    /// Whether so many bits are in sight, after another look where they are not at first.
    #[inline(always)]
    pub(crate) fn sees(&mut self, n: u64) -> bool
        ensures reader { self.new.reader ≡ self.old.reader }
        ensures left { self.new.left ≡ self.old.left }
        ensures there { result ≡ true → n ≤ self.new.count }
        ensures short { result ≡ false → n ≤ self.old.left → n ≤ 64 → length (rest self.old.reader) < n }
    {
        self.look_on(n);
        n <= self.count
    }

    /// Reads digits of one word as they are, the first one lowest. `None`: there are fewer.
    #[inline]
    pub(crate) fn read_word(&mut self, n: u64) -> Option<u64>
        requires some { 0 < n }
        requires in_word { n ≤ 64 }
        requires in_budget { n ≤ self.old.left }
        ensures short { IfNone result (Lacks self.old.reader self.new.reader n) }
        ensures taken { OnSome result (Takes self.old.reader self.new.reader self.old.left self.new.left n) }
        ensures digits { IfSome result (λ digits. field 64 digits ≡ take n (rest self.old.reader)
            ++ replicate (64 - n) false) }
    {
        if !self.sees(n) {
            return None;
        }
        let digits = self.bits & u64::MAX >> (64 - n);
        self.pass(n);
        Some(digits)
    }

    /// Passes planes of zeros at the top, of which each has one bit. The answer is how many.
    #[inline]
    pub(crate) fn pass_zero_planes(&mut self, prec: u32) -> u64
        ensures within { result ≤ prec }
        ensures taken { Takes self.old.reader self.new.reader self.old.left self.new.left result }
        ensures zeros { rest self.old.reader ≡ replicate result false ++ rest self.new.reader }
    {
        let count = u64::from(self.bits.trailing_zeros())
            .min(self.count)
            .min(u64::from(prec));
        if count > 0 {
            self.pass(count);
        }
        count
    }
}
