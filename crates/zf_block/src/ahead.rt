//! The bits that are still to come.

ghost use Rattle.std.specs.Prelude.{◌≡◌, ◌≤◌, length, take, drop};
ghost use Rattle.zf_bits.specs.Reader.{rest};
ghost use Rattle.zf_block.specs.Passing.{HasNext};

use std::marker::Model;
use zf_bits::BitReader;

/// The next 64 bits as a number, the first one lowest. Where fewer are left, the others are anything.
#[inline(always)]
pub(crate) fn look(reader: &BitReader<'_>) -> u64
    ensures { HasNext result (rest reader.now) }
{
    reader.peek()
}

/// A reader that ends where a code does. Contracts see the bits that are left.
#[derive(Drop)]
pub(crate) struct Ahead<'a> {
    reader: BitReader<'a>,
    left: u64,
}

impl<'a> Model for Ahead<'a> {
    ghost use Rattle.std.specs.Prelude.{◌≤◌, Bool, List, length, take};
    ghost use Rattle.zf_bits.specs.Reader.{rest};

    ghost Value = { List Bool };

    ghost view = { λ a. take a.left (rest a.reader) };

    ghost invariant = { λ a. a.left ≤ length (rest a.reader) };
}

impl<'a> Ahead<'a> {
    /// The next so many bits of a reader.
    pub(crate) fn new(bits: u64, reader: &BitReader<'a>) -> Ahead<'a>
        requires { bits ≤ length (rest reader.now) }
        ensures { result ≡ take bits (rest reader.now) }
    {
        Ahead {
            reader: reader.another(),
            left: bits,
        }
    }

    /// How many they are.
    #[inline]
    pub(crate) fn left(&self) -> u64
        ensures { result ≡ length self.now }
    {
        self.left
    }

    /// The next 64 as a number, the first one lowest. Where fewer are left, the others are anything.
    #[inline]
    pub(crate) fn peek(&self) -> u64
        ensures { HasNext result self.now }
    {
        self.reader.peek()
    }

    /// Passes the next `n`, which are there.
    #[inline]
    pub(crate) fn skip(&mut self, n: u64)
        requires { n ≤ length self.old }
        ensures { self.new ≡ drop n self.old }
    {
        self.reader.skip(n);
        self.left -= n;
    }
}
