//! An array, and calls at many positions of it.

ghost use Rattle.std.specs.Prelude.{◌≡◌, ◌+◌, ◌<◌, ◌≤◌};
ghost use Rattle.zf_base.specs.Positions.{IsPosition};
ghost use Rattle.zf_cached.specs.Windows.{LiesIn};
ghost use Rattle.zf_view.specs.Elems.{IsAtElem};
ghost use Rattle.zfpi_bench.specs.Square.{square};

use crate::bench::Bench;
use crate::calls::{Add, Call, Get, Set};
use crate::words::{Kind, Order, Request};
use std::alloc::{AllocError, Global};
use zf_array::Array;
use zf_base::{Lane, Pos, Shape};
use zf_view::{ElemIter, View, Window};

// Sixteen bits for each value of a block.
const BITS: u32 = 256;

// Lines enough that each block has its own, and few enough that no block of a row is left when the next row
// comes.
const ALL: u32 = 65536;

const FEW: u32 = 16;

// Where the window begins.
const FIRST: u64 = 100;

/// The calls that are asked for, on an array of made values; the number that comes of them.
pub(crate) fn measured<T: Lane>(alloc: Global, asked: Request) -> Result<u64, AllocError> {
    let Ok(sizes) = Shape::new(2, 1024, 1024, 1, 1) else {
        return Ok(0);
    };
    let lines = match asked.order {
        Order::Blocks => FEW,
        Order::Row | Order::Raster | Order::Random => ALL,
    };
    let mut bench = made::<T>(alloc, sizes, lines)?;
    fill(&mut bench);
    let number = match asked.kind {
        Kind::Get => rounds::<T, Get>(&mut bench, asked),
        Kind::Set => rounds::<T, Set>(&mut bench, asked),
        Kind::Add => rounds::<T, Add>(&mut bench, asked),
        Kind::Elems | Kind::Sum => sums(&mut bench, asked),
    };
    Ok(number.to_word())
}

// The array.
fn made<T: Lane>(alloc: Global, sizes: Shape, lines: u32) -> Result<Bench<T>, AllocError>
    requires sizes { sizes ≡ square }
    requires lines { (0 < lines) × (lines ≤ 65536) }
{
    let values = Array::<T, 2>::new(alloc, sizes, BITS, lines)?;
    Ok(Bench { values })
}

// A position of the array.
#[inline]
fn position(x: u64, y: u64) -> Pos
    requires inside { (x < 1024) × (y < 1024) }
    ensures { IsPosition square result }
{
    Pos { x, y, z: 0, w: 0 }
}

// Writes values, each block once.
fn fill<T: Lane>(bench: &mut Bench<T>) {
    for row in 0..256u64 {
        for column in 0..256u64 {
            fill_block(bench, 4 * column, 4 * row);
        }
    }
    bench.values.flush();
}

// Writes the values of one block: a slope in both directions, and a little of what looks like noise.
fn fill_block<T: Lane>(bench: &mut Bench<T>, left: u64, top: u64)
    requires { (left + 4 ≤ 1024) × (top + 4 ≤ 1024) }
{
    for y in top..top + 4 {
        for x in left..left + 4 {
            let value = 40 * x + 30 * y + (x * 7919 + y * 104729) % 251;
            Set::call(bench, position(x, y), T::from_word(value));
        }
    }
}

// So many rounds of calls.
fn rounds<T: Lane, C: Call<T>>(bench: &mut Bench<T>, asked: Request) -> T {
    let mut number = T::zero();
    for _ in 0..asked.rounds {
        number = match asked.order {
            Order::Row => row::<T, C>(bench, number),
            Order::Raster => raster::<T, C>(bench, number),
            Order::Random => random::<T, C>(bench, number),
            Order::Blocks => blocks::<T, C>(bench, number),
        };
    }
    number
}

#[inline(never)]
fn row<T: Lane, C: Call<T>>(bench: &mut Bench<T>, mut number: T) -> T {
    for i in 0..4096u64 {
        number = C::call(bench, position(FIRST + i % 64, FIRST), number);
    }
    number
}

#[inline(never)]
fn raster<T: Lane, C: Call<T>>(bench: &mut Bench<T>, mut number: T) -> T {
    for y in 0..64u64 {
        for x in 0..64u64 {
            number = C::call(bench, position(FIRST + x, FIRST + y), number);
        }
    }
    number
}

#[inline(never)]
fn random<T: Lane, C: Call<T>>(bench: &mut Bench<T>, mut number: T) -> T {
    let mut state = 1u64;
    for _ in 0..4096u64 {
        state = state
            .wrapping_mul(6364136223846793005)
            .wrapping_add(1442695040888963407);
        let at = state >> 33;
        number = C::call(
            bench,
            position(FIRST + at % 64, FIRST + at / 64 % 64),
            number,
        );
    }
    number
}

#[inline(never)]
fn blocks<T: Lane, C: Call<T>>(bench: &mut Bench<T>, mut number: T) -> T {
    for row in 0..256u64 {
        for column in 0..256u64 {
            number = C::call(bench, position(4 * column, 4 * row), number);
        }
    }
    number
}

// So many sums of the window, by an iterator or by one call.
fn sums<T: Lane>(bench: &mut Bench<T>, asked: Request) -> T {
    let mut number = T::zero();
    let ones = Pos {
        x: 1,
        y: 1,
        z: 1,
        w: 1,
    };
    let size = Pos {
        x: 64,
        y: 64,
        ..ones
    };
    let Ok(window) = Window::new(&bench.values.shape(), position(FIRST, FIRST), size, ones) else {
        return number;
    };
    for _ in 0..asked.rounds {
        number = match asked.kind {
            Kind::Sum => summed(bench, window, number),
            _ => sum_of(bench, window, number),
        };
    }
    number
}

#[inline(never)]
fn summed<T: Lane>(bench: &mut Bench<T>, window: Window, number: T) -> T
    requires { LiesIn square window }
{
    if View::bind(&mut bench.values, window).sum() > 0 {
        return number.add(T::from_word(1));
    }
    number
}

#[inline(never)]
fn sum_of<T: Lane>(bench: &mut Bench<T>, window: Window, number: T) -> T
    requires { LiesIn square window }
{
    added(&mut ElemIter::bind(&mut bench.values, window), number)
}

#[inline]
fn added<T: Lane>(elems: &mut ElemIter<'_, T, 2>, mut number: T) -> T
    requires { IsAtElem elems.old }
    ensures same_array { elems.new.array.ghost_name ≡ elems.old.array.ghost_name }
    ensures header { elems.new.array.now.header ≡ elems.old.array.now.header }
{
    'values: while let Some(value) = elems.next() {
        number = number.add(value);
    }
    number
}
