//! Values from a program that was written from the definitions alone, and generic callers of `Lane`.

ghost use Rattle.std.specs.Prelude.{IsTrue};
ghost use Rattle.zf_base.specs.Positions.{IsPosition};

use std::process::Abort;
use std::test::Fail;
use zf_base::{Extent, Lane, Pos, Shape, ShapeFault};

// Two values; their sum and difference, and the double, the half and the word of the first, as numbers.
static NARROW: [(i32, i32, [i128; 5]); 3] = [
    (
        i32::MAX,
        1,
        [-2147483648, 2147483646, -2, 1073741823, 2147483647],
    ),
    (
        i32::MIN,
        -1,
        [2147483647, -2147483647, 0, -1073741824, 2147483648],
    ),
    (-3, -1, [-4, -2, -6, -2, 4294967293]),
];

static WIDE: [(i64, i64, [i128; 5]); 1] = [(
    i64::MIN,
    -1,
    [
        9223372036854775807,
        -9223372036854775807,
        0,
        -4611686018427387904,
        9223372036854775808,
    ],
)];

fn results_are<T: Lane>(rt: &impl Abort, rows: &[(T, T, [i128; 5])]) {
    for (a, b, expected) in rows {
        let results = [
            a.add(*b).to_wide(),
            a.sub(*b).to_wide(),
            a.double().to_wide(),
            a.halve().to_wide(),
            i128::from(a.to_word()),
        ];
        assert!(rt; results == *expected);
    }
}

#[test]
fn values_wrap_at_the_ends(rt: HostRuntime) {
    results_are(&rt, &NARROW);
    results_are(&rt, &WIDE);
}

fn sum3<T: Lane>(a: T, b: T, c: T) -> T {
    a.add(b).add(c)
}

fn double_all<T: Lane>(block: &mut [T]) {
    for value in block.iter_mut() {
        *value = value.double();
    }
}

#[test]
fn generic_sums_and_doubles_wrap(rt: HostRuntime) {
    let mut block = [i32::MAX, -1];
    double_all(&mut block);
    assert!(rt; block == [-2, -2] && sum3(i64::MAX, 1, -1) == i64::MAX);
}

// Numbers, and the values that they are.
static NUMBERS: [(i128, Option<i32>); 2] = [(2147483647, Some(i32::MAX)), (2147483648, None)];

fn are_values(rt: &impl Abort, rows: &[(i128, Option<i32>)]) {
    for (number, value) in rows {
        assert!(rt; i32::from_wide(*number) == *value);
    }
}

#[test]
fn values_come_from_words_and_numbers(rt: HostRuntime) {
    are_values(&rt, &NUMBERS);
    assert!(rt; i32::from_word(u64::MAX) == -1 && i64::from_wide(-9223372036854775809).is_none());
}

// Dimensions, the sizes along x, y, z and w, and the fault of this shape if it has one.
static FAULTS: [(u8, [u64; 4], Option<ShapeFault>); 10] = [
    (1, [0, 0, 0, 0], Some(ShapeFault::Zero)),
    (1, [281474976710656, 0, 0, 0], Some(ShapeFault::TooLarge)),
    (1, [281474976710657, 0, 0, 0], Some(ShapeFault::Field)),
    (1, [134217728, 0, 0, 0], None),
    (2, [16777217, 0, 0, 0], Some(ShapeFault::Zero)),
    (2, [16777217, 1, 0, 0], Some(ShapeFault::Field)),
    (2, [8192, 16384, 0, 0], None),
    (3, [512, 512, 513, 0], Some(ShapeFault::TooLarge)),
    (4, [1, 4097, 1, 1], Some(ShapeFault::Field)),
    (4, [4096, 4096, 8, 1], None),
];

fn have_faults(rt: &impl Abort, rows: &[(u8, [u64; 4], Option<ShapeFault>)]) {
    for (dims, [x, y, z, w], fault) in rows {
        assert!(rt; 1 <= *dims && *dims <= 4);
        assert!(rt; Shape::new(*dims, *x, *y, *z, *w).err() == *fault);
    }
}

#[test]
fn shapes_have_their_faults(rt: HostRuntime) {
    have_faults(&rt, &FAULTS);
}

// Dimensions and sizes of an array, its values and blocks, and one of its positions; the block and the place
// of this position, and the origin and the size of that block.
struct Placed {
    dims: u8,
    sizes: [u64; 4],
    values: u64,
    blocks: u64,
    position: [u64; 4],
    place: (u64, usize),
    origin: [u64; 4],
    size: [u64; 4],
}

static PLACED: [Placed; 4] = [
    Placed {
        dims: 1,
        sizes: [5, 0, 0, 0],
        values: 5,
        blocks: 2,
        position: [4, 0, 0, 0],
        place: (1, 0),
        origin: [4, 0, 0, 0],
        size: [1, 1, 1, 1],
    },
    Placed {
        dims: 2,
        sizes: [9, 6, 0, 0],
        values: 54,
        blocks: 6,
        position: [8, 5, 0, 0],
        place: (5, 4),
        origin: [8, 4, 0, 0],
        size: [1, 2, 1, 1],
    },
    Placed {
        dims: 3,
        sizes: [5, 4, 7, 0],
        values: 140,
        blocks: 4,
        position: [4, 3, 6, 0],
        place: (3, 44),
        origin: [4, 0, 4, 0],
        size: [1, 4, 3, 1],
    },
    Placed {
        dims: 4,
        sizes: [3, 9, 2, 6],
        values: 324,
        blocks: 6,
        position: [2, 8, 1, 5],
        place: (5, 82),
        origin: [0, 8, 0, 4],
        size: [3, 1, 2, 2],
    },
];

fn at([x, y, z, w]: [u64; 4]) -> Pos {
    Pos { x, y, z, w }
}

// Whether an array has so many dimensions, values and blocks, and this size along x.
fn has_counts(shape: &Shape, row: &Placed) -> bool {
    let counts = (shape.dims(), shape.values(), shape.blocks(), shape.size(0));
    counts == (row.dims, row.values, row.blocks, row.sizes[0])
}

// Whether the array has the position, and none beside its end along x.
fn has_position(shape: &Shape, p: Pos) -> bool
    ensures { IsTrue result → IsPosition shape.now p }
{
    let x = shape.size(0);
    shape.contains(p) && !shape.contains(Pos { x, ..p })
}

// Whether a position of the array has this block and place, and its block this part of the array.
fn has_place(shape: &Shape, p: Pos, row: &Placed) -> bool
    requires { IsPosition shape.now p }
{
    let (b, place) = shape.place(p);
    let extent = Extent {
        origin: at(row.origin),
        size: at(row.size),
    };
    (b, place) == row.place && b < shape.blocks() && shape.extent(b) == extent
}

fn is_placed(shape: &Shape, row: &Placed) -> bool {
    let p = at(row.position);
    has_counts(shape, row) && has_position(shape, p) && has_place(shape, p, row)
}

fn are_placed(rt: &impl Abort, rows: &[Placed]) -> Result<(), ShapeFault> {
    for row in rows {
        assert!(rt; 1 <= row.dims && row.dims <= 4);
        let [x, y, z, w] = row.sizes;
        let shape = Shape::new(row.dims, x, y, z, w)?;
        assert!(rt; is_placed(&shape, row));
    }
    Ok(())
}

#[test]
fn positions_have_their_places(rt: HostRuntime) -> Result<(), Fail> {
    are_placed(&rt, &PLACED)?;
    Ok(())
}
