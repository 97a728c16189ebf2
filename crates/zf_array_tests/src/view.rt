//! Windows and blocks, with values from a program that was written from the definitions alone.

ghost use Rattle.std.specs.Prelude.{◌≡◌, length, IfOk};
ghost use Rattle.zf_cached.specs.Windows.{LiesIn};
ghost use Rattle.zf_array.specs.Standing.{shape};
ghost use Rattle.zf_window.specs.Positions.{x_step};

use std::alloc::Global;
use std::process::Abort;
use std::test::Fail;
use zf_array::Array;
use zf_base::{Extent, Pos, Shape};
use zf_view::{BlockIter, ElemMut, View, ViewFault, Window};

fn at(x: u64, y: u64) -> Pos {
    Pos { x, y, z: 0, w: 0 }
}

// A shape of two dimensions.
fn sheet(rt: &impl Abort, x: u64, y: u64) -> Result<Shape, Fail>
    ensures { IfOk result (λ shape. length shape ≡ 2) }
{
    let shape = Shape::new(2, x, y, 1, 1)?;
    assert!(rt; shape.dims() == 2);
    Ok(shape)
}

// The window of these origins, sizes and steps along two axes.
fn window(
    shape: &Shape,
    origin: [u64; 2],
    size: [u64; 2],
    step: [u64; 2],
) -> Result<Window, ViewFault>
    requires { length shape.now ≡ 2 }
    ensures { IfOk result (LiesIn shape.now) }
{
    Window::new(
        shape,
        Pos {
            x: origin[0],
            y: origin[1],
            z: 0,
            w: 0,
        },
        Pos {
            x: size[0],
            y: size[1],
            z: 1,
            w: 1,
        },
        Pos {
            x: step[0],
            y: step[1],
            z: 1,
            w: 1,
        },
    )
}

// Origin, size and step of a window of 4 by 4 places along x and y, and its fault.
static FAULTS: [([u64; 2], [u64; 2], [u64; 2], Option<ViewFault>); 9] = [
    ([1, 1], [2, 2], [2, 2], None),
    ([0, 0], [4, 4], [1, 1], None),
    ([3, 3], [1, 1], [u64::MAX, u64::MAX], None),
    ([0, 0], [0, 1], [0, 1], Some(ViewFault::Zero)),
    ([9, 0], [1, 1], [1, 0], Some(ViewFault::Step)),
    ([2, 1], [2, 2], [2, 2], Some(ViewFault::Outside)),
    ([4, 0], [1, 1], [1, 1], Some(ViewFault::Outside)),
    // 2 + 1 * (2^64 - 1) and 0 + 2 * 2^63 are 1 and 0 where a sum wraps
    ([2, 0], [2, 1], [u64::MAX, 1], Some(ViewFault::Outside)),
    ([0, 0], [1, 3], [1, 1 << 63], Some(ViewFault::Outside)),
];

#[test]
fn windows_have_their_faults(rt: HostRuntime) -> Result<(), Fail> {
    let shape = sheet(&rt, 4, 4)?;
    for (origin, size, step, fault) in FAULTS.iter() {
        assert!(rt; window(&shape, *origin, *size, *step).err() == *fault);
    }
    Ok(())
}

// A window of 4 by 4 places: the whole; a part of 2 by 4; or one place of an axis of that part.
#[derive(Clone, Copy)]
enum Of {
    Whole,
    Part,
    Slice(u64, u64),
}

fn made(shape: &Shape, of: Of) -> Option<Window>
    requires { length shape.now ≡ 2 }
{
    let part = window(shape, [1, 0], [2, 4], [2, 1]).ok()?;
    match of {
        Of::Whole => Some(Window::whole(shape)),
        Of::Part => Some(part),
        Of::Slice(axis, place) => part.slice(axis, place),
    }
}

// Where a place of a window lies in the array; `None` where there is no such window, `Some(None)` where the
// place is none of its own.
fn mapped(shape: &Shape, of: Of, place: [u64; 2]) -> Option<Option<Pos>>
    requires { length shape.now ≡ 2 }
{
    let window = made(shape, of)?;
    let p = at(place[0], place[1]);
    if !window.contains(p) {
        return Some(None);
    }
    Some(Some(window.map(p)))
}

// A window, a place, and where it lies.
static PLACES: [(Of, [u64; 2], Option<Option<[u64; 2]>>); 8] = [
    (Of::Whole, [3, 2], Some(Some([3, 2]))),
    (Of::Whole, [4, 0], Some(None)),
    (Of::Part, [1, 1], Some(Some([3, 1]))),
    (Of::Part, [2, 0], Some(None)),
    (Of::Slice(2, 0), [0, 0], None),
    (Of::Slice(0, 2), [0, 0], None),
    (Of::Slice(0, 1), [0, 3], Some(Some([3, 3]))),
    (Of::Slice(0, 1), [1, 0], Some(None)),
];

#[test]
fn windows_map_and_are_sliced(rt: HostRuntime) -> Result<(), Fail> {
    let shape = sheet(&rt, 4, 4)?;
    for (of, place, lies) in PLACES.iter() {
        let wanted = lies.map(|found| found.map(|[x, y]| at(x, y)));
        assert!(rt; mapped(&shape, *of, *place) == wanted);
    }
    Ok(())
}

// The blocks of 5 by 6 values: the origin and the size of each.
static BLOCKS: [([u64; 2], [u64; 2]); 4] = [
    ([0, 0], [4, 4]),
    ([4, 0], [1, 4]),
    ([0, 4], [4, 2]),
    ([4, 4], [1, 2]),
];

#[test]
fn blocks_come_in_order(rt: HostRuntime) {
    let Ok(shape) = Shape::new(2, 5, 6, 1, 1) else {
        assert!(rt; false);
        return;
    };
    let mut blocks = BlockIter::new(&shape);
    for number in 0..4usize {
        let (origin, size) = BLOCKS[number];
        let extent = Extent {
            origin: at(origin[0], origin[1]),
            size: Pos {
                x: size[0],
                y: size[1],
                z: 1,
                w: 1,
            },
        };
        assert!(rt; blocks.size_hint() == (blocks.len(), Some(blocks.len())));
        assert!(rt; blocks.next() == Some((number as u64, extent)));
    }
    assert!(rt; blocks.size_hint() == (0, Some(0)));
    assert!(rt; blocks.next() == None && blocks.next() == None);
    assert!(rt; BlockIter::new(&shape).count() == 4);
}

// The window of every second position from 1, 1 on.
fn odd_places(rt: &impl Abort, array: &Array<i32, 2>) -> Window
    ensures { LiesIn (shape array.now) result }
{
    let shape = array.shape();
    assert!(rt; shape.dims() == 2);
    match window(&shape, [1, 1], [2, 2], [2, 2]) {
        Ok(part) => part,
        Err(_) => panic!(rt; "no window"),
    }
}

// A call through a view of the odd places, with what it answers.
enum Act {
    Set(i32),
    Get(i32),
    Add(i32),
    Sum(i32),
}

// Whether a call, at place `x`, `y` of the window where it has one, goes as it says.
fn goes(rt: &impl Abort, array: &mut Array<i32, 2>, x: u64, y: u64, act: &Act) -> bool {
    let part = odd_places(rt, array);
    let p = at(x, y);
    assert!(rt; part.contains(p));
    let mut view = View::bind(array, part);
    match act {
        Act::Set(v) => view.set(p, *v),
        Act::Get(v) => return view.get(p) == *v,
        Act::Add(v) => view.elem(p).add(*v),
        Act::Sum(sum) => {
            let mut found = 0i32;
            for value in view.elems() {
                found = found.wrapping_add(value);
            }
            return found == *sum;
        }
    }
    true
}

// A place, and a call there.
static ACTS: [(u64, u64, Act); 5] = [
    (0, 0, Act::Set(5)),
    (1, 1, Act::Set(9)),
    (0, 0, Act::Get(5)),
    (0, 0, Act::Sum(14)),
    (1, 1, Act::Add(-2)),
];

#[test]
fn a_view_and_its_array_see_one_state(rt: HostRuntime) -> Result<(), Fail> {
    let mut array = Array::new(rt.alloc(), sheet(&rt, 4, 4)?, 128, 1)?;
    for (x, y, act) in ACTS.iter() {
        assert!(rt; goes(&rt, &mut array, *x, *y, act));
    }
    let last = at(3, 3);
    assert!(rt; array.shape().contains(last));
    assert!(rt; array.get(last) == 7);
    let stats = array.stats();
    assert!(rt; (stats.hits, stats.misses, stats.writes) == (8, 1, 0));
    drop(array);
    Ok(())
}

fn place(x: u64) -> Pos {
    at(x, 0)
}

// The window of the six places from place 1 on, of an array of one dimension.
fn six_places(rt: &impl Abort, array: &Array<i32, 1>) -> Window
    ensures lies { LiesIn (shape array.now) result }
    ensures step { x_step result ≡ 1 }
{
    let shape = array.shape();
    assert!(rt; shape.dims() == 1);
    let origin = Pos {
        x: 1,
        y: 0,
        z: 0,
        w: 0,
    };
    let sizes = Pos {
        x: 6,
        y: 1,
        z: 1,
        w: 1,
    };
    match Window::new(&shape, origin, sizes, Pos { x: 1, ..sizes }) {
        Ok(part) => part,
        Err(_) => panic!(rt; "no window"),
    }
}

// Whether so many values are lent from place `x` of the window on. The first is made `v`.
fn lends(rt: &impl Abort, array: &mut Array<i32, 1>, x: u64, v: i32, len: usize) -> bool {
    let part = six_places(rt, array);
    let p = place(x);
    assert!(rt; part.contains(p));
    let mut view = View::bind(array, part);
    let run = view.run_mut(p);
    if let Some(first) = run.first_mut() {
        *first = v;
    }
    run.len() == len
}

// The value at place `x` of the window is raised by `v`.
fn raise(rt: &impl Abort, array: &mut Array<i32, 1>, x: u64, v: i32) {
    let part = six_places(rt, array);
    let p = place(x);
    assert!(rt; part.contains(p));
    let mut view = View::bind(array, part);
    let mut elem = view.elem(p);
    let value = elem.value_mut();
    *value = value.wrapping_add(v);
}

fn value(rt: &impl Abort, array: &mut Array<i32, 1>, x: u64) -> i32 {
    let p = place(x);
    assert!(rt; array.shape().contains(p));
    array.get(p)
}

fn counts_are(array: &Array<i32, 1>, hits: u64, misses: u64) -> bool {
    let stats = array.stats();
    (stats.hits, stats.misses, stats.writes) == (hits, misses, 0)
}

// Where a run begins, what its first value is made, and how long it is: each ends with its block or with
// the window.
static RUNS: [(u64, i32, usize); 6] = [
    (0, 9, 3),
    (3, 9, 3),
    (1, 0, 2),
    (2, 0, 1),
    (4, 0, 2),
    (5, 0, 1),
];

// The values afterwards.
const VALUES: [i32; 8] = [0, 9, 0, 0, 9, 0, 0, 0];

#[test]
fn runs_and_values_are_lent(rt: HostRuntime) -> Result<(), Fail> {
    let shape = Shape::new(1, 8, 1, 1, 1)?;
    assert!(rt; shape.dims() == 1);
    let mut array = Array::<i32, 1>::new(rt.alloc(), shape, 64, 2)?;
    for (x, v, len) in RUNS.iter() {
        assert!(rt; lends(&rt, &mut array, *x, *v, *len));
    }
    assert!(rt; counts_are(&array, 4, 2));
    for x in 0..8usize {
        assert!(rt; value(&rt, &mut array, x as u64) == VALUES[x]);
    }
    raise(&rt, &mut array, 3, 5);
    assert!(rt; value(&rt, &mut array, 4) == 14);
    assert!(rt; counts_are(&array, 14, 2));
    drop(array);
    Ok(())
}

// Whether the values from place `x` of the window on are these, as far as one block and the window go.
fn shows(rt: &impl Abort, array: &mut Array<i32, 1>, x: u64, values: &[i32]) -> bool {
    let part = six_places(rt, array);
    let p = place(x);
    assert!(rt; part.contains(p));
    let mut view = View::bind(array, part);
    view.run(p) == values
}

fn sum(rt: &impl Abort, array: &mut Array<i32, 1>) -> i128 {
    let part = six_places(rt, array);
    View::bind(array, part).sum()
}

fn add_at(rt: &impl Abort, array: &mut Array<i32, 1>, x: u64, v: i32) {
    let p = place(x);
    assert!(rt; array.shape().contains(p));
    ElemMut::bind(array, p).add(v);
}

#[test]
fn windows_are_summed_and_read(rt: HostRuntime) -> Result<(), Fail> {
    let shape = Shape::new(1, 8, 1, 1, 1)?;
    assert!(rt; shape.dims() == 1);
    let mut array = Array::<i32, 1>::new(rt.alloc(), shape, 64, 2)?;
    for (x, v) in [(0, 100), (1, 5), (3, -2), (4, 7), (6, 1), (7, 100)] {
        add_at(&rt, &mut array, x, v);
    }
    assert!(rt; shows(&rt, &mut array, 0, &[5, 0, -2]));
    assert!(rt; shows(&rt, &mut array, 3, &[7, 0, 1]));
    assert!(rt; shows(&rt, &mut array, 4, &[0, 1]));
    assert!(rt; sum(&rt, &mut array) == 11);
    assert!(rt; counts_are(&array, 13, 2));
    drop(array);
    Ok(())
}
