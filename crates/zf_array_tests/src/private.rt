//! Two views over one list of codes that rounds to even numbers, each of a block of four values.

ghost use Rattle.std.specs.Prelude.{◌≡◌, ℕ, ◌<◌, [], ◌∷◌, IfOk};
ghost use Rattle.zf_array_tests.specs.EvenValues.{evens_format};
ghost use Rattle.zf_base.specs.Positions.{IsPosition};
ghost use Rattle.zf_private.specs.Standing.{Own, block_at};
ghost use Rattle.zf_private.specs.Several.{IsReady};

use crate::counted::Counted;
use std::alloc::Global;
use std::process::Abort;
use std::test::Fail;
use zf_base::{Lane, Pos, Reading, Shape};
use zf_private::Private;

// A view of one line and one block.
fn view(alloc: Global, back: &Counted, shape: Shape, b: u64) -> Result<Private<i32, 1>, Fail>
    requires shape { shape ≡ 8 ∷ [] }
    requires format { ⟦<Counted as Reading<i32>>⟧.format back.now ≡ evens_format 2 }
    requires block { b < 2 }
    ensures ready { IfOk result (λ v. IsReady ⟦<i32 as Lane>⟧.value 1 v
        (⟦<Counted as Reading<i32>>⟧.format back.now) (⟦<Counted as Reading<i32>>⟧.codes back.now)) }
    ensures blocks { IfOk result (λ v. (v.shape ≡ shape) × (v.first ≡ b) × (v.count ≡ 1)) }
{
    Ok(Private::new(alloc, shape, b, 1, 1)?)
}

// Position `x`, which is in a block of the view.
fn owned(rt: &impl Abort, view: &Private<i32, 1>, shape: Shape, x: u64) -> Pos
    requires { view.now.shape ≡ shape }
    ensures position { IsPosition view.now.shape result }
    ensures owned { Own view.now (block_at view.now result) }
{
    let p = Pos {
        x,
        y: 0,
        z: 0,
        w: 0,
    };
    assert!(rt; shape.contains(p));
    let (b, _) = shape.place(p);
    assert!(rt; view.owns(b));
    p
}

// A call of a view with its answer, or what then holds.
enum Act {
    Get(u64, i32),
    Set(u64, i32),
    Add(u64, i32),
    Flush,
    Discard,
    Owns(u64, bool),
    // hits, misses and writes of the view
    Counts(u64, u64, u64),
    // stores of the backing
    Stores(u32),
}

// Whether a call goes as it says. It leaves both views fitting.
fn goes(
    rt: &impl Abort,
    view: &mut Private<i32, 1>,
    other: &Private<i32, 1>,
    back: &mut Counted,
    shape: Shape,
    act: &Act,
) -> bool
    requires shape { view.old.shape ≡ shape }
    requires ready { IsReady ⟦<i32 as Lane>⟧.value 1 view.old
        (⟦<Counted as Reading<i32>>⟧.format back.old) (⟦<Counted as Reading<i32>>⟧.codes back.old) }
    requires other { IsReady ⟦<i32 as Lane>⟧.value 1 other.now
        (⟦<Counted as Reading<i32>>⟧.format back.old) (⟦<Counted as Reading<i32>>⟧.codes back.old) }
    requires apart { (b : ℕ) → Own view.old b → Own other.now b → ⊥ }
    ensures shape { view.new.shape ≡ shape }
    ensures ready { IsReady ⟦<i32 as Lane>⟧.value 1 view.new
        (⟦<Counted as Reading<i32>>⟧.format back.new) (⟦<Counted as Reading<i32>>⟧.codes back.new) }
    ensures other { IsReady ⟦<i32 as Lane>⟧.value 1 other.now
        (⟦<Counted as Reading<i32>>⟧.format back.new) (⟦<Counted as Reading<i32>>⟧.codes back.new) }
    ensures apart { (b : ℕ) → Own view.new b → Own other.now b → ⊥ }
{
    match act {
        Act::Get(x, v) => {
            let p = owned(rt, view, shape, *x);
            view.get(back, p) == *v
        }
        Act::Set(x, v) => {
            let p = owned(rt, view, shape, *x);
            view.set(back, p, *v);
            true
        }
        Act::Add(x, v) => {
            let p = owned(rt, view, shape, *x);
            view.add(back, p, *v);
            true
        }
        Act::Flush => {
            view.flush(back);
            true
        }
        Act::Discard => {
            view.discard();
            true
        }
        Act::Owns(b, owns) => view.owns(*b) == *owns,
        Act::Counts(hits, misses, writes) => {
            let stats = view.stats();
            (stats.hits, stats.misses, stats.writes) == (*hits, *misses, *writes)
        }
        Act::Stores(stores) => back.stores == *stores,
    }
}

// The view of block 0 or of block 1.
enum Of {
    Zero,
    One,
}

// Whether a call of one of two views goes as it says.
fn one_goes(
    rt: &impl Abort,
    zero: &mut Private<i32, 1>,
    one: &mut Private<i32, 1>,
    back: &mut Counted,
    shape: Shape,
    of: &Of,
    act: &Act,
) -> bool
    requires shapes { (zero.old.shape ≡ shape) × (one.old.shape ≡ shape) }
    requires zero { IsReady ⟦<i32 as Lane>⟧.value 1 zero.old
        (⟦<Counted as Reading<i32>>⟧.format back.old) (⟦<Counted as Reading<i32>>⟧.codes back.old) }
    requires one { IsReady ⟦<i32 as Lane>⟧.value 1 one.old
        (⟦<Counted as Reading<i32>>⟧.format back.old) (⟦<Counted as Reading<i32>>⟧.codes back.old) }
    requires apart { (b : ℕ) → Own zero.old b → Own one.old b → ⊥ }
    ensures shapes { (zero.new.shape ≡ shape) × (one.new.shape ≡ shape) }
    ensures zero { IsReady ⟦<i32 as Lane>⟧.value 1 zero.new
        (⟦<Counted as Reading<i32>>⟧.format back.new) (⟦<Counted as Reading<i32>>⟧.codes back.new) }
    ensures one { IsReady ⟦<i32 as Lane>⟧.value 1 one.new
        (⟦<Counted as Reading<i32>>⟧.format back.new) (⟦<Counted as Reading<i32>>⟧.codes back.new) }
    ensures apart { (b : ℕ) → Own zero.new b → Own one.new b → ⊥ }
{
    match of {
        Of::Zero => goes(rt, zero, one, back, shape, act),
        Of::One => goes(rt, one, zero, back, shape, act),
    }
}

// Whether all calls of two new views go as they say.
fn all_go(rt: &impl Abort, alloc: Global, acts: &[(Of, Act)]) -> Result<bool, Fail> {
    let shape = Shape::new(1, 8, 1, 1, 1)?;
    let mut back = Counted::new(alloc, 2)?;
    let mut zero = view(alloc, &back, shape, 0)?;
    let mut one = view(alloc, &back, shape, 1)?;
    let mut all = true;
    for (of, act) in acts {
        all &= one_goes(rt, &mut zero, &mut one, &mut back, shape, of, act);
    }
    // Said as calls: the end of a scope would be proved with each part that is given back.
    drop(one);
    drop(zero);
    drop(back);
    Ok(all)
}

// What the calls show, and the calls.
static ROWS: [(&str, &[(Of, Act)]); 2] = [
    (
        "what a view has not written back is seen by no other, and is written back by its own flush alone",
        &[
            (Of::Zero, Act::Set(0, 1)),
            (Of::One, Act::Get(4, 0)),
            (Of::One, Act::Set(4, 7)),
            (Of::Zero, Act::Flush),
            (Of::Zero, Act::Get(0, 0)),
            (Of::One, Act::Get(4, 7)),
            (Of::Zero, Act::Counts(0, 2, 1)),
            (Of::Zero, Act::Stores(1)),
            (Of::One, Act::Flush),
            (Of::One, Act::Get(4, 6)),
            (Of::One, Act::Stores(2)),
            (Of::One, Act::Counts(2, 2, 1)),
        ],
    ),
    (
        "a discard of one view drops its changes, and leaves those of the other",
        &[
            (Of::Zero, Act::Owns(0, true)),
            (Of::Zero, Act::Owns(1, false)),
            (Of::One, Act::Owns(0, false)),
            (Of::One, Act::Owns(1, true)),
            (Of::One, Act::Owns(2, false)),
            (Of::Zero, Act::Add(3, 4)),
            (Of::One, Act::Add(7, 5)),
            (Of::One, Act::Add(7, 5)),
            (Of::Zero, Act::Discard),
            (Of::Zero, Act::Get(3, 0)),
            (Of::One, Act::Get(7, 10)),
            (Of::One, Act::Stores(0)),
            (Of::Zero, Act::Counts(0, 2, 0)),
            (Of::One, Act::Counts(2, 1, 0)),
        ],
    ),
];

#[test]
fn calls_go_as_they_say(rt: HostRuntime) -> Result<(), Fail> {
    for (shows, acts) in ROWS.iter() {
        assert!(rt; all_go(&rt, rt.alloc(), acts)?, "{shows}");
    }
    Ok(())
}
