//! A window of an array in one dimension.

ghost use Rattle.std.specs.Prelude.{◌≡◌, ℕ, false, length, Some, IfOk, IfErr};
ghost use Rattle.zf_spec.specs.Grid.{product};
ghost use Rattle.zf_base.specs.Positions.{IsPosition};
ghost use Rattle.zf_cached.specs.Windows.{LiesIn};
ghost use Rattle.zf_cached.specs.Unwritten.{IsUnwritten};
ghost use Rattle.zf_array.specs.Standing.{state, shape};
ghost use Rattle.zf_window.specs.Positions.{x_step};
ghost use Rattle.zf_window.specs.WindowFields.{view_fault};
ghost use Rattle.zf_view.specs.Sums.{sum_in};
ghost use Rattle.zfpi_uses.specs.Marked.{places_from, first_place, marked, saved_of, IsMarked, IsCause};

use crate::fault::Fault;
use std::alloc::{AllocError, Global};
use zf_array::Array;
use zf_base::{Pos, Shape};
use zf_view::{View, ViewFault, Window};

/// The cache lines that the array has.
const LINES: u32 = 8;

/// The sum of `count` values from place `first` on, of the array of int32 in one dimension that `file` holds;
/// and its file once `v` was written over the first of them, as far as they lie in one block.
pub fn sum_and_mark(
    alloc: Global,
    file: Vec<u8>,
    first: u64,
    count: u64,
    v: i32,
) -> Result<(i128, Vec<u8>), Fault>
    ensures done { IfOk result (λ done. IsMarked file.items (places_from first count) v done.0 done.1.items) }
    ensures fault { IfErr result (IsCause file.items first count) }
{
    let mut array = Array::<i32, 1>::open(alloc, file, LINES)?;
    let window = places_from(&array.shape(), first, count)?;
    let sum = sum(&mut array, window);
    mark(&mut array, window, v);
    let saved = saved(alloc, &mut array)?;
    Ok((sum, saved))
}

// The sum of the values in a window of an array of which nothing was changed.
fn sum(array: &mut Array<i32, 1>, window: Window) -> i128
    requires lies { LiesIn (shape array.old) window }
    requires clean { (b : ℕ) → (state array.old).dirty b ≡ false }
    ensures value { result ≡ sum_in (shape array.old) (state array.old) window (product window.size) }
    ensures unwritten { IsUnwritten (state array.old).codes (state array.old).values (state array.new) }
    ensures header { array.new.header ≡ array.old.header }
{
    View::bind(array, window).sum()
}

// Makes the values at the first position of a window and at those that follow be `v`, as far as they lie in
// one block.
fn mark(array: &mut Array<i32, 1>, window: Window, v: i32)
    requires lies { LiesIn (shape array.old) window }
    requires position { IsPosition window.size first_place }
    requires step { x_step window ≡ 1 }
    ensures state { state array.new ≡ marked array.old window v }
    ensures header { array.new.header ≡ array.old.header }
{
    fill_first(&mut View::bind(array, window), v);
}

fn fill_first(view: &mut View<'_, i32, 1>, v: i32)
    requires lies { LiesIn (shape view.old.array.now) view.old.window }
    requires position { IsPosition view.old.window.size first_place }
    requires step { x_step view.old.window ≡ 1 }
    ensures same_array { view.new.array.ghost_name ≡ view.old.array.ghost_name }
    ensures state { state view.new.array.now ≡ marked view.old.array.now view.old.window v }
    ensures header { view.new.array.now.header ≡ view.old.array.now.header }
{
    view.run_mut(Pos::new([0])).fill(v);
}

// The file of an array, with all that was changed.
fn saved(alloc: Global, array: &mut Array<i32, 1>) -> Result<Vec<u8>, AllocError>
    ensures { IfOk result (λ bytes. bytes.items ≡ saved_of array.old) }
{
    array.flush();
    array.save_bytes().to_vec(alloc)
}

// The window of these places.
fn places_from(shape: &Shape, first: u64, count: u64) -> Result<Window, ViewFault>
    requires { length shape.now ≡ 1 }
    ensures window { IfOk result (λ w. w ≡ places_from first count) }
    ensures inside { IfOk result (LiesIn shape.now) }
    ensures fault { IfErr result (λ f. view_fault shape.now (places_from first count) ≡ Some f) }
{
    Window::new(
        shape,
        Pos::new([first]),
        Pos::of_sizes([count]),
        Pos::of_sizes([1]),
    )
}
