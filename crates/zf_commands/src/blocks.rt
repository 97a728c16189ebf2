//! Commands on all blocks. The parts of the target fit.

ghost use Rattle.std.specs.Prelude.{◌≡◌, ◌<◌, ◌≤◌, ◌^◌, map, replicate, length};
ghost use Rattle.zf_spec.specs.Grid.{upto, blocks, is_inside, indices};
ghost use Rattle.zf_base.specs.Positions.{axes};
ghost use Rattle.zf_cached.specs.Commands.{Command};
ghost use Rattle.zf_cached.specs.Steps.{total};
ghost use Rattle.zf_window.specs.Bounds.{IsUpTo};
ghost use Rattle.zf_commands.specs.Sums.{value_within, within};
ghost use Rattle.zf_commands.specs.Calls.{IsReady, Leads, Obeys};
ghost use Rattle.zf_commands.specs.Steps.{FillsAll, Sums, said};

use crate::target::{Changing, Target};
use crate::values::of_type;
use zf_base::{Lane, Pos};
use zf_script::{Refusal, Reply};

/// `fill v`: makes all values be `v`.
pub(crate) fn fill<T: Lane, A: Changing<T>>(a: &mut A, v: i128) -> Option<Reply>
    requires { IsReady A.Subject a.old }
    ensures { Obeys A.Subject (Command.fill v) (said result) a.old a.new }
{
    let Some(v) = of_type::<T>(v) else {
        return Some(Reply::Refused(Refusal::Value));
    };
    fill_blocks(a, v);
    None
}

// Makes all values of each block be `v`, by one touch for writing.
fn fill_blocks<T: Lane, A: Changing<T>>(a: &mut A, v: T)
    requires { A.sound a.old }
    ensures { Leads A.Subject (λ k s t. FillsAll k (T.value v) s t) a.old a.new }
{
    for b in 0..a.sizes().blocks() {
        a.fill_block(b, v);
    }
}

/// Makes all values of a line be `v`.
pub fn fill_line<T: Lane>(line: &mut [T], v: T)
    ensures { line.new ≡ replicate (length line.old) v }
{
    for value in line.iter_mut() {
        *value = v;
    }
}

/// The sum of all values as the touches of their blocks find them. At most 2^27 blocks of 256 values of 64
/// bits have a sum far below 2^127.
pub(crate) fn sum_blocks<A: Target>(a: &mut A) -> i128
    requires { A.sound a.old }
    ensures { Leads A.Subject
        (λ k s t. Sums k (λ b. b) (λ b values. total values) (upto (blocks s.shape)) s t result) a.old a.new }
{
    let mut sum = 0;
    for b in 0..a.sizes().blocks() {
        sum += a.sum_of_block(b);
    }
    sum
}

/// The sum of the values of a block at the places that lie within these sizes.
pub fn sum_within<T: Lane>(block: &[T], size: &Pos) -> i128
    requires { length block.now ≤ 256 }
    ensures sum { result ≡ total (within size.now (map T.value block.now)) }
    ensures bound { IsUpTo (2 ^ 71) result }
{
    let mut sum = 0;
    for place in 0..block.len() {
        sum += value_within(block, size, place);
    }
    sum
}

// The value at a place of a block, 0 where the place does not lie within these sizes.
fn value_within<T: Lane>(block: &[T], size: &Pos, place: usize) -> i128
    requires { place < length block.now }
    ensures value { result ≡ value_within size.now (map T.value block.now) place }
    ensures bound { IsUpTo (2 ^ 63) result }
{
    if !is_within(size, place as u64) {
        return 0;
    }
    block[place].to_wide()
}

// Whether a place lies within these sizes. A place has the digits of its number in base 4 as indices, x
// lowest.
fn is_within(size: &Pos, place: u64) -> bool
    ensures { result ≡ is_inside (axes size.now) (indices 4 place) }
{
    let y = place / 4;
    let z = y / 4;
    let w = z / 4;
    place % 4 < size.x && y % 4 < size.y && z % 4 < size.z && w % 4 < size.w
}
