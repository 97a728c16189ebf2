//! The run of a script.

ghost use Rattle.std.specs.Prelude.{◌≡◌, ◌≢◌};
ghost use Rattle.zf_dev.specs.Faults.{HasCause};
ghost use Rattle.zf_run.specs.Ends.{Runs};

use crate::end::{RunEnd, end_of};
use crate::splits::Parted;
use std::alloc::Global;
use zf_array::Array;
use zf_base::Lane;
use zf_commands::run_lines;
use zf_dev::Sink;
use zf_view::Window;

/// Runs the lines of a script over an array and writes the reply of each as it comes; at the end it flushes
/// the array.
///
/// A line that is refused changes nothing, and the script goes on. What is split at the end is joined before
/// the flush.
///
/// `Lines(n)`: n lines, at least one, were refused, and all others did what they ask for. `Write`: the sink
/// failed; `out` holds the replies before some line and a part of that line's reply, and the array is as
/// after that line, not flushed, and its views are dropped as they are.
pub fn run<T: Lane, const D: usize, O: Sink>(
    alloc: Global,
    a: &mut Array<T, D>,
    script: &[u8],
    out: &mut O,
) -> RunEnd
    ensures runs { Runs T.width a.old a.new script.now (O.contents out.old) (O.contents out.new) result }
    ensures unchanged { result ≢ RunEnd.Write → O.faults out.new ≡ O.faults out.old }
    ensures cause { HasCause (result ≡ RunEnd.Write) (O.faults out.old) (O.faults out.new) }
{
    let shape = a.shape();
    // Known by this call: the sizes are those of a shape.
    let _dims = shape.dims();
    let window = Window::whole(&shape);
    let mut views = None;
    let mut parted = Parted {
        alloc,
        array: a,
        views: &mut views,
        window,
    };
    match run_lines(&mut parted, script, out) {
        Ok(refused) => {
            parted.finish();
            end_of(refused)
        }
        Err(_) => RunEnd::Write,
    }
}
