//! The run of a script over an array that is only read.

ghost use Rattle.std.specs.Prelude.{◌≡◌, ◌≢◌};
ghost use Rattle.zf_dev.specs.Faults.{HasCause};
ghost use Rattle.zf_run.specs.Ends.{Looks};

use crate::const_arrays::Looked;
use crate::end::{RunEnd, end_of};
use zf_base::Lane;
use zf_commands::run_lines;
use zf_const::ConstArray;
use zf_dev::Sink;
use zf_view::Window;

/// Runs the lines of a script over an array that is only read, and writes the reply of each as it comes.
///
/// A line that would change the array is refused as no line of the language. A line that is refused changes
/// nothing, and the script goes on.
///
/// `Lines(n)`: n lines, at least one, were refused, and all others did what they ask for. `Write`: the sink
/// failed; `out` holds the replies before some line and a part of that line's reply, and the array is as
/// after that line.
pub fn look<T: Lane, const D: usize, O: Sink>(
    a: &mut ConstArray<T, D>,
    script: &[u8],
    out: &mut O,
) -> RunEnd
    ensures looks { Looks T.width a.old a.new script.now (O.contents out.old) (O.contents out.new) result }
    ensures unchanged { result ≢ RunEnd.Write → O.faults out.new ≡ O.faults out.old }
    ensures cause { HasCause (result ≡ RunEnd.Write) (O.faults out.old) (O.faults out.new) }
{
    let window = Window::whole(&a.shape());
    let mut looked = Looked { array: a, window };
    match run_lines(&mut looked, script, out) {
        Ok(refused) => end_of(refused),
        Err(_) => RunEnd::Write,
    }
}
