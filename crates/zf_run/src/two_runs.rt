//! The run of a script over a store and a two-way cache.

ghost use Rattle.std.specs.Prelude.{◌≡◌, ◌≢◌, length};
ghost use Rattle.zf_dev.specs.Faults.{HasCause};
ghost use Rattle.zf_cache.specs.Kept.{IsEmpty};
ghost use Rattle.zf_run.specs.Ends.{RunsTwo};

use crate::end::{RunEnd, end_of};
use crate::pairs::Pair;
use zf_base::Lane;
use zf_commands::{Changing, run_lines};
use zf_dev::Sink;
use zf_store::Store;
use zf_twoway::TwoWay;
use zf_view::Window;

/// Runs the lines of a script over a store and a two-way cache, which is empty, and writes the reply of each as
/// it comes; at the end it flushes the cache.
///
/// Lines on windows and sizes are refused as no lines of the language. A line that is refused changes
/// nothing, and the script goes on.
///
/// `Lines(n)`: n lines, at least one, were refused, and all others did what they ask for. `Write`: the sink
/// failed; `out` holds the replies before some line and a part of that line's reply, and store and cache are
/// as after that line, not flushed.
pub fn run_two<T: Lane, const D: usize, O: Sink>(
    store: &mut Store<T, D>,
    cache: &mut TwoWay<T, D>,
    script: &[u8],
    out: &mut O,
) -> RunEnd
    requires { IsEmpty cache.old (length cache.old.tags) }
    ensures runs { RunsTwo T.value T.width store.old store.new cache.old cache.new script.now
        (O.contents out.old) (O.contents out.new) result }
    ensures unchanged { result ≢ RunEnd.Write → O.faults out.new ≡ O.faults out.old }
    ensures cause { HasCause (result ≡ RunEnd.Write) (O.faults out.old) (O.faults out.new) }
{
    let window = Window::whole(&store.header().shape);
    let mut pair = Pair {
        store,
        cache,
        window,
    };
    match run_lines(&mut pair, script, out) {
        Ok(refused) => {
            Changing::<T>::flush_all(&mut pair);
            end_of(refused)
        }
        Err(_) => RunEnd::Write,
    }
}
