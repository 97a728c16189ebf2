//! Commands on the window. The parts of the target fit.

ghost use Rattle.std.specs.Prelude.{length};
ghost use Rattle.zf_base.specs.Places.{block_number};
ghost use Rattle.zf_cached.specs.Commands.{Command};
ghost use Rattle.zf_cached.specs.Windows.{positions};
ghost use Rattle.zf_cached.specs.Steps.{value_there};
ghost use Rattle.zf_window.specs.WindowFields.{AreUnused};
ghost use Rattle.zf_commands.specs.Sittings.{place_in};
ghost use Rattle.zf_commands.specs.Calls.{IsReady, Leads, Obeys};
ghost use Rattle.zf_commands.specs.Steps.{Sums, said};

use crate::target::Target;
use zf_base::Pos;
use zf_script::{Refusal, Reply};
use zf_window::{PlaceWalk, Window};

/// `view P S T`: another window, with these origins, sizes and steps.
pub(crate) fn view<A: Target>(a: &mut A, origin: Pos, size: Pos, step: Pos) -> Option<Reply>
    requires ready { IsReady A.Subject a.old }
    requires unused { AreUnused (length (A.session a.old).shape) origin size step }
    ensures { Obeys A.Subject (Command.view (place_in (A.session a.old) origin)
        (place_in (A.session a.old) size) (place_in (A.session a.old) step)) (said result) a.old a.new }
{
    let Ok(part) = Window::new(&a.sizes(), origin, size, step) else {
        return Some(Reply::Refused(Refusal::Size));
    };
    a.use_window(part);
    None
}

/// `slice A I`: the window with one place of an axis.
pub(crate) fn slice<A: Target>(a: &mut A, axis: u64, at: u64) -> Option<Reply>
    requires { IsReady A.Subject a.old }
    ensures { Obeys A.Subject (Command.slice axis at) (said result) a.old a.new }
{
    let Some(part) = a.window().slice(axis, at) else {
        return Some(Reply::Refused(Refusal::Range));
    };
    a.use_window(part);
    None
}

/// The sum of the values of the window as the touches find them, by one touch each. At most 2^27 values of 64
/// bits have a sum far below 2^127.
pub(crate) fn sum_of_window<A: Target>(a: &mut A) -> i128
    requires { IsReady A.Subject a.old }
    ensures { Leads A.Subject
        (λ k s t. Sums k (block_number s.shape) value_there (positions s.window) s t result) a.old a.new }
{
    let window = a.window();
    let mut sum = 0;
    // Known by this call: a window has no more positions than its array has values.
    let shape = a.sizes();
    let _values = shape.values();
    let mut walk = PlaceWalk::new(&shape, &window);
    for number in 0..window.count() {
        let (b, place) = walk.step();
        sum += a.value_at(b, place);
    }
    sum
}
