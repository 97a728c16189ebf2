//! Commands on one value, at a position of the array or of the window. The parts of the target fit.

ghost use Rattle.std.specs.Prelude.{◌≡◌, ◌^◌, true, false, IfSome, IfNone};
ghost use Rattle.zf_base.specs.Positions.{with_unused};
ghost use Rattle.zf_cached.specs.Commands.{Command};
ghost use Rattle.zf_cached.specs.Steps.{is_of_type, value_there};
ghost use Rattle.zf_window.specs.Bounds.{IsUpTo};
ghost use Rattle.zf_commands.specs.Sittings.{place_in, block_in};
ghost use Rattle.zf_commands.specs.Calls.{IsReady, HasPosition, Leads, Obeys};
ghost use Rattle.zf_commands.specs.Steps.{Touches, said};

use crate::target::{Changing, Target};
use zf_base::{Lane, Pos};
use zf_script::{Refusal, Reply};

/// `get P`: the value at a position.
pub(crate) fn get<A: Target>(a: &mut A, p: Pos) -> Option<Reply>
    requires ready { IsReady A.Subject a.old }
    requires unused { p ≡ with_unused 0 (place_in (A.session a.old) p) }
    ensures { Obeys A.Subject (Command.get (place_in (A.session a.old) p)) (said result) a.old a.new }
{
    if !a.sizes().contains(p) {
        return Some(Reply::Refused(Refusal::Range));
    }
    Some(Reply::Number(number(a, p)))
}

/// `set P v`: makes the value at a position be `v`.
pub(crate) fn set<T: Lane, A: Changing<T>>(a: &mut A, p: Pos, v: i128) -> Option<Reply>
    requires ready { IsReady A.Subject a.old }
    requires unused { p ≡ with_unused 0 (place_in (A.session a.old) p) }
    ensures { Obeys A.Subject (Command.set (place_in (A.session a.old) p) v) (said result) a.old a.new }
{
    if !a.sizes().contains(p) {
        return Some(Reply::Refused(Refusal::Range));
    }
    let Some(v) = of_type::<T>(v) else {
        return Some(Reply::Refused(Refusal::Value));
    };
    a.put(p, v);
    None
}

/// `add P v`: adds `v` to the value at a position; the sum wraps.
pub(crate) fn add<T: Lane, A: Changing<T>>(a: &mut A, p: Pos, v: i128) -> Option<Reply>
    requires ready { IsReady A.Subject a.old }
    requires unused { p ≡ with_unused 0 (place_in (A.session a.old) p) }
    ensures { Obeys A.Subject (Command.add (place_in (A.session a.old) p) v) (said result) a.old a.new }
{
    if !a.sizes().contains(p) {
        return Some(Reply::Refused(Refusal::Range));
    }
    let Some(v) = of_type::<T>(v) else {
        return Some(Reply::Refused(Refusal::Value));
    };
    a.increase(p, v);
    None
}

/// `vget P`: the value at a position of the window.
pub(crate) fn vget<A: Target>(a: &mut A, p: Pos) -> Option<Reply>
    requires ready { IsReady A.Subject a.old }
    requires unused { p ≡ with_unused 0 (place_in (A.session a.old) p) }
    ensures { Obeys A.Subject (Command.vget (place_in (A.session a.old) p)) (said result) a.old a.new }
{
    let window = a.window();
    if !window.contains(p) {
        return Some(Reply::Refused(Refusal::Range));
    }
    // Known by this call: the sizes are those of a shape.
    let _dims = a.sizes().dims();
    Some(Reply::Number(number(a, window.map(p))))
}

/// The value at a position, by one touch.
#[inline]
pub(crate) fn number<A: Target>(a: &mut A, p: Pos) -> i128
    requires { HasPosition A.Subject p a.old }
    ensures touched { Leads A.Subject (λ k s t. Touches k (block_in s p) s t) a.old a.new }
    ensures value { result ≡ value_there (place_in (A.session a.old) p)
        ((A.session a.new).state.values (block_in (A.session a.old) p)) }
    ensures bound { IsUpTo (2 ^ 63) result }
{
    let (b, place) = a.sizes().place(p);
    a.value_at(b, place)
}

/// The value of the type that a number is.
pub fn of_type<T: Lane>(v: i128) -> Option<T>
    ensures value { IfSome result (λ a. T.value a ≡ v) }
    ensures some { IfSome result (λ a. is_of_type T.width v ≡ true) }
    ensures none { IfNone result (is_of_type T.width v ≡ false) }
{
    T::from_wide(v)
}
