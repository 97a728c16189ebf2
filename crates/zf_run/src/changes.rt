//! Changes of an array that need the array itself: through the window, and of its shape.

ghost use Rattle.std.specs.Prelude.{◌≡◌, true, false, length, IfSome, IfNone};
ghost use Rattle.zf_spec.specs.Grid.{IsShape};
ghost use Rattle.zf_base.specs.Positions.{used_axes, with_unused};
ghost use Rattle.zf_header.specs.HeaderBits.{block_bits};
ghost use Rattle.zf_cached.specs.Commands.{Command};
ghost use Rattle.zf_cached.specs.Windows.{LiesIn};
ghost use Rattle.zf_cached.specs.Steps.{is_new_shape};
ghost use Rattle.zf_array.specs.Standing.{shape};
ghost use Rattle.zf_commands.specs.Kinds.{array_cmd, asked, IsPlain};
ghost use Rattle.zf_commands.specs.Steps.{HasWindow, Does, said};
ghost use Rattle.zf_run.specs.Sessions.{setting_of, session_of, start_of, IsArray, StillArray};

use zf_array::Array;
use zf_base::{Lane, Pos, Shape};
use zf_commands::{ArrayCmd, of_type};
use zf_header::{Header, MAX_FILE, Mode, rate_bytes};
use zf_script::{Refusal, Reply};
use zf_view::Window;

/// What a command does that changes a value through the window, or the sizes.
pub(crate) fn change_array<T: Lane, const D: usize>(
    a: &mut Array<T, D>,
    window: &mut Window,
    cmd: ArrayCmd,
) -> Option<Reply>
    requires array { IsArray T.width D a.old.header }
    requires window { HasWindow (session_of a.old window.old) }
    requires plain { IsPlain (session_of a.old window.old) (array_cmd cmd) }
    ensures does { Does (setting_of T.width a.old) (asked (session_of a.old window.old) (array_cmd cmd))
        (session_of a.old window.old) (session_of a.new window.new) (said result) }
    ensures kept { StillArray T.width D a.old a.new }
{
    match cmd {
        ArrayCmd::Set(p, v) => vset(a, window, p, v),
        ArrayCmd::Resize(count, sizes) => resize(a, window, count, sizes),
    }
}

// `vset P v`: makes the value at a position of the window be `v`.
fn vset<T: Lane, const D: usize>(
    a: &mut Array<T, D>,
    window: &Window,
    p: Pos,
    v: i128,
) -> Option<Reply>
    requires array { IsArray T.width D a.old.header }
    requires inside { LiesIn (shape a.old) window.now }
    requires unused { p ≡ with_unused 0 (used_axes (length (shape a.old)) p) }
    ensures does { Does (setting_of T.width a.old) (Command.vset (used_axes (length (shape a.old)) p) v)
        (session_of a.old window.now) (session_of a.new window.now) (said result) }
    ensures kept { StillArray T.width D a.old a.new }
{
    if !window.contains(p) {
        return Some(Reply::Refused(Refusal::Range));
    }
    let Some(v) = of_type(v) else {
        return Some(Reply::Refused(Refusal::Value));
    };
    a.set(window.map(p), v);
    None
}

// `resize S`: zeros of another shape; the window is the whole array.
fn resize<T: Lane, const D: usize>(
    a: &mut Array<T, D>,
    window: &mut Window,
    count: u8,
    sizes: Pos,
) -> Option<Reply>
    requires array { IsArray T.width D a.old.header }
    requires inside { LiesIn (shape a.old) window.old }
    requires count { length (used_axes count sizes) ≡ count }
    ensures does { Does (setting_of T.width a.old) (Command.resize (used_axes count sizes))
        (session_of a.old window.old) (session_of a.new window.new) (said result) }
    ensures kept { StillArray T.width D a.old a.new }
{
    let Some(shape) = new_shape(a, count, sizes) else {
        return Some(Reply::Refused(Refusal::Size));
    };
    match a.resize(shape) {
        Ok(()) => {
            *window = Window::whole(&shape);
            None
        }
        Err(_) => Some(Reply::Refused(Refusal::Memory)),
    }
}

// The shape of these sizes, where an array may be resized to it: it has as many dimensions, and there is room
// for it in a file.
fn new_shape<T: Lane, const D: usize>(a: &Array<T, D>, count: u8, sizes: Pos) -> Option<Shape>
    requires { length (used_axes count sizes) ≡ count }
    ensures shape { IfSome result (λ ns. (ns ≡ used_axes count sizes) × (length ns ≡ D) × IsShape ns) }
    ensures rate { IfSome result (λ ns. a.now.header.mode ≡ Mode.Rate (block_bits a.now.header.mode)) }
    ensures some { IfSome result (λ ns. is_new_shape (setting_of T.width a.now) (start_of a.now)
        (used_axes count sizes) ≡ true) }
    ensures none { IfNone result (is_new_shape (setting_of T.width a.now) (start_of a.now)
        (used_axes count sizes) ≡ false) }
{
    if count != a.shape().dims() {
        return None;
    }
    let Ok(shape) = Shape::new(count, sizes.x, sizes.y, sizes.z, sizes.w) else {
        return None;
    };
    let header = Header {
        ty: T::TY,
        shape,
        mode: Mode::Rate(a.bits()),
    };
    if rate_bytes(&header) > MAX_FILE {
        return None;
    }
    Some(shape)
}
