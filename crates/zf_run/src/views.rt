//! Commands on the private views of an array that is split.

ghost use Rattle.std.specs.Prelude.{◌≡◌, ◌<◌, length, IsTrue};
ghost use Rattle.zf_base.specs.Positions.{used_axes, with_unused};
ghost use Rattle.zf_cached.specs.Commands.{Command};
ghost use Rattle.zf_cached.specs.Acts.{Act};
ghost use Rattle.zf_cached.specs.Windows.{Window as Part};
ghost use Rattle.zf_cached.specs.Steps.{by_view, flushed_views, view_has};
ghost use Rattle.zf_array.specs.Standing.{shape};
ghost use Rattle.zf_commands.specs.Kinds.{view_cmd, asked, IsPlain};
ghost use Rattle.zf_run.specs.Sessions.{setting_of, start_of, kind, StillArray};
ghost use Rattle.zf_commands.specs.Steps.{said};
ghost use Rattle.zf_private.specs.Doing.{SitsOnAt, DoesAct};
ghost use Rattle.zf_private.specs.Standing.{block_at, place_at};
ghost use Rattle.zf_run.specs.Changes.{change_cmd, change_act};
ghost use Rattle.zf_run.specs.Splits.{split_session, AreParts, DoesAlone, ViewsObey};

use zf_array::{Array, Codes};
use zf_base::{Backing, Lane, Pos};
use zf_commands::{ViewCmd, of_type};
use zf_private::Private;
use zf_script::{Refusal, Reply};

/// How a value of a view is changed: another is put in its place, or a number is added to it.
#[derive(Clone, Copy)]
enum Change {
    Put,
    Add,
}

/// What a command on one view does. Each tests what it is refused for in the order of range and value.
pub(crate) fn on_view<T: Lane, const D: usize>(
    a: &mut Array<T, D>,
    views: &mut [Private<T, D>],
    i: u64,
    cmd: ViewCmd,
) -> Option<Reply>
    requires parts { AreParts T.value T.width D a.old views.old }
    requires plain { IsPlain (start_of a.old) (view_cmd i cmd) }
    ensures { ViewsObey T.value T.width D (asked (start_of a.old) (view_cmd i cmd)) (said result)
        a.old a.new views.old views.new }
{
    match cmd {
        ViewCmd::Get(p) => view_get(a, views, i, p),
        ViewCmd::Set(p, v) => view_change(a, views, i, p, v, Change::Put),
        ViewCmd::Add(p, v) => view_change(a, views, i, p, v, Change::Add),
        ViewCmd::Flush => view_flush(a, views, i),
        ViewCmd::Discard => view_discard(a, views, i),
        ViewCmd::Stats => view_stats(a, views, i),
    }
}

/// Flushes the views in order.
pub(crate) fn flush_views<T: Lane, const D: usize>(a: &mut Array<T, D>, views: &mut [Private<T, D>])
    requires { AreParts T.value T.width D a.old views.old }
    ensures flushed { (v : Part)
        → flushed_views (setting_of T.width a.old) (split_session T.value a.old views.old v)
        (length views.old)
        ≡ split_session T.value a.new views.new v }
    ensures kept { StillArray T.width D a.old a.new }
{
    for i in 0..views.len() {
        flush_view(a, views, i);
    }
}

// `@V get P`: the value at a position, by one touch.
fn view_get<T: Lane, const D: usize>(
    a: &mut Array<T, D>,
    views: &mut [Private<T, D>],
    i: u64,
    p: Pos,
) -> Option<Reply>
    requires parts { AreParts T.value T.width D a.old views.old }
    requires unused { p ≡ with_unused 0 (used_axes (length (shape a.old)) p) }
    ensures { ViewsObey T.value T.width D (Command.pget i (used_axes (length (shape a.old)) p)) (said result)
        a.old a.new views.old views.new }
{
    if !has_position(a, views, i, p) {
        return Some(Reply::Refused(Refusal::Range));
    }
    let value = views[i as usize].get(&mut Codes::bind(a), p);
    Some(Reply::Number(value.to_wide()))
}

// `@V set P v` or `@V add P v`: a value is put at a position, or added to the one there, by one touch for
// writing; a sum wraps.
fn view_change<T: Lane, const D: usize>(
    a: &mut Array<T, D>,
    views: &mut [Private<T, D>],
    i: u64,
    p: Pos,
    v: i128,
    change: Change,
) -> Option<Reply>
    requires parts { AreParts T.value T.width D a.old views.old }
    requires unused { p ≡ with_unused 0 (used_axes (length (shape a.old)) p) }
    ensures { ViewsObey T.value T.width D (change_cmd change i (used_axes (length (shape a.old)) p) v)
        (said result)
        a.old a.new views.old views.new }
{
    if !has_position(a, views, i, p) {
        return Some(Reply::Refused(Refusal::Range));
    }
    let Some(v) = of_type(v) else {
        return Some(Reply::Refused(Refusal::Value));
    };
    change_value(&mut views[i as usize], &mut Codes::bind(a), p, v, change);
    None
}

// Puts a value at a position of a view's own, or adds it there.
fn change_value<T: Lane, const D: usize, B: Backing<T>>(
    view: &mut Private<T, D>,
    back: &mut B,
    p: Pos,
    v: T,
    change: Change,
)
    requires sits { SitsOnAt B.Reading T.value view.old back.old p }
    ensures does { DoesAct B.Reading T.value T.width D
        (change_act change (block_at view.old p) (place_at view.old p) (T.value v))
        view.old back.old view.new back.new }
{
    match change {
        Change::Put => view.set(back, p, v),
        Change::Add => view.add(back, p, v),
    }
}

// `@V flush`: writes back what is dirty in a view, and empties its cache.
fn view_flush<T: Lane, const D: usize>(
    a: &mut Array<T, D>,
    views: &mut [Private<T, D>],
    i: u64,
) -> Option<Reply>
    requires parts { AreParts T.value T.width D a.old views.old }
    ensures { ViewsObey T.value T.width D (Command.pflush i) (said result)
        a.old a.new views.old views.new }
{
    if i >= views.len() as u64 {
        return Some(Reply::Refused(Refusal::Range));
    }
    flush_view(a, views, i as usize);
    None
}

// Writes back what is dirty in view `i`, and empties its cache.
fn flush_view<T: Lane, const D: usize>(a: &mut Array<T, D>, views: &mut [Private<T, D>], i: usize)
    requires parts { AreParts T.value T.width D a.old views.old }
    requires view { i < length views.old }
    ensures acts { (v : Part)
        → (by_view (setting_of T.width a.old) (split_session T.value a.old views.old v) i Act.flush).0
        ≡ split_session T.value a.new views.new v }
    ensures parts { AreParts T.value T.width D a.new views.new }
    ensures kept { kind a.new ≡ kind a.old }
{
    views[i].flush(&mut Codes::bind(a));
}

// `@V discard`: empties the cache of a view, and writes nothing back.
fn view_discard<T: Lane, const D: usize>(
    a: &Array<T, D>,
    views: &mut [Private<T, D>],
    i: u64,
) -> Option<Reply>
    requires parts { AreParts T.value T.width D a.now views.old }
    ensures { ViewsObey T.value T.width D (Command.pdiscard i) (said result)
        a.now a.now views.old views.new }
{
    if i >= views.len() as u64 {
        return Some(Reply::Refused(Refusal::Range));
    }
    views[i as usize].discard();
    None
}

// `@V stats`: the counts of a view.
fn view_stats<T: Lane, const D: usize>(
    a: &Array<T, D>,
    views: &[Private<T, D>],
    i: u64,
) -> Option<Reply>
    ensures { DoesAlone (setting_of T.width a.now) (Command.pstats i)
        (split_session T.value a.now views.now) (split_session T.value a.now views.now) (said result) }
{
    if i >= views.len() as u64 {
        return Some(Reply::Refused(Refusal::Range));
    }
    Some(Reply::Counts(views[i as usize].stats()))
}

// Whether there is a view with this number and such a position, and the view owns its block.
fn has_position<T: Lane, const D: usize>(
    a: &Array<T, D>,
    views: &[Private<T, D>],
    i: u64,
    p: Pos,
) -> bool
    requires parts { AreParts T.value T.width D a.now views.now }
    requires unused { p ≡ with_unused 0 (used_axes (length (shape a.now)) p) }
    ensures has { (v : Part)
        → result ≡ view_has (split_session T.value a.now views.now v) i (used_axes (length (shape a.now)) p) }
    ensures number { IsTrue result → i < length views.now }
{
    if i >= views.len() as u64 {
        return false;
    }
    let shape = a.shape();
    if !shape.contains(p) {
        return false;
    }
    let (b, _) = shape.place(p);
    views[i as usize].owns(b)
}
