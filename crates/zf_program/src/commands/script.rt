//! `run` and `look`: a script on the array, or on the stream, of a file.

ghost use Rattle.std.specs.Prelude.{◌≡◌, ℕ, List, length};
ghost use Rattle.zf_base.specs.Widths.{width_of};
ghost use Rattle.zf_words.specs.declared.command.Access.{Access};
ghost use Rattle.zf_program.specs.Accesses.{IsAccess, command_on, admits};
ghost use Rattle.zf_program.specs.Subjects.{subject, IsFresh, HasRoom};
ghost use Rattle.zf_program.specs.Loaded.{IsAccessed, StandsFor};
ghost use Rattle.zf_program.specs.Rungs.{WorksOn, Answers};
ghost use Rattle.zf_program.specs.Calls.{Fulfils};

use crate::commands::fetching::fetch;
use crate::commands::scripts::MAX_SCRIPT;
use crate::commands::sending::send;
use crate::commands::target::{Loaded, Target};
use crate::status::Status;
use std::alloc::Global;
use zf_base::{Lane, Ty};
use zf_dev::{Shelf, Sink, Source, take_all};
use zf_header::{Mode, mode_number};
use zf_run::RunEnd;
use zf_words::{Access, Name};

/// Loads the file of this name, reads a script to its end, does with the file by this access what it says,
/// and hands the replies on. An array that was run on is then saved under the same name; no other file
/// changes.
pub fn script<S: Source, O: Sink, F: Shelf>(
    alloc: Global,
    name: &Name,
    access: Access,
    src: &mut S,
    out: &mut O,
    shelf: &mut F,
) -> Status
    requires { IsAccess access }
    ensures { Fulfils S.Source O.Sink F.Shelf (command_on access name.now) result src.old src.new
        out.old out.new shelf.old shelf.new }
{
    match fetch(alloc, name, shelf) {
        Ok(file) => on_file(alloc, name, access, file, src, out, shelf),
        Err(status) => status,
    }
}

// The same with the file that was loaded: reads its header.
fn on_file<S: Source, O: Sink, F: Shelf>(
    alloc: Global,
    name: &Name,
    access: Access,
    file: Vec<u8>,
    src: &mut S,
    out: &mut O,
    shelf: &mut F,
) -> Status
    requires { IsAccess access }
    ensures { WorksOn O.Sink F.Shelf S.Source (command_on access name.now) name.now file.items result
        src.old src.new out.old out.new shelf.old shelf.new }
{
    match zf_header::read(&file) {
        Ok((header, _)) => {
            if may_access(access, &header.mode) {
                let loaded = Loaded { header, file };
                on_header(alloc, name, access, loaded, src, out, shelf)
            } else {
                Status::NotRate(mode_number(&header.mode))
            }
        }
        Err(fault) => Status::Header(fault),
    }
}

// Whether a stream of this mode may be accessed so: an array has a fixed rate.
fn may_access(access: Access, mode: &Mode) -> bool
    ensures { result ≡ admits access mode.now }
{
    match access {
        Access::Run(_) => matches!(mode, Mode::Rate(_)),
        Access::Look(_) => true,
    }
}

// The same with the header of the file: chooses the type of its values.
fn on_header<S: Source, O: Sink, F: Shelf>(
    alloc: Global,
    name: &Name,
    access: Access,
    loaded: Loaded,
    src: &mut S,
    out: &mut O,
    shelf: &mut F,
) -> Status
    requires { IsAccessed access loaded }
    ensures { WorksOn O.Sink F.Shelf S.Source (command_on access name.now) name.now loaded.file.items result
        src.old src.new out.old out.new shelf.old shelf.new }
{
    match loaded.header.ty {
        Ty::I32 => on_type::<i32, S, O, F>(alloc, name, access, loaded, src, out, shelf),
        Ty::I64 => on_type::<i64, S, O, F>(alloc, name, access, loaded, src, out, shelf),
    }
}

// The same in the type: chooses the number of the dimensions.
fn on_type<T: Lane, S: Source, O: Sink, F: Shelf>(
    alloc: Global,
    name: &Name,
    access: Access,
    loaded: Loaded,
    src: &mut S,
    out: &mut O,
    shelf: &mut F,
) -> Status
    requires accessed { IsAccessed access loaded }
    requires same_type { T.width ≡ width_of loaded.header.ty }
    ensures { WorksOn O.Sink F.Shelf S.Source (command_on access name.now) name.now loaded.file.items result
        src.old src.new out.old out.new shelf.old shelf.new }
{
    match loaded.header.shape.dims() {
        1 => on_kind::<T, 1, S, O, F>(alloc, name, access, loaded, src, out, shelf),
        2 => on_kind::<T, 2, S, O, F>(alloc, name, access, loaded, src, out, shelf),
        3 => on_kind::<T, 3, S, O, F>(alloc, name, access, loaded, src, out, shelf),
        _ => on_kind::<T, 4, S, O, F>(alloc, name, access, loaded, src, out, shelf),
    }
}

// The same in the type and the number of dimensions: opens it.
fn on_kind<T: Lane, const D: usize, S: Source, O: Sink, F: Shelf>(
    alloc: Global,
    name: &Name,
    access: Access,
    loaded: Loaded,
    src: &mut S,
    out: &mut O,
    shelf: &mut F,
) -> Status
    requires accessed { IsAccessed access loaded }
    requires same_type { T.width ≡ width_of loaded.header.ty }
    requires dims { length loaded.header.shape ≡ D }
    ensures { WorksOn O.Sink F.Shelf S.Source (command_on access name.now) name.now loaded.file.items result
        src.old src.new out.old out.new shelf.old shelf.new }
{
    match Target::<T, D>::open(alloc, access, loaded) {
        Ok(target) => {
            let mut target = target;
            let status = on_target(alloc, name, &mut target, src, out, shelf);
            // Said as a call: the end of a scope would be proved with each part that is given back.
            drop(target);
            status
        }
        Err(status) => status,
    }
}

// The same with what the script works on: reads the script.
fn on_target<T: Lane, const D: usize, S: Source, O: Sink, F: Shelf>(
    alloc: Global,
    name: &Name,
    target: &mut Target<T, D>,
    src: &mut S,
    out: &mut O,
    shelf: &mut F,
) -> Status
    requires fresh { IsFresh target.old }
    requires room { HasRoom target.old }
    ensures { (access : Access) (file : List ℕ) → StandsFor (subject T.value T.width target.old) access file
        → WorksOn O.Sink F.Shelf S.Source (command_on access name.now) name.now file result
        src.old src.new out.old out.new shelf.old shelf.new }
{
    match take_all(alloc, src, MAX_SCRIPT) {
        Ok(script) => on_script(alloc, name, target, &script, out, shelf),
        Err(error) => Status::from(error),
    }
}

// The same with the script: runs it, hands the replies on, and saves what is to be saved.
fn on_script<T: Lane, const D: usize, O: Sink, F: Shelf>(
    alloc: Global,
    name: &Name,
    target: &mut Target<T, D>,
    script: &[u8],
    out: &mut O,
    shelf: &mut F,
) -> Status
    requires fresh { IsFresh target.old }
    requires room { HasRoom target.old }
    ensures { (access : Access) (file : List ℕ) → StandsFor (subject T.value T.width target.old) access file
        → Answers O.Sink F.Shelf (command_on access name.now) name.now file script.now result
        out.old out.new shelf.old shelf.new }
{
    match target.run(alloc, script, out) {
        RunEnd::Done => target.close(name, Status::Done, out, shelf),
        RunEnd::Lines(count) => target.close(name, Status::Lines(count), out, shelf),
        RunEnd::Write => send(Status::WriteFault, out),
    }
}
