//! `bound`: how far the values of a stream are from whatever was stored in it, as a line.

ghost use Rattle.std.specs.Prelude.{◌≡◌, ◌≢◌, ℕ, List, [], Option, IfOk, IfErr, OnOk};
ghost use Rattle.zf_header.specs.HeaderBits.{IsRate};
ghost use Rattle.zf_index.specs.Files.{HasHeader, stream_fault};
ghost use Rattle.zf_parse.specs.Parsing.{parse};
ghost use Rattle.zf_parse.specs.ReadStreams.{IsFault};
ghost use Rattle.zf_bound.specs.Bounds.{IsGood, certified_of};
ghost use Rattle.zf_words.specs.declared.command.Command.TheVariants.{Bound};
ghost use Rattle.zf_program.specs.World.{seen, counts};
ghost use Rattle.zf_program.specs.Fetching.{Fetches};
ghost use Rattle.zf_program.specs.Steps.{Steps};
ghost use Rattle.zf_program.specs.Calls.{Certifies};
ghost use Rattle.zf_program.specs.Headline.{Behaves, HasCauses};

use crate::commands::fetching::fetch;
use crate::commands::line::bound_line;
use crate::status::Status;
use std::alloc::Global;
use zf_base::Ty;
use zf_bound::Certified;
use zf_dev::{Shelf, Sink, write_all};
use zf_header::{Header, Mode, mode_number};
use zf_index::IndexFault;
use zf_words::Name;

/// Loads the file of this name, which is a stream of a fixed rate, and writes a line that says how far its
/// values are at most from whatever was stored in it, if that had magnitudes up to `most`. No file changes.
pub fn bound<O: Sink, F: Shelf>(
    alloc: Global,
    name: &Name,
    most: u64,
    out: &mut O,
    shelf: &mut F,
) -> Status
    ensures behaves { (src : Option (List ℕ)) → Behaves (Bound name.now most) result
        (seen src (O.contents out.old) (F.files shelf.old))
        (seen src (O.contents out.new) (F.files shelf.new)) }
    ensures causes { (src : ℕ) → HasCauses (Bound name.now most) result
        (counts src (O.faults out.old)) (counts src (O.faults out.new)) (Unit {0}) (Unit {0}) }
    ensures steps { Steps (Fetches F.fronts F.loads) F.saves F.faults (Bound name.now most)
        (λ bytes. bytes ≡ []) (O.contents out.old) (O.contents out.new) result shelf.old shelf.new }
    ensures sure_shelf { F.never_fails shelf.old → (result ≢ Status.LoadFault) × F.never_fails shelf.new }
    ensures sure_saves { F.always_saves shelf.old → (result ≢ Status.SaveFault) × F.always_saves shelf.new }
{
    match fetch(alloc, name, shelf) {
        Ok(file) => bound_file(alloc, name, most, &file, out),
        Err(status) => status,
    }
}

// Writes the line of a file that was loaded.
fn bound_file<O: Sink>(alloc: Global, name: &Name, most: u64, file: &[u8], out: &mut O) -> Status
    ensures { Certifies O.Sink name.now most file.now result out.old out.new }
{
    match zf_header::read(file) {
        Ok((header, _)) => match header.mode {
            Mode::Rate(_) => bound_stream(alloc, name, most, &header, file, out),
            mode => Status::NotRate(mode_number(&mode)),
        },
        Err(fault) => Status::Header(fault),
    }
}

// Writes the line of a stream with this header.
fn bound_stream<O: Sink>(
    alloc: Global,
    name: &Name,
    most: u64,
    header: &Header,
    file: &[u8],
    out: &mut O,
) -> Status
    requires header { HasHeader file.now header.now }
    requires rate { IsRate header.now.mode }
    ensures { Certifies O.Sink name.now most file.now result out.old out.new }
{
    match certified(alloc, header, file, most) {
        Ok(certified) => {
            let line = bound_line(&certified);
            match write_all(out, line.as_str().as_bytes()) {
                Ok(()) => Status::Done,
                Err(_) => Status::WriteFault,
            }
        }
        Err(fault) => Status::from(fault),
    }
}

// What is certified of a stream, in the type of its values.
fn certified(
    alloc: Global,
    header: &Header,
    file: &[u8],
    most: u64,
) -> Result<Certified, IndexFault>
    requires header { HasHeader file.now header.now }
    requires rate { IsRate header.now.mode }
    ensures good { OnOk result (IsGood file.now) }
    ensures certified { IfOk result (λ c. IfOk (parse file.now)
        (λ said. c ≡ certified_of header.now said.codes most)) }
    ensures fault { IfErr result (λ e. IsFault (parse file.now) (stream_fault e)) }
{
    match header.ty {
        Ty::I32 => zf_bound::bound::<i32>(alloc, header, file, most),
        Ty::I64 => zf_bound::bound::<i64>(alloc, header, file, most),
    }
}
