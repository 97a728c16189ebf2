//! The file of a stream.

ghost use Rattle.std.specs.Prelude.{◌≡◌, ◌≢◌, ℕ, List, Result, Err, IfOk, IfErr};
ghost use Rattle.zf_dev.specs.declared.faults.LoadError.{LoadError};
ghost use Rattle.zf_dev.specs.Faults.{HasCause};
ghost use Rattle.zf_dev.specs.Shelf.{KeepsFiles};
ghost use Rattle.zf_program.specs.declared.status.Status.TheVariants.{LoadFault};
ghost use Rattle.zf_program.specs.Loaded.{HoldsFile};
ghost use Rattle.zf_program.specs.Fetching.{Fetches, IsUnloaded, IsUnfetched, fetched, file_or_status};

use crate::status::Status;
use std::alloc::Global;
use zf_dev::Shelf;
use zf_header::{FULL_HEADER_BYTES, MAX_FILE};
use zf_words::Name;

/// The bytes of the file of this name. Its first bytes are looked at before it is loaded, so that a file which is no
/// stream is refused in no time, however long it is, and takes no memory.
pub fn fetch<F: Shelf>(alloc: Global, name: &Name, shelf: &mut F) -> Result<Vec<u8>, Status>
    ensures ok { IfOk result (λ file. HoldsFile (F.files shelf.old) name.now file.items) }
    ensures err { IfErr result (IsUnfetched (F.files shelf.old) name.now) }
    ensures files_stay { KeepsFiles (F.files shelf.old) (F.files shelf.new) }
    ensures cause { HasCause (result ≡ Err LoadFault) (F.faults shelf.old) (F.faults shelf.new) }
    ensures step { Fetches F.fronts F.loads shelf.old name.now (fetched result) shelf.new }
    ensures sure { F.never_fails shelf.old → (result ≢ Err LoadFault) × F.never_fails shelf.new }
    ensures sure_saves { F.always_saves shelf.old → F.always_saves shelf.new }
{
    match shelf.front(alloc, name.as_str(), MAX_FILE, FULL_HEADER_BYTES) {
        Ok(front) => match zf_header::read(&front) {
            Ok(_) => load(alloc, name, shelf),
            Err(fault) => Err(Status::Header(fault)),
        },
        Err(error) => Err(Status::from(error)),
    }
}

// The bytes of the file of this name, whose first bytes are those of a header.
fn load<F: Shelf>(alloc: Global, name: &Name, shelf: &mut F) -> Result<Vec<u8>, Status>
    ensures ok { IfOk result (λ file. HoldsFile (F.files shelf.old) name.now file.items) }
    ensures err { IfErr result (IsUnloaded (F.files shelf.old) name.now) }
    ensures files_stay { KeepsFiles (F.files shelf.old) (F.files shelf.new) }
    ensures cause { HasCause (result ≡ Err LoadFault) (F.faults shelf.old) (F.faults shelf.new) }
    ensures step { (file : Result (List ℕ) LoadError) × F.loads shelf.old name.now file shelf.new
        × (fetched result ≡ file_or_status file) }
    ensures sure { F.never_fails shelf.old → (result ≢ Err LoadFault) × F.never_fails shelf.new }
    ensures sure_saves { F.always_saves shelf.old → F.always_saves shelf.new }
{
    match shelf.load(alloc, name.as_str(), MAX_FILE) {
        Ok(file) => Ok(file),
        Err(error) => Err(Status::from(error)),
    }
}
