//! A shelf over the files of the current folder. What the files hold is outside the program, so nothing is
//! told of it.

ghost use Rattle.std.specs.Prelude.{◌≡◌, ◌≢◌, ◌≤◌, ◌⊎◌, length, [], None, IfOk};
ghost use Rattle.std.specs.IoError.{error_kind};
ghost use Rattle.zf_dev.specs.declared.faults.LoadError.TheVariants as loading;
ghost use Rattle.zf_dev.specs.Faults.{next_count};
ghost use Rattle.zf_dev.specs.Real.{shelf_faults, count_of_load, count_of_save};

use crate::faults::raise;
use crate::{Failed, LoadError, Shelf};
use std::alloc::Global;
use std::fs::{File, Files};
use std::io;
use std::io::{ErrorKind, Read};
use std::random::RandomSource;
use std::rt::{Clock, LibcRuntime};
use zf_place::Place;

/// The files of the current folder as a shelf.
///
/// A file is saved under another name first, brought to the disk and then put in the place of the old one, so
/// that a save that fails or is killed leaves the old file. Of the name that was loaded or saved last it is
/// remembered what lay there: a save of that name is a fault, and changes nothing, where another file lies
/// there since. To save what was loaded changes no file, and is no fault then. A link is followed; one to
/// nothing, a folder, a device, a pipe and a file that may not be read are faults.
#[derive(Drop)]
pub struct RealShelf<R = LibcRuntime> {
    alloc: Global,
    system: R,
    faults: u64,
    place: Option<Place>,
}

impl<R> RealShelf<R> {
    pub fn new(alloc: Global, system: R) -> RealShelf<R>
        ensures { shelf_faults result ≡ 0 }
    {
        RealShelf {
            alloc,
            system,
            faults: 0,
            place: None,
        }
    }

    /// How many loads and saves failed.
    pub fn faults(&self) -> u64
        ensures { result ≡ shelf_faults self.now }
    {
        self.faults
    }
}

impl<R: Files<File = File> + Clock + RandomSource> Shelf for RealShelf<R> {
    ghost files = { λ _. None };

    ghost faults = { λ s. shelf_faults s };

    // A look, a load or a save raises the count once where it fails, and else not.
    ghost fronts = { λ old name count answer new. shelf_faults new ≡ count_of_load answer (shelf_faults old) };

    ghost loads = { λ old name answer new. shelf_faults new ≡ count_of_load answer (shelf_faults old) };

    ghost saves = { λ old name bytes ok new. shelf_faults new ≡ count_of_save ok (shelf_faults old) };

    ghost never_fails = { λ _. ⊥ };

    ghost always_saves = { λ _. ⊥ };

    fn front(
        &mut self,
        alloc: Global,
        name: &str,
        max: u64,
        count: usize,
    ) -> Result<Vec<u8>, LoadError> {
        match read_front(alloc, &self.system, name, max, count) {
            Ok(bytes) => Ok(bytes),
            Err(error) => Err(counted(error, &mut self.faults)),
        }
    }

    fn load(&mut self, alloc: Global, name: &str, max: u64) -> Result<Vec<u8>, LoadError> {
        match read_file(alloc, &self.system, name, max, &mut self.place) {
            Ok(bytes) => Ok(bytes),
            Err(error) => Err(counted(error, &mut self.faults)),
        }
    }

    fn save(&mut self, name: &str, bytes: &[u8]) -> Result<(), Failed> {
        match replace_file(self.alloc, &self.system, name, bytes, &mut self.place) {
            Ok(()) => Ok(()),
            Err(_) => {
                raise(&mut self.faults);
                Err(Failed)
            }
        }
    }
}

// Why a file was not loaded, once that is counted, where it is a fault.
fn counted(error: LoadError, faults: &mut u64) -> LoadError
    ensures same { result ≡ error }
    ensures quiet { error ≢ loading.Failed → faults.new ≡ faults.old }
    ensures rose { error ≡ loading.Failed → faults.new ≡ next_count faults.old }
    ensures either { (faults.new ≡ faults.old) ⊎ (faults.new ≡ next_count faults.old) }
    ensures kept { faults.old ≤ faults.new }
{
    match error {
        LoadError::Failed => raise(faults),
        LoadError::Missing | LoadError::Long | LoadError::Memory => {}
    }
    error
}

// The bytes of a file, where there are at most `max`, and what lies there for the next save.
fn read_file<R: Files<File = File> + RandomSource>(
    alloc: Global,
    system: &R,
    name: &str,
    max: u64,
    known: &mut Option<Place>,
) -> Result<Vec<u8>, LoadError>
    ensures bound { IfOk result (λ bytes. length bytes.items ≤ max) }
{
    let mut place = Place::new(alloc, system, name).map_err(load_error)?;
    match read_at(alloc, system, &mut place, max) {
        Ok(bytes) => {
            remember(known, place);
            Ok(bytes)
        }
        Err(LoadError::Missing) => {
            remember(known, place);
            Err(LoadError::Missing)
        }
        Err(error) => Err(error),
    }
}

// From here on the place is the one that is known.
fn remember(known: &mut Option<Place>, place: Place) {
    *known = Some(place);
}

// The bytes of the file that lies at a place, if these are at most `max`. The place remembers what lies
// there, or that nothing does.
fn read_at<R: Files<File = File>>(
    alloc: Global,
    system: &R,
    place: &mut Place,
    max: u64,
) -> Result<Vec<u8>, LoadError>
    ensures bound { IfOk result (λ bytes. length bytes.items ≤ max) }
{
    let Some(file) = place.open(system).map_err(load_error)? else {
        place.see_nothing();
        return Err(LoadError::Missing);
    };
    // Before the first byte is read, so that a file which changes meanwhile is found changed.
    let found = file.metadata().map_err(load_error)?;
    let bytes = read_whole(alloc, &file, found.len(), max)?;
    place.see_file(&found, file, &bytes);
    Ok(bytes)
}

// The bytes of a file that has so many, if these are at most `max`. Of a longer one none is read, nor is
// memory asked for it.
fn read_whole(alloc: Global, file: &File, len: u64, max: u64) -> Result<Vec<u8>, LoadError>
    ensures bound { IfOk result (λ bytes. length bytes.items ≤ max) }
{
    if len > max {
        return Err(LoadError::Long);
    }
    // Room for one byte more, so that the end is found without more room.
    let room = usize::try_from(len).map_err(|_| LoadError::Memory)?;
    let mut bytes = with_room(alloc, room.saturating_add(1))?;
    // A file that grows meanwhile may be too long then.
    file.take(max.saturating_add(1))
        .read_to_end(&mut bytes)
        .map_err(load_error)?;
    if bytes.len() as u64 > max {
        return Err(LoadError::Long);
    }
    Ok(bytes)
}

// No byte, and room for so many.
fn with_room(alloc: Global, room: usize) -> Result<Vec<u8>, LoadError>
    ensures { IfOk result (λ bytes. bytes.items ≡ []) }
{
    match Vec::with_capacity(alloc, room) {
        Ok(bytes) => Ok(bytes),
        Err(_) => Err(LoadError::Memory),
    }
}

// The first bytes of the file of this name, where it has at most `max`. No place is remembered for a save.
fn read_front<R: Files<File = File> + RandomSource>(
    alloc: Global,
    system: &R,
    name: &str,
    max: u64,
    count: usize,
) -> Result<Vec<u8>, LoadError>
    ensures bound { IfOk result (λ bytes. length bytes.items ≤ count) }
{
    let place = Place::new(alloc, system, name).map_err(load_error)?;
    match place.open(system).map_err(load_error)? {
        Some(file) => front_of(alloc, &file, max, count),
        None => Err(LoadError::Missing),
    }
}

// The first bytes of a file, where it has at most `max`.
fn front_of(alloc: Global, file: &File, max: u64, count: usize) -> Result<Vec<u8>, LoadError>
    ensures bound { IfOk result (λ bytes. length bytes.items ≤ count) }
{
    if file.metadata().map_err(load_error)?.len() > max {
        return Err(LoadError::Long);
    }
    // Room for one byte more, so that the end is found without more room.
    let mut bytes = with_room(alloc, count.saturating_add(1))?;
    file.take(count as u64)
        .read_to_end(&mut bytes)
        .map_err(load_error)?;
    bytes.truncate(count);
    Ok(bytes)
}

fn load_error(error: io::Error) -> LoadError
    ensures memory { error_kind error ≡ ErrorKind.OutOfMemory → result ≡ loading.Memory }
    ensures failed { error_kind error ≢ ErrorKind.OutOfMemory → result ≡ loading.Failed }
{
    if error.kind() == ErrorKind::OutOfMemory {
        LoadError::Memory
    } else {
        LoadError::Failed
    }
}

// Puts a new file in the place of the one of this name. A name that was not loaded needs memory for its text,
// before anything is written; to be out of it is an error as each other one.
fn replace_file<R: Files<File = File> + Clock + RandomSource>(
    alloc: Global,
    system: &R,
    name: &str,
    bytes: &[u8],
    known: &mut Option<Place>,
) -> io::Result<()> {
    if let Some(place) = known
        && place.is_of(name)
    {
        return place.replace(system, bytes);
    }
    let mut place = Place::new(alloc, system, name)?;
    place.replace(system, bytes)?;
    remember(known, place);
    Ok(())
}
