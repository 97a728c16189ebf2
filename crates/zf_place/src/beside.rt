//! The files that saves write before these get their name. Each has a name that is drawn, and that no command
//! can name. It is locked while its save runs, so that one without a lock is what a killed save has left.

ghost use Rattle.std.specs.Prelude.{◌≡◌, ◌≤◌, ◌<◌, length};

use std::alloc::Global;
use std::fs::{File, Files, OpenOptions, TryLockError};
use std::io::{ErrorKind, Read};
use std::os::unix::fs::{FileExt, MetadataExt, OpenOptionsExt};
use std::random::RandomSource;
use std::{fs, io};
use zf_marks::{number_behind, put_number};

// How often another name is drawn, where one is taken.
const MOST_NAMES: u32 = 16;

// How long a file whose writer is not known to be dead must lie, in seconds, until it is taken for left.
const A_DAY: i64 = 86_400;

// How much of a folder is read at once.
const PIECE: usize = 4096;

// How many pieces of a folder are read.
const MOST_PIECES: u32 = 65_536;

/// The names that a save may give to its new file, and the one that it has. With them all text is made that a
/// save needs.
#[derive(Drop)]
pub(crate) struct Beside {
    // What each of these names begins with, in its folder.
    stem: String,
    // The new file: its name in its folder, and its path.
    base: String,
    path: String,
    // The path of what another save may have left.
    other: String,
}

impl Beside {
    /// The names that begin so, in this folder.
    pub(crate) fn new(alloc: Global, folder: &str, stem: &str) -> io::Result<Beside> {
        Ok(Beside {
            stem: String::from_str(alloc, stem)?,
            base: format!(in alloc; "{stem}0123456789abcdef")?,
            path: format!(in alloc; "{folder}/{stem}0123456789abcdef")?,
            other: format!(in alloc; "{folder}/{stem}0123456789abcdef")?,
        })
    }

    /// The name of the new file, in its folder.
    pub(crate) fn base(&self) -> &str {
        self.base.as_str()
    }

    /// Its path.
    pub(crate) fn path(&self) -> &str {
        self.path.as_str()
    }

    /// Makes a file that is nobody else's, and locks it, where there are locks.
    pub(crate) fn make<R: Files<File = File> + RandomSource>(
        &mut self,
        system: &R,
        mode: u32,
    ) -> io::Result<File> {
        for _ in 0..MOST_NAMES {
            let mut drawn = [0; 8];
            system.fill_bytes(&mut drawn)?;
            let drawn = u64::from_le_bytes(drawn);
            put_number(&mut self.base, drawn);
            put_number(&mut self.path, drawn);
            if let Some(file) = make(system, self.path.as_str(), mode)? {
                return Ok(file);
            }
        }
        Err(io::Error::from(ErrorKind::AlreadyExists))
    }

    /// Removes the new file of a save, where it still has its first name.
    pub(crate) fn remove<R: Files>(&self, system: &R, file: &File) {
        remove_own(system, self.path.as_str(), file);
    }

    /// Removes what killed saves of this name have left: files of the same owner with a name as it is drawn,
    /// that begin as these bytes do, and whose lock nobody has.
    pub(crate) fn sweep<R: Files<File = File>>(
        &mut self,
        system: &R,
        folder: &str,
        own: &File,
        bytes: &[u8],
    ) -> io::Result<()> {
        let own = own.metadata()?;
        let mut names = system.open_dir(folder)?;
        let mut room = [0; PIECE];
        for _ in 0..MOST_PIECES {
            let n = names.read(&mut room)?;
            if n == 0 {
                break;
            }
            for name in room[..n.min(PIECE)].split(|byte| *byte == 0) {
                if let Some(drawn) = number_behind(self.stem.as_str(), name) {
                    put_number(&mut self.other, drawn);
                    let other = self.other.as_str();
                    let _ = remove_left_over(system, other, own.uid(), own.mtime(), bytes);
                }
            }
        }
        Ok(())
    }
}

// Makes a file of this name and locks it. `None` where there is one, or another save took this one for left.
fn make<R: Files<File = File>>(system: &R, name: &str, mode: u32) -> io::Result<Option<File>> {
    let made = OpenOptions::new()
        .read(true)
        .write(true)
        .create_new(true)
        .mode(mode)
        .open(system, name);
    let file = match made {
        Ok(file) => file,
        Err(e) if e.kind() == ErrorKind::AlreadyExists => return Ok(None),
        Err(e) => return Err(e),
    };
    match is_locked_under(system, name, &file) {
        Ok(true) => Ok(Some(file)),
        Ok(false) => Ok(None),
        Err(e) => {
            remove_own(system, name, &file);
            Err(e)
        }
    }
}

// Locks a new file. Before that it may have been taken for left: then it has lost its name, or is about to.
fn is_locked_under<R: Files>(system: &R, name: &str, file: &File) -> io::Result<bool> {
    match file.try_lock() {
        Ok(()) => has_name(system, name, file),
        Err(TryLockError::WouldBlock) => Ok(false),
        Err(TryLockError::Error(_)) => Ok(true),
    }
}

/// Opens a file to be locked. Some systems over a network lock only what is open for writing.
pub(crate) fn open_to_lock<R: Files<File = File>>(system: &R, name: &str) -> io::Result<File> {
    OpenOptions::new().read(true).write(true).open(system, name)
}

// Removes what has this name, where it is surely what a dead save has left. Where the system has no locks, it
// must have lain for a day.
fn remove_left_over<R: Files<File = File>>(
    system: &R,
    name: &str,
    owner: u32,
    now: i64,
    bytes: &[u8],
) -> io::Result<()> {
    let found = fs::symlink_metadata(system, name)?;
    if !found.is_file() || found.uid() != owner {
        return Ok(());
    }
    let file = open_to_lock(system, name)?;
    let is_dead = match file.try_lock() {
        Ok(()) => true,
        Err(TryLockError::WouldBlock) => false,
        Err(TryLockError::Error(_)) => now.saturating_sub(found.mtime()) > A_DAY,
    };
    if is_dead && begins_as(&file, found.len(), bytes)? {
        remove_own(system, name, &file);
    }
    Ok(())
}

// Whether a file of so many bytes begins as these do, as far as its first four go.
fn begins_as(file: &File, len: u64, bytes: &[u8]) -> io::Result<bool> {
    let mut first = [0; 4];
    let part = &mut first[..len.min(4) as usize];
    file.read_exact_at(part, 0)?;
    Ok(bytes.starts_with(part))
}

// Removes this open file, where it still has this name.
fn remove_own<R: Files>(system: &R, name: &str, file: &File) {
    if has_name(system, name, file).unwrap_or(false) {
        let _ = fs::remove_file(system, name);
    }
}

/// Whether this open file has this name.
pub(crate) fn has_name<R: Files>(system: &R, name: &str, file: &File) -> io::Result<bool> {
    let own = file.metadata()?;
    match fs::symlink_metadata(system, name) {
        Ok(named) => Ok(named.dev() == own.dev() && named.ino() == own.ino()),
        Err(e) if e.kind() == ErrorKind::NotFound => Ok(false),
        Err(e) => Err(e),
    }
}
