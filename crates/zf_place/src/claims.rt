//! Claims, by which a save says that its new file is the one that replaces an old one. A claim is a link with
//! the number of the old file in its name, and it names the new one. It is made in one step, by one save alone.
//!
//! A system that has no symbolic links gets a file with the name in it. That one is made in two steps, and its
//! maker may die between them. So whoever finds no name in it for long bars it, by a byte behind where the name
//! ends, and then reads it again; its maker looks for that byte after it wrote the name. One of both sees what
//! the other one did.

ghost use Rattle.std.specs.Prelude.{◌≡◌, ◌≤◌, ◌<◌, length};

use crate::beside::open_to_lock;
use std::alloc::Global;
use std::fs::{File, Files, Metadata, OpenOptions};
use std::io::{ErrorKind, Write};
use std::os::unix::fs::{FileExt, MetadataExt, OpenOptionsExt};
use std::{fs, io};
use zf_marks::{DIGITS, add_number, number_behind, put_number, take_number};

// More bytes than a claim has that is a file: a name in a folder, and what bars it.
const MOST: usize = 300;

/// The claims on a file, of which one at a time is looked at, and the new file that it names.
#[derive(Drop)]
pub(crate) struct Claims {
    // What the name of each new file begins with, in its folder.
    stem: String,
    // The path of the claim.
    path: String,
    // The path of the new file that it names.
    other: String,
}

/// What lies at the name of a claim.
#[derive(Clone, Copy, PartialEq, Eq)]
pub(crate) enum Claim {
    Gone,
    /// It is no save's.
    Strange,
    /// It is a file in which no name stands yet.
    Nameless,
    /// The file of the save that has it is gone: it was put in its place, or taken from it. Or its save never
    /// came to write a name.
    Spent,
    /// The file of the save that has it lies there.
    Held,
}

impl Claims {
    /// The claims that begin so, in this folder, by new files whose names begin with the stem.
    pub(crate) fn new(alloc: Global, folder: &str, begin: &str, stem: &str) -> io::Result<Claims> {
        Ok(Claims {
            stem: String::from_str(alloc, stem)?,
            path: format!(in alloc; "{folder}/{begin}0123456789abcdef0123456789abcdef")?,
            other: format!(in alloc; "{folder}/{stem}0123456789abcdef")?,
        })
    }

    /// Goes on to the claim of this rank on the file of this number.
    pub(crate) fn at(&mut self, number: u64, rank: u32) {
        take_number(&mut self.path);
        put_number(&mut self.path, u64::from(rank));
        add_number(&mut self.path, number);
    }

    /// Claims for the new file of this name, where nobody has this claim.
    pub(crate) fn make<R: Files<File = File>>(&self, system: &R, name: &str) -> io::Result<bool> {
        match system.symlink(name, self.path.as_str()) {
            Ok(()) => Ok(true),
            Err(e) if e.kind() == ErrorKind::AlreadyExists => Ok(false),
            Err(_) => self.make_file(system, name),
        }
    }

    // The same by a file. It stays where its name can't be written, since another save may have seen it.
    fn make_file<R: Files<File = File>>(&self, system: &R, name: &str) -> io::Result<bool> {
        let made = OpenOptions::new()
            .write(true)
            .create_new(true)
            .mode(0o600)
            .open(system, self.path.as_str());
        let mut file = match made {
            Ok(file) => file,
            Err(e) if e.kind() == ErrorKind::AlreadyExists => return Ok(false),
            Err(e) => return Err(e),
        };
        file.write_all(name.as_bytes())?;
        if file.metadata()?.len() != name.len() as u64 {
            return Err(io::Error::from(ErrorKind::ResourceBusy));
        }
        Ok(true)
    }

    /// What lies at this claim, and remembers whose file it names. In a folder where only owners rename, what
    /// belongs to others than these is strange.
    pub(crate) fn see<R: Files<File = File>>(
        &mut self,
        alloc: Global,
        system: &R,
        owners: Option<(u32, u32)>,
    ) -> io::Result<Claim> {
        match self.named(alloc, system, owners) {
            Ok(Ok(drawn)) => {
                put_number(&mut self.other, drawn);
                self.see_other(system, owners)
            }
            Ok(Err(claim)) => Ok(claim),
            Err(e) if e.kind() == ErrorKind::NotFound => Ok(Claim::Gone),
            Err(e) => Err(e),
        }
    }

    // The number in the name of the new file that this claim names, or what it is where it names none.
    fn named<R: Files<File = File>>(
        &self,
        alloc: Global,
        system: &R,
        owners: Option<(u32, u32)>,
    ) -> io::Result<Result<u64, Claim>> {
        let found = fs::symlink_metadata(system, self.path.as_str())?;
        if !may_rename(owners, &found) {
            return Ok(Err(Claim::Strange));
        }
        if found.is_symlink() {
            let target = match system.read_link(alloc, self.path.as_str()) {
                Err(e) if e.kind() == ErrorKind::InvalidFilename => return Ok(Err(Claim::Strange)),
                target => target?,
            };
            let drawn = number_behind(self.stem.as_str(), target.as_str().as_bytes());
            return Ok(drawn.ok_or(Claim::Strange));
        }
        if !found.is_file() {
            return Ok(Err(Claim::Strange));
        }
        self.named_in_file(&File::open(system, self.path.as_str())?, found.len())
    }

    fn named_in_file(&self, file: &File, len: u64) -> io::Result<Result<u64, Claim>> {
        let mut room = [0; MOST];
        let n = len.min(MOST as u64) as usize;
        file.read_exact_at(&mut room[..n], 0)?;
        let end = self.end_of_name().min(n);
        let begun = &room[..self.stem.len().min(n)];
        let claim = if n > end {
            Claim::Spent
        } else if n < self.end_of_name() && self.stem.as_bytes().starts_with(begun) {
            Claim::Nameless
        } else {
            Claim::Strange
        };
        Ok(number_behind(self.stem.as_str(), &room[..end]).ok_or(claim))
    }

    // Where the name ends in a claim that is a file.
    fn end_of_name(&self) -> usize {
        self.stem.len().saturating_add(DIGITS)
    }

    // Whether the new file that was named last lies there.
    fn see_other<R: Files>(&self, system: &R, owners: Option<(u32, u32)>) -> io::Result<Claim> {
        match fs::symlink_metadata(system, self.other.as_str()) {
            Ok(file) if file.is_file() && may_rename(owners, &file) => Ok(Claim::Held),
            Ok(_) => Ok(Claim::Strange),
            Err(e) if e.kind() == ErrorKind::NotFound => Ok(Claim::Spent),
            Err(e) => Err(e),
        }
    }

    /// Whether the save whose file was named last is known to be dead.
    pub(crate) fn is_dead<R: Files<File = File>>(&self, system: &R) -> bool {
        match open_to_lock(system, self.other.as_str()) {
            Ok(file) => file.try_lock().is_ok(),
            Err(_) => false,
        }
    }

    /// Takes its file from the save that was named last. From then on that save can put nothing in its place.
    pub(crate) fn revoke<R: Files>(&self, system: &R) -> io::Result<()> {
        match fs::remove_file(system, self.other.as_str()) {
            Err(e) if e.kind() == ErrorKind::NotFound => Ok(()),
            done => done,
        }
    }

    /// Bars a claim that is a file without a name.
    pub(crate) fn bar<R: Files<File = File>>(&self, system: &R) -> io::Result<()> {
        let file = open_to_lock(system, self.path.as_str())?;
        file.write_all_at(b"-", self.end_of_name() as u64)
    }

    /// Removes a claim on a file that has its name no more.
    pub(crate) fn remove<R: Files>(&self, system: &R) {
        let _ = fs::remove_file(system, self.path.as_str());
    }
}

// Whether the owner of this file may rename, where that is for owners alone.
fn may_rename(owners: Option<(u32, u32)>, found: &Metadata) -> bool {
    match owners {
        Some((of_file, of_folder)) => {
            let owner = found.uid();
            owner == 0 || owner == of_file || owner == of_folder
        }
        None => true,
    }
}
