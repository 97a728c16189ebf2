//! Where a file lies, what was seen there, and how another one is put in its place.

use crate::access::copy_access;
use crate::beside::{Beside, has_name};
use crate::claims::{Claim, Claims};
use crate::limits::{caller, most_bytes};
use crate::stack::grow;
use std::alloc::Global;
use std::fs::{File, Files, Metadata};
use std::io::{ErrorKind, Write};
use std::os::unix::fs::{FileExt, MetadataExt};
use std::path::Path;
use std::random::RandomSource;
use std::rt::Clock;
use std::time::Duration;
use std::{fs, io};
use zf_marks::{Seen, Sum};

// The most bytes that are compared at once.
const PIECE: usize = 4096;

// How often a save looks whether another one is done that has claimed the same file, a millisecond apart.
const MOST_TURNS: u32 = 500;

const LAST_TURN: u32 = MOST_TURNS - 1;

// After which of these looks a claim in which no name stands is barred.
const TURN_TO_BAR: u32 = 100;

// How many claims on one file are passed by.
const MOST_CLAIMS: u32 = 65_536;

// How often a file that nobody loaded is replaced anew, where another save came between.
const MOST_TRIES: u32 = 100;

// The most bytes of a file's name that the names beside it have, so that these are no longer than one may be.
const MOST_OF_BASE: usize = 200;

// How many links one behind another are followed, which is as many as the system follows.
const MOST_LINKS: u32 = 40;

// The bit of a folder in which files are renamed by owners alone.
const STICKY: u32 = 0o1000;

/// A file's name, and where it leads. All text that a save needs is made with it.
#[derive(Drop)]
pub struct Place {
    alloc: Global,
    name: String,
    path: String,
    folder: String,
    beside: Beside,
    claims: Claims,
    // Whether a link led there that a stranger may have made.
    is_strange: bool,
    seen: Seen,
    // What was seen. It is kept open, so that no new file gets its number, and its bytes can be compared.
    kept: Option<File>,
    // What its bytes add up to.
    sum: Sum,
}

impl Place {
    /// Where this name leads. A link is followed, and one that leads nowhere is an error.
    pub fn new<R: Files + RandomSource>(
        alloc: Global,
        system: &R,
        name: &str,
    ) -> io::Result<Place> {
        grow(alloc, system)?;
        let (path, is_strange) = led_to(alloc, system, name)?;
        let folder = folder_of(alloc, path.as_str())?;
        let base = Path::new(path.as_str()).file_name().unwrap_or("");
        let base = &base[..base.floor_char_boundary(base.len().min(MOST_OF_BASE))];
        let stem = format!(in alloc; ".{base}.zfpi-")?;
        let begin = format!(in alloc; ".{base}.zfpi@")?;
        let beside = Beside::new(alloc, folder.as_str(), stem.as_str())?;
        let claims = Claims::new(alloc, folder.as_str(), begin.as_str(), stem.as_str())?;
        Ok(Place {
            alloc,
            name: String::from_str(alloc, name)?,
            path,
            folder,
            beside,
            claims,
            is_strange,
            seen: Seen::Unasked,
            kept: None,
            sum: Sum::new(),
        })
    }

    pub fn is_of(&self, name: &str) -> bool {
        self.name.as_str() == name
    }

    /// Remembers that nothing lies there.
    pub fn see_nothing(&mut self) {
        self.seen = Seen::Nothing;
        self.kept = None;
    }

    /// Remembers that a file with these bytes lies there.
    pub fn see_file(&mut self, found: &Metadata, file: File, bytes: &[u8]) {
        self.seen = Seen::file(found);
        self.kept = Some(file);
        self.sum = Sum::new().with(bytes);
    }

    // Sees a file that was seen as it is found now, where nothing but its last change differs, as by another mode
    // or a second name, and its bytes are those that they were.
    fn see_again(&mut self, found: Seen) {
        if let Seen::File(was) = self.seen
            && let Seen::File(is) = found
            && was != is
            && was.is_of_same_bytes(is)
            && let Some(kept) = &self.kept
            && sum_of(kept) == Some(self.sum)
        {
            self.seen = found;
        }
    }

    // What lies there. What is no plain file is an error.
    fn look<R: Files>(&self, system: &R) -> io::Result<Seen> {
        match fs::symlink_metadata(system, self.path.as_str()) {
            Ok(found) if found.is_file() => Ok(Seen::file(&found)),
            Ok(_) => Err(io::Error::from(ErrorKind::Unsupported)),
            Err(e) if e.kind() == ErrorKind::NotFound => Ok(Seen::Nothing),
            Err(e) => Err(e),
        }
    }

    /// The file that lies there, if one does. What is no plain file is not opened.
    pub fn open<R: Files<File = File>>(&self, system: &R) -> io::Result<Option<File>> {
        if self.look(system)? == Seen::Nothing {
            return Ok(None);
        }
        let file = File::open(system, self.path.as_str())?;
        if !file.metadata()?.is_file() {
            return Err(io::Error::from(ErrorKind::Unsupported));
        }
        Ok(Some(file))
    }

    /// Makes `bytes` the file that lies there, where they are not what was seen last. Where another file lies
    /// there than was seen, it stays, and that is an error. After each error but one of the last step, which
    /// brings the folder to the disk, all is as it was.
    pub fn replace<R: Files<File = File> + Clock + RandomSource>(
        &mut self,
        system: &R,
        bytes: &[u8],
    ) -> io::Result<()> {
        // Nothing was changed, so nothing can be lost, whatever lies there now.
        if let Some(kept) = &self.kept
            && holds(kept, bytes)
        {
            return self.settle(system, kept);
        }
        if self.is_strange {
            return Err(io::Error::from(ErrorKind::PermissionDenied));
        }
        for _ in 0..MOST_TRIES {
            match self.replace_once(system, bytes) {
                // Who loaded nothing asks for no old file.
                Err(e) if e.kind() == ErrorKind::ResourceBusy && self.seen == Seen::Unasked => {}
                done => return done,
            }
        }
        Err(io::Error::from(ErrorKind::ResourceBusy))
    }

    fn replace_once<R: Files<File = File> + Clock + RandomSource>(
        &mut self,
        system: &R,
        bytes: &[u8],
    ) -> io::Result<()> {
        let old = self.open(system)?;
        let found = match &old {
            Some(file) => Seen::file(&file.metadata()?),
            None => Seen::Nothing,
        };
        self.see_again(found);
        // It is looked at again before the new file gets its name. Here the look saves the writing. That
        // another run came to the same bytes is no reason to go on: both may have added one to what they
        // loaded.
        if !self.seen.allows(found) {
            return Err(io::Error::from(ErrorKind::ResourceBusy));
        }
        if self.seen == Seen::Unasked
            && let Some(file) = &old
            && holds(file, bytes)
        {
            self.settle(system, file)?;
            self.seen = found;
            self.kept = old;
            self.sum = Sum::new().with(bytes);
            return Ok(());
        }
        self.put_new(system, found, old.as_ref(), bytes)
    }

    // Brings to the disk what lies there already, since another run may not have come to that yet. A folder
    // that may not be read is left to who wrote into it.
    fn settle<R: Files<File = File>>(&self, system: &R, file: &File) -> io::Result<()> {
        sync(file)?;
        match File::open(system, self.folder.as_str()) {
            Ok(folder) => sync(&folder),
            Err(_) => Ok(()),
        }
    }

    // Writes a new file beside, and puts it in the place of what was found.
    fn put_new<R: Files<File = File> + Clock + RandomSource>(
        &mut self,
        system: &R,
        found: Seen,
        old: Option<&File>,
        bytes: &[u8],
    ) -> io::Result<()> {
        // A write behind the limit of a file's length would end the process.
        if most_bytes(system) < bytes.len() as u64 {
            return Err(io::Error::from(ErrorKind::FileTooLarge));
        }
        let folder = File::open(system, self.folder.as_str())?;
        // Beside an old file it is nobody else's to read until it has the mode of that; a first one is by the
        // umask.
        let mode = if old.is_some() { 0o600 } else { 0o666 };
        let new = self.beside.make(system, mode)?;
        let made = match self.bring(system, &folder, &new, found, old, bytes) {
            Ok(made) => made,
            Err(e) => {
                self.beside.remove(system, &new);
                return Err(e);
            }
        };
        let _ = self.beside.sweep(system, self.folder.as_str(), &new, bytes);
        self.see_file(&made, new, bytes);
        sync(&folder)
    }

    // Fills the new file and puts it in its place, and tells of it as it was before that.
    fn bring<R: Files<File = File> + Clock>(
        &mut self,
        system: &R,
        folder: &File,
        new: &File,
        found: Seen,
        old: Option<&File>,
        bytes: &[u8],
    ) -> io::Result<Metadata> {
        fill(new, old, bytes)?;
        let made = new.metadata()?;
        self.place(system, folder, new, found, old)?;
        Ok(made)
    }

    // Puts the new file in the place of what was found, where nothing else lies there. A file that is the first
    // one gets its name by a second link, which fails where the name is taken. Where a system has no such
    // links, and over an old file, saves agree by claims.
    fn place<R: Files<File = File> + Clock>(
        &mut self,
        system: &R,
        folder: &File,
        new: &File,
        found: Seen,
        old: Option<&File>,
    ) -> io::Result<()> {
        let owners = owners(system, folder, new, old)?;
        match found {
            Seen::File(mark) => self.put_over(system, new, found, mark.number, owners),
            Seen::Nothing | Seen::Unasked => match self.put_first(system, new) {
                Err(e) if e.kind() != ErrorKind::ResourceBusy => {
                    self.put_over(system, new, Seen::Nothing, 0, owners)
                }
                put => put,
            },
        }
    }

    // Gives the new file the name where nothing has it.
    fn put_first<R: Files>(&self, system: &R, new: &File) -> io::Result<()> {
        match fs::hard_link(system, self.beside.path(), self.path.as_str()) {
            Ok(()) => {}
            // A system over a network may answer so to what it has done before.
            Err(e) if e.kind() == ErrorKind::AlreadyExists => {
                if !has_name(system, self.path.as_str(), new)? {
                    return Err(io::Error::from(ErrorKind::ResourceBusy));
                }
            }
            Err(e) => return Err(e),
        }
        self.beside.remove(system, new);
        Ok(())
    }

    // Claims what was found, looks whether it still lies there, and renames.
    //
    // The claims on one file have ranks, and each next one is made only once the file that the one before it
    // names is gone. So at most one save has both a claim and its file, and only that one can rename. No claim
    // is removed while what it claims lies there, and that is kept open, so that its number stays its own.
    // Whoever loses its file fails to rename, and knows it.
    fn put_over<R: Files<File = File> + Clock>(
        &mut self,
        system: &R,
        new: &File,
        found: Seen,
        number: u64,
        owners: Option<(u32, u32)>,
    ) -> io::Result<()> {
        let rank = self.claim(system, found, number, owners)?;
        if self.look(system)? != found {
            self.claims.remove(system);
            return Err(io::Error::from(ErrorKind::ResourceBusy));
        }
        self.rename(system, new)?;
        self.claims.remove(system);
        for rank in 0..rank {
            self.claims.at(number, rank);
            if matches!(
                self.claims.see(self.alloc, system, owners),
                Ok(Claim::Spent)
            ) {
                self.claims.remove(system);
            }
        }
        Ok(())
    }

    fn rename<R: Files>(&self, system: &R, new: &File) -> io::Result<()> {
        match fs::rename(system, self.beside.path(), self.path.as_str()) {
            // Another save has taken the file, or a system over a network has renamed it before.
            Err(e) if e.kind() == ErrorKind::NotFound => {
                if has_name(system, self.path.as_str(), new)? {
                    Ok(())
                } else {
                    Err(io::Error::from(ErrorKind::ResourceBusy))
                }
            }
            renamed => renamed,
        }
    }

    // Makes the first claim that is free, behind those that are spent, and answers its rank.
    fn claim<R: Files<File = File> + Clock>(
        &mut self,
        system: &R,
        found: Seen,
        number: u64,
        owners: Option<(u32, u32)>,
    ) -> io::Result<u32> {
        for rank in 0..MOST_CLAIMS {
            self.claims.at(number, rank);
            if self.claims.make(system, self.beside.base())? {
                return Ok(rank);
            }
            self.wait(system, found, owners)?;
        }
        Err(io::Error::from(ErrorKind::WouldBlock))
    }

    // Waits until a claim is spent. Its file is taken from a save that is dead, or takes too long, and a claim
    // in which no name comes to stand is barred.
    fn wait<R: Files<File = File> + Clock>(
        &mut self,
        system: &R,
        found: Seen,
        owners: Option<(u32, u32)>,
    ) -> io::Result<()> {
        for turn in 0..MOST_TURNS {
            match self.claims.see(self.alloc, system, owners)? {
                // A claim is removed only where its file was replaced.
                Claim::Gone => return Err(io::Error::from(ErrorKind::ResourceBusy)),
                Claim::Strange | Claim::Spent => return Ok(()),
                Claim::Nameless if turn == TURN_TO_BAR => self.claims.bar(system)?,
                Claim::Nameless => {}
                Claim::Held => {
                    if self.look(system)? != found {
                        return Err(io::Error::from(ErrorKind::ResourceBusy));
                    }
                    if turn == LAST_TURN || self.claims.is_dead(system) {
                        return self.claims.revoke(system);
                    }
                }
            }
            system.sleep(Duration::from_millis(1));
        }
        Err(io::Error::from(ErrorKind::WouldBlock))
    }
}

// The owners of the old file and of the folder, where these alone may rename the file. That this process is
// none of them is an error.
fn owners<R: Files>(
    system: &R,
    folder: &File,
    new: &File,
    old: Option<&File>,
) -> io::Result<Option<(u32, u32)>> {
    let of_folder = folder.metadata()?;
    if of_folder.mode() & STICKY == 0 {
        return Ok(None);
    }
    let owner = match old {
        Some(old) => old.metadata()?.uid(),
        None => new.metadata()?.uid(),
    };
    if let Some(user) = caller(system)
        && ![0, owner, of_folder.uid()].contains(&user)
    {
        return Err(io::Error::from(ErrorKind::PermissionDenied));
    }
    Ok(Some((owner, of_folder.uid())))
}

// The path to which a name leads, and whether a link led there that is neither root's, nor the caller's, nor of
// the owner of the folder that it lies in.
fn led_to<R: Files>(alloc: Global, system: &R, name: &str) -> io::Result<(String, bool)> {
    let mut path = String::from_str(alloc, name)?;
    let mut is_strange = false;
    for links in 0..MOST_LINKS {
        let found = match fs::symlink_metadata(system, path.as_str()) {
            Err(e) if links == 0 && e.kind() == ErrorKind::NotFound => return Ok((path, false)),
            found => found?,
        };
        if !found.is_symlink() {
            if links > 0 {
                path = system.canonicalize(alloc, path.as_str())?.into_string();
            }
            return Ok((path, is_strange));
        }
        let folder = folder_of(alloc, path.as_str())?;
        let owner = fs::metadata(system, folder.as_str())?.uid();
        let user = found.uid();
        is_strange = is_strange || user != 0 && user != owner && caller(system) != Some(user);
        path = behind_link(alloc, system, folder.as_str(), path.as_str())?;
    }
    Err(io::Error::from(ErrorKind::Unsupported))
}

// The path that a link in a folder says.
fn behind_link<R: Files>(
    alloc: Global,
    system: &R,
    folder: &str,
    link: &str,
) -> io::Result<String> {
    let target = system.read_link(alloc, link)?.into_string();
    if target.as_str().starts_with('/') {
        return Ok(target);
    }
    let target = target.as_str();
    Ok(format!(in alloc; "{folder}/{target}")?)
}

// The folder in which a path lies.
fn folder_of(alloc: Global, path: &str) -> io::Result<String> {
    let folder = match Path::new(path).parent() {
        Some(parent) if parent.as_str() != "" => parent.as_str(),
        _ => ".",
    };
    Ok(String::from_str(alloc, folder)?)
}

// Gives a new file its bytes, and then its group, owner and mode, and brings it to the disk.
fn fill(new: &File, old: Option<&File>, bytes: &[u8]) -> io::Result<()> {
    let mut to = new;
    to.write_all(bytes)?;
    if let Some(old) = old {
        copy_access(old, new)?;
    }
    new.sync_all()
}

// Brings a file or a folder to the disk. Some systems do not do that with each, and say so.
fn sync(file: &File) -> io::Result<()> {
    match file.sync_all() {
        Err(e) if matches!(e.kind(), ErrorKind::InvalidInput | ErrorKind::Unsupported) => Ok(()),
        synced => synced,
    }
}

// Whether these are the bytes of a file. One that cannot be read is taken for another.
fn holds(file: &File, bytes: &[u8]) -> bool {
    match file.metadata() {
        Ok(found) if found.len() == bytes.len() as u64 => {}
        _ => return false,
    }
    let mut room = [0; PIECE];
    let mut at = 0u64;
    for piece in bytes.chunks(PIECE) {
        let n = piece.len().min(PIECE);
        let part = &mut room[..n];
        if file.read_exact_at(part, at).is_err() || &*part != &piece[..n] {
            return false;
        }
        at = at.saturating_add(n as u64);
    }
    true
}

// What the bytes of a file add up to. One that cannot be read has no sum.
fn sum_of(file: &File) -> Option<Sum> {
    let len = file.metadata().ok()?.len();
    let mut room = [0; PIECE];
    let mut sum = Sum::new();
    let mut left = len;
    for piece in 0..len / PIECE as u64 + 1 {
        let part = &mut room[..left.min(PIECE as u64) as usize];
        file.read_exact_at(part, piece.saturating_mul(PIECE as u64))
            .ok()?;
        sum = sum.with(part);
        left = left.saturating_sub(PIECE as u64);
    }
    Some(sum)
}
