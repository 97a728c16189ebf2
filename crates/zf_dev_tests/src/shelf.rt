//! The shelf of real files: two at once, what a save leaves beside, and what else a file is.

use std::fs::{File, Files, Permissions};
use std::os::unix::fs::{MetadataExt, PermissionsExt, symlink};
use std::test::Fail;
use std::{fs, io};
use zf_dev::{Failed, LoadError, RealShelf, Shelf};

/// One of two shelves, each of which stands for a run.
enum Who {
    One,
    Two,
}

use Who::{One, Two};

/// What a shelf does, what another program does, and what is there then.
enum Step {
    /// A file of at most nine bytes is loaded, or not.
    Load(Who, &'static str, Result<&'static [u8], LoadError>),
    Save(Who, &'static str, &'static [u8], Result<(), Failed>),
    /// A save by the first shelf, and the file stays the same one, with its time.
    Spare(&'static str, &'static [u8]),
    /// Another program makes a file or writes over it.
    Write(&'static str, &'static [u8]),
    /// Another save has this file, as its lock says, from now on.
    Hold(&'static str),
    Folder(&'static str),
    /// The second name leads to the first one, or is of the same file.
    Lead(&'static str, &'static str),
    Share(&'static str, &'static str),
    Mode(&'static str, u32),
    Remove(&'static str),
    /// A file has this mode, these bytes and so many names.
    IsFile(&'static str, u32, &'static [u8], u64),
    IsLink(&'static str),
    Lacks(&'static str),
}

use Step::{
    Folder, Hold, IsFile, IsLink, Lacks, Lead, Load, Mode, Remove, Save, Share, Spare, Write,
};

/// What a file is known by: its device, its number, and the time of its bytes.
fn mark<R: Files>(rt: &R, name: &str) -> Option<(u64, u64, i64, i64)> {
    let found = fs::symlink_metadata(rt, name).ok()?;
    Some((found.dev(), found.ino(), found.mtime(), found.mtime_nsec()))
}

fn hold<R: Files<File = File>>(rt: &R, name: &str) -> io::Result<File> {
    let file = File::create(rt, name)?;
    file.lock()?;
    Ok(file)
}

fn is_file<R: Files + AllocGlobal>(
    rt: &R,
    name: &str,
    mode: u32,
    bytes: &[u8],
    names: u64,
) -> io::Result<bool> {
    let found = fs::symlink_metadata(rt, name)?;
    let held = fs::read(rt, name)?;
    Ok(found.mode() & 0o777 == mode && found.nlink() == names && held.as_slice() == bytes)
}

fn is_loaded<R: AllocGlobal, S: Shelf>(
    rt: &R,
    shelf: &mut S,
    name: &str,
    answer: Result<&[u8], LoadError>,
) -> bool {
    match shelf.load(rt.alloc(), name, 9) {
        Ok(bytes) => answer == Ok(bytes.as_slice()),
        Err(e) => answer == Err(e),
    }
}

/// Two shelves, and a file that another save has.
#[derive(Drop)]
struct World<S> {
    one: S,
    two: S,
    held: Option<File>,
}

impl<S: Shelf> World<S> {
    /// Whether a step goes as it says.
    fn does<R: Files<File = File> + AllocGlobal>(&mut self, rt: &R, step: &Step) -> bool {
        match step {
            Load(One, name, answer) => is_loaded(rt, &mut self.one, name, *answer),
            Load(Two, name, answer) => is_loaded(rt, &mut self.two, name, *answer),
            Save(One, name, bytes, answer) => self.one.save(name, bytes) == *answer,
            Save(Two, name, bytes, answer) => self.two.save(name, bytes) == *answer,
            Spare(name, bytes) => {
                let before = mark(rt, name);
                self.one.save(name, bytes).is_ok() && before.is_some() && mark(rt, name) == before
            }
            Hold(name) => {
                self.held = hold(rt, name).ok();
                self.held.is_some()
            }
            _ => outside(rt, step).unwrap_or(false),
        }
    }
}

// A step without a shelf.
fn outside<R: Files + AllocGlobal>(rt: &R, step: &Step) -> io::Result<bool> {
    match step {
        Write(name, bytes) => fs::write(rt, *name, *bytes)?,
        Folder(name) => fs::create_dir(rt, *name)?,
        Lead(to, name) => symlink(rt, *to, *name)?,
        Share(of, name) => fs::hard_link(rt, *of, *name)?,
        Mode(name, mode) => fs::set_permissions(rt, *name, Permissions::from_mode(*mode))?,
        Remove(name) => {
            if fs::remove_file(rt, *name).is_err() {
                fs::remove_dir(rt, *name)?;
            }
        }
        IsFile(name, mode, bytes, names) => return is_file(rt, name, *mode, bytes, *names),
        IsLink(name) => return Ok(fs::symlink_metadata(rt, *name)?.is_symlink()),
        Lacks(name) => return Ok(fs::symlink_metadata(rt, *name).is_err()),
        _ => return Ok(false),
    }
    Ok(true)
}

// Each row leaves nothing behind. The files lie in a folder of their own: who runs the test may have the lock
// of the one that it runs in, and a save would wait for that.
static STEPS: [(&str, &[Step]); 9] = [
    (
        "a save where there was no file, and another one made it",
        &[
            Load(One, "shelf-t/d", Err(LoadError::Missing)),
            Save(Two, "shelf-t/d", b"two", Ok(())),
            Save(One, "shelf-t/d", b"one", Err(Failed)),
            Save(One, "shelf-t/d", b"two", Err(Failed)),
            Load(One, "shelf-t/d", Ok(b"two")),
            Remove("shelf-t/d"),
        ],
    ),
    (
        "a file that another run has saved stays, even where both saves are of the same bytes",
        &[
            Save(Two, "shelf-t/d", b"old", Ok(())),
            Load(One, "shelf-t/d", Ok(b"old")),
            Load(Two, "shelf-t/d", Ok(b"old")),
            Save(Two, "shelf-t/d", b"new", Ok(())),
            Save(Two, "shelf-t/d", b"next", Ok(())),
            Save(One, "shelf-t/d", b"next", Err(Failed)),
            Save(One, "shelf-t/d", b"mine", Err(Failed)),
            Load(Two, "shelf-t/d", Ok(b"next")),
            Lacks("shelf-t/.d.new"),
            Save(One, "shelf-t/d", b"old", Ok(())),
            Load(One, "shelf-t/d", Ok(b"next")),
            Save(One, "shelf-t/d", b"mine", Ok(())),
            Save(Two, "shelf-t/d", b"next", Ok(())),
            Save(Two, "shelf-t/d", b"late", Err(Failed)),
            Load(Two, "shelf-t/d", Ok(b"mine")),
            Remove("shelf-t/d"),
        ],
    ),
    (
        "a file that was written over, or removed",
        &[
            Write("shelf-t/d", b"old"),
            Load(One, "shelf-t/d", Ok(b"old")),
            Write("shelf-t/d", b"longer"),
            Save(One, "shelf-t/d", b"new", Err(Failed)),
            Load(One, "shelf-t/d", Ok(b"longer")),
            Remove("shelf-t/d"),
            Save(One, "shelf-t/d", b"new", Err(Failed)),
            Save(One, "shelf-t/d", b"longer", Ok(())),
            Lacks("shelf-t/d"),
            Lacks("shelf-t/.d.new"),
        ],
    ),
    (
        "the bytes that are there are not written again",
        &[
            Save(Two, "shelf-t/d", b"same", Ok(())),
            Spare("shelf-t/d", b"same"),
            Spare("shelf-t/d", b"same"),
            Load(One, "shelf-t/d", Ok(b"same")),
            Spare("shelf-t/d", b"same"),
            Save(One, "shelf-t/d", b"sane", Ok(())),
            Spare("shelf-t/d", b"sane"),
            Remove("shelf-t/d"),
        ],
    ),
    (
        "what dead saves left goes, but not what another one has, what begins otherwise, or is no file",
        &[
            Write("shelf-t/.d.new", b"mine"),
            Write("shelf-t/.d.zfpi-0000000000000000", b"mine"),
            Write("shelf-t/.d.zfpi-00000000000000f", b"fir"),
            Write("shelf-t/.d.zfpi-0123456789abcdef", b"first, and longer"),
            Write("shelf-t/.d.zfpi-ffffffffffffffff", b"fir"),
            Save(One, "shelf-t/d", b"first", Ok(())),
            Lacks("shelf-t/.d.zfpi-0123456789abcdef"),
            Lacks("shelf-t/.d.zfpi-ffffffffffffffff"),
            IsFile("shelf-t/.d.new", 0o644, b"mine", 1),
            IsFile("shelf-t/.d.zfpi-0000000000000000", 0o644, b"mine", 1),
            IsFile("shelf-t/.d.zfpi-00000000000000f", 0o644, b"fir", 1),
            Folder("shelf-t/.d.zfpi-1111111111111111"),
            Hold("shelf-t/.d.zfpi-2222222222222222"),
            Mode("shelf-t/.d.zfpi-2222222222222222", 0o600),
            Write("shelf-t/.d.zfpi-3333333333333333", b""),
            Save(One, "shelf-t/d", b"next", Ok(())),
            Load(Two, "shelf-t/d", Ok(b"next")),
            Lacks("shelf-t/.d.zfpi-3333333333333333"),
            IsFile("shelf-t/.d.zfpi-2222222222222222", 0o600, b"", 1),
            Remove("shelf-t/.d.new"),
            Remove("shelf-t/.d.zfpi-0000000000000000"),
            Remove("shelf-t/.d.zfpi-00000000000000f"),
            Remove("shelf-t/.d.zfpi-1111111111111111"),
            Remove("shelf-t/.d.zfpi-2222222222222222"),
            Remove("shelf-t/d"),
        ],
    ),
    (
        "the mode stays, a second name keeps what it had",
        &[
            Write("shelf-t/d", b"first"),
            Mode("shelf-t/d", 0o604),
            Share("shelf-t/d", "shelf-t/e"),
            Load(One, "shelf-t/d", Ok(b"first")),
            Mode("shelf-t/d", 0o640),
            Save(One, "shelf-t/d", b"next", Ok(())),
            IsFile("shelf-t/d", 0o640, b"next", 1),
            IsFile("shelf-t/e", 0o640, b"first", 1),
            Remove("shelf-t/d"),
            Remove("shelf-t/e"),
        ],
    ),
    (
        "a link is followed into its folder, and one to nothing is no place",
        &[
            Folder("shelf-t/f"),
            Lead("f/d", "shelf-t/d"),
            Load(One, "shelf-t/d", Err(LoadError::Failed)),
            Save(One, "shelf-t/d", b"first", Err(Failed)),
            Lacks("shelf-t/f/d"),
            Write("shelf-t/f/d", b"first"),
            Write("shelf-t/f/.d.zfpi-0000000000000000", b"ne"),
            Mode("shelf-t/f/d", 0o600),
            Load(One, "shelf-t/d", Ok(b"first")),
            Save(One, "shelf-t/d", b"next", Ok(())),
            IsLink("shelf-t/d"),
            IsFile("shelf-t/f/d", 0o600, b"next", 1),
            Lacks("shelf-t/f/.d.zfpi-0000000000000000"),
            Remove("shelf-t/d"),
            Remove("shelf-t/f/d"),
            Remove("shelf-t/f"),
        ],
    ),
    (
        "what is no file takes no save",
        &[
            Folder("shelf-t/d"),
            Save(One, "shelf-t/d", b"new", Err(Failed)),
            Save(One, "shelf-t/d/none/d", b"new", Err(Failed)),
            Remove("shelf-t/d"),
            Save(One, "shelf-t/d/d", b"new", Err(Failed)),
            Lacks("shelf-t/.d.new"),
        ],
    ),
    (
        "a name that was loaded is a folder when it is saved",
        &[
            Write("shelf-t/d", b"old"),
            Load(One, "shelf-t/d", Ok(b"old")),
            Remove("shelf-t/d"),
            Folder("shelf-t/d"),
            Save(One, "shelf-t/d", b"new", Err(Failed)),
            Remove("shelf-t/d"),
        ],
    ),
];

#[test]
fn files_are_kept(rt: HostRuntime) -> Result<(), Fail> {
    fs::create_dir(&rt, "shelf-t")?;
    for (shows, steps) in STEPS.iter() {
        let mut world = World {
            one: RealShelf::new(rt.alloc(), &rt),
            two: RealShelf::new(rt.alloc(), &rt),
            held: None,
        };
        for (number, step) in steps.iter().enumerate() {
            assert!(rt; world.does(&rt, step), "{shows}: step {number}");
        }
    }
    fs::remove_dir(&rt, "shelf-t")?;
    Ok(())
}
