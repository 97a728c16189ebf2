//! What the system allows this process, as its pages in /proc tell. Where it has none, no limit is known.

use std::fs::{File, Files};
use std::io::{ErrorKind, Read, Write};
use std::os::fd::AsRawFd;
use std::os::unix::fs::MetadataExt;
use std::{fs, io};

// The most bytes of a page that are looked at. What is looked for stands far before that.
const PAGE: usize = 4096;

const STDERR: i32 = 2;

/// The most bytes that a file may have which this process writes. A write behind them ends the process.
pub(crate) fn most_bytes<R: Files<File = File>>(system: &R) -> u64 {
    number_on(system, "/proc/self/limits", "Max file size").unwrap_or(u64::MAX)
}

/// The user as whom this process acts, where the system tells.
pub(crate) fn caller<R: Files>(system: &R) -> Option<u32> {
    match fs::metadata(system, "/proc/self") {
        Ok(found) => Some(found.uid()),
        Err(_) => None,
    }
}

/// A standard output whose writes behind the limit of a file's length are errors. The system would end the
/// process.
#[derive(Drop)]
pub struct WithinLimits<W, R> {
    stream: W,
    system: R,
    most: u64,
}

impl<W, R: Files<File = File>> WithinLimits<W, R> {
    /// The standard output, or that for errors, within the limit that holds now.
    pub fn new(stream: W, system: R) -> WithinLimits<W, R> {
        let most = most_bytes(&system);
        WithinLimits {
            stream,
            system,
            most,
        }
    }
}

impl<W: Write + AsRawFd, R: Files<File = File>> Write for WithinLimits<W, R> {
    fn write(&mut self, buf: &[u8]) -> io::Result<usize> {
        let most = buf
            .len()
            .min(room(&self.system, self.stream.as_raw_fd(), self.most));
        if most == 0 && !buf.is_empty() {
            return Err(io::Error::from(ErrorKind::FileTooLarge));
        }
        self.stream.write(&buf[..most])
    }

    fn flush(&mut self) -> io::Result<()> {
        self.stream.flush()
    }
}

// How many bytes more an output may be given. What is no file has no limit. Of a file the place counts, or its
// end where that is behind it, since an output may append.
fn room<R: Files<File = File>>(system: &R, number: i32, most: u64) -> usize {
    if most == u64::MAX {
        return usize::MAX;
    }
    let (stream, place) = pages_of(number);
    let end = match fs::metadata(system, stream) {
        Ok(found) if !found.is_file() => return usize::MAX,
        Ok(found) => found.len(),
        Err(_) => 0,
    };
    match number_on(system, place, "pos:") {
        Some(at) => usize::try_from(most.saturating_sub(at.max(end))).unwrap_or(usize::MAX),
        None => usize::MAX,
    }
}

// Where the system has an open output, and where it tells of its place.
fn pages_of(number: i32) -> (&'static str, &'static str) {
    if number == STDERR {
        ("/proc/self/fd/2", "/proc/self/fdinfo/2")
    } else {
        ("/proc/self/fd/1", "/proc/self/fdinfo/1")
    }
}

// The first number behind this word, in the line of a page that begins with it.
fn number_on<R: Files<File = File>>(system: &R, page: &str, word: &str) -> Option<u64> {
    let mut file = File::open(system, page).ok()?;
    let mut room = [0; PAGE];
    let n = file.read(&mut room).ok()?.min(PAGE);
    let text = str::from_utf8(&room[..n]).ok()?;
    for line in text.lines() {
        if let Some(rest) = line.strip_prefix(word) {
            return rest.split_whitespace().next()?.parse().ok();
        }
    }
    None
}
