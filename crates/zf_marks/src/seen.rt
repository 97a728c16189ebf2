//! What was seen of a file, and whether it is the same one still.

ghost use Rattle.std.specs.Prelude.{◌≡◌, ◌↔◌, ◌⊎◌, IsTrue};
ghost use Rattle.zf_marks.specs.declared.seen.Seen.TheVariants as seeing;

use std::fs::Metadata;
use std::os::unix::fs::MetadataExt;

/// What tells a file from each other one, and from what it was. The first time is that of its bytes, which can be
/// put back; the second one is that of its last change of any kind, which can't.
#[derive(Clone, Copy, PartialEq, Eq)]
pub struct Mark {
    pub device: u64,
    pub number: u64,
    pub len: u64,
    pub written: i64,
    pub changed: i64,
}

impl Mark {
    /// Whether this is the same file with as many bytes as that one, of the same time.
    pub fn is_of_same_bytes(self, other: Mark) -> bool
        ensures { IsTrue result ↔ ((self.device ≡ other.device) × (self.number ≡ other.number)
            × (self.len ≡ other.len) × (self.written ≡ other.written)) }
    {
        let changed = other.changed;
        Mark { changed, ..self } == other
    }
}

// A time in nanoseconds.
fn nanos_of(seconds: i64, nanos: i64) -> i64 {
    seconds.wrapping_mul(1_000_000_000).wrapping_add(nanos)
}

/// What lay at a name when it was loaded or saved last.
#[derive(Clone, Copy, PartialEq, Eq)]
pub enum Seen {
    /// It was neither loaded nor saved.
    Unasked,
    Nothing,
    File(Mark),
}

impl Seen {
    pub fn file(found: &Metadata) -> Seen {
        Seen::File(Mark {
            device: found.dev(),
            number: found.ino(),
            len: found.len(),
            written: nanos_of(found.mtime(), found.mtime_nsec()),
            changed: nanos_of(found.ctime(), found.ctime_nsec()),
        })
    }

    /// Whether a new file may take the place of what is found there.
    pub fn allows(self, found: Seen) -> bool
        ensures { IsTrue result ↔ ((self ≡ seeing.Unasked) ⊎ (self ≡ found)) }
    {
        self == Seen::Unasked || self == found
    }
}
