//! How the program ends.

ghost use Rattle.std.specs.Prelude.{◌≡◌, ◌↔◌, IsTrue};
ghost use Rattle.zf_program.specs.Faults.{fault_status, narrow_status, load_status, index_status, take_status};
ghost use Rattle.zf_program.specs.Statuses.{code_of};
ghost use Rattle.zf_program.specs.Sending.{IsDone};

use zf_dev::{LoadError, TakeError};
use zf_header::HeaderFault;
use zf_index::IndexFault;
use zf_narrow::NarrowFault;
use zf_stream::StreamFault;

/// How the program ends. Each status but `Done` has a line for the error output.
#[derive(Clone, Copy, PartialEq, Eq)]
pub enum Status {
    /// The whole work was done.
    Done,
    /// This many lines of the script were refused, at least one. All else was done.
    Lines(u64),
    /// The words are no command. It is the number, from 0, of the first word that fits none, or of words
    /// where more are missing.
    Usage(u64),
    /// The raw values end after this many bytes, fewer than the shape needs.
    RawShort(u64),
    /// There is a byte more than the shape needs.
    RawLong,
    /// The stream has no header that is read.
    Header(HeaderFault),
    /// The code of this block is the first that ends too early; the number of blocks where only fill bits are
    /// missing.
    Truncated(u64),
    /// A bit of the fill is one.
    Pad,
    /// A byte follows the stream.
    Trailing,
    /// The file is a stream of the mode with this number, and no array's.
    NotRate(u16),
    /// The values of the stream are not int32, and stand for no narrow ones.
    NotNarrow,
    /// There is no file of that name.
    Missing,
    /// The script has more bytes than a script may have.
    ScriptLong,
    /// The file has more bytes than a file may have.
    FileLong,
    /// The source failed.
    ReadFault,
    /// The sink failed.
    WriteFault,
    /// The shelf failed to load.
    LoadFault,
    /// The shelf failed to save. Nothing is known of the file of that name.
    SaveFault,
    /// There was no memory.
    Memory,
}

impl Status {
    /// The exit code of the process.
    pub fn code(&self) -> u8
        ensures { result ≡ code_of self.now }
    {
        match *self {
            Status::Done => 0,
            Status::Lines(_) => 1,
            Status::Usage(_) => 2,
            Status::RawShort(_) | Status::RawLong => 3,
            Status::Header(_) => 4,
            Status::Truncated(_) | Status::Pad | Status::Trailing => 5,
            Status::NotRate(_) => 6,
            Status::Missing => 7,
            Status::ScriptLong => 8,
            Status::FileLong => 9,
            Status::ReadFault => 10,
            Status::WriteFault => 11,
            Status::LoadFault | Status::SaveFault => 12,
            Status::NotNarrow => 13,
            Status::Memory => 20,
        }
    }

    /// Whether the whole work was done.
    pub fn is_done(&self) -> bool
        ensures { IsTrue result ↔ IsDone self.now }
    {
        match *self {
            Status::Done | Status::Lines(_) => true,
            _ => false,
        }
    }
}

impl From<StreamFault> for Status {
    ghost from_gives = { λ fault status. status ≡ fault_status fault };

    fn from(fault: StreamFault) -> Status {
        match fault {
            StreamFault::RawShort(bytes) => Status::RawShort(bytes),
            StreamFault::RawLong => Status::RawLong,
            StreamFault::Header(fault) => Status::Header(fault),
            StreamFault::Truncated(block) => Status::Truncated(block),
            StreamFault::Pad => Status::Pad,
            StreamFault::Trailing => Status::Trailing,
            StreamFault::Read => Status::ReadFault,
            StreamFault::Write => Status::WriteFault,
            StreamFault::Memory => Status::Memory,
        }
    }
}

impl From<NarrowFault> for Status {
    ghost from_gives = { λ fault status. status ≡ narrow_status fault };

    fn from(fault: NarrowFault) -> Status {
        match fault {
            NarrowFault::NotNarrow => Status::NotNarrow,
            NarrowFault::Stream(fault) => Status::from(fault),
        }
    }
}

impl From<LoadError> for Status {
    ghost from_gives = { λ error status. status ≡ load_status error };

    fn from(error: LoadError) -> Status {
        match error {
            LoadError::Missing => Status::Missing,
            LoadError::Long => Status::FileLong,
            LoadError::Failed => Status::LoadFault,
            LoadError::Memory => Status::Memory,
        }
    }
}

impl From<IndexFault> for Status {
    ghost from_gives = { λ fault status. status ≡ index_status fault };

    fn from(fault: IndexFault) -> Status {
        match fault {
            IndexFault::Truncated(block) => Status::Truncated(block),
            IndexFault::Pad => Status::Pad,
            IndexFault::Trailing => Status::Trailing,
            IndexFault::Memory => Status::Memory,
        }
    }
}

impl From<TakeError> for Status {
    ghost from_gives = { λ error status. status ≡ take_status error };

    fn from(error: TakeError) -> Status {
        match error {
            TakeError::Long => Status::ScriptLong,
            TakeError::Failed => Status::ReadFault,
            TakeError::Memory => Status::Memory,
        }
    }
}
