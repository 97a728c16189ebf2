//! How a call ends, as a number.

ghost use Rattle.std.specs.Prelude.{◌≡◌};
ghost use Rattle.zfpi_c.specs.Statuses.{code_of};

use std::alloc::AllocError;
use zf_index::IndexFault;
use zf_narrow::NarrowFault;
use zf_part::PlaceFault;
use zf_stream::StreamFault;

/// Why a call did not do what it was asked.
#[derive(Clone, Copy, Debug, PartialEq, Eq)]
pub(crate) enum Status {
    /// The number says no type, or none of 8 or 16 bits where one is wanted.
    Scalar,
    /// There are not one to four dimensions, or their sizes are no shape.
    Shape,
    /// The mode is none of 1, reversible, 2, a rate, and 3, a precision, or its parameter is out of range.
    Mode,
    /// There are fewer raw bytes than the shape needs.
    RawShort,
    /// There are more.
    RawLong,
    /// The result has more bytes than there is room for.
    Room,
    /// There was no memory.
    Memory,
    /// The bytes begin with no header that is read.
    Header,
    /// The stream ends in the code of a block.
    Truncated,
    /// A bit of the fill is one.
    Pad,
    /// A byte follows the stream.
    Trailing,
    /// The stream's values are int64, so they don't stand for values of 8 or 16 bits.
    NotNarrow,
    /// The array has no such block or window.
    Part,
    /// The places are not those of this stream.
    Index,
    /// A device failed. Lent memory is none, so no call answers this.
    Device,
}

impl Status {
    /// Its number. 0 is that of a call that did what it was asked.
    pub(crate) fn code(self) -> u32
        ensures { result ≡ code_of self }
    {
        match self {
            Status::Scalar => 1,
            Status::Shape => 2,
            Status::Mode => 3,
            Status::RawShort => 4,
            Status::RawLong => 5,
            Status::Room => 6,
            Status::Memory => 7,
            Status::Header => 8,
            Status::Truncated => 9,
            Status::Pad => 10,
            Status::Trailing => 11,
            Status::NotNarrow => 12,
            Status::Part => 13,
            Status::Index => 14,
            Status::Device => 15,
        }
    }
}

impl From<StreamFault> for Status {
    ghost use Rattle.std.specs.Prelude.{◌≡◌};
    ghost use Rattle.zfpi_c.specs.Statuses.{of_stream};

    ghost from_gives = { λ fault status. status ≡ of_stream fault };

    fn from(fault: StreamFault) -> Status {
        match fault {
            StreamFault::RawShort(_) => Status::RawShort,
            StreamFault::RawLong => Status::RawLong,
            StreamFault::Header(_) => Status::Header,
            StreamFault::Truncated(_) => Status::Truncated,
            StreamFault::Pad => Status::Pad,
            StreamFault::Trailing => Status::Trailing,
            StreamFault::Read => Status::Device,
            StreamFault::Write => Status::Device,
            StreamFault::Memory => Status::Memory,
        }
    }
}

impl From<NarrowFault> for Status {
    ghost use Rattle.std.specs.Prelude.{◌≡◌};
    ghost use Rattle.zfpi_c.specs.Statuses.{of_narrow};

    ghost from_gives = { λ fault status. status ≡ of_narrow fault };

    fn from(fault: NarrowFault) -> Status {
        match fault {
            NarrowFault::Stream(fault) => Status::from(fault),
            NarrowFault::NotNarrow => Status::NotNarrow,
        }
    }
}

impl From<IndexFault> for Status {
    ghost use Rattle.std.specs.Prelude.{◌≡◌};
    ghost use Rattle.zf_index.specs.Files.{stream_fault};
    ghost use Rattle.zfpi_c.specs.Statuses.{of_stream};

    ghost from_gives = { λ fault status. status ≡ of_stream (stream_fault fault) };

    fn from(fault: IndexFault) -> Status {
        match fault {
            IndexFault::Truncated(_) => Status::Truncated,
            IndexFault::Pad => Status::Pad,
            IndexFault::Trailing => Status::Trailing,
            IndexFault::Memory => Status::Memory,
        }
    }
}

impl From<PlaceFault> for Status {
    ghost use Rattle.std.specs.Prelude.{◌≡◌};
    ghost use Rattle.zfpi_c.specs.Statuses.{of_places};

    ghost from_gives = { λ fault status. status ≡ of_places fault };

    fn from(fault: PlaceFault) -> Status {
        match fault {
            PlaceFault::Foreign => Status::Index,
            PlaceFault::Memory => Status::Memory,
        }
    }
}

impl From<AllocError> for Status {
    ghost use Rattle.std.specs.Prelude.{◌≡◌};
    ghost use Rattle.zfpi_c.specs.declared.status.Status.TheVariants as statuses;

    ghost from_gives = { λ fault status. status ≡ statuses.Memory };

    fn from(_fault: AllocError) -> Status {
        Status::Memory
    }
}
