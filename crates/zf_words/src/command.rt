//! The commands.

use crate::name::Name;
use zf_base::{Shape, Ty};
use zf_header::Header;
use zf_narrow::Narrow;

/// The cache that a script runs over.
#[derive(Clone, Copy)]
pub enum Caching {
    /// Each block has one line. There are so many lines, or as many as suit the array.
    Direct(Option<u32>),
    /// Each block has two lines, of so many.
    TwoWay(u32),
}

/// What a script does with the file that it is for.
#[derive(Clone, Copy)]
pub enum Access {
    /// It runs on the array of the file, over such a cache, and the array is saved.
    Run(Caching),
    /// It only reads the stream of the file, over a cache of so many lines, or of as many as suit the stream.
    Look(Option<u32>),
}

/// What the program is asked to do.
#[derive(Drop)]
pub enum Command {
    /// Raw values from the source; the stream that has this header to the sink.
    Compress(Header),
    /// Raw narrow values from the source; the stream of the int32 values that stand for them, which has this
    /// header, to the sink.
    CompressNarrow(Narrow, Header),
    /// A stream from the source; its raw values to the sink.
    Restore,
    /// A stream of int32 values from the source; the raw narrow values that they stand for to the sink.
    RestoreNarrow(Narrow),
    /// The header of a stream from the source; a line that says it to the sink.
    Info,
    /// An array of zeros, saved under this name; each block has this many bits.
    New {
        name: Name,
        ty: Ty,
        shape: Shape,
        bits: u32,
    },
    /// The file of this name is an array, and a script from the source runs on it over such a cache; replies
    /// to the sink, and the array is saved under the same name.
    Run {
        name: Name,
        caching: Caching,
    },
    /// The file of this name is a stream, and a script from the source that only reads looks at its values
    /// over a cache of so many lines, or of as many as suit the stream; replies to the sink, and no file
    /// changes.
    Look {
        name: Name,
        lines: Option<u32>,
    },
    /// The file of this name is a stream of a fixed rate; a line that says how far its values are at most
    /// from whatever was stored in it, if that had magnitudes up to `most`, to the sink.
    Bound {
        name: Name,
        most: u64,
    },
    /// An array made from a number, which becomes the stream that has this header and is restored from it; a
    /// line that says what became of it to the sink.
    Sample(Header, u64),
}
