//! Streams and files that several tables name.

/// A file for a command to leave alone.
pub const OTHER: &[u8] = b"abc";

/// The reversible streams of the int32 values 0 and 1, and of 1 2.
pub const ZERO: &[u8] = b"zfp\x05\0\0\0\0\0\0\0\x88\0\0\0\0";

pub const ONE: &[u8] = b"zfp\x05\0\0\0\0\0\0\0\x88\x1f\0\0\0\x30\0\0\0\0\0\0\0";

pub const TWO: &[u8] = b"zfp\x05\x10\0\0\0\0\0\0\x88\x1f\0\0\0H\x07\0\0\0\0\0\0";

/// The longest header, behind which zeros follow: 4x4x4x4 of int32 at 4096 bits a block.
pub const LONG: &[u8] = b"zfpE<\0\x03\x30\0\x03\xf0\xff\xff\x8f\xff\xc7\xaf\x87\x07";

/// The streams at 64 bits a block of eight zeros, and of sixteen; of two blocks of zeros, one with bits that
/// no value needs; the same with a fill that is not zero and a byte behind it.
pub const ZEROS: &[u8] = b"zfp\x05p\0\0\0\0\0\xf0\x03\0\0\0\0\0\0\0\0\0\0\0\0\0\0\0\0\0\0\0\0";

pub const SIXTEEN: &[u8] =
    b"zfp\x05\xf0\0\0\0\0\0\xf0\x03\0\0\0\0\0\0\0\0\0\0\0\0\0\0\0\0\0\0\0\0\0\0\0\0\0\0\0\0\0\0\0\0\0\0\0\
          \0";

pub const UNUSED: &[u8] =
    b"zfp\x05p\0\0\0\0\0\xf0\x03\0\0\0\0\xff\xff\xff\xff\0\0\0\0\0\0\0\0\0\0\0\0";

pub const FILLED: &[u8] =
    b"zfp\x05p\0\0\0\0\0\xf0\x03\0\0\0\0\xff\xff\xff\xff\0\0\0\0\0\0\0\0\0\0\0\x01\0";

/// The stream of 1 0 0 0 at 64 bits a block.
pub const SMALL: &[u8] = b"zfp\x05\x30\0\0\0\0\0\xf0\x03\0\0\0\0\0\0\0\0\0\0\0\0";
