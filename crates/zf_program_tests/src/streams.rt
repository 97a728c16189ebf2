//! `compress`, `restore` and `info`, and the files of `new`: the worked rows of their documentation.

use super::calls::{BOTH, Devices, WHOLE, call, padded};
use super::known::{ONE, OTHER, ZERO};
use std::alloc::{AllocError, Global};
use std::test::Fail;

type Stream = (&'static str, &'static [u8], &'static [u8], usize);

// Words, the input, what is written, and how many bytes are left in the source.
macro_rules! streams {
    ($($words:literal, $input:expr => $out:expr, $left:literal;)*) => {
        [$(($words, $input, $out, $left)),*]
    };
}

static STREAMS: [Stream; 39] = streams! {
    "compress int32 4 precision 32", b"\x01\0\0\0\x02\0\0\0\x03\0\0\0\x04\0\0\0" =>
        b"zfp\x05\x30\0\0\0\0\0\xf0\x81\0\0\0`'\0\0\0\0\0\0\0", 0;
    "compress int32 4 precision 1", b"\0\0\0\xc0\0\0\0\xc0\0\0\0\xc0\0\0\0\xc0" =>
        b"zfp\x05\x30\0\0\0\0\0\0\x80\x03\0\0\0", 0;
    "compress int32 1 reversible", b"\0\0\0\0" => ZERO, 0;
    "compress int32 1 reversible", b"\x01\0\0\0" => ONE, 0;
    "compress int32 1 reversible", b"\xff\xff\xff\xff" =>
        b"zfp\x05\0\0\0\0\0\0\0\x88\x1f\0\0\0X\0\0\0\0\0\0\0", 0;
    "compress int32 1 reversible", b"\0\0\0\x80" => b"zfp\x05\0\0\0\0\0\0\0\x88`\0\0\0", 0;
    "compress int32 2 reversible", b"\x01\0\0\0\x02\0\0\0" =>
        b"zfp\x05\x10\0\0\0\0\0\0\x88\x1f\0\0\0H\x07\0\0\0\0\0\0", 0;
    "compress int32 4 reversible", b"\0\0\0\0\0\0\0\0\0\0\0\0\x01\0\0\0" =>
        b"zfp\x05\x30\0\0\0\0\0\0\x88\x1f\0\0\0\x10\0\0\0\0\0\0\0", 0;
    "compress int64 5x7 reversible", &[0; 280] => b"zfp\x05\x45\0\0`\0\0\0\x88\0\0\0\0", 0;
    "compress int32 2x1 reversible", b"\x01\0\0\0\x02\0\0\0" =>
        b"zfp\x05\x14\0\0\0\0\0\0\x88\x1f\0\0\0\x08M\0\0\0\0\0\0", 0;
    "compress int32 4 rate 64", b"\x01\0\0\0\x02\0\0\0\x03\0\0\0\x04\0\0\0" =>
        b"zfp\x05\x30\0\0\0\0\0\xf0\x03\0\0\0`'\0\0\0\0\0\0\0", 0;
    "compress int32 1x1x1 reversible", b"\0\0\0\0" => b"zfpE\x08\0\0\0\0\0\0\x88\0\0\0\0", 0;
    "compress int32 4x4 rate 128",
        b"\x03\0\0\0\x03\0\0\0\x03\0\0\0\x03\0\0\0\x03\0\0\0\x03\0\0\0\x03\0\0\0\x03\0\0\0\x03\0\0\0\x03\
          \0\0\0\x03\0\0\0\x03\0\0\0\x03\0\0\0\x03\0\0\0\x03\0\0\0\x03\0\0\0" =>
        b"zfp\x05\x34\0\0\x30\0\0\xf0\x07\0\0\0`\x05\0\0\0\0\0\0\0\0\0\0\0\0\0\0\0", 0;
    "compress int32 4 rate 64", b"\x01\0\0\0\0\0\0\0\0\0\0\0\0\0\0\0" =>
        b"zfp\x05\x30\0\0\0\0\0\xf0\x03\0\0\0\0\0\0\0\0\0\0\0\0", 0;
    "compress int32 4 rate 1", b"\0\0\0\xc0\0\0\0\xc0\0\0\0\xc0\0\0\0\xc0" =>
        b"zfp\x05\x30\0\0\0\0\0\0\0\x01\0\0\0", 0;
    "compress int32 4 rate 2", b"\0\0\0\x30\0\0\0\xd0\0\0\0\xd0\0\0\0\x30" =>
        b"zfp\x05\x30\0\0\0\0\0\x10\0\x01\0\0\0", 0;
    "restore", b"zfp\x05\x30\0\0\0\0\0\xf0\x81\0\0\0`'\0\0\0\0\0\0\0" =>
        b"\0\0\0\0\x02\0\0\0\x02\0\0\0\x04\0\0\0", 0;
    "restore", b"zfp\x05\x30\0\0\0\0\0\xf0\x83\0\0\0`'\0\0\0\0\0\0\0" =>
        b"\0\0\0\0\x02\0\0\0\x02\0\0\0\x04\0\0\0", 0;
    "restore", b"zfp\x05\x30\0\0\0\0\0\0\x80\x03\0\0\0" => b"\0\0\0\x80\0\0\0\x80\0\0\0\x80\0\0\0\x80", 0;
    "restore", ONE => b"\x01\0\0\0", 0;
    "restore", b"zfp\x05\x45\0\0`\0\0\0\x88\0\0\0\0" => &[0; 280], 0;
    "restore", b"zfpE\x08\0\0\0\0\0\0\x88\0\0\0\0" => b"\0\0\0\0", 0;
    "restore", b"zfp\x05\x34\0\0\x30\0\0\xf0\x07\0\0\0`\x05\0\0\0\0\0\0\0\0\0\0\0\0\0\0\0" =>
        b"\x03\0\0\0\x03\0\0\0\x03\0\0\0\x03\0\0\0\x03\0\0\0\x03\0\0\0\x03\0\0\0\x03\0\0\0\x03\0\0\0\x03\
          \0\0\0\x03\0\0\0\x03\0\0\0\x03\0\0\0\x03\0\0\0\x03\0\0\0\x03\0\0\0", 0;
    "restore", b"zfp\x05\x30\0\0\0\0\0\xf0\x03\0\0\0\0\0\0\0\0\0\0\0\0" =>
        b"\0\0\0\0\0\0\0\0\0\0\0\0\0\0\0\0", 0;
    "restore", b"zfp\x05\x30\0\0\0\0\0\0\0\x01\0\0\0" => b"\0\0\0\x80\0\0\0\x80\0\0\0\x80\0\0\0\x80", 0;
    "restore", b"zfp\x05\x30\0\0\0\0\0\x10\0\x01\0\0\0" => b"\0\0\0@\0\0\0\xc0\0\0\0@\0\0\0\xc0", 0;
    "restore", b"zfp\x05\x30\0\0\0\0\0\xf0\x03\0\0\0`'\0\0\0\0\0\0\0" =>
        b"\0\0\0\0\x02\0\0\0\x02\0\0\0\x04\0\0\0", 0;
    "info", b"zfp\x05\x30\0\0\0\0\0\0\x80\x03\0\0\0" => b"int32 4 precision 1 blocks 1 header 96\n", 0;
    "info", b"zfp\x05\x30\0\0\0\0\0\x10\0\x01\0\0\0.." => b"int32 4 rate 2 blocks 1 header 96\n", 0;
    "info", b"zfpE<\0\x03\x30\0\x03\xf0\xff\xff\x8f\xff\xc7\xaf\x87\x07.." =>
        b"int32 4x4x4x4 rate 4096 blocks 1 header 148\n", 2;
    "info", b"zfp\x05\x45\0\0`\0\0\0\x88\0\0\0\0" => b"int64 5x7 reversible blocks 4 header 96\n", 0;
    "compress int8 1 reversible", b"\x01" => b"zfp\x05\0\0\0\0\0\0\0\x88\x08\xb0\0\0", 0;
    "compress int8 1 reversible", b"\x80" => b"zfp\x05\0\0\0\0\0\0\0\x88\x61\x01\0\0", 0;
    "compress uint8 1 reversible", b"\x80" => ZERO, 0;
    "compress uint16 1 reversible", b"\0\x80" => ZERO, 0;
    "restore int8", b"zfp\x05\0\0\0\0\0\0\0\x88`\0\0\0" => b"\x80", 0;
    "restore uint8", b"zfp\x05\0\0\0\0\0\0\0\x88`\0\0\0" => b"\0", 0;
    "restore int16", b"zfp\x05\0\0\0\0\0\0\0\x88`\0\0\0" => b"\0\x80", 0;
    "restore uint16", b"zfp\x05\0\0\0\0\0\0\0\x88`\0\0\0" => b"\0\0", 0;
};

// Whether all calls write what their rows say, on both kinds of devices.
fn all_write_so(alloc: Global, rows: &[Stream]) -> Result<bool, AllocError> {
    let mut all = true;
    for row in rows {
        for devices in BOTH.iter() {
            all &= writes_so(alloc, row, devices)?;
        }
    }
    Ok(all)
}

fn writes_so(alloc: Global, row: &Stream, devices: &Devices) -> Result<bool, AllocError> {
    let (words, input, out, left) = *row;
    let ended = call(alloc, words, input, OTHER, devices)?;
    let so = ended.is_quiet()
        && ended.holds(OTHER)
        && ended.out.bytes() == out
        && ended.src.left().len() == left;
    drop(ended);
    Ok(so)
}

#[test]
fn values_and_streams_become_each_other(rt: HostRuntime) -> Result<(), Fail> {
    assert!(rt; all_write_so(rt.alloc(), &STREAMS)?);
    Ok(())
}

// A command, the name of its file, the prefix of the file, and its length; behind the prefix all is zero.
macro_rules! files {
    ($($words:literal, $name:literal, $prefix:literal => $len:literal;)*) => {
        [$(($words, $name, $prefix, $len)),*]
    };
}

type File = (&'static str, &'static str, &'static [u8], usize);

static FILES: [File; 10] = files! {
    "new a int32 8 64", "a", b"zfp\x05p\0\0\0\0\0\xf0\x03" => 32;
    "new a int32 8 65", "a", b"zfp\x05p\0\0\0\0\0\0\x04" => 32;
    "new kept int32 8 1", "kept", b"zfp\x05p" => 16;
    "new A-_.9 int64 4 64", "A-_.9", b"zfp\x05\x31\0\0\0\0\0\xf0\x03" => 24;
    "new 0 int32 5x7 3", "0", b"zfp\x05\x44\0\0`\0\0 " => 16;
    "new c int64 4x4x4x4 4096", "c", b"zfpE=\0\x03\x30\0\x03\xf0\xff\xff\x8f\xff\xc7\xaf\x87\x07" => 536;
    "new c int32 1x2x3 2049", "c", b"zfpE\x08\0\x10\0 \0\xf0\xff\0\x08\0\xc4\xaf\x87\x07" => 280;
    "new c int32 3x3x3x3 17", "c", b"zfpE,\0\x02 \0\x02\0\x01" => 16;
    "new c int64 9x9 128", "c", b"zfp\x05\x85\0\0\x80\0\0\xf0\x07" => 160;
    "new c int64 9x1x9 100", "c", b"zfpE\x89\0\0\0\x80\0\x30\x06" => 128;
};

// Whether all calls save the files that their rows say.
fn all_save_so(alloc: Global, rows: &[File]) -> Result<bool, AllocError> {
    let mut all = true;
    for (words, name, prefix, len) in rows {
        let file = padded(alloc, prefix, *len)?;
        let ended = call(alloc, words, b"", b"before", &WHOLE)?;
        all &= ended.is_quiet() && ended.shelf.file(name) == Some(file.as_slice());
        drop(ended);
        drop(file);
    }
    Ok(all)
}

#[test]
fn new_saves_zeros(rt: HostRuntime) -> Result<(), Fail> {
    assert!(rt; all_save_so(rt.alloc(), &FILES)?);
    Ok(())
}
