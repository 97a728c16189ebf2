//! `compress` of narrow values: raw values of 8 or 16 bits to the stream of the int32 values that stand for
//! them.

ghost use Rattle.zf_words.specs.declared.command.Command.TheVariants.{CompressNarrow};
ghost use Rattle.zf_program.specs.Answer.{meaning};
ghost use Rattle.zf_program.specs.Calls.{Streams};

use crate::status::Status;
use std::alloc::Global;
use zf_dev::{Sink, Source};
use zf_header::Header;
use zf_narrow::Narrow;

/// Reads raw narrow values, and writes the stream that has this header.
pub fn compress_narrow<S: Source, O: Sink>(
    alloc: Global,
    narrow: Narrow,
    h: Header,
    src: &mut S,
    out: &mut O,
) -> Status
    requires { (meaning (CompressNarrow narrow h)).can_run }
    ensures { Streams S.Source O.Sink (CompressNarrow narrow h) result src.old src.new out.old out.new }
{
    match zf_narrow::compress_narrow(alloc, narrow, &h, src, out) {
        Ok(()) => Status::Done,
        Err(fault) => Status::from(fault),
    }
}
