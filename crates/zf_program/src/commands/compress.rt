//! `compress`: raw values to their stream.

ghost use Rattle.zf_words.specs.declared.command.Command.TheVariants.{Compress};
ghost use Rattle.zf_program.specs.Answer.{meaning};
ghost use Rattle.zf_program.specs.Calls.{Streams};

use crate::status::Status;
use std::alloc::Global;
use zf_dev::{Sink, Source};
use zf_header::Header;

/// Reads raw values, and writes the stream that has this header.
pub fn compress<S: Source, O: Sink>(alloc: Global, h: Header, src: &mut S, out: &mut O) -> Status
    requires { (meaning (Compress h)).can_run }
    ensures { Streams S.Source O.Sink (Compress h) result src.old src.new out.old out.new }
{
    match zf_stream::compress(alloc, &h, src, out) {
        Ok(()) => Status::Done,
        Err(fault) => Status::from(fault),
    }
}
