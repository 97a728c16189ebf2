//! `restore`: a stream to its raw values.

ghost use Rattle.zf_words.specs.declared.command.Command.TheVariants.{Restore};
ghost use Rattle.zf_program.specs.Calls.{Streams};

use crate::status::Status;
use std::alloc::Global;
use zf_dev::{Sink, Source};

/// Reads a stream, and writes its raw values.
pub fn restore<S: Source, O: Sink>(alloc: Global, src: &mut S, out: &mut O) -> Status
    ensures { Streams S.Source O.Sink Restore result src.old src.new out.old out.new }
{
    match zf_stream::restore(alloc, src, out) {
        Ok(()) => Status::Done,
        Err(fault) => Status::from(fault),
    }
}
