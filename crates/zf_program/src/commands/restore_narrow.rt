//! `restore` of narrow values: a stream of int32 values to the raw values of 8 or 16 bits that they stand
//! for.

ghost use Rattle.zf_words.specs.declared.command.Command.TheVariants.{RestoreNarrow};
ghost use Rattle.zf_program.specs.Calls.{Streams};

use crate::status::Status;
use std::alloc::Global;
use zf_dev::{Sink, Source};
use zf_narrow::Narrow;

/// Reads a stream, and writes raw narrow values.
pub fn restore_narrow<S: Source, O: Sink>(
    alloc: Global,
    narrow: Narrow,
    src: &mut S,
    out: &mut O,
) -> Status
    ensures { Streams S.Source O.Sink (RestoreNarrow narrow) result src.old src.new out.old out.new }
{
    match zf_narrow::restore_narrow(alloc, narrow, src, out) {
        Ok(()) => Status::Done,
        Err(fault) => Status::from(fault),
    }
}
