//! `info`: the header of a stream as a line.

ghost use Rattle.zf_words.specs.declared.command.Command.TheVariants.{Info};
ghost use Rattle.zf_program.specs.Calls.{Streams};

use crate::commands::line::info_line;
use crate::status::Status;
use zf_dev::{Sink, Source, write_all};

/// Reads the header that the source begins with, and writes a line that says it. The rest of the source is
/// left.
pub fn info<S: Source, O: Sink>(src: &mut S, out: &mut O) -> Status
    ensures { Streams S.Source O.Sink Info result src.old src.new out.old out.new }
{
    match zf_stream::read_header(src) {
        Ok((header, bits)) => {
            let line = info_line(&header, bits);
            match write_all(out, line.as_str().as_bytes()) {
                Ok(()) => Status::Done,
                Err(_) => Status::WriteFault,
            }
        }
        Err(fault) => Status::from(fault),
    }
}
