//! `sample`: what becomes of an array that is made from a number, as a line.

ghost use Rattle.std.specs.Prelude.{ℕ, List, Option};
ghost use Rattle.zf_dev.specs.Shelf.{Files};
ghost use Rattle.zf_words.specs.declared.command.Command.TheVariants.{Sample};
ghost use Rattle.zf_program.specs.World.{seen, counts};
ghost use Rattle.zf_program.specs.Answer.{meaning};
ghost use Rattle.zf_program.specs.Headline.{Behaves, HasCauses};

use crate::commands::line::summary_line;
use crate::status::Status;
use std::alloc::Global;
use zf_dev::{Sink, write_all};
use zf_header::Header;

/// Makes an array of this type and shape from a number, compresses and restores it in memory, and writes a
/// line that says what became of it.
pub fn sample<O: Sink>(alloc: Global, h: Header, seed: u64, out: &mut O) -> Status
    requires { (meaning (Sample h seed)).can_run }
    ensures behaves { (src : Option (List ℕ)) (files : Option Files) → Behaves (Sample h seed) result
        (seen src (O.contents out.old) files) (seen src (O.contents out.new) files) }
    ensures causes { (src : ℕ) → HasCauses (Sample h seed) result
        (counts src (O.faults out.old)) (counts src (O.faults out.new)) (Unit {0}) (Unit {0}) }
{
    match zf_sample::sample(alloc, &h, seed) {
        Ok(summary) => {
            let line = summary_line(&summary);
            match write_all(out, line.as_str().as_bytes()) {
                Ok(()) => Status::Done,
                Err(_) => Status::WriteFault,
            }
        }
        Err(_) => Status::Memory,
    }
}
