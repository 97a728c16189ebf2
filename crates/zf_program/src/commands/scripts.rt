//! What the commands on a script share.

ghost use Rattle.std.specs.Prelude.{◌≡◌, ◌≤◌, ◌<◌, ◌^◌, Some};
ghost use Rattle.zf_words.specs.Words.{IsLines};
ghost use Rattle.zf_program.specs.Scripts.{lines_for};
ghost use Rattle.zf_program.specs.Sending.{IsDone};
ghost use Rattle.zf_program.specs.Rungs.{Closes};

use crate::status::Status;
use zf_base::Shape;
use zf_cache::default_lines;
use zf_dev::{Shelf, Sink};
use zf_words::Name;

/// The most bytes of a script.
pub const MAX_SCRIPT: u64 = 1 << 24;

/// The number of lines that is asked for, or else the one that suits an array of this shape.
pub fn line_count(lines: Option<u32>, shape: &Shape) -> u32
    requires { IsLines lines }
    ensures value { result ≡ lines_for lines shape.now }
    ensures bound { (0 < result) × (result ≤ 2 ^ 16) }
{
    match lines {
        Some(count) => count,
        None => default_lines(shape),
    }
}

/// Hands on the replies to a script that was run with this status, and then saves a file; the status stays,
/// unless one of both fails. Where the replies were not handed on, nothing is saved.
pub fn save<O: Sink, F: Shelf>(
    name: &Name,
    file: &[u8],
    status: Status,
    out: &mut O,
    shelf: &mut F,
) -> Status
    requires { IsDone status }
    ensures { Closes O.Sink F.Shelf (Some (name.now, file.now)) status result out.old out.new shelf.old
        shelf.new }
{
    if out.flush().is_err() {
        return Status::WriteFault;
    }
    match shelf.save(name.as_str(), file) {
        Ok(()) => status,
        Err(_) => Status::SaveFault,
    }
}
