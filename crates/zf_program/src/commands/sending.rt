//! What a command wrote, handed on.

ghost use Rattle.zf_program.specs.Sending.{HandsOn};

use crate::status::Status;
use zf_dev::Sink;

/// Hands on what a command wrote that ended so, and says how it ended then: where that fails, a fault of the
/// sink in place of a work that was done. It changes no other status.
pub fn send<O: Sink>(status: Status, out: &mut O) -> Status
    ensures { HandsOn status result (O.contents out.old) (O.contents out.new)
        (O.faults out.old) (O.faults out.new) (O.is_flushed out.new) }
{
    if out.flush().is_ok() {
        return status;
    }
    if status.is_done() {
        return Status::WriteFault;
    }
    status
}
