//! What the tests of planes share.

ghost use Rattle.std.specs.Prelude.{◌≡◌, ◌^◌, ◌≤◌, [], IfOk};

use std::alloc::{AllocError, Global};
use zf_bits::BitWriter;

/// A writer that holds no bits and has room for so many.
pub(crate) fn with_room(alloc: Global, bits: u64) -> Result<BitWriter, AllocError>
    requires { bits ≤ 2 ^ 40 }
    ensures none { IfOk result (λ w. w.bits ≡ []) }
    ensures room { IfOk result (λ w. bits ≤ w.room) }
{
    let mut writer = BitWriter::new(alloc);
    writer.reserve(bits)?;
    Ok(writer)
}
