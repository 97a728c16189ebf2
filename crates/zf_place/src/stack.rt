//! The stack that a save needs.

use std::alloc::Global;
use std::io;
use std::random::RandomSource;

// More bytes than the calls of a save are deeper than those of a load.
const DEPTH: usize = 65536;

/// Lets the stack grow now as far as it has to for a save, or says that there is no memory. Where it can't grow
/// later, the system would end the process, with replies written and nothing saved.
pub(crate) fn grow<R: RandomSource>(alloc: Global, system: &R) -> io::Result<()> {
    // What can be had here and is given back can be had by the stack.
    let room: Vec<u8> = Vec::with_capacity(alloc, 4 * DEPTH)?;
    drop(room);
    touch(system)
}

// Has room on the stack, and hands it to the system, so that it has to be there.
#[inline(never)]
fn touch<R: RandomSource>(system: &R) -> io::Result<()> {
    let mut room = [0u8; DEPTH];
    system.fill_bytes(&mut room[..1])
}
