//! A backing in memory.

ghost use Rattle.std.specs.Prelude.{◌≡◌, ℕ, pos, ◌<◌, replicate, map, length, IfOk};
ghost use Rattle.zf_array_tests.specs.EvenValues.{even_below, evens_format};

use std::alloc::{AllocError, Global};
use std::process::Abort;
use zf_base::{Backing, Lane, Reading};

/// Blocks of four values of `i32`, each kept rounded down to an even number.
#[derive(Drop)]
pub(crate) struct Evens {
    blocks: Vec<[i32; 4]>,
}

impl Evens {
    /// So many blocks of zeros. `AllocError`: there was no memory.
    pub(crate) fn new(alloc: Global, blocks: u32) -> Result<Evens, AllocError>
        ensures format { IfOk result (λ e. ⟦<Evens as Reading<i32>>⟧.format e ≡ evens_format blocks) }
        ensures zeros { IfOk result (λ e. (b : ℕ) → b < blocks → ⟦<Evens as Reading<i32>>⟧.codes e b
            ≡ replicate 4 (pos 0)) }
    {
        let mut zeros = Vec::new(alloc);
        for _ in 0..blocks {
            zeros.push([0; 4])?;
        }
        Ok(Evens { blocks: zeros })
    }
}

impl Reading<i32> for Evens {
    ghost use Rattle.std.specs.Prelude.{ℤ, List, [], slice_index_or, length};
    ghost use Rattle.zf_array_tests.specs.EvenValues.{evens_format};

    ghost Code = { List ℤ };

    ghost Kept = { Unit {0} };

    ghost format = { λ e. evens_format (length e.blocks.items) };

    ghost codes = { λ e b. slice_index_or e.blocks.items b [] };

    ghost kept = { λ e. tt };

    fn blocks(&self) -> u64 {
        self.blocks.len() as u64
    }

    fn block_len(&self) -> usize {
        4
    }

    fn load(&mut self, b: u64, line: &mut [i32]) {
        line.copy_from_slice(&self.blocks[b as usize]);
    }
}

impl Backing<i32> for Evens {
    fn store(&mut self, b: u64, line: &[i32]) {
        let code = &mut self.blocks[b as usize];
        code.copy_from_slice(line);
        round_down(code);
    }
}

// Each value rounded down to an even number.
fn round_down<T: Lane>(block: &mut [T])
    ensures { map T.value block.new ≡ map even_below (map T.value block.old) }
{
    for value in block.iter_mut() {
        *value = even(*value);
    }
}

// The greatest even number that is at most `v`.
fn even<T: Lane>(v: T) -> T
    ensures { T.value result ≡ even_below (T.value v) }
{
    v.halve().double()
}

// Stores a block and loads it again.
fn rounded<T: Lane, B: Backing<T>>(back: &mut B, b: u64, line: &mut [T])
    requires block { b < (B.format back.old).blocks }
    requires whole { length line.old ≡ (B.format back.old).block_len }
    ensures format { B.format back.new ≡ B.format back.old }
{
    back.store(b, line);
    back.load(b, line);
}

#[test]
fn a_backing_rounds_what_it_stores(rt: HostRuntime) -> Result<(), AllocError> {
    let mut back = Evens::new(rt.alloc(), 2)?;
    assert!(rt; back.blocks() == 2 && back.block_len() == 4);
    let mut line = [3, -3, 4, i32::MIN];
    rounded(&mut back, 1, &mut line);
    assert!(rt; line == [2, -4, 4, i32::MIN]);
    back.load(0, &mut line);
    assert!(rt; line == [0, 0, 0, 0]);
    Ok(())
}
