//! A backing that counts its calls.

ghost use Rattle.std.specs.Prelude.{◌≡◌, ◌*◌, ◌^◌, ◌≤◌, IfOk};
ghost use Rattle.zf_array_tests.specs.EvenValues.{evens_format};

use crate::evens::Evens;
use std::alloc::{AllocError, Global};
use zf_base::{Backing, Reading};

/// Counts the calls of the backing that it stands for, which rounds to even numbers.
#[derive(Drop)]
pub(crate) struct Counted {
    evens: Evens,
    pub(crate) loads: u32,
    pub(crate) stores: u32,
}

impl Counted {
    /// So many blocks of zeros, and counts of 0.
    pub(crate) fn new(alloc: Global, blocks: u32) -> Result<Counted, AllocError>
        ensures { IfOk result (λ c. ⟦<Counted as Reading<i32>>⟧.format c ≡ evens_format blocks) }
    {
        Ok(Counted {
            evens: Evens::new(alloc, blocks)?,
            loads: 0,
            stores: 0,
        })
    }
}

impl Reading<i32> for Counted {
    ghost use Rattle.std.specs.Prelude.{ℤ, List};

    ghost Code = { List ℤ };

    ghost Kept = { Unit {0} };

    ghost format = { λ c. ⟦<Evens as Reading<i32>>⟧.format c.evens };

    ghost codes = { λ c. ⟦<Evens as Reading<i32>>⟧.codes c.evens };

    ghost kept = { λ c. tt };

    fn blocks(&self) -> u64 {
        self.evens.blocks()
    }

    fn block_len(&self) -> usize {
        self.evens.block_len()
    }

    fn load(&mut self, b: u64, line: &mut [i32]) {
        self.loads = self.loads.saturating_add(1);
        self.evens.load(b, line);
    }
}

impl Backing<i32> for Counted {
    fn store(&mut self, b: u64, line: &[i32]) {
        self.stores = self.stores.saturating_add(1);
        self.evens.store(b, line);
    }
}
