//! What passed a device. A log exists in proofs alone: it takes no memory, and to note something does nothing.

ghost use Rattle.std.specs.Prelude.{◌≡◌, ℕ, List, [], ◌∷◌, ◌++◌};
ghost use Rattle.std.specs.Borrow.{ftrue};

use std::marker::{Model, PhantomData};

/// What passed, in the order in which it was noted: under a name, or under none, some bytes.
#[derive(Drop)]
pub struct Log {
    marker: PhantomData<u8>,
    pub ghost entries: { List (List ℕ × List ℕ) },
}

impl Model for Log {
    ghost also_owns = { λ _. ftrue };
}

impl Log {
    /// Nothing passed.
    pub fn new() -> Log
        ensures { result.entries ≡ [] }
    {
        Log {
            marker: PhantomData,
        }
    }

    /// These bytes passed too, under this name.
    pub fn note(&mut self, _name: &[u8], _bytes: &[u8])
        ensures { self.new.entries ≡ self.old.entries ++ (_name.now, _bytes.now) ∷ [] }
    {}
}
