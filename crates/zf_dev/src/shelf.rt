//! Files by name.

ghost use Rattle.std.specs.Prelude.{◌≡◌, ◌≢◌, ℕ, ◌≤◌, List, Option, Result, Bool, length, is_ok, Err, IsOk, IsErr, IfOk, IfErr, OnOk, OnErr};
ghost use Rattle.zf_dev.specs.declared.faults.LoadError.{LoadError};
ghost use Rattle.zf_dev.specs.declared.faults.LoadError.TheVariants as loading;
ghost use Rattle.zf_dev.specs.Faults.{HasCause};
ghost use Rattle.zf_dev.specs.Shelf.{Files, HasFile, HasFront, ExplainsLoad, KeepsFiles, KeepsOthers, SavesFile, loaded};

use crate::{Failed, LoadError};
use std::alloc::Global;

/// Files by name, each loaded and saved as a whole.
pub trait Shelf {
    /// The files, where the shelf exposes them.
    ghost files: { Self → Option Files };

    /// How many faults there were. It stands still at the last value of a `u64`.
    ghost faults: { Self → ℕ };

    /// A look at the first bytes of this name, at most so many, led from the one state to the other, and answered
    /// these bytes, or this error.
    ghost fronts: { Self → List ℕ → ℕ → Result (List ℕ) LoadError → Self → Type 0 };

    /// A load of this name led from the one state to the other, and answered these bytes, or this error.
    ghost loads: { Self → List ℕ → Result (List ℕ) LoadError → Self → Type 0 };

    /// A save under this name, of these bytes, led from the one state to the other, and was well or not.
    ghost saves: { Self → List ℕ → List ℕ → Bool → Self → Type 0 };

    /// No load fails from here on.
    ghost never_fails: { Self → Type 0 };

    /// No save fails from here on.
    ghost always_saves: { Self → Type 0 };

    /// The first `count` bytes of the file of this name, or all where it has fewer, where it has at most `max`
    /// bytes. No file changes. The errors are those of `load`.
    fn front(
        &mut self,
        alloc: Global,
        name: &str,
        max: u64,
        count: usize,
    ) -> Result<Vec<u8>, LoadError>
        ensures ok { IfOk result (λ bytes. HasFront (files self.old) name.now max count bytes.items) }
        ensures bound { IfOk result (λ bytes. length bytes.items ≤ count) }
        ensures err { IfErr result (ExplainsLoad (files self.old) name.now max) }
        ensures files_stay { KeepsFiles (files self.old) (files self.new) }
        ensures unchanged { result ≢ Err loading.Failed → faults self.new ≡ faults self.old }
        ensures cause { HasCause (result ≡ Err loading.Failed) (faults self.old) (faults self.new) }
        ensures step { fronts self.old name.now count (loaded result) self.new }
        ensures sure { never_fails self.old → (result ≢ Err loading.Failed) × never_fails self.new }
        ensures sure_saves { always_saves self.old → always_saves self.new };

    /// The bytes of the file of this name, where it has at most `max` bytes. No file changes.
    ///
    /// `Missing`: there is no such file. `Long`: it has more than `max` bytes. `Failed`: the shelf failed and
    /// has counted it. `Memory`: there was no memory for the bytes.
    fn load(&mut self, alloc: Global, name: &str, max: u64) -> Result<Vec<u8>, LoadError>
        ensures ok { IfOk result (λ bytes. HasFile (files self.old) name.now bytes.items) }
        ensures bound { IfOk result (λ bytes. length bytes.items ≤ max) }
        ensures err { IfErr result (ExplainsLoad (files self.old) name.now max) }
        ensures files_stay { KeepsFiles (files self.old) (files self.new) }
        ensures unchanged { result ≢ Err loading.Failed → faults self.new ≡ faults self.old }
        ensures cause { HasCause (result ≡ Err loading.Failed) (faults self.old) (faults self.new) }
        ensures step { loads self.old name.now (loaded result) self.new }
        ensures sure { never_fails self.old → (result ≢ Err loading.Failed) × never_fails self.new }
        ensures sure_saves { always_saves self.old → always_saves self.new };

    /// Makes `bytes` the file of this name, in place of what it held. `Failed`: the shelf failed and has
    /// counted it; nothing is known of that name then, and other files stay.
    fn save(&mut self, name: &str, bytes: &[u8]) -> Result<(), Failed>
        ensures ok { OnOk result (SavesFile (files self.old) (files self.new) name.now bytes.now) }
        ensures others { KeepsOthers (files self.old) (files self.new) name.now }
        ensures unchanged { OnOk result (faults self.new ≡ faults self.old) }
        ensures cause { HasCause (IsErr result) (faults self.old) (faults self.new) }
        ensures step { saves self.old name.now bytes.now (is_ok result) self.new }
        ensures sure { never_fails self.old → never_fails self.new }
        ensures sure_saves { always_saves self.old → IsOk result × always_saves self.new };
}
