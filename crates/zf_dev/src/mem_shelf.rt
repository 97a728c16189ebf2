//! A shelf in memory: what a test puts in the place of the files of the current folder.

ghost use Rattle.std.specs.Prelude.{◌≡◌, ◌≢◌, ℕ, ◌<◌, ◌≤◌, ◌↔◌, List, [], length, None, Some, Err, is_ok, IsErr, IfOk, IfErr, IfSome, IfNone, OnOk, OnErr, Contains, take};
ghost use Rattle.zf_dev.specs.declared.faults.LoadError.TheVariants as loading;
ghost use Rattle.zf_dev.specs.Faults.{HasCause, next_count};
ghost use Rattle.zf_dev.specs.Memory.{shelf_files, shelf_fail, shelf_call, shelf_faults, shelf_starved, CountsCall, CountsFault, CountsStarved, Fronts, Loads, Saves};
ghost use Rattle.zf_dev.specs.Shelf.{HasFile, HasFront, ExplainsLoad, KeepsFiles, KeepsOthers, SavesFile, loaded};

use crate::faults::raise;
use crate::memory::is_failing;
use crate::{Failed, LoadError, Shelf};
use std::alloc::{AllocError, Global};
use std::collections::BTreeMap;

/// A shelf that keeps files in memory, and fails at the loads and saves that it was told to and where a save
/// runs out of memory.
#[derive(Drop)]
pub struct MemShelf {
    alloc: Global,
    files: BTreeMap<String, Vec<u8>>,
    fail: Vec<u64>,
    call: u64,
    faults: u64,
    starved: u64,
}

impl MemShelf {
    /// Holds no file. The loads and saves that `fail` names fail; they are numbered together from 0.
    pub fn new(alloc: Global, fail: Vec<u64>) -> MemShelf
        ensures files { (name : List ℕ) → shelf_files result name ≡ None }
        ensures fail { shelf_fail result ≡ fail.items }
        ensures call { shelf_call result ≡ 0 }
        ensures faults { shelf_faults result ≡ 0 }
        ensures starved { shelf_starved result ≡ 0 }
    {
        MemShelf {
            alloc,
            files: BTreeMap::new(alloc),
            fail,
            call: 0,
            faults: 0,
            starved: 0,
        }
    }

    /// The bytes of the file of this name. `None`: there is no such file.
    pub fn file(&self, name: &str) -> Option<&[u8]>
        ensures some { IfSome result (λ bytes. shelf_files self.now name.now ≡ Some bytes.now) }
        ensures none { IfNone result (shelf_files self.now name.now ≡ None) }
    {
        match self.files.get(name) {
            Some(bytes) => Some(bytes),
            None => None,
        }
    }

    /// How many loads and saves failed.
    pub fn faults(&self) -> u64
        ensures { result ≡ shelf_faults self.now }
    {
        self.faults
    }

    /// How many of these, all of them saves, failed as memory ran out.
    pub fn starved(&self) -> u64
        ensures { result ≡ shelf_starved self.now }
    {
        self.starved
    }

    // Puts the bytes under this name.
    fn put(&mut self, name: &str, bytes: &[u8]) -> Result<(), AllocError>
        ensures ok { OnOk result (SavesFile (Some (shelf_files self.old)) (Some (shelf_files self.new))
            name.now bytes.now) }
        ensures err { OnErr result (KeepsFiles (Some (shelf_files self.old)) (Some (shelf_files self.new))) }
        ensures fail { shelf_fail self.new ≡ shelf_fail self.old }
        ensures call { shelf_call self.new ≡ shelf_call self.old }
        ensures faults { shelf_faults self.new ≡ shelf_faults self.old }
        ensures starved { shelf_starved self.new ≡ shelf_starved self.old }
    {
        let bytes = Vec::from_slice(self.alloc, bytes)?;
        let name = String::from_str(self.alloc, name)?;
        match self.files.insert(name, bytes) {
            Ok(_) => Ok(()),
            Err(_) => Err(AllocError),
        }
    }
}

impl Shelf for MemShelf {
    ghost files = { λ s. Some (shelf_files s) };

    ghost faults = { λ s. shelf_faults s };

    ghost fronts = { λ old name count answer new. Fronts old name count answer new };

    ghost loads = { λ old name answer new. Loads old name answer new };

    ghost saves = { λ old name bytes ok new. Saves old name bytes ok new };

    ghost never_fails = { λ s. shelf_fail s ≡ [] };

    // A save may be out of memory.
    ghost always_saves = { λ _. ⊥ };

    // It has no number, and fails only where there is no memory.
    fn front(
        &mut self,
        alloc: Global,
        name: &str,
        max: u64,
        count: usize,
    ) -> Result<Vec<u8>, LoadError> {
        let Some(file) = self.file(name) else {
            return Err(LoadError::Missing);
        };
        front_of(alloc, file, max, count)
    }

    fn load(&mut self, alloc: Global, name: &str, max: u64) -> Result<Vec<u8>, LoadError>
        ensures fails { (result ≡ Err loading.Failed) ↔ Contains (shelf_fail self.old) (shelf_call self.old) }
        ensures counts { result ≢ Err loading.Failed → CountsCall self.old self.new }
        ensures fault { result ≡ Err loading.Failed → CountsFault self.old self.new }

        // Those of the trait.
        ensures ok { IfOk result (λ bytes. HasFile (Some (shelf_files self.old)) name.now bytes.items) }
        ensures bound { IfOk result (λ bytes. length bytes.items ≤ max) }
        ensures err { IfErr result (ExplainsLoad (Some (shelf_files self.old)) name.now max) }
        ensures files_stay { KeepsFiles (Some (shelf_files self.old)) (Some (shelf_files self.new)) }
        ensures unchanged { result ≢ Err loading.Failed → shelf_faults self.new ≡ shelf_faults self.old }
        ensures cause { HasCause (result ≡ Err loading.Failed) (shelf_faults self.old) (shelf_faults self.new) }
        ensures step { Loads self.old name.now (loaded result) self.new }
        ensures sure { shelf_fail self.old ≡ [] → (result ≢ Err loading.Failed) × (shelf_fail self.new ≡ []) }
    {
        if is_failing(&self.fail, &mut self.call, &mut self.faults) {
            return Err(LoadError::Failed);
        }
        let Some(file) = self.file(name) else {
            return Err(LoadError::Missing);
        };
        copied(alloc, file, max)
    }

    fn save(&mut self, name: &str, bytes: &[u8]) -> Result<(), Failed>
        ensures counts { OnOk result (CountsCall self.old self.new) }
        ensures listed { Contains (shelf_fail self.old) (shelf_call self.old) → IsErr result
            × CountsFault self.old self.new }
        // Any other save fails only as memory ran out, and counts that.
        ensures starved { OnErr result (¬ Contains (shelf_fail self.old) (shelf_call self.old)
            → CountsStarved self.old self.new) }
        // A file in memory is never half saved.
        ensures err { OnErr result (KeepsFiles (Some (shelf_files self.old)) (Some (shelf_files self.new))) }

        // Those of the trait.
        ensures ok { OnOk result (SavesFile (Some (shelf_files self.old)) (Some (shelf_files self.new))
            name.now bytes.now) }
        ensures others { KeepsOthers (Some (shelf_files self.old)) (Some (shelf_files self.new)) name.now }
        ensures unchanged { OnOk result (shelf_faults self.new ≡ shelf_faults self.old) }
        ensures cause { HasCause (IsErr result) (shelf_faults self.old) (shelf_faults self.new) }
        ensures step { Saves self.old name.now bytes.now (is_ok result) self.new }
        ensures sure { shelf_fail self.old ≡ [] → shelf_fail self.new ≡ [] }
    {
        if is_failing(&self.fail, &mut self.call, &mut self.faults) {
            return Err(Failed);
        }
        if self.put(name, bytes).is_err() {
            raise(&mut self.starved);
            raise(&mut self.faults);
            return Err(Failed);
        }
        Ok(())
    }
}

// The bytes of a file, where there are at most `max`.
fn copied(alloc: Global, file: &[u8], max: u64) -> Result<Vec<u8>, LoadError>
    ensures ok { IfOk result (λ bytes. bytes.items ≡ file.now) }
    ensures bound { IfOk result (λ bytes. length bytes.items ≤ max) }
    ensures long { result ≡ Err loading.Long → max < length file.now }
    ensures found { result ≢ Err loading.Missing }
    ensures whole { result ≢ Err loading.Failed }
{
    if file.len() as u64 > max {
        return Err(LoadError::Long);
    }
    match Vec::from_slice(alloc, file) {
        Ok(bytes) => Ok(bytes),
        Err(_) => Err(LoadError::Memory),
    }
}

// The first bytes of a file, where it has at most `max`.
fn front_of(alloc: Global, file: &[u8], max: u64, count: usize) -> Result<Vec<u8>, LoadError>
    ensures ok { IfOk result (λ bytes. (bytes.items ≡ take count file.now) × (length file.now ≤ max)) }
    ensures bound { IfOk result (λ bytes. length bytes.items ≤ count) }
    ensures long { result ≡ Err loading.Long → max < length file.now }
    ensures found { result ≢ Err loading.Missing }
    ensures whole { result ≢ Err loading.Failed }
{
    if file.len() as u64 > max {
        return Err(LoadError::Long);
    }
    match Vec::from_slice(alloc, &file[..count.min(file.len())]) {
        Ok(bytes) => Ok(bytes),
        Err(_) => Err(LoadError::Memory),
    }
}
