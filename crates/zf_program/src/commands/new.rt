//! `new`: an array of zeros as a file.

ghost use Rattle.std.specs.Prelude.{◌≡◌, ◌≢◌, ℕ, List, [], Option, length, IfOk};
ghost use Rattle.zf_header.specs.declared.header.Mode.TheVariants.{Rate};
ghost use Rattle.zf_header.specs.HeaderBits.{IsRate};
ghost use Rattle.zf_store.specs.Stored.{file_of, zeros};
ghost use Rattle.zf_words.specs.declared.command.Command.TheVariants.{New};
ghost use Rattle.zf_program.specs.World.{seen, counts};
ghost use Rattle.zf_program.specs.Answer.{meaning};
ghost use Rattle.zf_program.specs.Fetching.{Fetches};
ghost use Rattle.zf_program.specs.Steps.{Steps};
ghost use Rattle.zf_program.specs.Headline.{Behaves, HasCauses};

use crate::commands::kinds::in_kind;
use crate::status::Status;
use std::alloc::{AllocError, Global};
use zf_base::{Lane, Shape, Ty};
use zf_dev::Shelf;
use zf_header::rate_bytes;
use zf_store::Store;
use zf_words::Name;

/// Saves an array of zeros of this type and shape, with `bits` bits per block, in place of what the name
/// held.
pub fn new<F: Shelf>(
    alloc: Global,
    name: &Name,
    ty: Ty,
    shape: Shape,
    bits: u32,
    shelf: &mut F,
) -> Status
    requires { (meaning (New name.now ty shape bits)).can_run }
    ensures behaves { (src out : Option (List ℕ)) → Behaves (New name.now ty shape bits) result
        (seen src out (F.files shelf.old)) (seen src out (F.files shelf.new)) }
    ensures causes { (src out : ℕ) → HasCauses (New name.now ty shape bits) result
        (counts src out) (counts src out) (Unit {0}) (Unit {0}) }
    ensures steps { (out : Option (List ℕ)) → Steps (Fetches F.fronts F.loads) F.saves F.faults
        (New name.now ty shape bits) (λ bytes. bytes ≡ []) out out result shelf.old shelf.new }
    ensures sure_shelf { F.never_fails shelf.old → (result ≢ Status.LoadFault) × F.never_fails shelf.new }
    ensures sure_saves { F.always_saves shelf.old → (result ≢ Status.SaveFault) × F.always_saves shelf.new }
{
    match file_of_zeros(alloc, ty, shape, bits) {
        Ok(file) => match shelf.save(name.as_str(), &file) {
            Ok(()) => Status::Done,
            Err(_) => Status::SaveFault,
        },
        Err(_) => Status::Memory,
    }
}

// The bytes of the file of zeros.
fn file_of_zeros(alloc: Global, ty: Ty, shape: Shape, bits: u32) -> Result<Vec<u8>, AllocError>
    requires { IsRate (Rate bits) }
    ensures { IfOk result (λ file. file.items ≡ file_of (zeros ty shape bits)) }
{
    in_kind!(ty, shape, file_of_store, [], (alloc, shape, bits))
}

// The same in the type and the number of dimensions.
fn file_of_store<T: Lane, const D: usize>(
    alloc: Global,
    shape: Shape,
    bits: u32,
) -> Result<Vec<u8>, AllocError>
    requires dims { length shape ≡ D }
    requires rate { IsRate (Rate bits) }
    ensures { IfOk result (λ file. file.items ≡ file_of (zeros T.TY shape bits)) }
{
    let store = Store::<T, D>::zeros(alloc, shape, bits)?;
    let file = file_from(alloc, &store);
    // Said as a call: the end of a scope would be proved with each part that is given back.
    drop(store);
    file
}

// The bytes of the file of a store.
fn file_from<T: Lane, const D: usize>(
    alloc: Global,
    store: &Store<T, D>,
) -> Result<Vec<u8>, AllocError>
    ensures { IfOk result (λ file. file.items ≡ file_of store.now) }
{
    let mut file = vec![in alloc; 0; rate_bytes(&store.header()) as usize]?;
    store.write_file(&mut file);
    Ok(file)
}
