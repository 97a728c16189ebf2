//! Codes and a two-way cache over them, for a script to work on.

ghost use Rattle.std.specs.Prelude.{◌≡◌, Some, length, vec_len, IfOk, IfErr};
ghost use Rattle.zf_base.specs.Widths.{width_of};
ghost use Rattle.zf_header.specs.HeaderBits.{block_bits, rate_bytes_of};
ghost use Rattle.zf_parse.specs.Parsing.{parse};
ghost use Rattle.zf_parse.specs.ReadStreams.{IsFault};
ghost use Rattle.zf_cached.specs.Arrays.{open_array};
ghost use Rattle.zf_cached.specs.Changes.{raised as raised_lines};
ghost use Rattle.zf_index.specs.Files.{stream_fault};
ghost use Rattle.zf_store.specs.Files.{HasHeader, IsOpened};
ghost use Rattle.zf_store.specs.Stored.{IsStore, file_of};
ghost use Rattle.zf_cache.specs.Kept.{IsEmpty};
ghost use Rattle.zf_run.specs.Pairs.{pair_state};
ghost use Rattle.zf_words.specs.Words.{IsLines};
ghost use Rattle.zf_program.specs.Sending.{IsDone};
ghost use Rattle.zf_program.specs.Rungs.{Closes};

use crate::commands::scripts::save;
use crate::status::Status;
use std::alloc::Global;
use zf_base::Lane;
use zf_cache::raised;
use zf_dev::{Shelf, Sink};
use zf_header::Header;
use zf_store::{Store, StoreFault};
use zf_twoway::TwoWay;
use zf_words::Name;

/// The codes of a file, a two-way cache over them, and the bytes that the file is saved from.
#[derive(Drop)]
pub struct Opened<T: Lane, const D: usize> {
    pub store: Store<T, D>,
    pub cache: TwoWay<T, D>,
    pub file: Vec<u8>,
}

/// The codes of a file with this header, and an empty cache of as many lines, raised to a power of two. The
/// file becomes the bytes for saving.
pub fn open<T: Lane, const D: usize>(
    alloc: Global,
    header: &Header,
    file: Vec<u8>,
    lines: u32,
) -> Result<Opened<T, D>, StoreFault>
    requires lines { IsLines (Some lines) }
    requires header { HasHeader file.items header.now }
    requires same_type { T.width ≡ width_of header.now.ty }
    requires dims { length header.now.shape ≡ D }
    ensures stored { IfOk result (λ o. IsOpened file.items header.now o.store) }
    ensures empty { IfOk result (λ o. IsEmpty o.cache (raised_lines lines)) }
    ensures state { IfOk result (λ o. pair_state T.value o.store o.cache
        ≡ open_array T.width (block_bits header.now.mode) header.now.shape o.store.codes lines) }
    ensures room { IfOk result (λ o. vec_len o.file ≡ rate_bytes_of o.store.header) }
    ensures fault { IfErr result (λ e. IsFault (parse file.items) (stream_fault e)) }
{
    let store = Store::from_file(alloc, header, &file)?;
    let Ok(cache) = TwoWay::new(alloc, raised(lines)) else {
        // Said as a call: the end of a scope would be proved with each part that is given back.
        drop(store);
        return Err(StoreFault::Memory);
    };
    Ok(Opened { store, cache, file })
}

/// Hands on the replies to a script that was run with this status, and saves the file of the codes, from
/// bytes that are as many.
pub fn save_store<T: Lane, const D: usize, O: Sink, F: Shelf>(
    name: &Name,
    pair: &mut Opened<T, D>,
    status: Status,
    out: &mut O,
    shelf: &mut F,
) -> Status
    requires room { vec_len pair.old.file ≡ rate_bytes_of pair.old.store.header }
    requires done { IsDone status }
    ensures closes { Closes O.Sink F.Shelf (Some (name.now, file_of pair.old.store))
        status result out.old out.new shelf.old shelf.new }
    ensures whole { IsStore T.width D pair.old.store }
{
    // Known by this call: what holds of a store.
    let _header = pair.store.header();
    pair.store.write_file(&mut pair.file);
    save(name, &pair.file, status, out, shelf)
}
