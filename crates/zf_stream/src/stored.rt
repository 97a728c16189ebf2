//! The values of a slab, in room that slabs share.

ghost use Rattle.std.specs.Prelude.{◌≡◌, ◌≤◌, ◌<◌, ◌⊎◌, ◌+◌, ◌^◌, ◌++◌, [], pos, IfOk, OnSome, IfNone};
ghost use Rattle.std.specs.Prelude.{map, length, take, replicate, vec_len, vec_capacity};
ghost use Rattle.zf_spec.specs.Grid.{product, blocks, extent_of};
ghost use Rattle.zf_base.specs.Widths.{width_of};
ghost use Rattle.zf_pad.specs.Stored.{AppendsBlock};
ghost use Rattle.zf_parse.specs.ReadStreams.{LacksCode};
ghost use Rattle.zf_stream.specs.Held.{ReadsBehind};

use std::alloc::{AllocError, Global};
use std::marker::Model;
use zf_axes::fill;
use zf_base::{Lane, Shape};
use zf_bits::BitReader;
use zf_header::Header;
use zf_parse::read_code;

/// So many places are made ready at a time: many beside a block, so that it is seldom done, and few to be made
/// for nothing where a stream ends early.
const READY: usize = 4096;

/// The values of the blocks of a slab that were read so far, one block behind the other.
///
/// They take the place of those of the slab before. So where no size cuts blocks, each is read to where it
/// stays: no place is made ready twice, and no block is copied. No more places are made ready than blocks need,
/// but for some: a stream that ends early needs no more than its values.
#[derive(Drop)]
pub(crate) struct Stored<T: Lane> {
    /// The places that were made ready; those behind the values have some of an earlier slab, or zeros.
    places: Vec<T>,
    /// How many of them have values.
    held: usize,
}

impl<T: Lane> Model for Stored<T> {
    ghost use Rattle.zf_stream.specs.Held.{Held, held_code};

    ghost Value = { Held T };

    ghost coded = { held_code T.code };

    ghost use Rattle.std.specs.Prelude.{◌≤◌, take};
    ghost use Rattle.std.specs.Vec.{vec_len, vec_capacity};

    ghost view = { λ s. record { items = take s.held s.places.items; room = vec_capacity s.places } };

    ghost invariant = { λ s. s.held ≤ vec_len s.places };
}

impl<T: Lane> Stored<T> {
    /// Takes the room for so many values, and holds none.
    pub(crate) fn with_room(alloc: Global, room: usize) -> Result<Stored<T>, AllocError>
        ensures { IfOk result (λ stored. room ≤ stored.room) }
    {
        let places = Vec::with_capacity(alloc, room)?;
        Ok(Stored { places, held: 0 })
    }

    /// The values.
    pub(crate) fn values(&self) -> &[T]
        ensures { result.now ≡ self.now.items }
    {
        &self.places[..self.held]
    }

    /// Lets all values go, so that others take their place.
    #[inline(always)]
    pub(crate) fn clear(&mut self)
        ensures items { self.new.items ≡ [] }
        ensures room { self.new.room ≡ self.old.room }
    {
        self.held = 0;
    }

    /// Puts so many zeros behind the values, in room that is there.
    #[inline(always)]
    pub(crate) fn append_zeros(&mut self, count: usize)
        requires few { count ≤ 256 }
        requires room { length self.old.items + count ≤ self.old.room }
        ensures items { map T.value self.new.items
            ≡ map T.value self.old.items ++ replicate count (pos 0) }
        ensures room { self.old.room ≤ self.new.room }
    {
        make_ready(self.held, count, &mut self.places);
        let end = self.held + count;
        fill(T::zero(), &mut self.places[self.held..end]);
        self.held = end;
    }

    /// Reads the code of a block of which all `size` values exist, to behind the others, or answers `None`
    /// where the bits end too early.
    #[inline(always)]
    pub(crate) fn read_whole(
        &mut self,
        part: &Header,
        size: usize,
        reader: &mut BitReader<'_>,
    ) -> Option<()>
        requires size { size ≡ 4 ^ length part.now.shape }
        requires few { size ≤ 256 }
        requires room { length self.old.items + size ≤ self.old.room }
        ensures some { OnSome result (ReadsBehind T.width part.now reader.old reader.new
            (map T.value self.old.items) (map T.value self.new.items)) }
        ensures none { IfNone result (LacksCode T.width part.now.mode (length part.now.shape) reader.old) }
        ensures room { self.old.room ≤ self.new.room }
    {
        make_ready(self.held, size, &mut self.places);
        let end = self.held + size;
        read_code(part, reader, &mut self.places[self.held..end])?;
        self.held = end;
        Some(())
    }

    /// Puts the values of block `b` that exist behind the others, in room that is there.
    pub(crate) fn append_block(&mut self, shape: &Shape, b: u64, block: &[T])
        requires in_array { b < blocks shape.now }
        requires whole { length block.now ≡ 4 ^ length shape.now }
        requires room { length self.old.items + product (extent_of shape.now b) ≤ self.old.room }
        ensures block { AppendsBlock (extent_of shape.now b)
            (map T.value block.now) (map T.value self.old.items) (map T.value self.new.items) }
        ensures room { self.old.room ≤ self.new.room }
    {
        self.places.truncate(self.held);
        zf_pad::append_block(shape, b, block, &mut self.places);
        self.held = self.places.len();
    }
}

/// Sees to it that there are places for so many values behind the first `held`.
#[inline(always)]
fn make_ready<T: Lane>(held: usize, count: usize, places: &mut Vec<T>)
    requires held { held ≤ vec_len places.old }
    requires few { count ≤ 256 }
    requires room { held + count ≤ vec_capacity places.old }
    ensures ready { held + count ≤ vec_len places.new }
    ensures held { take held places.new.items ≡ take held places.old.items }
    ensures room { vec_capacity places.old ≤ vec_capacity places.new }
{
    if places.len() - held < count {
        more_places(held, places);
    }
}

/// Makes some places ready behind the first `held`, as far as there is room. It stands apart, since most
/// blocks have theirs.
#[cold]
#[inline(never)]
fn more_places<T: Lane>(held: usize, places: &mut Vec<T>)
    requires held { held ≤ vec_len places.old }
    requires more { vec_len places.old < held + READY }
    ensures ready { (held + READY ≤ vec_len places.new) ⊎ (vec_capacity places.old ≤ vec_len places.new) }
    ensures few { vec_len places.new ≤ held + READY }
    ensures held { take held places.new.items ≡ take held places.old.items }
    ensures room { vec_capacity places.old ≤ vec_capacity places.new }
{
    let all = (held + READY).min(places.capacity());
    match places.resize(all, T::zero()) {
        Ok(()) => {}
        Err(_) => unreachable!(),
    }
}
