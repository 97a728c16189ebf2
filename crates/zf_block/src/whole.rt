//! How far down the code of a block at a fixed rate has its planes whole.

ghost use Rattle.std.specs.Prelude.{◌≡◌, ◌≤◌, ◌*◌, ◌^◌, max, length, take};
ghost use Rattle.zf_spec.specs.ReadPlanes.{planes_in};
ghost use Rattle.zf_bits.specs.Reader.{rest, Reads};
ghost use Rattle.zf_block.specs.Held.{IsHeldSize};
ghost use Rattle.zf_block.specs.WholePlanes.{whole_from, rate_whole_from};

use crate::ahead::{Ahead, look};
use crate::block_code::BlockCode;
use crate::passing::planes_there;
use crate::rate::Rate;
use crate::{Dims, Scratch};
use zf_base::{Lane, block_len};
use zf_bits::{BitReader, Plane};

/// Reads the code of a block of `bits` bits, whatever they are, and finds the least plane k such that all
/// planes from k up are in it whole: the codes of these planes have at most `bits` bits together. It is the
/// width of the type where not even the top plane is.
///
/// Planes are numbered by their digit, the lowest is plane 0. `s` is work room.
pub fn whole_planes<T: Lane>(
    d: Dims,
    bits: u32,
    reader: &mut BitReader<'_>,
    s: &mut Scratch<T>,
) -> u32
    requires enough { bits ≤ length (rest reader.old) }
    ensures plane { result ≡ rate_whole_from T.width d.count (take bits (rest reader.old)) }
    ensures passed { Reads reader.old reader.new (take bits (rest reader.old)) }
{
    let size = block_len(d.count);
    // Planes of up to 64 coefficients lie in one word each.
    if size <= 64 {
        whole_planes_in::<T, u64>(size, bits, reader, &mut s.planes)
    } else {
        whole_planes_in::<T, [u64; 4]>(size, bits, reader, &mut s.wide_planes)
    }
}

/// The greater of `least` and the plane that [`whole_planes`] finds of the next `bits` bits. It needs no
/// room, and is quicker: no value is read, and no plane below `least` is looked at.
pub fn plane_from<T: Lane>(d: Dims, least: u32, bits: u32, reader: &BitReader<'_>) -> u32
    requires least { least ≤ T.WIDTH }
    requires enough { bits ≤ length (rest reader.now) }
    ensures plane { result ≡ max least (rate_whole_from T.width d.count (take bits (rest reader.now))) }
    ensures bound { result ≤ T.WIDTH }
{
    let width = T::WIDTH;
    let mut ahead = Ahead::new(u64::from(bits), reader);
    width - planes_there(width - least, block_len(d.count), &mut ahead)
}

/// Finds it by way of these planes.
fn whole_planes_in<T: Lane, P: Plane>(
    size: usize,
    bits: u32,
    reader: &mut BitReader<'_>,
    planes: &mut [P],
) -> u32
    requires size { IsHeldSize size P.word_count }
    requires planes { length planes.old ≡ T.WIDTH }
    requires enough { bits ≤ length (rest reader.old) }
    ensures plane { result ≡ whole_from bits (planes_in T.WIDTH size (take bits (rest reader.old))) }
    ensures passed { Reads reader.old reader.new (take bits (rest reader.old)) }
{
    zf_planes::clear(planes);
    let code = Rate { bits };
    let word = look(reader);
    BlockCode::<T>::read(&code, size, word, reader, planes).unwrap();
    // What is kept of a plane that is cut has a code that is too long as well.
    T::WIDTH - zf_planes::planes_within(u64::from(bits), size, planes)
}
