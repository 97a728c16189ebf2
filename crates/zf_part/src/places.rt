//! Where the codes of a stream begin.

ghost use Rattle.std.specs.Prelude.{◌≡◌, ◌<◌, length, slice_index_or, OnOk, IfErr};
ghost use Rattle.zf_spec.specs.Grid.{blocks};
ghost use Rattle.zf_parse.specs.Parsing.{parse};
ghost use Rattle.zf_parse.specs.ReadStreams.{IsFault};
ghost use Rattle.zf_index.specs.Files.{HasHeader, stream_fault};
ghost use Rattle.zf_part.specs.Readings.{place_count, place_in};
ghost use Rattle.zf_part.specs.Places.{ArePlacesOf};

use std::alloc::{AllocError, Global};
use zf_header::Header;
use zf_index::{IndexFault, Verbatim};

/// Why parts over places that are lent are not read.
#[derive(Clone, Copy, Debug, PartialEq, Eq)]
pub enum PlaceFault {
    /// The places are not those of this stream.
    Foreign,
    /// There was no memory.
    Memory,
}

impl From<AllocError> for PlaceFault {
    ghost use Rattle.std.specs.Prelude.{◌≡◌};
    ghost use Rattle.zf_part.specs.declared.places.PlaceFault.TheVariants.{Memory};

    ghost from_gives = { λ e f. f ≡ Memory };

    fn from(_: AllocError) -> PlaceFault {
        PlaceFault::Memory
    }
}

/// Where the code of each block begins: in an index that was made of the stream, or as is said.
#[derive(Drop)]
pub(crate) enum Places<'a> {
    Own(Verbatim),
    Lent(&'a [u64]),
}

impl<'a> Places<'a> {
    /// The bit of the stream at which the code of block `b` begins.
    pub(crate) fn at(&self, b: u64) -> u64
        requires { b < place_count self.now }
        ensures { result ≡ place_in self.now b }
    {
        match self {
            Places::Own(index) => index.span(b).at,
            Places::Lent(places) => number_at(places, b as usize),
        }
    }
}

// The number at `k`.
fn number_at(numbers: &[u64], k: usize) -> u64
    requires { k < length numbers.now }
    ensures { result ≡ slice_index_or numbers.now k 0 }
{
    numbers[k]
}

/// Writes at which bit of the stream the code of each block begins, so that parts are read over these places
/// with no walk over all codes. The stream begins with the header `h`.
pub fn write_places(
    alloc: Global,
    h: &Header,
    stream: &[u8],
    places: &mut [u64],
) -> Result<(), IndexFault>
    requires header { HasHeader stream.now h.now }
    requires count { length places.old ≡ blocks h.now.shape }
    ensures places { OnOk result (ArePlacesOf stream.now h.now places.new) }
    ensures fault { IfErr result (λ e. IsFault (parse stream.now) (stream_fault e)) }
    ensures stays { IfErr result (λ e. places.new ≡ places.old) }
{
    let index = Verbatim::build(alloc, h, stream)?;
    for b in 0..places.len() {
        places[b] = index.span(b as u64).at;
    }
    Ok(())
}
