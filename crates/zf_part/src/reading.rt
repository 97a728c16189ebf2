//! Blocks of a stream, one after another.

ghost use Rattle.std.specs.Prelude.{◌≡◌, ◌<◌, ◌^◌, map, length, IfOk, IfErr};
ghost use Rattle.zf_spec.specs.Grid.{blocks};
ghost use Rattle.zf_parse.specs.Parsing.{parse};
ghost use Rattle.zf_parse.specs.ReadStreams.{IsFault};
ghost use Rattle.zf_index.specs.Files.{stream_fault};
ghost use Rattle.zf_part.specs.Blocks.{Holds, IsBlockOf};
ghost use Rattle.zf_part.specs.Places.{ArePlacesOf, IsPlaceFault};
ghost use Rattle.zf_part.specs.Readings.{IsOver, IsFound, HasRoom};

use crate::places::{PlaceFault, Places};
use std::alloc::{AllocError, Global};
use std::marker::{Model, PhantomData};
use zf_base::Lane;
use zf_bits::BitReader;
use zf_header::Header;
use zf_index::{IndexFault, Verbatim};
use zf_parse::{longest_code, read_code};

/// What blocks of a stream of values of `T` are read by: its header, its bytes, and where each code begins.
#[derive(Drop)]
pub(crate) struct Reading<'a, T: Lane> {
    h: &'a Header,
    stream: &'a [u8],
    places: Places<'a>,
    of: PhantomData<T>,
}

impl<'a, T: Lane> Model for Reading<'a, T> {
    ghost use Rattle.zf_part.specs.Readings.{Reading, IsReading};

    ghost Value = { Reading };

    ghost view = { λ r. record { header = r.h.now; bytes = r.stream.now; places = r.places } };

    ghost invariant = { λ r. IsReading T.width r.h.now r.places };
}

impl<'a, T: Lane> Reading<'a, T> {
    /// Judges the stream, and makes ready to read blocks of it.
    pub(crate) fn begin(
        alloc: Global,
        h: &'a Header,
        stream: &'a [u8],
    ) -> Result<Reading<'a, T>, IndexFault>
        requires { Holds T.width stream.now h.now }
        ensures ok { IfOk result (IsOver stream.now h.now (Unit {0})) }
        ensures fault { IfErr result (λ e. IsFault (parse stream.now) (stream_fault e)) }
    {
        let index = Verbatim::build(alloc, h, stream)?;
        Ok(Reading {
            h,
            stream,
            places: Places::Own(index),
            of: PhantomData,
        })
    }

    /// Makes ready to read blocks over these places, right or not. `Foreign`: not each block has one.
    pub(crate) fn begin_at(
        h: &'a Header,
        stream: &'a [u8],
        places: &'a [u64],
    ) -> Result<Reading<'a, T>, PlaceFault>
        requires { Holds T.width stream.now h.now }
        ensures ok { IfOk result (IsOver stream.now h.now (ArePlacesOf stream.now h.now places.now)) }
        ensures fault { IfErr result (IsPlaceFault stream.now h.now places.now) }
    {
        if h.shape.blocks() > places.len() as u64 {
            return Err(PlaceFault::Foreign);
        }
        Ok(Reading {
            h,
            stream,
            places: Places::Lent(places),
            of: PhantomData,
        })
    }

    /// The header of the stream.
    pub(crate) fn header(&self) -> &'a Header
        ensures { result.now ≡ self.now.header }
    {
        self.h
    }

    /// Words for the longest code behind any place.
    pub(crate) fn words(&self, alloc: Global) -> Result<Vec<u64>, AllocError>
        ensures { IfOk result (λ words. HasRoom self.now.header words.items) }
    {
        vec![in alloc; 0; longest_code::<T>(self.h).div_ceil(64) as usize + 2]
    }

    /// Reads block `b` by way of words, or answers `None` where its code is not at its place.
    pub(crate) fn read(&self, b: u64, words: &mut [u64], block: &mut [T]) -> Option<()>
        requires in_array { b < blocks self.now.header.shape }
        requires room { HasRoom self.now.header words.old }
        requires whole { length block.old ≡ 4 ^ length self.now.header.shape }
        ensures found { IsFound self.now result
            (IsBlockOf self.now.bytes self.now.header b (map T.value block.new)) }
        ensures whole { length block.new ≡ length block.old }
    {
        let at = self.places.at(b);
        if at.div_ceil(8) > self.stream.len() as u64 {
            return None;
        }
        read_code(
            self.h,
            &mut BitReader::of_file(self.stream, at, words),
            block,
        )
    }
}
