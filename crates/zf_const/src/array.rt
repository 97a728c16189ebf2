//! The array.

ghost use Rattle.std.specs.Prelude.{◌≡◌, ℕ, List, ◌<◌, ◌≤◌, ◌^◌, length, map, pos, slice_index_or, IfOk, IfErr, OnOk, OnErr};
ghost use Rattle.std.specs.Borrow.{sem};
ghost use Rattle.zf_spec.specs.Grid.{blocks};
ghost use Rattle.zf_base.specs.Formats.{existing_of};
ghost use Rattle.zf_base.specs.Places.{IsAt};
ghost use Rattle.zf_base.specs.Positions.{IsPosition};
ghost use Rattle.zf_base.specs.Widths.{width_of};
ghost use Rattle.zf_header.specs.HeaderBits.{IsHeader};
ghost use Rattle.zf_cache.specs.Bodies.{counts_of};
ghost use Rattle.zf_cached.specs.Touch.{touch};
ghost use Rattle.zf_cached.specs.Changes.{relined, raised};
ghost use Rattle.zf_parse.specs.Parsing.{parse};
ghost use Rattle.zf_parse.specs.ReadStreams.{IsFault};
ghost use Rattle.zf_index.specs.Files.{HasHeader, stream_fault};
ghost use Rattle.zf_const.specs.Standing.{format, state, touched, open_stream, shape, block_at, place_at};
ghost use Rattle.zf_const.specs.Files.{IsOpened};

use crate::codes::Codes;
use crate::index::Index;
use std::alloc::{AllocError, Global};
use std::marker::Model;
use zf_base::{Lane, Pos, Shape, Stats};
use zf_cache::{Cache, raised};
use zf_header::Header;
use zf_index::IndexFault;

/// An array of `D` dimensions whose blocks are the codes of a stream in any mode, and are only read, through
/// a cache.
///
/// It is seen as the header of its file and the code of each block, which no call changes; the block in each
/// line, and three counts. The values are those that the codes mean, so they are the same for every number of
/// lines and every order of reads. A block is decoded when it is asked for. All memory is taken when the
/// array is made: no call but `set_lines` asks for more.
#[derive(Drop)]
pub struct ConstArray<T: Lane, const D: usize> {
    codes: Codes<T, D>,
    cache: Cache<T, D>,
}

impl<T: Lane, const D: usize> Model for ConstArray<T, D> {
    ghost use Rattle.zf_const.specs.Standing.{Held};

    ghost Value = { Held };

    ghost use Rattle.zf_const.specs.Parts.{held_by, IsJoined};

    ghost view = { λ a. held_by T.value a.codes a.cache };

    ghost invariant = { λ a. IsJoined T.value T.width D a.codes a.cache };
}

impl<T: Lane, const D: usize> ConstArray<T, D> {
    ghost use Rattle.zf_const.specs.Loans.{EndsAs};

    /// The array of a file that begins with the header `h`, of values of `T` in `D` dimensions, in any mode.
    /// `lines` is 1 to 65536, raised to a power of two.
    ///
    /// `h` is what `zf_header::read` gives for the file. `Truncated(b)`: the code of block b is the first
    /// that ends too early; b is the number of blocks where only fill bits are missing. `Pad`: a bit of the
    /// fill is one. `Trailing`: a byte follows the fill. The first that holds, in this order; or `Memory`:
    /// there was no memory.
    pub fn from_file(
        alloc: Global,
        h: &Header,
        file: Vec<u8>,
        lines: u32,
    ) -> Result<ConstArray<T, D>, IndexFault>
        requires header { HasHeader file.items h.now }
        requires same_type { T.width ≡ width_of h.now.ty }
        requires dims { length h.now.shape ≡ D }
        requires lines { (0 < lines) × (lines ≤ 2 ^ 16) }
        ensures opened { IfOk result (IsOpened file.items h.now) }
        ensures state { IfOk result (λ a. state a ≡ open_stream h.now a.codes lines) }
        ensures fault { IfErr result (λ e. IsFault (parse file.items) (stream_fault e)) }
    {
        let index = Index::build(alloc, h, &file)?;
        let codes = Codes::of_file(alloc, h, file, index)?;
        let cache = Cache::new(alloc, raised(lines))?;
        Ok(ConstArray { codes, cache })
    }

    /// The value at position `p`, by one touch.
    #[inline]
    pub fn get(&mut self, p: Pos) -> T
        requires { IsPosition (shape self.old) p }
        ensures state { state self.new ≡ touch (format self.old) (state self.old) (block_at self.old p) }
        ensures value { T.value result ≡ slice_index_or ((state self.new).values (block_at self.old p))
            (place_at self.old p) (pos 0) }
        ensures header { self.new.header ≡ self.old.header }
        ensures codes { self.new.codes ≡ self.old.codes }
    {
        let (b, place) = self.shape().place_in::<D>(p);
        self.value_at(b, place)
    }

    /// The value at place `place` of block `b`, by one touch. It is the place of a position of the array.
    #[inline]
    pub fn value_at(&mut self, b: u64, place: usize) -> T
        requires { (ps : List ℕ) × IsAt (shape self.old) ps b place }
        ensures state { state self.new ≡ touch (format self.old) (state self.old) b }
        ensures value { T.value result ≡ slice_index_or ((state self.new).values b) place (pos 0) }
        ensures header { self.new.header ≡ self.old.header }
        ensures codes { self.new.codes ≡ self.old.codes }
    {
        self.cache.get_read(&mut self.codes, b, place)
    }

    /// Touches block `b`; its `4^D` values, x fastest.
    pub fn block(&mut self, b: u64) -> &[T]
        requires { b < blocks (shape self.old) }
        ensures* touched { sem 𝓛 (EndsAs T.row D.row
            (record { width = T.width; WIDTH = T.WIDTH; TY = T.TY; value = T.value; in_range = T.in_range })
            (record { eq = T.eq }) self.entry (touched self.entry.now b)) }
        ensures value { existing_of (format self.old) b (map T.value result.now)
            ≡ (touch (format self.old) (state self.old) b).values b }
        ensures size { length result.now ≡ 4 ^ D }
        ensures state { state (touched self.old b) ≡ touch (format self.old) (state self.old) b }
    {
        self.cache.touch_read(&mut self.codes, b);
        self.cache.line(b)
    }

    /// This number of lines, raised to a power of two; none holds a block, and the counts go on. The memory
    /// is taken first: after `AllocError` nothing has changed.
    pub fn set_lines(&mut self, lines: u32) -> Result<(), AllocError>
        requires { (0 < lines) × (lines ≤ 2 ^ 16) }
        ensures ok { OnOk result (state self.new ≡ relined (format self.old) (state self.old) (raised lines)) }
        ensures err { OnErr result (self.new ≡ self.old) }
        ensures header { self.new.header ≡ self.old.header }
        ensures codes { self.new.codes ≡ self.old.codes }
    {
        self.cache.relined_read(raised(lines))
    }

    /// The sizes.
    pub fn shape(&self) -> Shape
        ensures value { result ≡ shape self.now }
        ensures dims { length result ≡ D }
        ensures same_type { T.width ≡ width_of self.now.header.ty }
        ensures header { IsHeader self.now.header }
    {
        self.codes.header().shape
    }

    /// The number of lines.
    pub fn lines(&self) -> u32
        ensures { result ≡ (state self.now).lines }
    {
        self.cache.lines()
    }

    /// How often a touched block was in its line and was not; no block is written back.
    pub fn stats(&self) -> Stats
        ensures { counts_of result ≡ self.now.counts }
    {
        self.cache.stats()
    }
}
