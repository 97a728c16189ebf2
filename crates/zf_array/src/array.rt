//! The array.

ghost use Rattle.std.specs.Prelude.{◌≡◌, ℕ, ℤ, List, ◌+◌, ◌<◌, ◌≤◌, ◌^◌, length, vec_len, map, pos, slice_index_or, slice_set, replicate, true, false, IfOk, IfErr, OnOk, OnErr, ◌+ℤ◌};
ghost use Rattle.std.specs.List.{flat_map};
ghost use Rattle.zf_spec.specs.Grid.{blocks};
ghost use Rattle.zf_spec.specs.Numbers.{wrap, word_bits};
ghost use Rattle.zf_spec.specs.Stream.{with_fill};
ghost use Rattle.std.specs.Borrow.{sem};
ghost use Rattle.zf_base.specs.Formats.{existing_of, meant, encoded, with_at};
ghost use Rattle.zf_base.specs.Places.{IsAt};
ghost use Rattle.zf_base.specs.Positions.{IsPosition};
ghost use Rattle.zf_base.specs.Widths.{width_of};
ghost use Rattle.zf_header.specs.HeaderBits.{IsRate, block_bits, rate_bytes_of};
ghost use Rattle.zf_cache.specs.Bodies.{counts_of};
ghost use Rattle.zf_cached.specs.Touch.{touch, touch_for_writing, with_values};
ghost use Rattle.zf_cached.specs.Changes.{flush, discard, relined, resized, raised};
ghost use Rattle.zf_cached.specs.Arrays.{open_array, new_array, saved_file};
ghost use Rattle.zf_parse.specs.Parsing.{parse};
ghost use Rattle.zf_parse.specs.ReadStreams.{IsFault};
ghost use Rattle.zf_store.specs.Stored.{file_of, zeros};
ghost use Rattle.zf_index.specs.Files.{stream_fault};
ghost use Rattle.zf_store.specs.Files.{HasHeader, IsOpened};
ghost use Rattle.zf_array.specs.Standing.{stored, format, state, array_of, shape, block_at, place_at};
ghost use Rattle.zf_array.specs.Coded.{HasEmptyLines, IsCoded, coded};

use std::alloc::{AllocError, Global};
use std::marker::Model;
use zf_base::{Backing, Lane, Pos, Reading, Shape, Stats, block_len};
use zf_cache::{Cache, raised};
use zf_header::{Header, Mode, rate_bytes};
use zf_store::{Store, StoreFault};

/// An array of `D` dimensions whose blocks are kept as codes of a fixed rate, and are read and written
/// through a write-back cache.
///
/// It is seen as one state of a cached array: the block in each line, which blocks are dirty, the values and
/// the code of each block, and three counts; and as the header of its file. All memory is taken when it is
/// made: no call but `set_lines` and `resize` asks for more.
#[derive(Drop)]
pub struct Array<T: Lane, const D: usize> {
    alloc: Global,
    store: Store<T, D>,
    cache: Cache<T, D>,
    // as long as the file
    buffer: Vec<u8>,
}

impl<T: Lane, const D: usize> Model for Array<T, D> {
    ghost use Rattle.zf_array.specs.Standing.{Held};

    ghost Value = { Held };

    ghost use Rattle.std.specs.Vec.{vec_len};
    ghost use Rattle.zf_array.specs.Parts.{held_by, IsJoined};

    ghost view = { λ a. held_by T.value a.store a.cache };

    ghost invariant = { λ a. IsJoined T.value T.width D a.store a.cache (vec_len a.buffer) };
}

// Zeros, as many as the file of an array of zeros has bytes.
fn buffer_for<T: Lane>(alloc: Global, shape: Shape, bits: u32) -> Result<Vec<u8>, AllocError>
    requires { IsRate (Mode.Rate bits) }
    ensures { IfOk result (λ buffer. vec_len buffer ≡ rate_bytes_of (zeros T.TY shape bits).header) }
{
    let header = Header {
        ty: T::TY,
        shape,
        mode: Mode::Rate(bits),
    };
    let buffer = vec![in alloc; 0; rate_bytes(&header) as usize]?;
    Ok(buffer)
}

impl<T: Lane, const D: usize> Array<T, D> {
    ghost use Rattle.zf_array.specs.Loans.{EndsAs, EndsWithPart, EndsWithBlock, EndsWithValue, spliced, with_part, with_block, with_value};

    /// An array of zeros. A block has `bits` bits, 1 to 32768; the number of lines is raised to a power of
    /// two. `AllocError`: there was no memory.
    pub fn new(
        alloc: Global,
        shape: Shape,
        bits: u32,
        lines: u32,
    ) -> Result<Array<T, D>, AllocError>
        requires dims { length shape ≡ D }
        requires rate { IsRate (Mode.Rate bits) }
        requires lines { (0 < lines) × (lines ≤ 2 ^ 16) }
        ensures stored { IfOk result (λ a. stored a ≡ zeros T.TY shape bits) }
        ensures state { IfOk result (λ a. state a ≡ new_array T.width bits shape lines) }
    {
        let cache = Cache::new(alloc, raised(lines))?;
        let buffer = buffer_for::<T>(alloc, shape, bits)?;
        // The store comes last, so that no other way out has to give it back: each such way is proved.
        let store = Store::zeros(alloc, shape, bits)?;
        // Known by this call: what holds of a store.
        let _header = store.header();
        Ok(Array {
            alloc,
            store,
            cache,
            buffer,
        })
    }

    /// The array of a file that begins with the header `h`, of values of `T` in `D` dimensions at a rate.
    /// `lines` is 1 to 65536, raised to a power of two. The file becomes the buffer for saving; on a fault it
    /// is dropped.
    ///
    /// `h` is what `zf_header::read` gives for the file. `Truncated(b)`: the code of block b is the first
    /// that ends too early; b is the number of blocks where only fill bits are missing. `Pad`: a bit of the
    /// fill is one. `Trailing`: a byte follows the fill. The first that holds, in this order; or `Memory`:
    /// there was no memory.
    pub fn from_file(
        alloc: Global,
        h: &Header,
        file: Vec<u8>,
        lines: u32,
    ) -> Result<Array<T, D>, StoreFault>
        requires header { HasHeader file.items h.now }
        requires same_type { T.width ≡ width_of h.now.ty }
        requires dims { length h.now.shape ≡ D }
        requires lines { (0 < lines) × (lines ≤ 2 ^ 16) }
        ensures stored { IfOk result (λ a. IsOpened file.items h.now (stored a)) }
        ensures state { IfOk result (λ a. state a ≡ open_array T.width (block_bits h.now.mode) h.now.shape
            a.codes lines) }
        ensures fault { IfErr result (λ e. IsFault (parse file.items) (stream_fault e)) }
    {
        let store = Store::from_file(alloc, h, &file)?;
        let cache = Cache::new(alloc, raised(lines))?;
        Ok(Array {
            alloc,
            store,
            cache,
            buffer: file,
        })
    }

    /// The value at position `p`, which lies in the array, by one touch.
    #[inline]
    pub fn get(&mut self, p: Pos) -> T
        requires { IsPosition (shape self.old) p }
        ensures state { state self.new ≡ touch (format self.old) (state self.old) (block_at self.old p) }
        ensures value { T.value result ≡ slice_index_or ((state self.new).values (block_at self.old p))
            (place_at self.old p) (pos 0) }
        ensures header { self.new.header ≡ self.old.header }
    {
        let (b, place) = self.shape().place_in::<D>(p);
        self.value_at(b, place)
    }

    /// The value at place `place` of block `b`, by one touch. It is the place of a position of the array.
    #[inline]
    pub fn value_at(&mut self, b: u64, place: usize) -> T
        requires { (ps : List ℕ) × IsAt (shape self.old) ps b place }
        ensures state { state self.new ≡ touch (format self.old) (state self.old) b }
        ensures value { T.value result ≡ slice_index_or ((state self.new).values b) place (pos 0) }
        ensures header { self.new.header ≡ self.old.header }
    {
        self.cache.get(&mut self.store, b, place)
    }

    /// Makes the value at position `p`, which lies in the array, be `v`, by one touch for writing.
    #[inline]
    pub fn set(&mut self, p: Pos, v: T)
        requires { IsPosition (shape self.old) p }
        ensures state { state self.new ≡ (let t = touch_for_writing (format self.old) (state self.old)
            (block_at self.old p) in
            with_values t (block_at self.old p) (slice_set (t.values (block_at self.old p)) (place_at self.old p) (T.value v))) }
        ensures header { self.new.header ≡ self.old.header }
    {
        *self.value_mut(p) = v;
    }

    /// Adds `v` to the value at position `p`, which lies in the array, by one touch for writing. The sum
    /// wraps.
    #[inline]
    pub fn add(&mut self, p: Pos, v: T)
        requires { IsPosition (shape self.old) p }
        ensures state { state self.new ≡ (let t = touch_for_writing (format self.old) (state self.old)
            (block_at self.old p) in
            let old = t.values (block_at self.old p) in
            with_values t (block_at self.old p) (slice_set old (place_at self.old p)
            (wrap T.width (slice_index_or old (place_at self.old p) (pos 0) +ℤ T.value v)))) }
        ensures header { self.new.header ≡ self.old.header }
    {
        let value = self.value_mut(p);
        *value = value.add(v);
    }

    /// Touches position `p`, which lies in the array, for writing; its value. What is written to it is the
    /// array's value there afterwards.
    #[inline(always)]
    pub fn value_mut(&mut self, p: Pos) -> &mut T
        requires { IsPosition (shape self.old) p }
        ensures* writes_back { sem 𝓛 (EndsWithValue T.row D.row
            (record { width = T.width; WIDTH = T.WIDTH; TY = T.TY; value = T.value; in_range = T.in_range })
            (record { eq = T.eq }) self.entry p result) }
        ensures value { T.value result.now ≡ (let t =
            touch_for_writing (format self.old) (state self.old) (block_at self.old p) in
            slice_index_or (t.values (block_at self.old p)) (place_at self.old p) (pos 0)) }
        ensures state { (v : ℤ) → state (with_value self.old p v)
            ≡ (let t = touch_for_writing (format self.old) (state self.old) (block_at self.old p) in
            with_values t (block_at self.old p) (slice_set (t.values (block_at self.old p)) (place_at self.old p) v)) }
        ensures header { (v : ℤ) → (with_value self.old p v).header ≡ self.old.header }
    {
        let (b, place) = self.store.header().shape.place_in::<D>(p);
        self.cache.touch_mut(&mut self.store, b);
        self.cache.dirty_value_mut(b, place)
    }

    /// Touches block `b`, which is below the number of blocks; its `4^D` values, x fastest.
    pub fn block(&mut self, b: u64) -> &[T]
        requires { b < blocks (shape self.old) }
        ensures* touched { sem 𝓛 (EndsAs T.row D.row
            (record { width = T.width; WIDTH = T.WIDTH; TY = T.TY; value = T.value; in_range = T.in_range })
            (record { eq = T.eq }) self.entry
            (array_of self.entry.now.header (touch (format self.entry.now) (state self.entry.now) b))) }
        ensures value { existing_of (format self.old) b (map T.value result.now)
            ≡ (touch (format self.old) (state self.old) b).values b }
        ensures size { length result.now ≡ 4 ^ D }
        ensures state { state (array_of self.old.header (touch (format self.old) (state self.old) b))
            ≡ touch (format self.old) (state self.old) b }
    {
        self.cache.touch(&mut self.store, b);
        self.cache.line(b)
    }

    /// Touches block `b`, which is below the number of blocks, for writing; its `4^D` values, x fastest. What
    /// is written to them is the block's value afterwards.
    pub fn block_mut(&mut self, b: u64) -> &mut [T]
        requires { b < blocks (shape self.old) }
        ensures* writes_back { sem 𝓛 (EndsWithBlock T.row D.row
            (record { width = T.width; WIDTH = T.WIDTH; TY = T.TY; value = T.value; in_range = T.in_range })
            (record { eq = T.eq }) self.entry b result) }
        ensures value { existing_of (format self.old) b (map T.value result.now)
            ≡ (touch_for_writing (format self.old) (state self.old) b).values b }
        ensures size { length result.now ≡ 4 ^ D }
        ensures state { (vs : List ℤ) → state (with_block self.old b vs)
            ≡ with_values (touch_for_writing (format self.old) (state self.old) b) b
            (existing_of (format self.old) b vs) }
        ensures header { (vs : List ℤ) → (with_block self.old b vs).header ≡ self.old.header }
    {
        let len = block_len(self.store.header().shape.dims());
        self.touch_mut(b);
        self.part_mut(b, 0, len)
    }

    /// Touches block `b`, which is below the number of blocks, for writing, so that `part_mut` can lend parts
    /// of it.
    #[inline]
    pub fn touch_mut(&mut self, b: u64)
        requires { b < blocks (shape self.old) }
        ensures state { state self.new ≡ touch_for_writing (format self.old) (state self.old) b }
        ensures dirty { (state self.new).dirty b ≡ true }
        ensures header { self.new.header ≡ self.old.header }
    {
        self.cache.touch_mut(&mut self.store, b);
    }

    /// The `n` values of block `b` from its place `a` on, for writing. The block is in its line and dirty.
    #[inline]
    pub fn part_mut(&mut self, b: u64, a: usize, n: usize) -> &mut [T]
        requires dirty { (state self.old).dirty b ≡ true }
        requires within { a + n ≤ 4 ^ D }
        ensures* writes_back { sem 𝓛 (EndsWithPart T.row D.row
            (record { width = T.width; WIDTH = T.WIDTH; TY = T.TY; value = T.value; in_range = T.in_range })
            (record { eq = T.eq }) self.entry b a n result) }
        ensures value { existing_of (format self.old) b
            (spliced ((state self.old).values b) a n (map T.value result.now)) ≡ (state self.old).values b }
        ensures size { length result.now ≡ n }
        ensures state { (vs : List ℤ) → state (with_part self.old b a n vs)
            ≡ with_values (state self.old) b (existing_of (format self.old) b
            (spliced ((state self.old).values b) a n vs)) }
        ensures header { (vs : List ℤ) → (with_part self.old b a n vs).header ≡ self.old.header }
    {
        self.cache.part_mut(b, a, n)
    }

    /// Writes every dirty block back, in the order of lines; then no block is in any line.
    pub fn flush(&mut self)
        ensures state { state self.new ≡ flush (format self.old) (state self.old) }
        ensures empty { HasEmptyLines self.new }
        ensures header { self.new.header ≡ self.old.header }
    {
        self.cache.flush(&mut self.store);
    }

    /// Forgets what was not written back: no block is in any line, and each has the values that its code
    /// means.
    pub fn discard(&mut self)
        ensures state { state self.new ≡ discard (format self.old) (state self.old) }
        ensures empty { HasEmptyLines self.new }
        ensures header { self.new.header ≡ self.old.header }
    {
        self.cache.discard();
    }

    /// A flush, and then this number of lines, 1 to 65536, raised to a power of two. The memory is taken
    /// first: after `AllocError` nothing has changed.
    pub fn set_lines(&mut self, lines: u32) -> Result<(), AllocError>
        requires { (0 < lines) × (lines ≤ 2 ^ 16) }
        ensures ok { OnOk result (state self.new ≡ relined (format self.old) (state self.old) (raised lines)) }
        ensures err { OnErr result (self.new ≡ self.old) }
        ensures header { self.new.header ≡ self.old.header }
    {
        self.cache.relined(&mut self.store, raised(lines))
    }

    /// Zeros of a new shape, which has `D` dimensions: no block is in any line, and changes that were not
    /// written back are gone; the number of lines and the counts stay. The memory is taken first: after
    /// `AllocError` nothing has changed.
    pub fn resize(&mut self, shape: Shape) -> Result<(), AllocError>
        requires { length shape ≡ D }
        ensures stored { OnOk result (stored self.new
            ≡ zeros self.old.header.ty shape (block_bits self.old.header.mode)) }
        ensures ok { OnOk result (state self.new ≡ resized (format self.new)
            (replicate (block_bits self.old.header.mode) false) (state self.old)) }
        ensures err { OnErr result (self.new ≡ self.old) }
    {
        let bits = self.bits();
        let buffer = buffer_for::<T>(self.alloc, shape, bits)?;
        let store = Store::zeros(self.alloc, shape, bits)?;
        // Known by this call: what holds of a store.
        let _header = store.header();
        self.cache.discard();
        self.store = store;
        self.buffer = buffer;
        Ok(())
    }

    /// Puts the values that the code of block `b` means into `line`. No touch is made.
    pub(crate) fn load_code(&mut self, b: u64, line: &mut [T])
        requires block { b < (format self.old).blocks }
        requires whole { length line.old ≡ (format self.old).block_len }
        ensures value { existing_of (format self.old) b (map T.value line.new)
            ≡ meant (format self.old) b ((state self.old).codes b) }
        ensures same { self.new ≡ self.old }
    {
        self.store.load(b, line);
    }

    /// Makes the code of block `b` that of the values in `line`. The array stands for its codes alone, before
    /// and after.
    pub(crate) fn store_code(&mut self, b: u64, line: &[T])
        requires is_coded { IsCoded self.old }
        requires block { b < (format self.old).blocks }
        requires whole { length line.now ≡ (format self.old).block_len }
        ensures state { state self.new ≡ coded (format self.old) (state self.old)
            (with_at (state self.old).codes b (encoded (format self.old) b (map T.value line.now))) }
        ensures header { self.new.header ≡ self.old.header }
    {
        self.store.store(b, line);
    }

    /// Tells that an array with no block in any line stands for its codes alone.
    pub(crate) fn see_coded(&self)
        requires { HasEmptyLines self.now }
        ensures { IsCoded self.now }
    {
        let _ = &self.store;
    }

    /// The words of the codes, as last written back: code `b` from bit `b * B` on, `B` being the bits of a
    /// block, and zeros to the whole word.
    pub fn words(&self) -> &[u64]
        ensures { word_bits result.now ≡ with_fill (flat_map (λ c. c) self.now.codes) }
    {
        self.store.words()
    }

    /// The file of the codes, as last written back.
    pub fn save_bytes(&mut self) -> &[u8]
        ensures* unchanged { sem 𝓛 (EndsAs T.row D.row
            (record { width = T.width; WIDTH = T.WIDTH; TY = T.TY; value = T.value; in_range = T.in_range })
            (record { eq = T.eq }) self.entry self.entry.now) }
        ensures value { result.now ≡ file_of (stored self.old) }
        ensures saved { result.now ≡ saved_file T.width (block_bits self.old.header.mode) (shape self.old)
            (state self.old) }
    {
        self.store.write_file(&mut self.buffer);
        &self.buffer
    }

    /// The sizes.
    #[inline]
    pub fn shape(&self) -> Shape
        ensures value { result ≡ shape self.now }
        ensures dims { length result ≡ D }
        ensures same_type { T.width ≡ width_of self.now.header.ty }
    {
        self.store.header().shape
    }

    /// The bits per block.
    pub fn bits(&self) -> u32
        ensures value { result ≡ block_bits self.now.header.mode }
        ensures mode { self.now.header.mode ≡ Mode.Rate result }
        ensures rate { IsRate (Mode.Rate result) }
    {
        let Mode::Rate(bits) = self.store.header().mode else {
            unreachable!()
        };
        bits
    }

    /// The number of lines.
    pub fn lines(&self) -> u32
        ensures { result ≡ (state self.now).lines }
    {
        self.cache.lines()
    }

    /// How often a touched block was in its line and was not, and how many blocks were written back.
    pub fn stats(&self) -> Stats
        ensures { counts_of result ≡ self.now.counts }
    {
        self.cache.stats()
    }
}

#[cfg(test)]
mod tests {
    use super::*;
    use std::process::Abort;
    use std::test::Fail;

    // An array of 16 blocks of which each was written back.
    fn written(rt: &impl Abort, alloc: Global) -> Result<Array<i32, 1>, Fail> {
        let shape = Shape::new(1, 64, 1, 1, 1).ok().ok_or("a shape")?;
        assert!(rt; shape.dims() == 1);
        let mut array = Array::<i32, 1>::new(alloc, shape, 64, 1)?;
        for x in 0..16 {
            let p = Pos {
                x: 4 * x,
                y: 0,
                z: 0,
                w: 0,
            };
            assert!(rt; array.shape().contains(p));
            array.set(p, 1);
        }
        array.flush();
        assert!(rt; array.stats().writes == 16);
        Ok(array)
    }

    // No copy of the values stands beside words and lines: after each block was written back once, the buffer
    // is as long as the file. The cache has one line, and the store has a test of its own.
    #[test]
    fn array_fields(rt: HostRuntime) -> Result<(), Fail> {
        let array = written(&rt, rt.alloc())?;
        let Array {
            alloc,
            store,
            cache,
            buffer,
        } = array;
        let _alloc: Global = alloc;
        let store: Store<i32, 1> = store;
        let cache: Cache<i32, 1> = cache;
        let buffer: Vec<u8> = buffer;
        assert!(rt; store.header().shape.blocks() == 16 && cache.lines() == 1);
        assert!(rt; buffer.len() <= 144);
        Ok(())
    }
}
