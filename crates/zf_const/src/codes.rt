//! The codes of a stream, read where they stand.

ghost use Rattle.std.specs.Prelude.{◌≡◌, length, IfOk};
ghost use Rattle.zf_base.specs.Widths.{width_of};
ghost use Rattle.zf_spec.specs.Stream.{to_bits};
ghost use Rattle.zf_index.specs.Files.{HasHeader, IsIndexOf};
ghost use Rattle.zf_index.specs.Spans.{codes_in};
ghost use Rattle.zf_const.specs.Parts.{seen};

use crate::index::Index;
use std::alloc::{AllocError, Global};
use std::marker::{Model, PhantomData};
use zf_base::{Lane, Reading, block_len};
use zf_bits::Excerpt;
use zf_header::Header;
use zf_parse::longest_code;

/// The codes of a stream of values of `T` in `D` dimensions, seen as its header and the list of the codes.
///
/// The file is kept as it came, and a code is read when its block is asked for.
#[derive(Drop)]
pub(crate) struct Codes<T: Lane, const D: usize> {
    header: Header,
    file: Vec<u8>,
    index: Index,
    // the bits of the code that is read
    excerpt: Excerpt,
    of: PhantomData<T>,
}

impl<T: Lane, const D: usize> Model for Codes<T, D> {
    ghost use Rattle.zf_const.specs.Parts.{Coded, coded_by, seen, IsCoded};

    ghost Value = { Coded };

    ghost view = { λ s. coded_by s.header s.file.items s.index };

    ghost invariant = { λ s. IsCoded T.width D s.header s.file.items (seen s.index) s.excerpt.room };
}

impl<T: Lane, const D: usize> Codes<T, D> {
    /// The codes of a file that begins with the header `h`, by its index.
    pub(crate) fn of_file(
        alloc: Global,
        h: &Header,
        file: Vec<u8>,
        index: Index,
    ) -> Result<Codes<T, D>, AllocError>
        requires header { HasHeader file.items h.now }
        requires index { IsIndexOf file.items h.now (seen index) }
        requires same_type { T.width ≡ width_of h.now.ty }
        requires dims { length h.now.shape ≡ D }
        ensures { IfOk result (λ s. s ≡ record {
          header = h.now;
          codes =
              codes_in (seen index) (to_bits file.items);
        }) }
    {
        let excerpt = Excerpt::new(alloc, longest_code::<T>(h))?;
        Ok(Codes {
            header: *h,
            file,
            index,
            excerpt,
            of: PhantomData,
        })
    }

    /// The header of the file.
    pub(crate) fn header(&self) -> Header
        ensures value { result ≡ self.now.header }
    {
        self.header
    }
}

impl<T: Lane, const D: usize> Reading<T> for Codes<T, D> {
    ghost use Rattle.std.specs.Prelude.{List, Bool};
    ghost use Rattle.zf_const.specs.Parts.{Coded, format_of, code_at};

    ghost Code = { List Bool };

    ghost Kept = { Coded };

    ghost format = { λ s. format_of s };

    ghost codes = { λ s b. code_at s b };

    ghost kept = { λ s. s };

    fn blocks(&self) -> u64 {
        self.header.shape.blocks()
    }

    fn block_len(&self) -> usize {
        block_len(self.header.shape.dims())
    }

    fn load(&mut self, b: u64, line: &mut [T]) {
        self.excerpt.take(&self.file, self.index.span(b).at);
        let mut reader = self.excerpt.reader();
        let Some(()) = zf_parse::read_code(&self.header, &mut reader, line) else {
            unreachable!()
        };
    }
}
