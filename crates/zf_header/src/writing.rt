//! A header as bits.

ghost use Rattle.std.specs.Prelude.{◌≡◌, ◌+◌, ◌-◌, ◌/◌, ◌≤◌, length};
ghost use Rattle.std.specs.List.{flat_map};
ghost use Rattle.zf_spec.specs.Numbers.{field};
ghost use Rattle.zf_spec.specs.Stream.{long_form};
ghost use Rattle.zf_bits.specs.Writer.{Appends};
ghost use Rattle.zf_header.specs.HeaderBits.{coding, IsMode, header_bits};

use crate::header::{
    Header, LONG_FORM_EXPONENT, LONG_FORM_PLANES, LONG_HEADER_BITS, MAGIC, MAX_SHORT_RATE, Mode,
    codec, mode_number, type_number,
};
use zf_base::Shape;
use zf_bits::BitWriter;

/// Appends the bits of a header, 96 or 148, in room that is there already: for 148 bits. A rate is 1 to
/// 32768, a precision 1 to 128.
///
/// In order: the letters "zfp", the codec's number, the type, the number of dimensions, the sizes, x first,
/// the mode, and the long form of a rate above 2048 (zfp 1.0 documentation).
pub fn write(h: &Header, out: &mut BitWriter)
    requires writable { IsMode h.now.mode }
    requires fits { LONG_HEADER_BITS ≤ out.old.room }
    ensures bits { Appends out.old out.new (header_bits h.now) }
    ensures room { out.new.room + length (header_bits h.now) ≡ out.old.room }
    ensures longest { length (header_bits h.now) ≤ LONG_HEADER_BITS }
{
    let dims = h.shape.dims();
    out.write_reserved(MAGIC, 24);
    out.write_reserved(u64::from(codec(dims)), 8);
    out.write_reserved(u64::from(type_number(h.ty) - 1), 2);
    out.write_reserved(u64::from(dims - 1), 2);
    write_sizes(&h.shape, out);
    out.write_reserved(u64::from(mode_number(&h.mode)), 12);
    write_long_form(&h.mode, out);
}

// Appends the sizes, each less 1: their fields have 48 bits in all.
fn write_sizes(shape: &Shape, out: &mut BitWriter)
    requires { 48 ≤ out.old.room }
    ensures bits { Appends out.old out.new
        (flat_map (λ n. field (48 / length shape.now) (n - 1)) shape.now) }
    ensures room { out.new.room + 48 ≡ out.old.room }
{
    let dims = shape.dims();
    let width = 48 / u32::from(dims);
    for axis in 0..dims {
        out.write_reserved(shape.size(axis) - 1, width);
    }
}

// Appends the long form, where the mode has one.
fn write_long_form(m: &Mode, out: &mut BitWriter)
    requires writable { IsMode m.now }
    requires fits { length (long_form (coding m.now)) ≤ out.old.room }
    ensures bits { Appends out.old out.new (long_form (coding m.now)) }
    ensures room { out.new.room + length (long_form (coding m.now)) ≡ out.old.room }
{
    if let Mode::Rate(rate) = *m
        && rate > MAX_SHORT_RATE
    {
        out.write_reserved(u64::from(rate - 1), 15);
        out.write_reserved(u64::from(rate - 1), 15);
        out.write_reserved(LONG_FORM_PLANES, 7);
        out.write_reserved(LONG_FORM_EXPONENT, 15);
    }
}
