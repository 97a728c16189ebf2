//! What an array is, as C says it.

ghost use Rattle.std.specs.Prelude.{◌≡◌, ◌≤◌, Some, Ok, IfOk, IfSome};
ghost use Rattle.std.specs.Int.{byte_len};
ghost use Rattle.zf_base.specs.Widths.{width_of};
ghost use Rattle.zf_header.specs.HeaderBits.{IsMode, IsRate, rate_bytes_of};
ghost use Rattle.zf_parse.specs.Raw.{raw_len};
ghost use Rattle.zfpi_c.specs.Fields.{type_of, mode_of, narrow_of, header_answer};

use crate::status::Status;
use zf_base::{Shape, Ty};
use zf_header::{Header, MAX_PRECISION, MAX_RATE, Mode, rate_bytes};
use zf_narrow::Narrow;

/// The type, the shape, x first, and the mode of an array. Sizes of axes that are not used are not looked at,
/// nor is the parameter of the reversible mode.
#[repr(C)]
#[derive(Clone, Copy, Debug, PartialEq, Eq)]
pub struct Field {
    /// 1: int32, 2: int64, 3: int8, 4: uint8, 5: int16, 6: uint16. The stream of the last four says int32.
    pub ty: u32,
    pub dims: u32,
    pub nx: u64,
    pub ny: u64,
    pub nz: u64,
    pub nw: u64,
    /// 1: reversible, 2: rate, 3: precision.
    pub mode: u32,
    pub parameter: u32,
}

/// What the header of a stream says.
#[repr(C)]
#[derive(Clone, Copy, Debug, PartialEq, Eq)]
pub struct Info {
    pub field: Field,
    /// How many bytes the raw values have.
    pub raw_len: u64,
    /// How many bytes the stream has at a rate, else 0.
    pub stream_len: u64,
}

impl Field {
    /// The header that it says.
    pub(crate) fn header(&self) -> Result<Header, Status>
        ensures answer { result ≡ header_answer self.now }
        ensures ty { IfOk result (λ header. type_of self.now.ty ≡ Some header.ty) }
        ensures mode { IfOk result (λ header. IsMode header.mode) }
    {
        let Some(ty) = type_of(self.ty) else {
            return Err(Status::Scalar);
        };
        if self.dims < 1 || self.dims > 4 {
            return Err(Status::Shape);
        }
        let Ok(shape) = Shape::new(self.dims as u8, self.nx, self.ny, self.nz, self.nw) else {
            return Err(Status::Shape);
        };
        let Some(mode) = mode_of(self.mode, self.parameter) else {
            return Err(Status::Mode);
        };
        Ok(Header { ty, shape, mode })
    }
}

// The type that a number says.
fn type_of(number: u32) -> Option<Ty>
    ensures { result ≡ type_of number }
{
    match number {
        1 => Some(Ty::I32),
        2 => Some(Ty::I64),
        3..=6 => Some(Ty::I32),
        _ => None,
    }
}

/// The type of 8 or 16 bits that a number says, if it is one.
pub(crate) fn narrow_of(number: u32) -> Option<Narrow>
    ensures { result ≡ narrow_of number }
{
    match number {
        3 => Some(Narrow::I8),
        4 => Some(Narrow::U8),
        5 => Some(Narrow::I16),
        6 => Some(Narrow::U16),
        _ => None,
    }
}

// The mode that two numbers say.
fn mode_of(number: u32, parameter: u32) -> Option<Mode>
    ensures value { result ≡ mode_of number parameter }
    ensures mode { IfSome result (λ mode. IsMode mode) }
{
    match number {
        1 => Some(Mode::Reversible),
        2 if 1 <= parameter && parameter <= MAX_RATE => Some(Mode::Rate(parameter)),
        3 if 1 <= parameter && parameter <= MAX_PRECISION => Some(Mode::Precision(parameter)),
        _ => None,
    }
}

/// What a header says, as C says it. A rate of it is 1 to 32768, a precision 1 to 128.
pub(crate) fn info_of(header: &Header) -> Info
    requires { IsMode header.now.mode }
    ensures says { header_answer result.field ≡ Ok header.now }
    ensures raw_len { result.raw_len ≡ raw_len header.now }
    ensures stream_len { IsRate header.now.mode → result.stream_len ≡ rate_bytes_of header.now }
{
    let (mode, parameter) = numbers_of(header.mode);
    let field = Field {
        ty: number_of(header.ty),
        dims: u32::from(header.shape.dims()),
        nx: header.shape.size(0),
        ny: header.shape.size(1),
        nz: header.shape.size(2),
        nw: header.shape.size(3),
        mode,
        parameter,
    };
    Info {
        field,
        raw_len: value_len(header.ty) * header.shape.values(),
        stream_len: stream_len(header),
    }
}

// The number that says a type.
fn number_of(ty: Ty) -> u32
    ensures { type_of result ≡ Some ty }
{
    match ty {
        Ty::I32 => 1,
        Ty::I64 => 2,
    }
}

// How many bytes a raw value has.
fn value_len(ty: Ty) -> u64
    ensures value { result ≡ byte_len (width_of ty) }
    ensures bound { result ≤ 8 }
{
    match ty {
        Ty::I32 => 4,
        Ty::I64 => 8,
    }
}

// The numbers that say a mode.
fn numbers_of(mode: Mode) -> (u32, u32)
    requires { IsMode mode }
    ensures { mode_of result.0 result.1 ≡ Some mode }
{
    match mode {
        Mode::Reversible => (1, 0),
        Mode::Rate(rate) => (2, rate),
        Mode::Precision(precision) => (3, precision),
    }
}

// How many bytes a stream has at a rate.
fn stream_len(header: &Header) -> u64
    requires { IsMode header.now.mode }
    ensures { IsRate header.now.mode → result ≡ rate_bytes_of header.now }
{
    match header.mode {
        Mode::Rate(_) => rate_bytes(header),
        _ => 0,
    }
}
