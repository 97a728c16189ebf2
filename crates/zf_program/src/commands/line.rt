//! Lines of text of bounded length, made without memory.

ghost use Rattle.std.specs.Prelude.{◌≡◌, ◌+◌, ◌≤◌, ◌++◌, length, codes, decimal};
ghost use Rattle.zf_header.specs.declared.header.HeaderFault.{HeaderFault};
ghost use Rattle.arrayvec.specs.ArrayString.{array_string_len};
ghost use Rattle.zf_header.specs.HeaderBits.{header_bits};
ghost use Rattle.zf_bound.specs.Bounds.{bound_text};
ghost use Rattle.zf_words.specs.Words.{type_word, shape_word};
ghost use Rattle.zf_program.specs.Info.{mode_text, info_line};
ghost use Rattle.zf_program.specs.Sample.{summary_line};
ghost use Rattle.zf_program.specs.Statuses.{line, header_message, error_line};

use crate::status::Status;
use arrayvec::ArrayString;
use itoa::Buffer;
use zf_base::{Shape, Ty};
use zf_bound::Certified;
use zf_header::{Header, HeaderFault, Mode};
use zf_sample::Summary;

/// The most bytes of a line.
const LINE: usize = 256;

pub type Line = ArrayString<LINE>;

/// The line of a status for the error output; none after `Done`.
pub fn error_line(status: &Status) -> Line
    ensures { result.bytes ≡ error_line status.now }
{
    match *status {
        Status::Done => Line::new(),
        Status::Lines(lines) => counted("", lines, " lines refused"),
        Status::Usage(word) => counted("usage: word ", word, ""),
        Status::RawShort(bytes) => counted("input ends after ", bytes, " bytes"),
        Status::RawLong => plain("input is longer than the shape"),
        Status::Header(fault) => header_line(fault),
        Status::Truncated(block) => counted("stream ends in block ", block, ""),
        Status::Pad => plain("fill bit is one"),
        Status::Trailing => plain("bytes after the stream"),
        Status::NotRate(number) => counted("mode ", u64::from(number), " has no cached array"),
        Status::NotNarrow => plain("type is not int32"),
        Status::Missing => plain("no such file"),
        Status::ScriptLong => plain("script too long"),
        Status::FileLong => plain("file too long"),
        Status::ReadFault => plain("read fault"),
        Status::WriteFault => plain("write fault"),
        Status::LoadFault => plain("load fault"),
        Status::SaveFault => plain("save fault"),
        Status::Memory => plain("out of memory"),
    }
}

/// The line of `info` for a header of so many bits.
pub fn info_line(header: &Header, bits: u32) -> Line
    requires { bits ≡ length (header_bits header.now) }
    ensures { result.bytes ≡ info_line header.now }
{
    let mut line = Line::new();
    push_type(header.ty, &mut line);
    line.push_str(" ");
    push_shape(&header.shape, &mut line);
    line.push_str(" ");
    push_mode(&header.mode, &mut line);
    line.push_str(" blocks ");
    push_number(header.shape.blocks(), &mut line);
    line.push_str(" header ");
    push_number(u64::from(bits), &mut line);
    line.push_str("\n");
    line
}

/// The line of `bound`.
pub fn bound_line(certified: &Certified) -> Line
    ensures { result.bytes ≡ bound_text certified.now }
{
    let mut line = Line::new();
    line.push_str("plane ");
    push_number(u64::from(certified.plane), &mut line);
    if certified.holds {
        let mut digits = Buffer::new();
        line.push_str(" bound ");
        line.push_str(digits.format(certified.error));
    } else {
        line.push_str(" no bound");
    }
    line.push_str("\n");
    line
}

/// The line of `sample`.
pub fn summary_line(summary: &Summary) -> Line
    ensures { result.bytes ≡ summary_line summary.now }
{
    let mut line = Line::new();
    line.push_str("values ");
    push_number(summary.values, &mut line);
    line.push_str(" blocks ");
    push_number(summary.blocks, &mut line);
    line.push_str(" bytes ");
    push_number(summary.bytes, &mut line);
    line.push_str(" changed ");
    push_number(summary.changed, &mut line);
    line.push_str("\n");
    line
}

// Appends the word of a type.
fn push_type(ty: Ty, line: &mut Line)
    requires { array_string_len line.old ≤ 200 }
    ensures text { line.new.bytes ≡ line.old.bytes ++ type_word ty }
    ensures len { array_string_len line.new ≤ array_string_len line.old + 5 }
{
    line.push_str(match ty {
        Ty::I32 => "int32",
        Ty::I64 => "int64",
    });
}

// Appends the word of a shape.
fn push_shape(shape: &Shape, line: &mut Line)
    requires { array_string_len line.old ≤ 100 }
    ensures text { line.new.bytes ≡ line.old.bytes ++ shape_word shape.now }
    ensures len { array_string_len line.new ≤ array_string_len line.old + 84 }
{
    push_number(shape.size(0), line);
    for axis in 1..shape.dims() {
        line.push_str("x");
        push_number(shape.size(axis), line);
    }
}

// Appends the words of a mode.
fn push_mode(mode: &Mode, line: &mut Line)
    requires { array_string_len line.old ≤ 190 }
    ensures text { line.new.bytes ≡ line.old.bytes ++ mode_text mode.now }
    ensures len { array_string_len line.new ≤ array_string_len line.old + 30 }
{
    match *mode {
        Mode::Reversible => line.push_str("reversible"),
        Mode::Rate(bits) => {
            line.push_str("rate ");
            push_number(u64::from(bits), line);
        }
        Mode::Precision(planes) => {
            line.push_str("precision ");
            push_number(u64::from(planes), line);
        }
    }
}

// Appends a number.
fn push_number(number: u64, line: &mut Line)
    requires { array_string_len line.old ≤ 200 }
    ensures text { line.new.bytes ≡ line.old.bytes ++ decimal number }
    ensures len { array_string_len line.new ≤ array_string_len line.old + 20 }
{
    let mut digits = Buffer::new();
    line.push_str(digits.format(number));
}

// The line of a fault of the header.
fn header_line(fault: HeaderFault) -> Line
    ensures { result.bytes ≡ error_line (Status.Header fault) }
{
    match fault {
        HeaderFault::Short => plain("header: short"),
        HeaderFault::Magic => plain("header: magic"),
        HeaderFault::Codec => plain("header: codec"),
        HeaderFault::Scalar => plain("header: type"),
        HeaderFault::Order => plain("header: order"),
        HeaderFault::TooLarge => plain("header: too large"),
        HeaderFault::Mode(number) => counted("header: mode ", u64::from(number), ""),
    }
}

// The line with this text.
fn plain(text: &str) -> Line
    requires { length text.now ≤ 40 }
    ensures { result.bytes ≡ line text.now }
{
    let mut line = Line::new();
    line.push_str("zfpi: ");
    line.push_str(text);
    line.push_str("\n");
    line
}

// The line with this text and a number in it.
fn counted(before: &str, number: u64, after: &str) -> Line
    requires before { length before.now ≤ 40 }
    requires after { length after.now ≤ 40 }
    ensures { result.bytes ≡ line (before.now ++ decimal number ++ after.now) }
{
    let mut digits = Buffer::new();
    let mut line = Line::new();
    line.push_str("zfpi: ");
    line.push_str(before);
    line.push_str(digits.format(number));
    line.push_str(after);
    line.push_str("\n");
    line
}
