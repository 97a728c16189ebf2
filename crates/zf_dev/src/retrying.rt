//! Calls of a stream, begun again where a signal interrupts them.

ghost use Rattle.std.specs.Prelude.{◌≡◌, ◌≢◌, ◌<◌, ◌≤◌, [], length, take, IfOk, IfErr, OnErr};
ghost use Rattle.std.specs.IoError.{error_kind};
ghost use Rattle.zf_dev.specs.Sink.{Appends};
ghost use Rattle.zf_dev.specs.Source.{Takes, EndsAt};

use std::io;
use std::io::{ErrorKind, Read, Write};

/// One read, begun again where a signal interrupts it.
pub(crate) fn read_retrying<R: Read>(stream: &mut R, buf: &mut [u8]) -> io::Result<usize>
    ensures bound { IfOk result (λ n. n ≤ length buf.old) }
    ensures ok { IfOk result (λ n. Takes (R.remaining stream.old) (R.remaining stream.new) (take n buf.new)) }
    ensures end { 0 < length buf.old → IfOk result
        (λ n. EndsAt (R.remaining stream.old) (R.remaining stream.new) n) }
    ensures err { OnErr result (Takes (R.remaining stream.old) (R.remaining stream.new) []) }
    ensures retried { IfErr result (λ e. error_kind e ≢ ErrorKind.Interrupted) }
{
    for _ in 0..u64::MAX {
        match stream.read(buf) {
            Ok(count) => return Ok(count),
            Err(e) if e.kind() == ErrorKind::Interrupted => {}
            Err(e) => return Err(e),
        }
    }
    Err(ErrorKind::TimedOut.into())
}

/// One write, begun again where a signal interrupts it. That it takes no byte is an error.
pub(crate) fn write_retrying<W: Write>(stream: &mut W, bytes: &[u8]) -> io::Result<usize>
    ensures some { 0 < length bytes.now → IfOk result (λ n. 0 < n) }
    ensures bound { IfOk result (λ n. n ≤ length bytes.now) }
    ensures ok { IfOk result (λ n. Appends (W.contents stream.old) (W.contents stream.new) (take n bytes.now)) }
    ensures err { OnErr result (Appends (W.contents stream.old) (W.contents stream.new) []) }
    ensures retried { IfErr result (λ e. error_kind e ≢ ErrorKind.Interrupted) }
{
    for _ in 0..u64::MAX {
        match stream.write(bytes) {
            Ok(0) => return Err(ErrorKind::WriteZero.into()),
            Ok(count) => return Ok(count),
            Err(e) if e.kind() == ErrorKind::Interrupted => {}
            Err(e) => return Err(e),
        }
    }
    Err(ErrorKind::TimedOut.into())
}

/// One flush, begun again where a signal interrupts it.
pub(crate) fn flush_retrying<W: Write>(stream: &mut W) -> io::Result<()>
    ensures stays { Appends (W.contents stream.old) (W.contents stream.new) [] }
    ensures retried { IfErr result (λ e. error_kind e ≢ ErrorKind.Interrupted) }
{
    for _ in 0..u64::MAX {
        match stream.flush() {
            Ok(()) => return Ok(()),
            Err(e) if e.kind() == ErrorKind::Interrupted => {}
            Err(e) => return Err(e),
        }
    }
    Err(ErrorKind::TimedOut.into())
}
