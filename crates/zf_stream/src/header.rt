//! The header that a source begins with.

ghost use Rattle.std.specs.Prelude.{◌≡◌, ◌≢◌, ◌+◌, ◌≤◌, Err, IfOk, IfErr};
ghost use Rattle.zf_dev.specs.Devices.{Reads};
ghost use Rattle.zf_parse.specs.ReadStreams.{BeginsWithHeader, IsFaultOf};
ghost use Rattle.zf_dev.specs.Source.{Gives};
ghost use Rattle.zf_stream.specs.Headed.{ReadsHeader, LacksHeader, GivesHeader, GivesNoHeader};
ghost use Rattle.zf_parse.specs.declared.fault.StreamFault.TheVariants.{Read};

use crate::StreamFault;
use crate::reading::read_into;
use zf_dev::Source;
use zf_header::{FULL_HEADER_BYTES, Header};

/// Takes the first 19 bytes, or all where there are fewer, and reads the header that they begin with, and its
/// length in bits.
///
/// Bytes behind the header may be among the 19: a header has 96 bits, or 148 with the long form of its mode.
///
/// `Header(f)`: f is the first fault of the header; the same bytes were taken. `Read`: the source failed;
/// some of these bytes, maybe none, were taken.
pub fn read_header<S: Source>(src: &mut S) -> Result<(Header, u32), StreamFault>
    ensures ok { IfOk result (λ found. ReadsHeader (S.contents src.old)
        (S.contents src.new) found.0 found.1) }
    ensures err { IfErr result (LacksHeader (S.contents src.old) (S.contents src.new)) }
    // Of every source, also of one that exposes nothing: of what it says that it gave.
    ensures given { IfOk result (λ found. GivesHeader (Gives (S.gave src.old) (S.gave src.new))
        found.0 found.1) }
    ensures lacking { IfErr result (GivesNoHeader (Gives (S.gave src.old) (S.gave src.new))) }
    // It reads no more once it saw the end.
    ensures seen { S.ends_seen src.new ≤ S.ends_seen src.old + 1 }
    // What is behind these bytes is left to who reads next.
    ensures still_exact { S.is_exact src.old → S.is_exact src.new }
    ensures source { Reads S.Source (result ≡ Err Read) src.old src.new }
{
    let mut bytes = [0; FULL_HEADER_BYTES];
    let count = read_into(src, &mut bytes)?;
    header_at_prefix(&bytes[..count])
}

/// The header that these bytes begin with, and its length in bits.
pub(crate) fn header_at_prefix(bytes: &[u8]) -> Result<(Header, u32), StreamFault>
    ensures ok { IfOk result (λ found. BeginsWithHeader bytes.now found.0 found.1) }
    ensures err { IfErr result (IsFaultOf bytes.now) }
{
    match zf_header::read(bytes) {
        Ok(found) => Ok(found),
        Err(f) => Err(StreamFault::Header(f)),
    }
}
