//! Words of a stream and their bytes, the least significant byte of each word first.

ghost use Rattle.std.specs.Prelude.{◌≡◌, ◌*◌, ◌≤◌, length};
ghost use Rattle.std.specs.Int.{w64, from_le_bytes};
ghost use Rattle.zf_spec.specs.Stream.{first_bytes};
ghost use Rattle.zf_stream.specs.Flows.{bytes_in};

/// Makes bytes of words.
pub(crate) fn put_bytes(words: &[u64], bytes: &mut [u8])
    requires { length bytes.old ≡ 8 * length words.now }
    ensures { bytes.new ≡ bytes_in words.now }
{
    for i in 0..words.len() {
        bytes[8 * i..8 * i + 8].copy_from_slice(&words[i].to_le_bytes());
    }
}

/// The number that has these bytes, the least significant first.
#[inline]
pub(crate) fn word_of(bytes: &[u8]) -> u64
    requires { length bytes.now ≤ 8 }
    ensures { result ≡ from_le_bytes w64 (first_bytes 8 bytes.now) }
{
    let mut all = [0; 8];
    all[..bytes.len()].copy_from_slice(bytes);
    u64::from_le_bytes(all)
}
