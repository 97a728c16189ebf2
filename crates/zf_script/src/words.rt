//! Lines as words.

ghost use Rattle.std.specs.Prelude.{◌≡◌, ◌==◌, [], ◌∷◌, IfSome, IfNone, position};
ghost use Rattle.zf_cached.specs.Grammar.{cut_at};

/// The part before the first such byte and the part behind it; none where there is no such byte.
pub(crate) fn cut(bytes: &[u8], byte: u8) -> Option<(&[u8], &[u8])>
    ensures parts { IfSome result (λ parts. cut_at byte bytes.now ≡ parts.0.now ∷ cut_at byte parts.1.now) }
    ensures none { IfNone result (cut_at byte bytes.now ≡ bytes.now ∷ []) }
{
    let end = place_of(bytes, byte)?;
    Some((&bytes[..end], &bytes[end + 1..]))
}

// The place of the first such byte.
fn place_of(bytes: &[u8], byte: u8) -> Option<usize>
    ensures { result ≡ position (λ b. b == byte) bytes.now }
{
    bytes.iter().position(|b| *b == byte)
}
