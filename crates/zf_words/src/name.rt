//! Names of files.

ghost use Rattle.std.specs.Prelude.{◌≡◌, ℕ, List, IfSome, IfNone};
ghost use Rattle.std.specs.List.{list_all};
ghost use Rattle.std.specs.Char.{is_ascii_alphanumeric};
ghost use Rattle.zf_words.specs.Names.{IsName, begins_name, is_name_byte};

use arrayvec::ArrayString;
use std::marker::Model;

/// The most characters of a name.
const MOST: usize = 64;

/// The name of a file of the shelf, which contracts see as its bytes: 1 to 64 letters, digits, `_`, `.` and
/// `-`, of which the first is a letter or a digit.
#[derive(Drop)]
pub struct Name {
    text: ArrayString<MOST>,
}

impl Model for Name {
    ghost use Rattle.std.specs.Prelude.{ℕ, List};

    ghost Value = { List ℕ };

    ghost view = { λ n. n.text.bytes };
}

impl Name {
    /// The name that a word is. `None`: the word is no name.
    pub fn new(word: &str) -> Option<Name>
        ensures name { IfSome result (λ name. IsName name × (name ≡ word.now)) }
        ensures none { IfNone result (IsName word.now → ⊥) }
    {
        let bytes = word.as_bytes();
        if !begins_name(bytes) || !has_name_bytes(bytes) {
            return None;
        }
        match ArrayString::from(word) {
            Ok(text) => Some(Name { text }),
            Err(_) => None,
        }
    }

    /// The name as text.
    pub fn as_str(&self) -> &str
        ensures { result.now ≡ self.now }
    {
        self.text.as_str()
    }
}

// Whether a letter or a digit comes first.
fn begins_name(word: &[u8]) -> bool
    ensures { result ≡ begins_name word.now }
{
    match word.first() {
        Some(byte) => is_first_byte(*byte),
        None => false,
    }
}

// Whether all bytes may stand in a name.
fn has_name_bytes(word: &[u8]) -> bool
    ensures { result ≡ list_all is_name_byte word.now }
{
    word.iter().all(|byte| is_name_byte(*byte))
}

// Whether a byte is a letter or a digit.
fn is_first_byte(byte: u8) -> bool
    ensures { result ≡ is_ascii_alphanumeric byte }
{
    byte.is_ascii_alphanumeric()
}

// Whether a byte may stand in a name.
fn is_name_byte(byte: u8) -> bool
    ensures { result ≡ is_name_byte byte }
{
    is_first_byte(byte) || byte == b'_' || byte == b'.' || byte == b'-'
}
