//! The texts of replies.

ghost use Rattle.std.specs.Prelude.{◌≡◌, ◌+◌, ◌≤◌, ◌++◌, length, take, codes, decimal};
ghost use Rattle.zf_cached.specs.Replies.{counts_text, refusal_word, reply_text};
ghost use Rattle.zf_script.specs.Seen.{refusal_of, reply_of};

use crate::reply::{Refusal, Reply};
use itoa::Buffer;
use zf_base::Stats;

/// The line of a reply, with its line feed. None is longer than 128 bytes.
pub fn reply_text<'a>(r: &Reply, buf: &'a mut [u8; 128]) -> &'a [u8]
    ensures { result.now ≡ reply_text (reply_of r.now) }
{
    let end = match *r {
        Reply::Number(number) => push(buf, 0, Buffer::new().format(number).as_bytes()),
        Reply::Counts(counts) => push_counts(buf, &counts),
        Reply::Refused(why) => push_refusal(buf, why),
    };
    let end = push(buf, end, b"\n");
    &buf[..end]
}

// Writes the text of counts from the first byte on, and says where it ends.
fn push_counts(buf: &mut [u8; 128], counts: &Stats) -> usize
    ensures text { take result buf.new ≡ counts_text counts.now.hits counts.now.misses counts.now.writes }
    ensures end { result ≤ 100 }
{
    let end = push(buf, 0, b"hits ");
    let end = push_number(buf, end, counts.hits);
    let end = push(buf, end, b" misses ");
    let end = push_number(buf, end, counts.misses);
    let end = push(buf, end, b" writes ");
    push_number(buf, end, counts.writes)
}

// Writes the text of a refusal from the first byte on, and says where it ends.
fn push_refusal(buf: &mut [u8; 128], why: Refusal) -> usize
    ensures text { take result buf.new ≡ codes "! " ++ refusal_word (refusal_of why) }
    ensures end { result ≤ 100 }
{
    let end = push(buf, 0, b"! ");
    push(buf, end, word_of(why))
}

// The word of a refusal.
fn word_of(why: Refusal) -> &'static [u8]
    ensures text { result.now ≡ refusal_word (refusal_of why) }
    ensures len { length result.now ≤ 6 }
{
    match why {
        Refusal::Word => b"word",
        Refusal::Split => b"split",
        Refusal::Size => b"size",
        Refusal::Range => b"range",
        Refusal::Value => b"value",
        Refusal::Memory => b"memory",
    }
}

// Writes a number behind the first `end` bytes, and says where it ends.
fn push_number(buf: &mut [u8; 128], end: usize, number: u64) -> usize
    requires { end ≤ 100 }
    ensures text { take result buf.new ≡ take end buf.old ++ decimal number }
    ensures end { result ≤ end + 20 }
{
    let mut digits = Buffer::new();
    push(buf, end, digits.format(number).as_bytes())
}

// Writes a text behind the first `end` bytes, and says where it ends.
fn push(buf: &mut [u8; 128], end: usize, text: &[u8]) -> usize
    requires { end + length text.now ≤ 128 }
    ensures text { take result buf.new ≡ take end buf.old ++ text.now }
    ensures end { result ≡ end + length text.now }
{
    let next = end + text.len();
    buf[end..next].copy_from_slice(text);
    next
}
