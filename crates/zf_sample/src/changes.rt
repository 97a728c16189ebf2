//! How many values differ.

ghost use Rattle.std.specs.Prelude.{◌≡◌, ◌≤◌};
ghost use Rattle.zf_sample.specs.Summaries.{changes};

/// How many of `count` values of `len` bytes each differ in two lists of raw bytes.
pub(crate) fn count_changes(len: usize, count: u64, before: &[u8], after: &[u8]) -> u64
    ensures count { result ≡ changes len count before.now after.now }
    ensures bound { result ≤ count }
{
    let mut changed = 0;
    let mut before = before;
    let mut after = after;
    for _i in 0..count {
        let (old, more) = before.split_at(len.min(before.len()));
        let (new, others) = after.split_at(len.min(after.len()));
        if old != new {
            changed += 1;
        }
        before = more;
        after = others;
    }
    changed
}
