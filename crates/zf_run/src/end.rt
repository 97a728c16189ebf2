//! How a run ends.

ghost use Rattle.std.specs.Prelude.{◌≡◌};
ghost use Rattle.zf_run.specs.Ends.{end_of};

/// How the run of a script ended.
#[derive(Clone, Copy, Debug, PartialEq, Eq)]
pub enum RunEnd {
    /// All lines were run, and none was refused.
    Done,
    /// All lines were run, and so many of them were refused, at least one.
    Lines(u64),
    /// A reply was not written whole. No later line was run.
    Write,
}

/// The end where all lines were run, and so many of them were refused.
pub(crate) fn end_of(refused: u64) -> RunEnd
    ensures { result ≡ end_of refused }
{
    if refused == 0 {
        RunEnd::Done
    } else {
        RunEnd::Lines(refused)
    }
}
