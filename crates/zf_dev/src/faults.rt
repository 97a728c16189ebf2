//! What can go wrong with a device, and how its count of faults rises.

ghost use Rattle.std.specs.Prelude.{◌≡◌, ◌≤◌};
ghost use Rattle.zf_dev.specs.Faults.{next_count};

use thiserror::Error;

/// A device did not do what it was asked, and its count of faults rose.
#[derive(Clone, Copy, Debug, PartialEq, Eq, Error)]
#[error("a device failed")]
pub struct Failed;

/// Why a file was not loaded.
#[derive(Clone, Copy, Debug, PartialEq, Eq, Error)]
pub enum LoadError {
    /// There is no file of that name.
    #[error("there is no such file")]
    Missing,
    /// The file has more bytes than were allowed.
    #[error("the file is too long")]
    Long,
    /// The shelf failed, and its count of faults rose.
    #[error("the shelf failed")]
    Failed,
    /// There was no memory.
    #[error("there is no memory")]
    Memory,
}

/// Why a source was not read to its end.
#[derive(Clone, Copy, Debug, PartialEq, Eq, Error)]
pub enum TakeError {
    /// More bytes came than were allowed.
    #[error("the input is too long")]
    Long,
    /// The source failed, and its count of faults rose.
    #[error("the source failed")]
    Failed,
    /// There was no memory.
    #[error("there is no memory")]
    Memory,
}

// Counts one more, up to the last value.
pub(crate) fn raise(count: &mut u64)
    ensures next { count.new ≡ next_count count.old }
    ensures kept { count.old ≤ count.new }
{
    *count = count.saturating_add(1);
}
