//! What a line of a script asks for.

use zf_base::Pos;

/// A command. Along unused axes, coordinates are 0, and sizes and steps are 1.
#[derive(Clone, Copy, Debug, PartialEq, Eq)]
pub enum Cmd {
    /// The value at a position.
    Get(Pos),
    /// Put a value at a position.
    Set(Pos, i128),
    /// Add to the value at a position.
    Add(Pos, i128),
    /// Put one value at all positions.
    Fill(i128),
    /// The sum of all values.
    Sum,
    /// Another current window: its origin, sizes and steps.
    View(Pos, Pos, Pos),
    /// One place of an axis of the window: the axis and the place.
    Slice(u64, u64),
    /// The value at a position of the window.
    VGet(Pos),
    /// Put a value at a position of the window.
    VSet(Pos, i128),
    /// The sum of the values of the window.
    VSum,
    /// Write back what is dirty, and empty the cache.
    Flush,
    /// Empty the cache, and write nothing back.
    Discard,
    /// Another number of lines of the cache.
    Lines(u64),
    /// Another shape, all zeros: the number of its sizes, and the sizes.
    Resize(u8, Pos),
    /// The counts of the cache.
    Stats,
    /// Split into private views: how many, and how many lines each has.
    Split(u64, u64),
    /// Flush the views in order, and end the split.
    Join,
    /// The value at a position, by this view.
    PGet(u64, Pos),
    /// Put a value at a position, by this view.
    PSet(u64, Pos, i128),
    /// Add to the value at a position, by this view.
    PAdd(u64, Pos, i128),
    /// Write back what is dirty in this view, and empty its cache.
    PFlush(u64),
    /// Empty the cache of this view, and write nothing back.
    PDiscard(u64),
    /// The counts of this view.
    PStats(u64),
}
