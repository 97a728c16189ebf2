//! The blocks of a shape in order.

ghost use Rattle.std.specs.Prelude.{◌≡◌, length, Some, IfSome};
ghost use Rattle.std.specs.Iterator.{YieldsFirst, UpTo, at_most, item_count};
ghost use Rattle.std.specs.Iterator.SizeHint.{IsWithinCount};
ghost use Rattle.zf_view.specs.BlockItems.{block_items};

use std::iter::FusedIterator;
use std::marker::Model;
use zf_base::{Extent, Shape};

/// The blocks of an array in the order of their numbers: the number of each, and the part of it that lies in
/// the array, that is its first position and its sizes, 1 to 4 along each axis that is used.
///
/// It is seen as the list of what is left.
///
/// ```text
/// for (block, part) in BlockIter::new(&shape) {
///     let first = array.get(part.origin);
/// }
/// ```
#[derive(Debug, Drop)]
pub struct BlockIter {
    shape: Shape,
    next: u64,
    // the number of blocks
    end: u64,
}

impl Model for BlockIter {
    ghost use Rattle.std.specs.Prelude.{ℕ, List};
    ghost use Rattle.zf_base.specs.declared.position.Extent.{Extent};
    ghost use Rattle.zf_view.specs.BlockItems.{items_from, IsAtBlock};

    ghost Value = { List (ℕ × Extent) };

    ghost view = { λ it. items_from it.shape it.next };

    ghost invariant = { λ it. IsAtBlock it.shape it.next it.end };
}

impl BlockIter {
    /// All blocks of an array of this shape.
    pub fn new(shape: &Shape) -> BlockIter
        ensures { result ≡ block_items shape.now }
    {
        BlockIter {
            shape: *shape,
            next: 0,
            end: shape.blocks(),
        }
    }
}

impl Iterator for BlockIter {
    type Item = (u64, Extent);

    ghost next_gives = { YieldsFirst (λ rest. rest) };

    ghost remaining = { item_count (λ rest. rest) };

    fn next(&mut self) -> Option<(u64, Extent)> {
        if self.next == self.end {
            return None;
        }
        let block = self.next;
        self.next += 1;
        Some((block, self.shape.extent(block)))
    }

    fn size_hint(&self) -> (usize, Option<usize>)
        ensures lower { IsWithinCount result.0 (at_most (length self.now)) }
        ensures upper { IfSome result.1 (UpTo (at_most (length self.now))) }
        ensures exact { (result.0 ≡ length self.now) × (result.1 ≡ Some (length self.now)) }
    {
        let left = self.len();
        (left, Some(left))
    }
}

impl ExactSizeIterator for BlockIter {
    fn len(&self) -> usize {
        (self.end - self.next) as usize
    }
}

impl FusedIterator for BlockIter {}
