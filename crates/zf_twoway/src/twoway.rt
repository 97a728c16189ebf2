//! The two-way cache.
use crate::skewed::Skewed;
use zf_cache::CacheBy;

/// A cache of blocks of `4^D` values, which stands on a backing that is passed to each call.
///
/// Block `b` has two lines: `b` modulo the number `L` of lines, and `b ^ (b / L)` modulo it. It is in one of
/// them at most. Blocks that share their first line mostly have other second ones, so they can be in the
/// cache together, and a dirty block makes room only where both lines hold one. What a cache and the backing
/// that it is used with are where they fit, in the words of two lines, is the law `two_lines_fit`.
pub type TwoWay<T, const D: usize> = CacheBy<Skewed, T, D>;
