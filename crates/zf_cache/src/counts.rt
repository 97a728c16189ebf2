//! Numbers of lines.
ghost use Rattle.std.specs.Prelude.{◌≡◌, ◌^◌, ◌≤◌, ◌<◌};
ghost use Rattle.zf_spec.specs.Grid.{blocks};
ghost use Rattle.zf_cached.specs.Changes.{raised as raised_count, default_lines as default_count};
ghost use Rattle.zf_cache.specs.Kept.{IsLineCount};

use zf_base::Shape;

/// The least power of two that is at least `lines`.
pub fn raised(lines: u32) -> u32
    requires { (0 < lines) × (lines ≤ 2 ^ 16) }
    ensures value { result ≡ raised_count lines }
    ensures count { IsLineCount result }
{
    let mut count = 1u32;
    for _ in 0..16u32 {
        if count >= lines {
            return count;
        }
        count *= 2;
    }
    count
}

/// The number of lines that an array of this shape has by itself: the least power of two whose square is at
/// least its number of blocks.
pub fn default_lines(shape: &Shape) -> u32
    ensures value { result ≡ default_count (blocks shape.now) }
    ensures count { IsLineCount result }
{
    let blocks = shape.blocks();
    let mut count = 1u32;
    for _ in 0..16u32 {
        if u64::from(count) * u64::from(count) >= blocks {
            return count;
        }
        count *= 2;
    }
    count
}
