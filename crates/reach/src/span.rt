//! Tiles in a row or a column of tiles.
ghost use Rattle.std.specs.Prelude.{◌≡◌, ℕ, ◌*◌, ◌/◌, ◌<◌, ◌≤◌, ◌≤ℤ◌, ◌<ℤ◌, min, pos};
ghost use Rattle.grid.specs.Pixels.{side_of};
ghost use Rattle.reach.specs.Reach.{IsInSpan};

use grid::TileSide;

/// The tiles from `first` to before `end`, in a row or a column of tiles. There are none if `end` is not above `first`.
#[derive(Clone, Copy, Debug, PartialEq, Eq)]
pub struct Span {
    /// The first tile.
    pub first: u32,
    /// The tile after the last one.
    pub end: u32,
}

/// No tile: it begins behind tile 63, the last one of 64 pixels, and ends before the first.
pub const NOWHERE: Span = Span { first: 64, end: 0 };

impl Span {
    /// The tiles of both spans, and those between them.
    #[inline]
    pub fn joined(self, other: Span) -> Span
        ensures these { (n : ℕ) → IsInSpan self n → IsInSpan result n }
        ensures others { (n : ℕ) → IsInSpan other n → IsInSpan result n }
    {
        Span {
            first: self.first.min(other.first),
            end: self.end.max(other.end),
        }
    }

    /// Those of the tiles that come before tile `end`.
    #[inline]
    pub fn up_to(self, end: u32) -> Span
        ensures first { result.first ≡ self.first }
        ensures end { result.end ≡ min self.end end }
    {
        Span {
            first: self.first,
            end: self.end.min(end),
        }
    }

    /// The tiles of this size that have pixels of the screen from pixel `low` to before `high`.
    #[inline]
    pub(crate) fn with_pixels(low: i32, high: i32, side: TileSide) -> Span
        ensures first { side_of side * result.first ≤ 4096 }
        ensures end { side_of side * result.end ≤ 4096 }
        ensures all { (i : ℕ) → i < 4096 → low ≤ℤ pos i → pos i <ℤ high → IsInSpan result (i / side_of side) }
    {
        if high <= low {
            return NOWHERE;
        }
        let pixels = side.pixels();
        Span {
            first: low.clamp(0, 4096) as u32 / pixels,
            end: (high.clamp(0, 4096) as u32).div_ceil(pixels),
        }
    }
}
