//! The part of a canvas in which a box lies.
ghost use Rattle.std.specs.Prelude.{ℕ, IsTrue, ◌↔◌, ◌⊎◌, ◌*◌, ◌/◌, ◌<◌, ◌≤◌, pos, ◌+ℤ◌, ◌*ℤ◌, ◌≤ℤ◌, ◌<ℤ◌};

use canvas::{Canvas, Origin};
use polygons::Extent;

/// The columns of blocks of 8 pixels from `left` to before `right`, in the tile rows from `top` to before `bottom`.
#[derive(Clone, Copy, Debug)]
pub(crate) struct Window {
    pub(crate) left: u32,
    pub(crate) right: u32,
    pub(crate) top: u32,
    pub(crate) bottom: u32,
}

/// The first block, and the one behind the last, that can have samples from `low` to before `high` in 1/256 pixel of
/// the screen. The first of all blocks begins at pixel `start` of the screen.
fn blocks_with(low: i32, high: i32, start: i32) -> (u32, u32)
    ensures first { result.0 ≤ 512 }
    ensures end { result.1 ≤ 512 }
    ensures all { (i offset : ℕ) → i < 4096 → offset < 256 → low ≤ℤ (pos 256 *ℤ (pos i +ℤ start) +ℤ pos offset) →
        (pos 256 *ℤ (pos i +ℤ start) +ℤ pos offset) <ℤ high → (result.0 ≤ i / 8) × (i / 8 < result.1) }
{
    let origin = 256 * i64::from(start);
    let first = (i64::from(low) - origin).clamp(0, 1_048_576) as u32;
    let end = (i64::from(high) - origin).clamp(0, 1_048_576) as u32;
    (first / 2048, end.div_ceil(2048))
}

impl Window {
    ghost use Rattle.canvas.specs.Layout.{columns_of};
    ghost use Rattle.fills.specs.Parts.{HoldsSamples};

    /// The window that holds the samples of the canvas in the box.
    pub(crate) fn of(extent: &Extent, origin: &Origin, canvas: &Canvas) -> Window
        ensures columns { result.right ≤ 8 * columns_of canvas.now }
        ensures rows { (result.top ≤ 64) × (result.bottom ≤ 64) }
        ensures holds { HoldsSamples result extent.now origin.now canvas.now }
    {
        let (left, right) = blocks_with(extent.left, extent.right, origin.x);
        let (top, bottom) = blocks_with(extent.top, extent.bottom, origin.y);
        Window {
            left,
            right: right.min(8 * canvas.column_count()),
            top: top / 8,
            bottom: bottom.div_ceil(8).min(canvas.row_count()),
        }
    }

    /// Whether no block is in it.
    pub(crate) fn is_empty(&self) -> bool
        ensures { IsTrue result ↔ ((self.now.right ≤ self.now.left) ⊎ (self.now.bottom ≤ self.now.top)) }
    {
        self.right <= self.left || self.bottom <= self.top
    }
}
