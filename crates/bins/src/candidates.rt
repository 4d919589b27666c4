//! Which triangles can have pixels in some tile rows.
ghost use Rattle.std.specs.Prelude.{◌≡◌, ℕ, ◌+◌, ◌<◌, ◌≤◌, length, IfOk, IsTrue};
ghost use Rattle.tiling.specs.Grid.{rows_of, IsWithinLimits};
ghost use Rattle.bins.specs.TileRuns.{AreCandidates};

use draw_list::{DrawList, RowSpan};
use std::alloc::{AllocError, Global};
use tiling::Tiling;

/// Whether one of these rows of pixels lies between `top` and before `bottom`. There is one comparison and one branch:
/// half of all triangles begin above the bottom, and half end below the top, but few do both.
#[inline]
fn has_row(rows: RowSpan, top: u32, bottom: u32) -> bool
    ensures all { (row : ℕ) → rows.first ≤ row → row < rows.end → top ≤ row → row < bottom → IsTrue result }
    ensures others { IsTrue result → (rows.first < bottom) × (top < rows.end) }
{
    u32::from(rows.first).max(top) < u32::from(rows.end).min(bottom)
}

/// The numbers of the triangles that have rows of pixels in `rows` tile rows from `first_row` on, in draw order.
pub(crate) fn candidates_of(
    alloc: Global,
    list: &DrawList,
    tiling: &Tiling,
    first_row: u32,
    rows: u32,
) -> Result<Vec<u32>, AllocError>
    requires { first_row + rows ≤ rows_of tiling.now }
    ensures limits { IsWithinLimits tiling.now }
    ensures few { length list.now.triangles ≤ 65536 }
    ensures numbers { IfOk result (λ numbers. AreCandidates list.now tiling.now first_row rows
        (length list.now.triangles) numbers.items) }
{
    let (top, bottom) = tiling.pixel_rows(first_row, rows);
    let mut numbers = Vec::new(alloc);
    for number in 0..list.triangles() as u32 {
        if has_row(list.rows(number as usize), top, bottom) {
            numbers.push(number)?;
        }
    }
    Ok(numbers)
}
