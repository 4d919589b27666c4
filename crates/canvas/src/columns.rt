//! The tiles of a tile row that a triangle can meet.
ghost use Rattle.std.specs.Prelude.{◌≡◌, ℕ, ◌+◌, ◌/◌, ◌<◌, ◌≤◌, length, slice_get, Some as Just};
ghost use Rattle.shade.specs.declared.placed.Placed.{Placed};
ghost use Rattle.shade.specs.Placed.{Meets};
ghost use Rattle.reach.specs.Reach.{IsInSpan};
ghost use Rattle.canvas.specs.Layout.{IsStoredIn, rows_of};

use crate::canvas::Canvas;
use cover::Setup;
use grid::TileSide;
use reach::{NOWHERE, Span, columns_met};
use shade::Triangles;

impl Canvas {
    /// Those of some columns of tiles in which the triangle of this number can meet a sample of the tile row.
    pub(crate) fn reached<T: Triangles>(
        &self,
        row: u32,
        triangles: &T,
        number: usize,
        columns: Span,
    ) -> Span
        requires row { row < rows_of self.now }
        requires number { number < length (T.listed triangles.now) }
        requires first { columns.first ≤ 255 }
        ensures first { result.first ≤ 255 }
        ensures end { result.end ≤ 64 }
        ensures all { (t : Placed) (i j s : ℕ) → slice_get (T.listed triangles.now) number ≡ Just t →
            IsStoredIn self.now row (row + 1) i j s → Meets t self.now.count i j s → IsInSpan columns (i / 64) →
            IsInSpan result (i / 64) }
    {
        let columns = columns.up_to(self.column_count());
        if columns.end <= columns.first + 1 {
            return columns;
        }
        let triangle = triangles.triangle(number);
        match Setup::new(&triangle.tri, triangle.state.cull) {
            None => NOWHERE,
            Some(setup) => columns_met(&setup, self.count, TileSide::T64, row, columns),
        }
    }
}
