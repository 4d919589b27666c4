//! The columns and the rows of tiles that a triangle can meet.
ghost use Rattle.std.specs.Prelude.{◌≡◌, ◌*◌, ◌<◌, ◌≤◌, max, IsTrue};
ghost use Rattle.grid.specs.Pixels.{side_of};
ghost use Rattle.reach.specs.Reach.{HaveMet, MissesTile, HaveReached};

use crate::span::{NOWHERE, Span};
use cover::{Class, Setup};
use grid::{SampleCount, TileSide};
use shade::Placed;

/// The columns and the rows of tiles of this size in which the triangle can meet a sample: those of the box round it,
/// cut by its scissor.
#[inline]
pub fn tiles_met(triangle: &Placed, setup: &Setup, side: TileSide) -> (Span, Span)
    requires { setup.now ≡ triangle.now.tri }
    ensures first_column { side_of side * result.0.first ≤ 4096 }
    ensures columns { side_of side * result.0.end ≤ 4096 }
    ensures first_row { side_of side * result.1.first ≤ 4096 }
    ensures rows { side_of side * result.1.end ≤ 4096 }
    ensures all { HaveMet triangle.now side result.0 result.1 }
{
    let rect = setup.bounds().overlap(&triangle.state.scissor);
    let columns = Span::with_pixels(rect.x0, rect.x1, side);
    let rows = Span::with_pixels(rect.y0, rect.y1, side);
    (columns, rows)
}

/// The columns and the rows of tiles of 64 by 64 pixels in which the triangle can meet a sample; nowhere if it is culled or
/// has no area.
pub(crate) fn tiles_of(triangle: &Placed) -> (Span, Span)
    ensures first_column { result.0.first ≤ 64 }
    ensures columns { result.0.end ≤ 64 }
    ensures first_row { result.1.first ≤ 64 }
    ensures rows { result.1.end ≤ 64 }
    ensures all { HaveMet triangle.now TileSide.T64 result.0 result.1 }
{
    match Setup::new(&triangle.tri, triangle.state.cull) {
        None => (NOWHERE, NOWHERE),
        Some(setup) => tiles_met(triangle, &setup, TileSide::T64),
    }
}

/// Whether the triangle is seen to cover no sample of the tile in a column and a row of tiles.
#[inline]
fn misses(setup: &Setup, count: SampleCount, side: TileSide, column: u32, row: u32) -> bool
    requires column { side_of side * column < 4096 }
    requires row { side_of side * row < 4096 }
    ensures { IsTrue result → MissesTile setup.now count side column row }
{
    let blocks = side.pixels() / 8;
    match setup.classify(blocks * column, blocks * row, side, count) {
        Class::Out => true,
        Class::All | Class::Mixed => false,
    }
}

/// Those of some columns of tiles in which the triangle can cover a sample of the tile row: without those at both ends
/// that it is seen to miss.
pub fn columns_met(
    setup: &Setup,
    count: SampleCount,
    side: TileSide,
    row: u32,
    columns: Span,
) -> Span
    requires row { side_of side * row < 4096 }
    requires columns { side_of side * columns.end ≤ 4096 }
    ensures first { result.first ≤ max columns.first columns.end }
    ensures end { result.end ≤ columns.end }
    ensures all { HaveReached setup.now count side row columns result }
{
    let Span { mut first, mut end } = columns;
    while first < end && misses(setup, count, side, first, row) {
        first += 1;
    }
    // The first tile that is left is not missed.
    while end.saturating_sub(first) > 1 && misses(setup, count, side, end - 1, row) {
        end -= 1;
    }
    Span { first, end }
}
