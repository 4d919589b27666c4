//! The size of a canvas, and its tiles.
ghost use Rattle.std.specs.Prelude.{◌≡◌, ◌↔◌, ◌+◌, ◌*◌, ◌/◌, ◌<◌, ◌≤◌, IsSome, IfSome};

use crate::tile_rows::TileRows;
use grid::{SampleCount, TileSide};
use raster::Tile;

/// A canvas by its size. Its samples lie in tiles of 64 by 64 pixels.
#[derive(Clone, Copy, Debug)]
pub struct Canvas {
    /// How many pixels a row has, from 1 to 4096.
    pub width: u32,
    /// How many rows of pixels there are, from 1 to 4096.
    pub height: u32,
    /// How many samples a pixel has.
    pub count: SampleCount,
    pub ghost wide: { 1 ≤ width },
    pub ghost width_fits: { width ≤ 4096 },
    pub ghost high: { 1 ≤ height },
    pub ghost height_fits: { height ≤ 4096 },
}

impl Canvas {
    ghost use Rattle.grid.specs.declared.pixels.TileSide.TheVariants.{T64};
    ghost use Rattle.blocks.specs.Layout.{planes_of_tile};
    ghost use Rattle.canvas.specs.Layout.{IsCanvasSize, columns_of, rows_of, planes_of_row};

    /// The canvas of this size, or `None` if it has no pixels or more than 4096 in a row or a column.
    pub fn new(width: u32, height: u32, count: SampleCount) -> Option<Canvas>
        ensures some { IsSome result ↔ IsCanvasSize width height }
        ensures size { IfSome result (λ c. (c.width ≡ width) × (c.height ≡ height) × (c.count ≡ count)) }
    {
        if 1 <= width && width <= 4096 && 1 <= height && height <= 4096 {
            Some(Canvas {
                width,
                height,
                count,
            })
        } else {
            None
        }
    }

    /// How many tiles a tile row has.
    pub fn column_count(&self) -> u32
        ensures value { result ≡ columns_of self.now }
        ensures some { 1 ≤ result }
        ensures few { result ≤ 64 }
    {
        (self.width + 63) / 64
    }

    /// How many tile rows there are.
    pub fn row_count(&self) -> u32
        ensures value { result ≡ rows_of self.now }
        ensures some { 1 ≤ result }
        ensures few { result ≤ 64 }
    {
        (self.height + 63) / 64
    }

    /// How many planes a tile has.
    pub fn planes_of_tile(&self) -> usize
        ensures value { result ≡ planes_of_tile self.now.count }
        ensures few { result ≤ 1041 }
    {
        1 + 65 * self.count.count() as usize
    }

    /// How many planes a tile row has.
    pub fn planes_of_row(&self) -> usize
        ensures value { result ≡ planes_of_row self.now }
        ensures few { result ≤ 66624 }
    {
        self.column_count() as usize * self.planes_of_tile()
    }

    /// The tile in a column and a row of tiles.
    pub fn tile(&self, column: u32, row: u32) -> Tile
        requires column { column < columns_of self.now }
        requires row { row < rows_of self.now }
        ensures { (result.bx ≡ 8 * column) × (result.by ≡ 8 * row) × (result.side ≡ T64) ×
            (result.count ≡ self.now.count) }
    {
        Tile {
            bx: 8 * column,
            by: 8 * row,
            side: TileSide::T64,
            count: self.count,
        }
    }

    /// The tile rows from `first` to before `end`, or `None` if these are no tile rows of the canvas.
    pub fn rows(&self, first: u32, end: u32) -> Option<TileRows>
        ensures some { IsSome result ↔ ((first ≤ end) × (end ≤ rows_of self.now)) }
        ensures rows { IfSome result (λ strip. (strip.canvas ≡ self.now) × (strip.first ≡ first) × (strip.end ≡ end)) }
    {
        if first <= end && end <= self.row_count() {
            Some(TileRows {
                canvas: *self,
                first,
                end,
            })
        } else {
            None
        }
    }

    /// All tile rows.
    pub fn all(&self) -> TileRows
        ensures { (result.canvas ≡ self.now) × (result.first ≡ 0) × (result.end ≡ rows_of self.now) }
    {
        TileRows {
            canvas: *self,
            first: 0,
            end: self.row_count(),
        }
    }
}
