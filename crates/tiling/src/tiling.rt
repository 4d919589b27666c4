//! The tiles of a picture.
ghost use Rattle.std.specs.Prelude.{◌≡◌, ◌+◌, ◌*◌, ◌<◌, ◌≤◌, MatchOption};
ghost use Rattle.tiling.specs.Grid as tiles;

use grid::{PixelBox, TileSide};
use std::marker::Model;

/// A picture that is cut into square tiles. They are numbered row by row, from the upper left one; the last column and
/// the last row may be cut by the picture's edge.
#[derive(Clone, Copy, Debug, PartialEq, Eq)]
pub struct Tiling {
    width: u32,
    height: u32,
    side: TileSide,
}

/// The number of tiles of this size that reach over `pixels` pixels.
fn tiles_over(pixels: u32, side: TileSide) -> u32
    requires { pixels ≤ 4096 }
    ensures value { result ≡ tiles.tiles_over pixels side }
    ensures greatest { result ≤ 512 }
{
    pixels.div_ceil(side.pixels())
}

impl Model for Tiling {
    ghost use Rattle.tiling.specs.Grid.{TileGrid, IsWithinLimits};

    ghost Value = { TileGrid };

    ghost view = { λ t. record { width = t.width; height = t.height; side = t.side } };

    ghost invariant = { λ t. IsWithinLimits (record { width = t.width; height = t.height; side = t.side }) };

    ghost inverse = { λ g. record { width = g.width; height = g.height; side = g.side } };
}

impl Tiling {
    ghost use Rattle.grid.specs.Pixels.{side_of};
    ghost use Rattle.cover.specs.Square.{IsCorner};
    ghost use Rattle.tiling.specs.Grid.{columns_of, rows_of, tiles_of, rect_of, IsInPicture, IsTileOf, IsWithinLimits};

    /// The tiles of this size over a picture of this width and height in pixels.
    pub fn new(width: u32, height: u32, side: TileSide) -> Tiling
        requires wide { 1 ≤ width }
        requires width { width ≤ 4096 }
        requires high { 1 ≤ height }
        requires height { height ≤ 4096 }
        ensures { result ≡ record { width = width; height = height; side = side } }
    {
        Tiling {
            width,
            height,
            side,
        }
    }

    /// The picture's width in pixels.
    pub fn width(&self) -> u32
        ensures value { result ≡ self.now.width }
        ensures least { 1 ≤ result }
        ensures greatest { result ≤ 4096 }
    {
        self.width
    }

    /// The picture's height in pixels.
    pub fn height(&self) -> u32
        ensures value { result ≡ self.now.height }
        ensures least { 1 ≤ result }
        ensures greatest { result ≤ 4096 }
    {
        self.height
    }

    /// The tile size.
    pub fn side(&self) -> TileSide
        ensures { result ≡ self.now.side }
    {
        self.side
    }

    /// The number of tiles in a row.
    pub fn columns(&self) -> u32
        ensures value { result ≡ columns_of self.now }
        ensures least { 1 ≤ result }
        ensures greatest { result ≤ 512 }
    {
        tiles_over(self.width, self.side)
    }

    /// The number of tile rows.
    pub fn rows(&self) -> u32
        ensures value { result ≡ rows_of self.now }
        ensures least { 1 ≤ result }
        ensures greatest { result ≤ 512 }
    {
        tiles_over(self.height, self.side)
    }

    /// The number of tiles.
    pub fn tiles(&self) -> u32
        ensures value { result ≡ tiles_of self.now }
        ensures least { 1 ≤ result }
        ensures greatest { result ≤ 262144 }
    {
        self.columns() * self.rows()
    }

    /// The pixels of tile `k`: its square, cut to the picture.
    pub fn rect(&self, k: u32) -> PixelBox
        requires { k < tiles_of self.now }
        ensures { result ≡ rect_of self.now k }
    {
        let side = self.side.pixels();
        let (x, y) = (side * (k % self.columns()), side * (k / self.columns()));
        PixelBox {
            x0: x as i32,
            y0: y as i32,
            x1: self.width.min(x + side) as i32,
            y1: self.height.min(y + side) as i32,
        }
    }

    /// The number of tiles of `rows` tile rows.
    pub fn tiles_in(&self, rows: u32) -> u32
        requires { rows ≤ rows_of self.now }
        ensures value { result ≡ rows * columns_of self.now }
        ensures greatest { result ≤ 262144 }
    {
        rows * tiles_over(self.width, self.side)
    }

    /// The first row of pixels of `rows` tile rows, and the row of pixels after them, were the picture high enough.
    pub fn pixel_rows(&self, first_row: u32, rows: u32) -> (u32, u32)
        requires { first_row + rows ≤ rows_of self.now }
        ensures top { result.0 ≡ side_of self.now.side * first_row }
        ensures bottom { result.1 ≡ side_of self.now.side * (first_row + rows) }
        ensures limits { IsWithinLimits self.now }
    {
        let side = self.side.pixels();
        (side * first_row, side * (first_row + rows))
    }

    /// The block of 8 by 8 pixels with which the tile in this column and row of tiles begins.
    pub fn block_of(&self, column: u32, row: u32) -> (u32, u32)
        requires column { column < columns_of self.now }
        requires row { row < rows_of self.now }
        ensures x { 8 * result.0 ≡ side_of self.now.side * column }
        ensures y { 8 * result.1 ≡ side_of self.now.side * row }
        ensures corner_x { IsCorner self.now.side result.0 }
        ensures corner_y { IsCorner self.now.side result.1 }
    {
        let blocks = self.side.pixels() / 8;
        (blocks * column, blocks * row)
    }

    /// Returns the tile whose rectangle contains the pixel in column `px` and row `py`, or `None` outside of the
    /// picture. A pixel of the picture lies in the rectangle of exactly one tile.
    pub fn tile_of(&self, px: u32, py: u32) -> Option<u32>
        ensures { MatchOption result (¬ IsInPicture self.now px py) (IsTileOf self.now px py) }
    {
        if px >= self.width || py >= self.height {
            return None;
        }
        let side = self.side.pixels();
        Some(py / side * self.columns() + px / side)
    }
}
