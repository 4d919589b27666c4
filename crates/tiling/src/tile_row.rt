//! One tile row, put together of its tiles.
ghost use Rattle.std.specs.Prelude.{◌≡◌, ◌+◌, ◌<◌, OnOk};
ghost use Rattle.tiling.specs.Grid.{columns_of, rows_of};
ghost use Rattle.tiling.specs.TileRow.{AreColumns};

use crate::tile_pixels::TilePixels;
use crate::tiling::Tiling;
use draw_list::DrawList;
use grid::OutOfMemory;

/// A tile row: its tiles, from left to right, and the rows of pixels in them.
#[derive(Drop)]
pub struct TileRow<'a> {
    /// The draw list whose picture it is of.
    pub list: &'a DrawList,
    /// The tiles of the picture.
    pub tiling: &'a Tiling,
    /// Its number, counted from the top.
    pub row: u32,
    pub ghost width: { tiling.now.width ≡ list.now.width },
    pub ghost height: { tiling.now.height ≡ list.now.height },
    pub ghost within: { row < rows_of tiling.now },
    pub ghost few: { row < 512 },
}

impl<'a> TileRow<'a> {
    ghost use Rattle.draw_list.specs.PixelPrefix.{IsPixelRun};
    ghost use Rattle.tiling.specs.Pixels.{AddsPixelRun};
    ghost use Rattle.tiling.specs.TileRow.{tile_row_top, tile_row_height, column_left, column_width as width_of_column, IsColumn, AddsTileRow};

    /// The tile row of this number, counted from the top.
    pub fn new(list: &'a DrawList, tiling: &'a Tiling, row: u32) -> TileRow<'a>
        requires width { tiling.now.width ≡ list.now.width }
        requires height { tiling.now.height ≡ list.now.height }
        requires within { row < rows_of tiling.now }
        requires few { row < 512 }
        ensures { (result.list.now ≡ list.now) × (result.tiling.now ≡ tiling.now) × (result.row ≡ row) }
    {
        TileRow { list, tiling, row }
    }

    /// How many rows of pixels the tile row has.
    fn height(&self) -> u32
        ensures { result ≡ tile_row_height self.now.tiling.now self.now.row }
    {
        let height = self.tiling.height();
        let side = self.tiling.side().pixels();
        let top = side * self.row;
        height.min(top + side) - top
    }

    /// How many pixels wide the tile in this column is.
    fn column_width(&self, column: u32) -> u32
        requires { column < columns_of self.now.tiling.now }
        ensures { result ≡ width_of_column self.now.tiling.now column }
    {
        let width = self.tiling.width();
        let side = self.tiling.side().pixels();
        let left = side * column;
        width.min(left + side) - left
    }

    /// Row `j` of the tile in this column.
    fn row_of<'t>(&self, tile: &'t TilePixels, column: u32, j: u32) -> &'t [u8]
        requires column { column < columns_of self.now.tiling.now }
        requires tile { IsColumn self.now.list.now self.now.tiling.now self.now.row column tile.now }
        requires row { j < tile_row_height self.now.tiling.now self.now.row }
        ensures { IsPixelRun self.now.list.now (column_left self.now.tiling.now column) (tile_row_top self.now.tiling.now self.now.row + j)
            (width_of_column self.now.tiling.now column) result.now }
    {
        let across = (self.list.output().pixel_bytes() * self.column_width(column)) as usize;
        let start = j as usize * across;
        &tile.bytes[start..start + across]
    }

    /// Appends row `j` of the tile row, tile by tile.
    fn push_row(&self, tiles: &[TilePixels], j: u32, bytes: &mut Vec<u8>) -> Result<(), OutOfMemory>
        requires tiles { AreColumns self.now.list.now self.now.tiling.now self.now.row tiles.now }
        requires row { j < tile_row_height self.now.tiling.now self.now.row }
        ensures { OnOk result (AddsPixelRun self.now.list.now 0 (tile_row_top self.now.tiling.now self.now.row + j)
            self.now.list.now.width bytes.old.items bytes.new.items) }
    {
        for column in 0..self.tiling.columns() {
            bytes.extend_from_slice(self.row_of(&tiles[column as usize], column, j))?;
        }
        Ok(())
    }

    /// Puts the tiles together, row by row, behind the bytes that are there.
    pub fn join(&self, tiles: &[TilePixels], bytes: &mut Vec<u8>) -> Result<(), OutOfMemory>
        requires { AreColumns self.now.list.now self.now.tiling.now self.now.row tiles.now }
        ensures { OnOk result (AddsTileRow self.now.list.now self.now.tiling.now self.now.row bytes.old.items
            bytes.new.items) }
    {
        for j in 0..self.height() {
            self.push_row(tiles, j, bytes)?;
        }
        Ok(())
    }
}
