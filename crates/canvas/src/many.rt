//! Many triangles, drawn at the samples of tile rows.
ghost use Rattle.std.specs.Prelude.{◌≡◌, ℕ, ◌+◌, ◌*◌, ◌%◌, ◌<◌, ◌≤◌, List, length, take, slice_index};
ghost use Rattle.lanes.specs.declared.block_samples.BlockSamples.{BlockSamples as Planes};
ghost use Rattle.shade.specs.declared.placed.Placed.{Placed};
ghost use Rattle.raster.specs.Samples.{planes_of};
ghost use Rattle.grid.specs.declared.pixels.TileSide.TheVariants.{T64};
ghost use Rattle.blocks.specs.Layout.{planes_of_tile};
ghost use Rattle.canvas.specs.Layout.{columns_of, rows_of, planes_of_row, planes_of_rows};
ghost use Rattle.canvas.specs.Drawing.{HaveEnds, TileEnds, TileHasEnds};
ghost use Rattle.canvas.specs.Rows.{AreOfRow, AreOfTile, numbered};

use crate::canvas::Canvas;
use crate::row_list::RowList;
use crate::tile_rows::TileRows;
use blocks::fill_tile;
use lanes::BlockSamples;
use raster::{Tile, draw_triangle};
use reach::{Bounds, NOWHERE, Spans, next_bit};
use shade::Triangles;

/// Draws those of sixteen triangles of a tile row, from place `from` of its list on, that can meet the tile, one after
/// another.
fn draw_some<T: Triangles, const N: usize>(
    triangles: &T,
    list: &RowList<N>,
    from: usize,
    column: u32,
    tile: &Tile,
    samples: &mut [BlockSamples],
)
    requires place { from % 16 ≡ 0 }
    requires from { from < list.now.count }
    requires column { column < 64 }
    requires below { (p : ℕ) → p < list.now.count → slice_index list.now.numbers p < length (T.listed triangles.now) }
    requires columns { AreOfTile (T.listed triangles.now) list.now.numbers list.now.columns.firsts list.now.columns.ends
        list.now.count column tile.now }
    requires samples { length samples.old ≡ planes_of tile.now.side tile.now.count }
    ensures { (none : Placed) (start : List Planes) → TileHasEnds (take from (numbered (T.listed triangles.now) none (take list.now.count list.now.numbers))) tile.now start samples.old
        → TileHasEnds (take (from + 16) (numbered (T.listed triangles.now) none (take list.now.count list.now.numbers)))
        tile.now start samples.new }
{
    let many = (list.count - from).min(16);
    let having = list.columns.having(from, column);
    let mut next = 0;
    while let Some(bit) = next_bit(having, next) {
        if many <= bit {
            return;
        }
        let place = from + bit;
        let triangle = triangles.triangle(usize::from(list.numbers[place]));
        draw_triangle(&triangle, tile, samples);
        next = bit + 1;
    }
}

impl Canvas {
    /// Draws the triangles of a tile row at the samples of the tile in this column, one after another.
    fn draw_listed_tile<T: Triangles, const N: usize>(
        &self,
        column: u32,
        row: u32,
        triangles: &T,
        list: &RowList<N>,
        tile: &Tile,
        samples: &mut [BlockSamples],
    )
        requires column { column < columns_of self.now }
        requires row { row < rows_of self.now }
        requires list { AreOfRow (T.listed triangles.now) self.now row (length (T.listed triangles.now))
            list.now.numbers list.now.columns.firsts list.now.columns.ends list.now.count list.now.span }
        requires tile { (tile.now.bx ≡ 8 * column) × (tile.now.by ≡ 8 * row) × (tile.now.side ≡ T64) ×
            (tile.now.count ≡ self.now.count) }
        requires samples { length samples.old ≡ planes_of_tile self.now.count }
        ensures { TileEnds (T.listed triangles.now) tile.now samples.old samples.new }
    {
        fill_tile(self.count, samples);
        let own = 1 + self.count.count() as usize;
        let mut from = 0;
        while from < list.count {
            draw_some(triangles, list, from, column, tile, &mut samples[own..]);
            from += 16;
        }
    }

    /// Draws the triangles of a tile row at its samples, tile by tile.
    fn draw_listed_row<T: Triangles, const N: usize>(
        &self,
        row: u32,
        triangles: &T,
        list: &RowList<N>,
        samples: &mut [BlockSamples],
    )
        requires row { row < rows_of self.now }
        requires list { AreOfRow (T.listed triangles.now) self.now row (length (T.listed triangles.now))
            list.now.numbers list.now.columns.firsts list.now.columns.ends list.now.count list.now.span }
        requires samples { length samples.old ≡ planes_of_row self.now }
        ensures { HaveEnds (T.listed triangles.now) self.now row (row + 1) samples.old samples.new }
    {
        let each = self.planes_of_tile();
        for column in list.span.first..list.span.end.min(self.column_count()) {
            let from = column as usize * each;
            let tile = self.tile(column, row);
            self.draw_listed_tile(
                column,
                row,
                triangles,
                list,
                &tile,
                &mut samples[from..from + each],
            );
        }
    }
}

impl TileRows {
    /// Draws up to `N` triangles at each sample of these tile rows, one after another. It stays out of line, so that a call
    /// has the memory of one such function on its stack and not that of all which it could call.
    #[inline(never)]
    pub(crate) fn draw_many<T: Triangles, const N: usize>(
        &self,
        triangles: &T,
        samples: &mut [BlockSamples],
    )
        requires fits { length (T.listed triangles.now) ≤ N }
        requires whole { N % 16 ≡ 0 }
        requires few { N ≤ 65536 }
        requires samples { length samples.old ≡ planes_of_rows self.now.canvas self.now.first self.now.end }
        ensures { HaveEnds (T.listed triangles.now) self.now.canvas self.now.first self.now.end samples.old samples.new }
    {
        let mut bounds = Bounds {
            columns: Spans {
                firsts: [0; N],
                ends: [0; N],
            },
            rows: Spans {
                firsts: [0; N],
                ends: [0; N],
            },
            span: NOWHERE,
        };
        bounds.set(triangles);
        let mut list = RowList {
            numbers: [0; N],
            columns: Spans {
                firsts: [0; N],
                ends: [0; N],
            },
            count: 0,
            span: NOWHERE,
        };
        let each = self.canvas.planes_of_row();
        for row in self.first.max(bounds.span.first)..self.end.min(bounds.span.end) {
            list.set(&self.canvas, row, triangles, &bounds);
            let from = (row - self.first) as usize * each;
            self.canvas
                .draw_listed_row(row, triangles, &list, &mut samples[from..from + each]);
        }
    }
}
