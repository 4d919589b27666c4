//! Triangles, drawn at the samples of tile rows.
ghost use Rattle.std.specs.Prelude.{◌≡◌, ◌+◌, ◌<◌, ◌≤◌, length, take};
ghost use Rattle.raster.specs.Samples.{planes_of};
ghost use Rattle.reach.specs.Reach.{AreReached};
ghost use Rattle.grid.specs.declared.pixels.TileSide.TheVariants.{T64};
ghost use Rattle.blocks.specs.Layout.{planes_of_tile};
ghost use Rattle.canvas.specs.Layout.{rows_of, planes_of_row, planes_of_rows};
ghost use Rattle.canvas.specs.Drawing.{HaveEnds, TileEnds, TileHasEnds};
ghost use Rattle.canvas.specs.Rows.{IsMaskOf};

use crate::canvas::Canvas;
use crate::hidden::first_shown;
use crate::tile_rows::TileRows;
use blocks::fill_tile;
use lanes::BlockSamples;
use raster::{Tile, draw_triangle};
use reach::{CHUNK, Reached, reach_of};
use shade::{Chunk, Placed, Triangles};

/// How many triangles are drawn together at most.
const LARGEST: usize = 16_384;

/// How many are drawn together with little memory of the stack.
const LARGE: usize = 1024;

/// For how many triangles an array is filled in little time.
const SMALL: usize = 8;

/// Draws the first triangle that has to be drawn at the samples of a tile's own blocks, if it hides those before it.
/// Returns how many triangles of the chunk are done with.
fn draw_first(chunk: &[Placed], mask: u64, tile: &Tile, samples: &mut [BlockSamples]) -> usize
    requires few { length chunk.now ≤ 64 }
    requires mask { IsMaskOf chunk.now tile.now mask }
    requires samples { length samples.old ≡ planes_of tile.now.side tile.now.count }
    ensures within { result ≤ length chunk.now }
    ensures drawn { TileHasEnds (take result chunk.now) tile.now samples.old samples.new }
{
    match first_shown(chunk, mask, tile) {
        None => 0,
        Some(k) => {
            draw_triangle(&chunk[k], tile, samples);
            k + 1
        }
    }
}

/// Draws the triangles at the samples of a tile's own blocks, one after another, but those whose bit is not set, and
/// those that a later one is seen to hide.
fn draw_blocks(chunk: &[Placed], mask: u64, tile: &Tile, samples: &mut [BlockSamples])
    requires few { length chunk.now ≤ 64 }
    requires mask { IsMaskOf chunk.now tile.now mask }
    requires samples { length samples.old ≡ planes_of tile.now.side tile.now.count }
    ensures { TileHasEnds chunk.now tile.now samples.old samples.new }
{
    let mut done = draw_first(chunk, mask, tile, samples);
    while done < chunk.len() {
        let rest = mask >> done;
        if rest == 0 {
            return;
        }
        let k = done + rest.trailing_zeros() as usize;
        if chunk.len() <= k {
            return;
        }
        draw_triangle(&chunk[k], tile, samples);
        done = k + 1;
    }
}

/// Draws the triangles at the samples of a tile, one after another, but those whose bit is not set.
fn draw_tile(chunk: &[Placed], mask: u64, tile: &Tile, samples: &mut [BlockSamples])
    requires few { length chunk.now ≤ 64 }
    requires mask { IsMaskOf chunk.now tile.now mask }
    requires side { tile.now.side ≡ T64 }
    requires samples { length samples.old ≡ planes_of_tile tile.now.count }
    ensures { TileEnds chunk.now tile.now samples.old samples.new }
{
    fill_tile(tile.count, samples);
    let own = 1 + tile.count.count() as usize;
    draw_blocks(chunk, mask, tile, &mut samples[own..]);
}

impl Canvas {
    /// Draws the triangles at the samples of a tile row, tile by tile. Tiles that none reaches are left out.
    fn draw_row(&self, row: u32, chunk: &[Placed], reached: &Reached, samples: &mut [BlockSamples])
        requires row { row < rows_of self.now }
        requires few { length chunk.now ≤ 64 }
        requires reached { AreReached chunk.now reached.now }
        requires samples { length samples.old ≡ planes_of_row self.now }
        ensures { HaveEnds chunk.now self.now row (row + 1) samples.old samples.new }
    {
        let each = self.planes_of_tile();
        let span = reached.columns.span;
        for column in span.first..span.end.min(self.column_count()) {
            let mask = reached.columns.words[column as usize] & reached.rows.words[row as usize];
            if mask != 0 {
                let from = column as usize * each;
                let tile = self.tile(column, row);
                draw_tile(chunk, mask, &tile, &mut samples[from..from + each]);
            }
        }
    }
}

impl TileRows {
    /// Draws as many triangles as a word has bits at each sample of these tile rows.
    pub(crate) fn draw_chunk(&self, chunk: &[Placed], samples: &mut [BlockSamples])
        requires few { length chunk.now ≤ 64 }
        requires samples { length samples.old ≡ planes_of_rows self.now.canvas self.now.first self.now.end }
        ensures { HaveEnds chunk.now self.now.canvas self.now.first self.now.end samples.old samples.new }
    {
        let reached = reach_of(chunk);
        let each = self.canvas.planes_of_row();
        let span = reached.rows.span;
        for row in self.first.max(span.first)..self.end.min(span.end) {
            let marks = reached.rows.words[row as usize];
            if marks != 0 {
                let from = (row - self.first) as usize * each;
                self.canvas
                    .draw_row(row, chunk, &reached, &mut samples[from..from + each]);
            }
        }
    }

    /// Draws the triangles of a source, of which there are at most `N`, and at most as many as a word has bits.
    fn draw_few<T: Triangles, const N: usize>(&self, triangles: &T, samples: &mut [BlockSamples])
        requires some { 0 < length (T.listed triangles.now) }
        requires fits { length (T.listed triangles.now) ≤ N }
        requires few { N ≤ 64 }
        requires samples { length samples.old ≡ planes_of_rows self.now.canvas self.now.first self.now.end }
        ensures { HaveEnds (T.listed triangles.now) self.now.canvas self.now.first self.now.end samples.old samples.new }
    {
        let count = triangles.count();
        let mut chunk = [triangles.triangle(0); N];
        for k in 0..count {
            chunk[k] = triangles.triangle(k);
        }
        self.draw_chunk(&chunk[..count], samples);
    }

    /// Draws the triangles of a source, of which there are at most `LARGEST`. The more there are, the more memory of
    /// the stack they take.
    fn draw_part<T: Triangles>(&self, triangles: &T, samples: &mut [BlockSamples])
        requires some { 0 < length (T.listed triangles.now) }
        requires few { length (T.listed triangles.now) ≤ 16384 }
        requires samples { length samples.old ≡ planes_of_rows self.now.canvas self.now.first self.now.end }
        ensures { HaveEnds (T.listed triangles.now) self.now.canvas self.now.first self.now.end samples.old samples.new }
    {
        let count = triangles.count();
        if count <= SMALL {
            self.draw_few::<T, SMALL>(triangles, samples);
        } else if count <= CHUNK {
            self.draw_few::<T, CHUNK>(triangles, samples);
        } else if count <= LARGE {
            self.draw_many::<T, LARGE>(triangles, samples);
        } else {
            self.draw_many::<T, LARGEST>(triangles, samples);
        }
    }

    /// Draws the triangles of a source, one after another.
    pub(crate) fn draw_all<T: Triangles>(&self, triangles: &T, samples: &mut [BlockSamples])
        requires samples { length samples.old ≡ planes_of_rows self.now.canvas self.now.first self.now.end }
        ensures { HaveEnds (T.listed triangles.now) self.now.canvas self.now.first self.now.end samples.old samples.new }
    {
        let all = triangles.count();
        let mut done = 0;
        while done < all {
            let count = (all - done).min(LARGEST);
            let part = Chunk {
                source: &*triangles,
                first: done,
                count,
            };
            self.draw_part(&part, samples);
            done += count;
        }
    }
}
