//! Where a sample of a canvas is stored.
ghost use Rattle.std.specs.Prelude.{◌≡◌, ◌↔◌, true, false, ℕ, ◌+◌, ◌*◌, ◌/◌, ◌%◌, ◌<◌, length, IsTrue, IsSome, IfSome};
ghost use Rattle.grid.specs.Samples.{count_of};
ghost use Rattle.lanes.specs.Block.{stored_at};
ghost use Rattle.blocks.specs.Layout.{planes_of_tile, block_in_tile, is_plain, place_in_tile, in_list};
ghost use Rattle.canvas.specs.Layout.{HasPixel, HasTile, columns_of, planes_of_row, stored, way_in_row};

use blocks::{block_in_tile, merged_in_tile, place_in_tile};
use canvas::{Canvas, TileRows};
use lanes::BlockSamples;

/// The index of the plane of sample `s` of pixel (i, j) among those of its tile row, unless its block is a pair or flat.
/// The pixels to its right in its block have theirs there too.
#[inline]
pub(crate) fn place(canvas: &Canvas, samples: &[BlockSamples], i: u32, j: u32, s: u32) -> usize
    requires column { i / 64 < columns_of canvas.now }
    requires sample { s < count_of canvas.now.count }
    requires samples { length samples.now ≡ planes_of_row canvas.now }
    ensures within { result < planes_of_row canvas.now }
    ensures row { is_plain (way_in_row canvas.now samples.now i j) ≡ true → (k : ℕ) → i % 8 + k < 8 →
        stored_at (in_list samples.now result) (8 * (j % 8) + (i % 8 + k)) ≡
        stored canvas.now (j / 64) samples.now (i + k) j s }
{
    let each = canvas.planes_of_tile();
    let first = (i / 64) as usize * each;
    first + place_in_tile(&samples[first..first + each], canvas.count, i, j, s)
}

/// A plane that has sample `s` of pixel (i, j) and of those to its right in its block, put together of two, if
/// the block is a pair or flat.
#[inline]
pub(crate) fn merged(
    canvas: &Canvas,
    samples: &[BlockSamples],
    i: u32,
    j: u32,
    s: u32,
) -> Option<BlockSamples>
    requires column { i / 64 < columns_of canvas.now }
    requires sample { s < count_of canvas.now.count }
    requires samples { length samples.now ≡ planes_of_row canvas.now }
    ensures some { IsSome result ↔ is_plain (way_in_row canvas.now samples.now i j) ≡ false }
    ensures row { IfSome result (λ plane. (k : ℕ) → i % 8 + k < 8 →
        stored_at plane (8 * (j % 8) + (i % 8 + k)) ≡ stored canvas.now (j / 64) samples.now (i + k) j s) }
{
    let each = canvas.planes_of_tile();
    let first = (i / 64) as usize * each;
    merged_in_tile(
        &samples[first..first + each],
        canvas.count,
        block_in_tile(i, j),
        s,
    )
}

/// Whether pixel (i, j) is in the picture, and its tile in these tile rows.
pub(crate) fn has_pixel(tile_rows: &TileRows, i: u32, j: u32) -> bool
    ensures { IsTrue result ↔ HasPixel tile_rows.now.canvas tile_rows.now.first tile_rows.now.end i j }
{
    i < tile_rows.canvas.width
        && j < tile_rows.canvas.height
        && tile_rows.first <= j / 64
        && j / 64 < tile_rows.end
}

/// Whether these tile rows have a tile in this column and this row of tiles.
pub(crate) fn has_tile(tile_rows: &TileRows, column: u32, row: u32) -> bool
    ensures { IsTrue result ↔ HasTile tile_rows.now.canvas tile_rows.now.first tile_rows.now.end column row }
{
    column < tile_rows.canvas.column_count() && tile_rows.first <= row && row < tile_rows.end
}
