//! The samples of a tile, each merged with a fragment of the caller's.
ghost use Rattle.std.specs.Prelude.{◌≡◌, ◌↔◌, ◌⊎◌, ℕ, ◌+◌, ◌*◌, ◌/◌, ◌%◌, ◌<◌, ◌≤◌, length, IsBitSet, IsOk, IsTrue, OnOk, OnErr, IfErr};
ghost use Rattle.grid.specs.Samples.{count_of};
ghost use Rattle.lanes.specs.Block.{stored_at};
ghost use Rattle.blocks.specs.declared.way.Way.TheVariants.{Own as AsOwn};
ghost use Rattle.blocks.specs.Layout.{planes_of_tile, block_in_tile, stored_in_tile, way_in_tile, KeepsOtherSamples};
ghost use Rattle.canvas.specs.Layout.{HasTile, columns_of, planes_of_row, planes_of_rows};
ghost use Rattle.readout.specs.Tiles.{IsTileMisfit};
ghost use Rattle.tile_blend.specs.Fragments.{fragment_at, IsTileBlended, AreFragments, FitFragments, TakesIf, TakesKept};

use crate::fragments::TileFragments;
use blocks::{Way, fill_block, place_by};
use canvas::{Canvas, Piece, TileRows};
use grid::SampleCount;
use lanes::BlockSamples;
use readout::Misfit;
use shade::{Merge, apply_on_canvas};

/// Merges fragments with those samples of a plane that are in the mask. The first fragment is that of entry `from`.
fn blend_plane(
    merge: &Merge,
    fragments: &TileFragments<'_>,
    mask: u64,
    from: usize,
    plane: &mut BlockSamples,
)
    requires colours { (length fragments.now.colours.now ≡ 1) ⊎ (from + 64 ≤ length fragments.now.colours.now) }
    requires depths { (length fragments.now.depths.now ≡ 1) ⊎ (from + 64 ≤ length fragments.now.depths.now) }
    requires few { from ≤ 65536 }
    ensures { (k : ℕ) → k < 64 → TakesIf (IsBitSet mask k) merge.now
        (fragment_at fragments.now.colours.now fragments.now.depths.now (from + k)) (stored_at plane.old k)
        (stored_at plane.new k) }
{
    for k in 0..64u32 {
        if (mask >> k) % 2 == 1 {
            let k = k as usize;
            let stored = plane.sample(k);
            plane.set(
                k,
                apply_on_canvas(merge, &fragments.fragment(from + k), stored),
            );
        }
    }
}

/// Merges fragments with the kept samples of block `k` of a tile, which has its own planes.
fn blend_planes(
    merge: &Merge,
    count: SampleCount,
    fragments: &TileFragments<'_>,
    k: usize,
    samples: &mut [BlockSamples],
)
    requires fragments { AreFragments count (length fragments.now.colours.now) (length fragments.now.depths.now)
        (length fragments.now.kept.now) }
    requires block { k < 64 }
    requires samples { length samples.old ≡ planes_of_tile count }
    requires own { way_in_tile samples.old k ≡ AsOwn }
    ensures block { (i j s : ℕ) → s < count_of count → block_in_tile i j ≡ k →
        TakesKept count merge.now fragments.now.colours.now fragments.now.depths.now fragments.now.kept.now i j s
        (stored_in_tile count samples.old i j s) (stored_in_tile count samples.new i j s) }
    ensures others { KeepsOtherSamples count k samples.old samples.new }
{
    let many = count.count();
    for s in 0..many {
        let number = k * many as usize + s as usize;
        let place = place_by(count, Way::Own, k, s);
        blend_plane(
            merge,
            fragments,
            fragments.mask(number),
            64 * number,
            &mut samples[place],
        );
    }
}

/// Merges fragments with the kept samples of block `k` of a tile. A block of which none is kept is not touched.
fn blend_block(
    merge: &Merge,
    count: SampleCount,
    fragments: &TileFragments<'_>,
    k: usize,
    samples: &mut [BlockSamples],
)
    requires fragments { AreFragments count (length fragments.now.colours.now) (length fragments.now.depths.now)
        (length fragments.now.kept.now) }
    requires block { k < 64 }
    requires samples { length samples.old ≡ planes_of_tile count }
    ensures block { (i j s : ℕ) → s < count_of count → block_in_tile i j ≡ k →
        TakesKept count merge.now fragments.now.colours.now fragments.now.depths.now fragments.now.kept.now i j s
        (stored_in_tile count samples.old i j s) (stored_in_tile count samples.new i j s) }
    ensures others { KeepsOtherSamples count k samples.old samples.new }
{
    let many = count.count() as usize;
    if fragments.keep_none(k * many, many) {
        return;
    }
    fill_block(count, k, samples);
    blend_planes(merge, count, fragments, k, samples);
}

/// Merges fragments with the kept samples of a tile.
fn blend_blocks(
    merge: &Merge,
    count: SampleCount,
    fragments: &TileFragments<'_>,
    samples: &mut [BlockSamples],
)
    requires fragments { AreFragments count (length fragments.now.colours.now) (length fragments.now.depths.now)
        (length fragments.now.kept.now) }
    requires samples { length samples.old ≡ planes_of_tile count }
    ensures { (i j s : ℕ) → s < count_of count →
        TakesKept count merge.now fragments.now.colours.now fragments.now.depths.now fragments.now.kept.now i j s
        (stored_in_tile count samples.old i j s) (stored_in_tile count samples.new i j s) }
{
    for k in 0..64usize {
        blend_block(merge, count, fragments, k, samples);
    }
}

/// Merges fragments with the kept samples of the tile in a column of tiles, in the planes of its tile row.
fn blend_tile(
    canvas: &Canvas,
    row: u32,
    column: u32,
    merge: &Merge,
    fragments: &TileFragments<'_>,
    samples: &mut [BlockSamples],
)
    requires column { column < columns_of canvas.now }
    requires fragments { AreFragments canvas.now.count (length fragments.now.colours.now)
        (length fragments.now.depths.now) (length fragments.now.kept.now) }
    requires samples { length samples.old ≡ planes_of_row canvas.now }
    ensures { IsTileBlended canvas.now row (row + 1) column row merge.now fragments.now.colours.now
        fragments.now.depths.now fragments.now.kept.now samples.old samples.new }
{
    let each = canvas.planes_of_tile();
    let at = column as usize * each;
    blend_blocks(merge, canvas.count, fragments, &mut samples[at..at + each]);
}

/// Whether these tile rows have a tile in this column and this row of tiles.
fn has_tile(tile_rows: &TileRows, column: u32, row: u32) -> bool
    ensures { IsTrue result ↔ HasTile tile_rows.now.canvas tile_rows.now.first tile_rows.now.end column row }
{
    column < tile_rows.canvas.column_count() && tile_rows.first <= row && row < tile_rows.end
}

/// Merges fragments with the kept samples of a tile, as `tile_blend` does.
fn blend_in_rows(
    tile_rows: &TileRows,
    column: u32,
    row: u32,
    merge: &Merge,
    fragments: &TileFragments<'_>,
    samples: &mut [BlockSamples],
) -> Result<(), Misfit>
    requires { length samples.old ≡ planes_of_rows tile_rows.now.canvas tile_rows.now.first tile_rows.now.end }
    ensures fits { IsOk result ↔ FitFragments tile_rows.now.canvas tile_rows.now.first tile_rows.now.end column row
        (length fragments.now.colours.now) (length fragments.now.depths.now) (length fragments.now.kept.now) }
    ensures blended { OnOk result (IsTileBlended tile_rows.now.canvas tile_rows.now.first tile_rows.now.end column row merge.now fragments.now.colours.now
        fragments.now.depths.now fragments.now.kept.now samples.old samples.new) }
    ensures unfit { OnErr result (samples.new ≡ samples.old) }
    ensures reason { IfErr result (IsTileMisfit tile_rows.now.canvas tile_rows.now.first tile_rows.now.end column row
        (AreFragments tile_rows.now.canvas.count (length fragments.now.colours.now)
        (length fragments.now.depths.now) (length fragments.now.kept.now))) }
{
    if !has_tile(tile_rows, column, row) {
        return Err(Misfit::Tile);
    }
    if !fragments.fit(tile_rows.canvas.count) {
        return Err(Misfit::Pixels);
    }
    let each = tile_rows.canvas.planes_of_row();
    let from = (row - tile_rows.first) as usize * each;
    blend_tile(
        &tile_rows.canvas,
        row,
        column,
        merge,
        fragments,
        &mut samples[from..from + each],
    );
    Ok(())
}

/// Merges fragments with the samples of a tile that are kept, those of pixels beside the picture too: each takes its
/// fragment by the depth test, the write mask and the blending, as a sample does that a triangle covers. All other
/// samples are unchanged.
pub fn tile_blend(
    piece: &mut Piece<'_>,
    column: u32,
    row: u32,
    merge: &Merge,
    fragments: &TileFragments<'_>,
) -> Result<(), Misfit>
    ensures fits { IsOk result ↔ FitFragments piece.old.rows.canvas piece.old.rows.first piece.old.rows.end column row
        (length fragments.now.colours.now) (length fragments.now.depths.now) (length fragments.now.kept.now) }
    ensures blended { OnOk result (IsTileBlended piece.old.rows.canvas piece.old.rows.first piece.old.rows.end column row merge.now fragments.now.colours.now
        fragments.now.depths.now fragments.now.kept.now piece.old.planes.now piece.new.planes.now) }
    ensures unfit { OnErr result (piece.new.planes.now ≡ piece.old.planes.now) }
    ensures reason { IfErr result (IsTileMisfit piece.old.rows.canvas piece.old.rows.first piece.old.rows.end column
        row (AreFragments piece.old.rows.canvas.count (length fragments.now.colours.now)
        (length fragments.now.depths.now) (length fragments.now.kept.now))) }
    ensures rows { piece.new.rows ≡ piece.old.rows }
    ensures same { piece.new.planes.ghost_name ≡ piece.old.planes.ghost_name }
{
    blend_in_rows(&piece.rows, column, row, merge, fragments, piece.planes)
}
