//! Tiles that are drawn whole while all of their blocks are as the tile was cleared. One plane stands for all of their
//! samples, and goes on to do so.
ghost use Rattle.std.specs.Prelude.{◌≡◌, ℕ, ◌+◌, ◌%◌, ◌<◌, ◌≤◌, length, IsBitSet, IsTrue};
ghost use Rattle.grid.specs.Samples.{count_of};
ghost use Rattle.grid.specs.declared.pixels.TileSide.TheVariants.{T64};
ghost use Rattle.blocks.specs.declared.way.Way.TheVariants.{Cleared};
ghost use Rattle.blocks.specs.Layout.{planes_of_tile, way_in_tile};
ghost use Rattle.block_fills.specs.Parts.{block_mask, AllowsTile, IsAllowed, TilePaints};

use crate::allowed::allows_tile;
use crate::change::Change;
use crate::covered_block::CoveredBlock;
use crate::masks::Masks;
use blocks::{Way, is_cleared, place_by};
use lanes::{BlockSamples, Fragment};
use raster::Tile;

/// Whether all bits of the eight columns of blocks from column `k` on are set.
fn are_full_columns(masks: &Masks<'_>, k: usize) -> bool
    requires { k + 8 ≤ masks.now.columns }
    ensures { IsTrue result → (column row s bit : ℕ) → k ≤ column → column < k + 8 → row < 8 →
        s < count_of masks.now.count → bit < 64 → IsBitSet (block_mask masks.now column row s) bit }
{
    for column in k..k + 8 {
        for row in 0..8 {
            if !masks.is_full(masks.count, column, row) {
                return false;
            }
        }
    }
    true
}

/// Whether all blocks of the tile are as it was cleared, it begins with column `k` of the masks, the state lets all of
/// its samples be drawn, and all bits of its columns are set.
pub(crate) fn is_whole(
    fragment: &Fragment,
    tile: &Tile,
    bx: u32,
    masks: &Masks<'_>,
    k: usize,
    samples: &[BlockSamples],
) -> bool
    ensures begins { IsTrue result → bx % 8 ≡ 0 }
    ensures columns { IsTrue result → k + 8 ≤ masks.now.columns }
    ensures allows { IsTrue result → AllowsTile fragment.now.state tile.now }
    ensures cleared { IsTrue result → (block : ℕ) → block < 64 → way_in_tile samples.now block ≡ Cleared }
    ensures full { IsTrue result → (column row s bit : ℕ) → k ≤ column → column < k + 8 → row < 8 →
        s < count_of masks.now.count → bit < 64 → IsBitSet (block_mask masks.now column row s) bit }
{
    if bx % 8 != 0 || masks.columns < 8 {
        return false;
    }
    if masks.columns - 8 < k {
        return false;
    }
    if !is_cleared(samples) || !allows_tile(fragment.state(), tile) {
        return false;
    }
    are_full_columns(masks, k)
}

/// Draws the fragment at all samples of a tile all of whose blocks are as it was cleared: in the plane that stands for
/// them.
pub(crate) fn paint_whole(fragment: &Fragment, tile: &Tile, samples: &mut [BlockSamples])
    requires side { tile.now.side ≡ T64 }
    requires allows { AllowsTile fragment.now.state tile.now }
    requires cleared { (block : ℕ) → block < 64 → way_in_tile samples.old block ≡ Cleared }
    requires samples { length samples.old ≡ planes_of_tile tile.now.count }
    ensures { TilePaints fragment.now tile.now (IsAllowed fragment.now.state tile.now) samples.old samples.new }
{
    let place = place_by(tile.count, Way::Cleared, 0, 0);
    let first = CoveredBlock {
        fragment,
        tile,
        bx: tile.bx,
        by: tile.by,
        whole: true,
        change: Change::Merges,
    };
    first.paint_plane(place, samples);
}
