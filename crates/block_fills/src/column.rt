//! The samples of a column of blocks.
ghost use Rattle.std.specs.Prelude.{◌≡◌, ◌+◌, ◌<◌, ◌≤◌, length};
ghost use Rattle.grid.specs.Samples.{count_of};
ghost use Rattle.grid.specs.declared.pixels.TileSide.TheVariants.{T64};
ghost use Rattle.blocks.specs.Layout.{planes_of_tile};
ghost use Rattle.block_fills.specs.declared.change.Change.TheVariants.{Replaces as AsReplaces, BlendsOver as AsBlendsOver};
ghost use Rattle.block_fills.specs.Changes.{BlendsAlone, ReplacesAlone};
ghost use Rattle.block_fills.specs.Parts.{IsInColumn, TilePaints};

use crate::allowed::allows_tile;
use crate::change::Change;
use crate::covered_block::CoveredBlock;
use crate::masks::Masks;
use blocks::known;
use lanes::{BlockSamples, Fragment};
use raster::Tile;

/// Draws the fragment at those samples of a column of blocks of the tile whose bits are set, in column `k` of the masks. A
/// block without any is not touched. It is known how the fragment changes samples. The number of samples of a pixel is
/// known when this is compiled, so that loops over these are unrolled.
pub(crate) fn paint_column<const COUNT: u32>(
    fragment: &Fragment,
    tile: &Tile,
    bx: u32,
    masks: &Masks<'_>,
    k: usize,
    change: Change,
    samples: &mut [BlockSamples],
)
    requires known { count_of tile.now.count ≡ COUNT }
    requires side { tile.now.side ≡ T64 }
    requires count { masks.now.count ≡ tile.now.count }
    requires left { tile.now.bx ≤ bx }
    requires right { bx + 1 ≤ tile.now.bx + 8 }
    requires column { k < masks.now.columns }
    requires replaces { change ≡ AsReplaces → ReplacesAlone fragment.now.state tile.now.count }
    requires blends { change ≡ AsBlendsOver → BlendsAlone fragment.now.state.merge }
    requires samples { length samples.old ≡ planes_of_tile tile.now.count }
    ensures { TilePaints fragment.now tile.now (IsInColumn fragment.now.state tile.now bx 8 masks.now k) samples.old
        samples.new }
{
    let whole = allows_tile(fragment.state(), tile);
    let count = known::<COUNT>(tile.count);
    for row in 0..8u32 {
        if masks.has_some(count, k, row as usize) {
            let block = CoveredBlock {
                fragment,
                tile,
                bx,
                by: tile.by + row,
                whole,
                change,
            };
            block.paint_block::<COUNT>(masks, k, samples);
        }
    }
}
