//! A plane of a tile that stands for all samples of its pixels.
ghost use Rattle.std.specs.Prelude.{◌≡◌, ◌<◌, ◌≤◌, length, IsTrue};
ghost use Rattle.grid.specs.declared.pixels.TileSide.TheVariants.{T8};
ghost use Rattle.grid.specs.declared.sample_count.SampleCount.TheVariants.{One};
ghost use Rattle.blocks.specs.Layout.{planes_of_tile, in_list};
ghost use Rattle.block_fills.specs.Parts.{IsKeptAt, HasNoMasks, KeepsPlanesBut, DrawsPlane, TilePaints};

use crate::covered_block::CoveredBlock;
use grid::{SampleCount, TileSide};
use lanes::BlockSamples;
use raster::{Tile, draw_fragment};

/// Block (bx, by) of the screen as a tile with one sample a pixel.
#[inline(always)]
fn block_tile(bx: u32, by: u32) -> Tile
    requires column { bx < 512 }
    requires row { by < 512 }
    ensures { (result.bx ≡ bx) × (result.by ≡ by) × (result.side ≡ T8) × (result.count ≡ One) }
{
    Tile {
        bx,
        by,
        side: TileSide::T8,
        count: SampleCount::One,
    }
}

impl CoveredBlock<'_> {
    /// Draws the fragment at all samples of a plane, as at the block with one sample a pixel.
    pub(crate) fn draw_plane(&self, plane: &mut [BlockSamples])
        requires whole { IsTrue self.now.whole }
        requires plane { length plane.old ≡ 1 }
        ensures { DrawsPlane self.now.fragment.now (in_list plane.old 0) (in_list plane.new 0) }
    {
        let block = block_tile(self.bx, self.by);
        let masks = [u64::MAX, 0, 0, 0];
        draw_fragment(
            self.fragment,
            &block,
            SampleCount::One,
            self.bx,
            self.by,
            0,
            &masks,
            true,
            plane,
        );
    }

    /// Draws the fragment at the samples that are kept in the plane of this index, which has no masks.
    pub(crate) fn paint_plane(&self, place: usize, samples: &mut [BlockSamples])
        requires whole { IsTrue self.now.whole }
        requires place { 1 ≤ place }
        requires within { place < planes_of_tile self.now.tile.now.count }
        requires samples { length samples.old ≡ planes_of_tile self.now.tile.now.count }
        requires masks { HasNoMasks self.now.tile.now.count samples.old place }
        ensures painted { TilePaints self.now.fragment.now self.now.tile.now
            (IsKeptAt self.now.tile.now.count samples.old place) samples.old samples.new }
        ensures others { KeepsPlanesBut place samples.old samples.new }
    {
        self.draw_plane(&mut samples[place..place + 1]);
    }
}
