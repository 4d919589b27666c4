//! The samples of a block.
ghost use Rattle.std.specs.Prelude.{◌≡◌, ◌<◌, false, length, IsTrue};
ghost use Rattle.grid.specs.Samples.{IsPart, count_of};
ghost use Rattle.raster.specs.Drawing.{IsChosen, IsInSquare};
ghost use Rattle.blocks.specs.declared.way.Way.TheVariants.{Own, Single};
ghost use Rattle.blocks.specs.Layout.{planes_of_tile, way_in_tile};
ghost use Rattle.block_fills.specs.Parts.{number_in_tile, IsInBlock, TilePaints};

use crate::covered_block::CoveredBlock;
use crate::masks::{Masks, has_some};
use blocks::{Way, block_way, fill_block, has_pairs, place_by};
use lanes::BlockSamples;
use raster::draw_fragment;

impl CoveredBlock<'_> {
    /// Draws the fragment at those samples of the block that are in the masks, of the part that begins with sample
    /// `from`. The block has its own planes.
    #[inline]
    fn paint_part(&self, from: u32, masks: &[u64; 4], samples: &mut [BlockSamples])
        requires part { IsPart self.now.tile.now.count from }
        requires samples { length samples.old ≡ planes_of_tile self.now.tile.now.count }
        requires own { way_in_tile samples.old (number_in_tile self.now.tile.now self.now.bx self.now.by) ≡ Own }
        ensures own { way_in_tile samples.new (number_in_tile self.now.tile.now self.now.bx self.now.by) ≡ Own }
        ensures painted { let b = self.now in TilePaints b.fragment.now b.tile.now
            (IsChosen b.fragment.now.state b.tile.now b.bx b.by from masks.now) samples.old samples.new }
    {
        let own = 1 + self.tile.count.count() as usize;
        draw_fragment(
            self.fragment,
            self.tile,
            self.tile.count,
            self.bx,
            self.by,
            from,
            masks,
            self.whole,
            &mut samples[own..],
        );
    }

    /// Draws the fragment at those samples of the block whose bits are set, in column `k` of the masks, each in its own
    /// plane.
    fn paint_parts(&self, masks: &Masks<'_>, k: usize, samples: &mut [BlockSamples])
        requires count { masks.now.count ≡ self.now.tile.now.count }
        requires column { k < masks.now.columns }
        requires samples { length samples.old ≡ planes_of_tile self.now.tile.now.count }
        ensures { let b = self.now in TilePaints b.fragment.now b.tile.now
            (IsInBlock b.fragment.now.state b.tile.now b.bx b.by masks.now k) samples.old samples.new }
    {
        fill_block(self.tile.count, self.number(), samples);
        for part in 0..self.tile.count.parts() {
            let words = masks.part(k, (self.by - self.tile.by) as usize, part);
            if has_some(&words) {
                self.paint_part(4 * part, &words, samples);
            }
        }
    }

    /// Draws the fragment at all samples of the block, for which one plane stands.
    fn paint_single(&self, samples: &mut [BlockSamples])
        requires whole { IsTrue self.now.whole }
        requires samples { length samples.old ≡ planes_of_tile self.now.tile.now.count }
        requires single { way_in_tile samples.old (number_in_tile self.now.tile.now self.now.bx self.now.by) ≡ Single }
        ensures { let b = self.now in TilePaints b.fragment.now b.tile.now (IsInSquare b.tile.now b.bx b.by 8)
            samples.old samples.new }
    {
        let place = place_by(self.tile.count, Way::Single, self.number(), 0);
        self.paint_plane(place, samples);
    }

    /// Draws the fragment at those samples of the block whose bits are set, in column `k` of the masks, if that needs no
    /// planes for each sample. Returns whether it was drawn; else all planes are unchanged.
    fn paint_planes(&self, masks: &Masks<'_>, k: usize, samples: &mut [BlockSamples]) -> bool
        requires count { masks.now.count ≡ self.now.tile.now.count }
        requires column { k < masks.now.columns }
        requires whole { IsTrue self.now.whole }
        requires samples { length samples.old ≡ planes_of_tile self.now.tile.now.count }
        ensures painted { let b = self.now in IsTrue result → TilePaints b.fragment.now b.tile.now
            (IsInBlock b.fragment.now.state b.tile.now b.bx b.by masks.now k) samples.old samples.new }
        ensures unchanged { result ≡ false → samples.new ≡ samples.old }
    {
        let row = (self.by - self.tile.by) as usize;
        let full = masks.is_full(self.tile.count, k, row);
        if full && self.has_one_plane(samples) {
            self.paint_single(samples);
            return true;
        }
        if has_pairs(self.tile.count)
            && block_way(self.number(), samples) != Way::Own
            && self.paint_as_pair(&masks.words(self.tile.count, k, row), samples)
        {
            return true;
        }
        full && self.paint_both(samples)
    }

    /// Draws the fragment at those samples of the block whose bits are set, in column `k` of the masks. A block that can
    /// be kept in one sample or two is; else one that can be kept in one plane or two.
    #[inline(always)]
    pub(crate) fn paint_block<const COUNT: u32>(
        &self,
        masks: &Masks<'_>,
        k: usize,
        samples: &mut [BlockSamples],
    )
        requires known { count_of self.now.tile.now.count ≡ COUNT }
        requires count { masks.now.count ≡ self.now.tile.now.count }
        requires column { k < masks.now.columns }
        requires samples { length samples.old ≡ planes_of_tile self.now.tile.now.count }
        ensures { let b = self.now in TilePaints b.fragment.now b.tile.now
            (IsInBlock b.fragment.now.state b.tile.now b.bx b.by masks.now k) samples.old samples.new }
    {
        if self.whole
            && (self.paint_flat::<COUNT>(masks, k, samples)
                || self.paint_planes(masks, k, samples))
        {
            return;
        }
        self.paint_parts(masks, k, samples);
    }
}
