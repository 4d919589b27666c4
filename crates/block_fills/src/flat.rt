//! Blocks that have one sample or two.
ghost use Rattle.std.specs.Prelude.{◌≡◌, ◌↔◌, ◌⊎◌, ◌<◌, ◌≤◌, false, length, IsTrue, IsSome, IfSome};
ghost use Rattle.grid.specs.Samples.{count_of};
ghost use Rattle.lanes.specs.Fragment.{Takes};
ghost use Rattle.blocks.specs.Layout.{planes_of_tile};
ghost use Rattle.blocks.specs.FlatBlocks.{HasOne};
ghost use Rattle.canvas.specs.Tiles.{HasBytes};
ghost use Rattle.block_fills.specs.Parts.{number_in_tile, IsFlatDrawn, IsInBlock, TilePaints};
ghost use Rattle.block_fills.specs.FewSamples.{IsNotDrawnFlat, IsNotDrawnInFour, IsSmallOfFour, StaysFlatDrawn};

use crate::change::Change;
use crate::covered_block::CoveredBlock;
use crate::masks::Masks;
use blocks::{FlatBlock, known, make_flat, one_sample};
use grid::SampleCount;
use lanes::BlockSamples;
use shade::{CanvasSample, Shaded, apply_on_canvas, over};

/// The sample in another colour.
#[inline(always)]
fn with_colour(stored: CanvasSample, r: u8, g: u8, b: u8) -> CanvasSample
    ensures value { result ≡ record { r = r; g = g; b = b; alpha = stored.alpha; z = stored.z } }
    ensures bytes { HasBytes result }
{
    CanvasSample {
        r,
        g,
        b,
        alpha: stored.alpha,
        z: stored.z,
    }
}

impl CoveredBlock<'_> {
    /// What the fragment makes of a sample by its state.
    #[inline(never)]
    fn merged(&self, stored: CanvasSample) -> CanvasSample
        ensures { Takes self.now.fragment.now stored result }
    {
        apply_on_canvas(
            &self.fragment.state().merge,
            &self.fragment.shaded(),
            stored,
        )
    }

    /// What the fragment makes of a sample.
    #[inline(always)]
    pub(crate) fn drawn(&self, stored: CanvasSample) -> CanvasSample
        ensures { Takes self.now.fragment.now stored result }
    {
        let Shaded { r, g, b, a, .. } = self.fragment.shaded();
        // Each of the two that polygons mostly have by itself, which takes a tenth of the time.
        match self.change {
            Change::Replaces => with_colour(stored, r, g, b),
            Change::BlendsOver => with_colour(
                stored,
                over(r, a, stored.r),
                over(g, a, stored.g),
                over(b, a, stored.b),
            ),
            Change::Merges => self.merged(stored),
        }
    }

    /// What the fragment makes of a sample, if it is known what it makes of another one, which is often the same.
    #[inline(always)]
    pub(crate) fn drawn_beside(
        &self,
        stored: CanvasSample,
        other: CanvasSample,
        made: CanvasSample,
    ) -> CanvasSample
        requires { Takes self.now.fragment.now other made }
        ensures { Takes self.now.fragment.now stored result }
    {
        if stored == other {
            return made;
        }
        self.drawn(stored)
    }

    /// What the fragment makes of the block's samples that are in the masks, if they are at most two then.
    #[inline(always)]
    fn flat_drawn(
        &self,
        count: SampleCount,
        flat: &FlatBlock,
        words: &[u64; 16],
    ) -> Option<FlatBlock>
        ensures drawn { IfSome result (λ drawn. IsFlatDrawn self.now.fragment.now count flat.now words.now drawn) }
        ensures some { IsSome result ↔ StaysFlatDrawn self.now.fragment.now count flat.now words.now }
    {
        let first = self.drawn(flat.first);
        let second = self.drawn_beside(flat.second, flat.first, first);
        flat.replaced(count, words, first, second)
    }

    /// Draws the fragment at those samples of the block whose bits are set, in column `k` of the masks. All samples of the
    /// block are this one. Most blocks are so, and most of these are covered whole, which needs no masks.
    #[inline(always)]
    fn paint_one(
        &self,
        count: SampleCount,
        sample: CanvasSample,
        masks: &Masks<'_>,
        k: usize,
        samples: &mut [BlockSamples],
    )
        requires count { count ≡ self.now.tile.now.count }
        requires some { 4 ≤ count_of count }
        requires masks { masks.now.count ≡ self.now.tile.now.count }
        requires column { k < masks.now.columns }
        requires whole { IsTrue self.now.whole }
        requires samples { length samples.old ≡ planes_of_tile self.now.tile.now.count }
        requires one { let b = self.now in HasOne count (number_in_tile b.tile.now b.bx b.by) sample samples.old }
        ensures { let b = self.now in TilePaints b.fragment.now b.tile.now
            (IsInBlock b.fragment.now.state b.tile.now b.bx b.by masks.now k) samples.old samples.new }
    {
        let number = self.number();
        let row = (self.by - self.tile.by) as usize;
        let drawn = self.drawn(sample);
        if masks.is_full(count, k, row) {
            make_flat(count, number, drawn, samples);
            return;
        }
        let both = FlatBlock {
            first: sample,
            second: drawn,
            masks: masks.words(count, k, row),
        };
        both.store(count, number, samples);
    }

    /// What `paint_flat` does with four samples of a pixel or more.
    #[inline(always)]
    fn paint_flat_by<const COUNT: u32>(
        &self,
        masks: &Masks<'_>,
        k: usize,
        samples: &mut [BlockSamples],
    ) -> bool
        requires count { count_of self.now.tile.now.count ≡ COUNT }
        requires some { 4 ≤ COUNT }
        requires masks { masks.now.count ≡ self.now.tile.now.count }
        requires column { k < masks.now.columns }
        requires whole { IsTrue self.now.whole }
        requires samples { length samples.old ≡ planes_of_tile self.now.tile.now.count }
        ensures painted { let b = self.now in IsTrue result → TilePaints b.fragment.now b.tile.now
            (IsInBlock b.fragment.now.state b.tile.now b.bx b.by masks.now k) samples.old samples.new }
        ensures unchanged { result ≡ false → samples.new ≡ samples.old }
        ensures flat { let b = self.now in result ≡ false →
            IsNotDrawnFlat b.fragment.now b.tile.now b.bx b.by masks.now k samples.old }
        ensures few { let b = self.now in result ≡ false → IsSmallOfFour masks.now ⊎
            IsNotDrawnInFour b.fragment.now b.tile.now (IsInBlock b.fragment.now.state b.tile.now b.bx b.by masks.now k)
            (number_in_tile b.tile.now b.bx b.by) samples.old }
    {
        let count = known::<COUNT>(self.tile.count);
        let number = self.number();
        let row = (self.by - self.tile.by) as usize;
        if let Some(sample) = one_sample(count, number, samples) {
            self.paint_one(count, sample, masks, k, samples);
            return true;
        }
        let words = masks.words(count, k, row);
        if let Some(flat) = FlatBlock::of(count, number, samples) {
            if let Some(drawn) = self.flat_drawn(count, &flat, &words) {
                drawn.store(count, number, samples);
                return true;
            }
        }
        // Small polygons come in crowds: with four samples their blocks soon need a fifth colour, and are drawn in planes
        // at once.
        if count == SampleCount::Four && masks.columns < 4 {
            return false;
        }
        self.paint_few::<COUNT>(&words, samples)
    }

    /// Draws the fragment at those samples of the block whose bits are set, in column `k` of the masks, if it has at most
    /// four samples before and afterwards; with four samples of a pixel and fewer than four columns of masks at most two.
    /// Returns whether it was drawn; else all planes are unchanged.
    #[inline(always)]
    pub(crate) fn paint_flat<const COUNT: u32>(
        &self,
        masks: &Masks<'_>,
        k: usize,
        samples: &mut [BlockSamples],
    ) -> bool
        requires known { count_of self.now.tile.now.count ≡ COUNT }
        requires count { masks.now.count ≡ self.now.tile.now.count }
        requires column { k < masks.now.columns }
        requires whole { IsTrue self.now.whole }
        requires samples { length samples.old ≡ planes_of_tile self.now.tile.now.count }
        ensures painted { let b = self.now in IsTrue result → TilePaints b.fragment.now b.tile.now
            (IsInBlock b.fragment.now.state b.tile.now b.bx b.by masks.now k) samples.old samples.new }
        ensures unchanged { result ≡ false → samples.new ≡ samples.old }
        ensures flat { let b = self.now in result ≡ false → 4 ≤ count_of b.tile.now.count →
            IsNotDrawnFlat b.fragment.now b.tile.now b.bx b.by masks.now k samples.old }
        ensures few { let b = self.now in result ≡ false → 4 ≤ count_of b.tile.now.count → IsSmallOfFour masks.now ⊎
            IsNotDrawnInFour b.fragment.now b.tile.now (IsInBlock b.fragment.now.state b.tile.now b.bx b.by masks.now k)
            (number_in_tile b.tile.now b.bx b.by) samples.old }
    {
        if COUNT < 4 {
            return false;
        }
        self.paint_flat_by::<COUNT>(masks, k, samples)
    }
}
