//! Blocks that have up to four samples.
ghost use Rattle.std.specs.Prelude.{◌≡◌, ◌≤◌, false, length, IsTrue, IfSome, IfNone};
ghost use Rattle.grid.specs.Samples.{count_of};
ghost use Rattle.blocks.specs.Layout.{planes_of_tile};
ghost use Rattle.block_fills.specs.Parts.{number_in_tile, IsInWords, IsPaletteDrawn, TilePaints};
ghost use Rattle.block_fills.specs.FewSamples.{IsNotDrawnInFour, IsNotKeptFlat, LeavesNoPalette};

use crate::covered_block::CoveredBlock;
use blocks::{FlatBlock, Palette, known};
use grid::SampleCount;
use lanes::BlockSamples;

impl CoveredBlock<'_> {
    /// What the fragment makes of the block's samples that are in the masks, if they are at most four then.
    #[inline(always)]
    fn palette_drawn(
        &self,
        count: SampleCount,
        palette: &Palette,
        words: &[u64; 16],
    ) -> Option<Palette>
        ensures drawn { IfSome result (λ drawn. IsPaletteDrawn self.now.fragment.now count palette.now words.now drawn) }
        ensures none { IfNone result (LeavesNoPalette self.now.fragment.now count palette.now words.now) }
    {
        let [first, second, third, fourth] = palette.samples;
        let made = self.drawn(first);
        let drawn = [
            made,
            self.drawn_beside(second, first, made),
            self.drawn_beside(third, first, made),
            self.drawn_beside(fourth, first, made),
        ];
        palette.replaced(count, words, &drawn)
    }

    /// Draws the fragment at those samples of the block that are in the masks, if it is kept in one sample or two. Beside
    /// these it has what is made of each afterwards. Returns whether it was drawn; else all planes are unchanged. As in
    /// `paint_few`, the number of samples of a pixel is known when this is compiled.
    #[inline(never)]
    fn paint_two<const COUNT: u32>(&self, words: &[u64; 16], samples: &mut [BlockSamples]) -> bool
        requires count { count_of self.now.tile.now.count ≡ COUNT }
        requires some { 4 ≤ COUNT }
        requires samples { length samples.old ≡ planes_of_tile self.now.tile.now.count }
        ensures painted { let b = self.now in IsTrue result → TilePaints b.fragment.now b.tile.now
            (IsInWords b.tile.now b.bx b.by words.now) samples.old samples.new }
        ensures unchanged { result ≡ false → samples.new ≡ samples.old }
        ensures flat { let b = self.now in result ≡ false →
            IsNotKeptFlat b.tile.now.count (number_in_tile b.tile.now b.bx b.by) samples.old }
    {
        let count = known::<COUNT>(self.tile.count);
        let number = self.number();
        let Some(flat) = FlatBlock::of(count, number, samples) else {
            return false;
        };
        let first = self.drawn(flat.first);
        let second = self.drawn_beside(flat.second, flat.first, first);
        let palette = Palette::flat_replaced(count, &flat, words, first, second);
        palette.store(count, number, samples);
        true
    }

    /// Draws the fragment at those samples of the block that are in the masks, if it has at most four samples before and
    /// afterwards. Returns whether it was drawn; else all planes are unchanged. The number of samples of a pixel is known when
    /// this is compiled, so that loops over these are unrolled. It is too long to be inlined for each, so a parameter would be
    /// known only when it runs.
    #[inline(never)]
    pub(crate) fn paint_few<const COUNT: u32>(
        &self,
        words: &[u64; 16],
        samples: &mut [BlockSamples],
    ) -> bool
        requires count { count_of self.now.tile.now.count ≡ COUNT }
        requires some { 4 ≤ COUNT }
        requires whole { IsTrue self.now.whole }
        requires samples { length samples.old ≡ planes_of_tile self.now.tile.now.count }
        ensures painted { let b = self.now in IsTrue result → TilePaints b.fragment.now b.tile.now
            (IsInWords b.tile.now b.bx b.by words.now) samples.old samples.new }
        ensures unchanged { result ≡ false → samples.new ≡ samples.old }
        ensures few { let b = self.now in result ≡ false →
            IsNotDrawnInFour b.fragment.now b.tile.now (IsInWords b.tile.now b.bx b.by words.now)
            (number_in_tile b.tile.now b.bx b.by) samples.old }
    {
        if self.paint_two::<COUNT>(words, samples) {
            return true;
        }
        let count = known::<COUNT>(self.tile.count);
        let number = self.number();
        let Some(palette) = Palette::of(count, number, samples) else {
            return false;
        };
        match self.palette_drawn(count, &palette, words) {
            None => false,
            Some(drawn) => {
                drawn.store(count, number, samples);
                true
            }
        }
    }
}
