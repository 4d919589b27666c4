//! Blocks that are kept as pairs: two planes, and masks which say in which of the two a pixel has a sample.
ghost use Rattle.std.specs.Prelude.{◌≡◌, ◌<◌, false, length, IsTrue};
ghost use Rattle.raster.specs.Drawing.{IsInSquare};
ghost use Rattle.blocks.specs.Layout.{planes_of_tile, in_list};
ghost use Rattle.block_fills.specs.Parts.{IsInWords, TilePaints};

use crate::covered_block::CoveredBlock;
use blocks::{Way, block_way, has_pairs, pair_block, place_by, replace_samples, second_place};
use canvas::replaces_colours;
use lanes::BlockSamples;

/// Whether two planes of a tile have the same depths and the same alphas.
pub(crate) fn have_same_depths(samples: &[BlockSamples], first: usize, second: usize) -> bool
    requires first { first < length samples.now }
    requires second { second < length samples.now }
    ensures { IsTrue result → ((in_list samples.now first).z ≡ (in_list samples.now second).z) ×
        ((in_list samples.now first).alpha ≡ (in_list samples.now second).alpha) }
{
    if samples[first].z != samples[second].z || samples[first].alpha != samples[second].alpha {
        return false;
    }
    true
}

impl CoveredBlock<'_> {
    /// Draws the fragment at those samples of the block that are in the masks, if two planes can stand for the block
    /// then. If one plane stands for it, it is made a pair, and the fragment is drawn in its second plane alone. If it
    /// is a pair, the fragment has to replace colours, and the depths and the alphas of the two planes have to be the
    /// same. Returns whether it was drawn; else all planes are unchanged.
    pub(crate) fn paint_as_pair(&self, words: &[u64; 16], samples: &mut [BlockSamples]) -> bool
        requires whole { IsTrue self.now.whole }
        requires samples { length samples.old ≡ planes_of_tile self.now.tile.now.count }
        ensures painted { let b = self.now in IsTrue result → TilePaints b.fragment.now b.tile.now
            (IsInWords b.tile.now b.bx b.by words.now) samples.old samples.new }
        ensures unchanged { result ≡ false → samples.new ≡ samples.old }
    {
        let count = self.tile.count;
        let number = self.number();
        let second = second_place(count, number);
        if pair_block(count, number, words, samples) {
            self.paint_plane(second, samples);
            return true;
        }
        if block_way(number, samples) != Way::Pair
            || !replaces_colours(self.fragment.state(), count)
        {
            return false;
        }
        let first = place_by(count, Way::Pair, number, 0);
        if !have_same_depths(samples, first, second) {
            return false;
        }
        let mut plane = [samples[first]];
        self.draw_plane(&mut plane);
        replace_samples(count, number, words, &plane[0], samples)
    }

    /// Draws the fragment at all samples of the block, if it is a pair: in both of its planes. Returns whether it was
    /// drawn; else all planes are unchanged.
    pub(crate) fn paint_both(&self, samples: &mut [BlockSamples]) -> bool
        requires whole { IsTrue self.now.whole }
        requires samples { length samples.old ≡ planes_of_tile self.now.tile.now.count }
        ensures painted { let b = self.now in IsTrue result → TilePaints b.fragment.now b.tile.now
            (IsInSquare b.tile.now b.bx b.by 8) samples.old samples.new }
        ensures unchanged { result ≡ false → samples.new ≡ samples.old }
    {
        let number = self.number();
        if !has_pairs(self.tile.count) {
            return false;
        }
        if block_way(number, samples) != Way::Pair {
            return false;
        }
        let first = place_by(self.tile.count, Way::Pair, number, 0);
        self.paint_plane(first, samples);
        let second = second_place(self.tile.count, number);
        self.paint_plane(second, samples);
        true
    }
}
