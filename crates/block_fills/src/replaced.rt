//! Blocks that are drawn whole, for which one plane can stand.
ghost use Rattle.std.specs.Prelude.{◌≡◌, ℕ, ◌<◌, false, length, IsTrue};
ghost use Rattle.blocks.specs.declared.way.Way.TheVariants.{Single as AsSingle};
ghost use Rattle.blocks.specs.Layout.{in_list, planes_of_tile, way_in_tile};
ghost use Rattle.block_fills.specs.Parts.{number_in_tile, DrawsAlike, KeepsOtherBlocks};

use crate::covered_block::CoveredBlock;
use crate::pair::have_same_depths;
use blocks::{Way, block_way, make_single, place_by, single_block};
use canvas::replaces_colours;
use lanes::BlockSamples;

/// Whether all planes have the same depths and the same alphas.
fn are_alike(planes: &[BlockSamples]) -> bool
    ensures { IsTrue result → (s : ℕ) → s < length planes.now → ((in_list planes.now s).z ≡ (in_list planes.now 0).z) ×
        ((in_list planes.now s).alpha ≡ (in_list planes.now 0).alpha) }
{
    for s in 1..planes.len() {
        if !have_same_depths(planes, s, 0) {
            return false;
        }
    }
    true
}

impl CoveredBlock<'_> {
    /// Has one plane stand for all samples of the block, if it can. A block with planes of its own needs them no more if
    /// the fragment replaces its colours, and the depths and the alphas are the same in all of them. Returns whether one
    /// plane stands for the block then; else all planes are unchanged.
    pub(crate) fn has_one_plane(&self, samples: &mut [BlockSamples]) -> bool
        requires { length samples.old ≡ planes_of_tile self.now.tile.now.count }
        ensures single { IsTrue result →
            way_in_tile samples.new (number_in_tile self.now.tile.now self.now.bx self.now.by) ≡ AsSingle }
        ensures alike { IsTrue result → DrawsAlike self.now.fragment.now self.now.tile.now.count samples.old samples.new }
        ensures others { IsTrue result → KeepsOtherBlocks (number_in_tile self.now.tile.now self.now.bx self.now.by)
            self.now.tile.now.count samples.old samples.new }
        ensures kept { result ≡ false → samples.new ≡ samples.old }
    {
        let count = self.tile.count;
        let k = self.number();
        if single_block(count, k, samples) {
            return true;
        }
        if block_way(k, samples) != Way::Own || !replaces_colours(self.fragment.state(), count) {
            return false;
        }
        let first = place_by(count, Way::Own, k, 0);
        let end = first + count.count() as usize;
        if !are_alike(&samples[first..end]) {
            return false;
        }
        let plane = samples[first];
        make_single(count, k, &plane, samples);
        true
    }
}
