//! Blocks of a tile that are kept as pairs: of an edge between two regions a pixel has samples of one colour or of the
//! other.
ghost use Rattle.std.specs.Prelude.{◌≡◌, ◌≢◌, ◌⊎◌, ℕ, ◌/◌, ◌==◌, if◌then◌else◌, ◌<◌, ◌≤◌, false, length, slice_index, IsTrue};
ghost use Rattle.std.specs.Int.{bit_at};
ghost use Rattle.grid.specs.Samples.{count_of};
ghost use Rattle.lanes.specs.Block.{stored_at};
ghost use Rattle.blocks.specs.declared.way.Way.TheVariants.{Cleared as AsCleared, Single as AsSingle, Pair as AsPair};
ghost use Rattle.blocks.specs.Layout.{planes_of_tile, block_in_tile, pixel_in_block, place_by as place_of_way, stored_in_tile, way_in_tile, chosen, in_list, HasMasks, AreReplaced, IsSameTile, KeepsOtherSamples, KeepsOtherWays};

use crate::pair::{
    are_all, are_full, are_in, are_same, has_pairs, masks_of, set_masks, united, without,
};
use crate::place::place_by;
use crate::tile_planes::{make_single, single_block};
use crate::way::{Way, set_way, way_of};
use grid::SampleCount;
use lanes::BlockSamples;

/// Makes block `k` of a tile a pair of the planes that lie in the places of a pair's two: a sample is that of the second
/// where the mask of its index has a bit, else that of the first.
fn make_pair(count: SampleCount, k: usize, masks: &[u64; 16], samples: &mut [BlockSamples])
    requires some { 4 ≤ count_of count }
    requires block { k < 64 }
    requires samples { length samples.old ≡ planes_of_tile count }
    ensures pair { way_in_tile samples.new k ≡ AsPair }
    ensures ways { KeepsOtherWays k samples.old samples.new }
    ensures masks { HasMasks count k masks.now samples.new }
    ensures made { (i j s : ℕ) → s < count_of count → block_in_tile i j ≡ k → stored_in_tile count samples.new i j s ≡
        chosen (slice_index masks.now s) (pixel_in_block i j)
        (stored_at (in_list samples.old (place_of_way count AsPair k (count_of count / 2))) (pixel_in_block i j))
        (stored_at (in_list samples.old (place_of_way count AsPair k 0)) (pixel_in_block i j)) }
    ensures others { KeepsOtherSamples count k samples.old samples.new }
{
    set_masks(
        count,
        masks,
        &mut samples[place_by(count, Way::Pair, k, count.count() - 1)],
    );
    set_way(&mut samples[0], k, Way::Pair);
}

/// The index of the second plane of block `k` among the planes of its tile, if the block is a pair.
#[inline]
pub fn second_place(count: SampleCount, k: usize) -> usize
    requires { k < 64 }
    ensures value { result ≡ place_of_way count AsPair k (count_of count / 2) }
    ensures within { result < planes_of_tile count }
{
    place_by(count, Way::Pair, k, count.count() / 2)
}

/// Makes block `k` of a tile a pair with these masks, whose two planes are alike, if one plane stands for all samples of
/// its pixels. Then the samples in the masks are changed in the second plane alone. Returns whether it is such a pair;
/// else all planes are unchanged. No clause says when it is one: whoever calls it has to go on without, which costs time
/// alone.
pub fn pair_block(
    count: SampleCount,
    k: usize,
    masks: &[u64; 16],
    samples: &mut [BlockSamples],
) -> bool
    requires block { k < 64 }
    requires samples { length samples.old ≡ planes_of_tile count }
    ensures pair { IsTrue result → (way_in_tile samples.new k ≡ AsPair) × HasMasks count k masks.now samples.new }
    ensures some { IsTrue result → 4 ≤ count_of count }
    ensures own { result ≡ false → samples.new ≡ samples.old }
    ensures ways { KeepsOtherWays k samples.old samples.new }
    ensures kept { IsSameTile count samples.old samples.new }
{
    if !has_pairs(count) || !single_block(count, k, samples) {
        return false;
    }
    samples[second_place(count, k)] = samples[place_by(count, Way::Single, k, 0)];
    make_pair(count, k, masks, samples);
    true
}

/// Stores the samples of a plane in place of those of block `k` of a tile that are in the masks: sample `s` of a pixel
/// whose bit is set in `masks[s]`. Returns whether that was done without planes for each sample; else all planes are
/// unchanged. No clause says when it is done: whoever calls it has to do it otherwise then, which costs time alone.
pub fn replace_samples(
    count: SampleCount,
    k: usize,
    masks: &[u64; 16],
    plane: &BlockSamples,
    samples: &mut [BlockSamples],
) -> bool
    requires block { k < 64 }
    requires samples { length samples.old ≡ planes_of_tile count }
    ensures replaced { IsTrue result → AreReplaced count k masks.now plane.now samples.old samples.new }
    ensures unchanged { result ≡ false → samples.new ≡ samples.old }
    ensures ways { KeepsOtherWays k samples.old samples.new }
    ensures others { KeepsOtherSamples count k samples.old samples.new }
{
    if are_full(count, masks) {
        make_single(count, k, plane, samples);
        return true;
    }
    if !has_pairs(count) {
        return false;
    }
    if way_of(&samples[0], k) != Way::Pair {
        if !single_block(count, k, samples) {
            return false;
        }
        samples[second_place(count, k)] = *plane;
        make_pair(count, k, masks, samples);
        return true;
    }
    let stored = masks_of(
        count,
        &samples[place_by(count, Way::Pair, k, count.count() - 1)],
    );
    if are_in(count, &stored, masks) {
        samples[second_place(count, k)] = *plane;
        make_pair(count, k, masks, samples);
        return true;
    }
    if are_all(count, &stored, masks) {
        let rest = without(count, &stored, masks);
        samples[place_by(count, Way::Pair, k, 0)] = *plane;
        make_pair(count, k, &rest, samples);
        return true;
    }
    if are_same(&samples[second_place(count, k)], plane) {
        let union = united(count, &stored, masks);
        make_pair(count, k, &union, samples);
        return true;
    }
    false
}
