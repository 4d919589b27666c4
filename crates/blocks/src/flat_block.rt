//! Blocks of a tile that are kept in one sample or in two.
ghost use Rattle.std.specs.Prelude.{◌≡◌, ◌↔◌, ◌⊎◌, ℕ, ◌<◌, ◌≤◌, false, length, slice_index, IsTrue, IsSome, IfSome};
ghost use Rattle.grid.specs.Samples.{count_of};
ghost use Rattle.lanes.specs.Block.{stored_at};
ghost use Rattle.blocks.specs.declared.way.Way.TheVariants.{Cleared as AsCleared, Single as AsSingle, Flat as AsFlat, FlatPair as AsFlatPair};
ghost use Rattle.blocks.specs.Layout.{planes_of_tile, way_in_tile, KeepsOtherSamples, KeepsOtherWays};
ghost use Rattle.blocks.specs.FlatBlocks.{HasFlat, HasOne, IsFlatReplaced, StaysFlat};

use crate::pair::{are_all, are_full, are_in, masks_of, set_masks, united, without};
use crate::place::place_by;
use crate::way::{Way, set_way, way_of};
use grid::SampleCount;
use lanes::BlockSamples;
use shade::CanvasSample;
use std::simd::prelude::*;

/// The samples of a block: sample `s` of a pixel is the second one where `masks[s]` has the pixel's bit, else the first.
#[derive(Clone, Copy, Debug, PartialEq, Eq)]
pub struct FlatBlock {
    /// The first sample.
    pub first: CanvasSample,
    /// The second one.
    pub second: CanvasSample,
    /// Of each sample index the pixels whose sample is the second one. No bit is set if the block has one sample.
    pub masks: [u64; 16],
}

/// A plane all of whose samples are this one.
#[inline]
pub(crate) fn spread(sample: CanvasSample) -> BlockSamples
    ensures { (p : ℕ) → p < 64 → stored_at result p ≡ sample }
{
    BlockSamples::filled(sample.colour_and_depth(), sample.alpha)
}

/// Whether all of these bytes are the first one.
#[inline(always)]
fn are_bytes_same(bytes: &[u8; 64]) -> bool
    ensures { IsTrue result ↔ ((p : ℕ) → p < 64 → slice_index bytes.now p ≡ slice_index bytes.now 0) }
{
    let others = u8x64::from_slice(bytes).simd_ne(u8x64::splat(bytes[0]));
    others.to_bitmask() == 0
}

/// Whether all of these depths are the first one.
#[inline(always)]
fn are_depths_same(depths: &[u16; 64]) -> bool
    ensures { IsTrue result ↔ ((p : ℕ) → p < 64 → slice_index depths.now p ≡ slice_index depths.now 0) }
{
    let others = u16x64::from_slice(depths).simd_ne(u16x64::splat(depths[0]));
    others.to_bitmask() == 0
}

/// Whether all samples of a plane are the same.
fn is_flat(plane: &BlockSamples) -> bool
    ensures { IsTrue result ↔ ((p : ℕ) → p < 64 → stored_at plane.now p ≡ stored_at plane.now 0) }
{
    are_bytes_same(&plane.r)
        && are_bytes_same(&plane.g)
        && are_bytes_same(&plane.b)
        && are_bytes_same(&plane.alpha)
        && are_depths_same(&plane.z)
}

/// Whether some bit of the masks is set.
#[inline(always)]
pub(crate) fn has_bits(count: SampleCount, masks: &[u64; 16]) -> bool
    ensures { (result ≡ false) ↔ ((s : ℕ) → s < count_of count → slice_index masks.now s ≡ 0) }
{
    for s in 0..count.count() as usize {
        if masks[s] != 0 {
            return true;
        }
    }
    false
}

/// The sample that all samples of block `k` of a tile with these planes are, or `None` if they are not all the same, or if
/// the block is kept neither in one sample nor in one plane.
#[inline(always)]
pub fn one_sample(count: SampleCount, k: usize, samples: &[BlockSamples]) -> Option<CanvasSample>
    requires block { k < 64 }
    requires samples { length samples.now ≡ planes_of_tile count }
    ensures one { IfSome result (λ sample. HasOne count k sample samples.now) }
    ensures flat { way_in_tile samples.now k ≡ AsFlat → IsSome result }
    ensures some { (sample : CanvasSample) → HasOne count k sample samples.now →
        (way_in_tile samples.now k ≡ AsCleared) ⊎ (way_in_tile samples.now k ≡ AsSingle) → IsSome result }
{
    let way = way_of(&samples[0], k);
    let plane = &samples[place_by(count, way, k, 0)];
    match way {
        Way::Flat => Some(plane.sample(k)),
        Way::Cleared | Way::Single if is_flat(plane) => Some(plane.sample(0)),
        _ => None,
    }
}

/// Makes a sample all samples of block `k` of a tile.
#[inline(always)]
pub fn make_flat(count: SampleCount, k: usize, sample: CanvasSample, samples: &mut [BlockSamples])
    requires some { 4 ≤ count_of count }
    requires block { k < 64 }
    requires samples { length samples.old ≡ planes_of_tile count }
    ensures made { HasOne count k sample samples.new }
    ensures ways { KeepsOtherWays k samples.old samples.new }
    ensures others { KeepsOtherSamples count k samples.old samples.new }
{
    samples[place_by(count, Way::Flat, k, 0)].set(k, sample);
    set_way(&mut samples[0], k, Way::Flat);
}

impl FlatBlock {
    /// All samples are this one.
    fn one(sample: CanvasSample) -> FlatBlock
        ensures { (result.first ≡ sample) × (result.second ≡ sample) }
    {
        FlatBlock {
            first: sample,
            second: sample,
            masks: [0; 16],
        }
    }

    /// The samples of block `k` of a tile with these planes, if it is kept in one sample or in two, or if `one_sample`
    /// finds that it has one.
    #[inline(always)]
    pub fn of(count: SampleCount, k: usize, samples: &[BlockSamples]) -> Option<FlatBlock>
        requires block { k < 64 }
        requires samples { length samples.now ≡ planes_of_tile count }
        ensures flat { IfSome result (λ flat. HasFlat count k flat samples.now) }
        ensures some { (way_in_tile samples.now k ≡ AsFlat) ⊎ (way_in_tile samples.now k ≡ AsFlatPair) → IsSome result }
        ensures one { (sample : CanvasSample) → HasOne count k sample samples.now →
            (way_in_tile samples.now k ≡ AsCleared) ⊎ (way_in_tile samples.now k ≡ AsSingle) → IsSome result }
    {
        if let Some(sample) = one_sample(count, k, samples) {
            return Some(FlatBlock::one(sample));
        }
        match way_of(&samples[0], k) {
            Way::FlatPair => Some(FlatBlock {
                first: samples[place_by(count, Way::FlatPair, k, 0)].sample(k),
                second: samples[place_by(count, Way::FlatPair, k, count.count() / 2)].sample(k),
                masks: masks_of(
                    count,
                    &samples[place_by(count, Way::Own, k, count.count() - 1)],
                ),
            }),
            _ => None,
        }
    }

    /// Makes these the samples of block `k` of a tile.
    #[inline(always)]
    pub fn store(&self, count: SampleCount, k: usize, samples: &mut [BlockSamples])
        requires some { 4 ≤ count_of count }
        requires block { k < 64 }
        requires samples { length samples.old ≡ planes_of_tile count }
        ensures made { HasFlat count k self.now samples.new }
        ensures ways { KeepsOtherWays k samples.old samples.new }
        ensures others { KeepsOtherSamples count k samples.old samples.new }
    {
        if !has_bits(count, &self.masks) {
            make_flat(count, k, self.first, samples);
            return;
        }
        samples[place_by(count, Way::FlatPair, k, 0)].set(k, self.first);
        samples[place_by(count, Way::FlatPair, k, count.count() / 2)].set(k, self.second);
        let masks = place_by(count, Way::Own, k, count.count() - 1);
        set_masks(count, &self.masks, &mut samples[masks]);
        set_way(&mut samples[0], k, Way::FlatPair);
    }

    /// The samples once, where these masks have a bit, `first` has taken the place of the first one, and `second` that of
    /// the second one. These are known to be at most two, and are returned, if the masks have all samples of all pixels; or
    /// if `first` and `second` are the same, and the masks have all that are one of the two before, or one of these is the
    /// same as before. Else this is `None`.
    #[inline(always)]
    pub fn replaced(
        &self,
        count: SampleCount,
        masks: &[u64; 16],
        first: CanvasSample,
        second: CanvasSample,
    ) -> Option<FlatBlock>
        ensures replaced { IfSome result (λ flat. IsFlatReplaced count self.now masks.now first second flat) }
        ensures some { IsSome result ↔ StaysFlat count self.now masks.now first second }
    {
        if first != second {
            return if are_full(count, masks) {
                Some(FlatBlock {
                    first,
                    second,
                    masks: self.masks,
                })
            } else {
                None
            };
        }
        if are_full(count, masks) {
            return Some(FlatBlock::one(first));
        }
        if are_in(count, &self.masks, masks) {
            return Some(FlatBlock {
                first: self.first,
                second,
                masks: *masks,
            });
        }
        if self.first == first || are_all(count, &self.masks, masks) {
            return Some(FlatBlock {
                first,
                second: self.second,
                masks: without(count, &self.masks, masks),
            });
        }
        if self.second == second {
            return Some(FlatBlock {
                first: self.first,
                second,
                masks: united(count, &self.masks, masks),
            });
        }
        None
    }
}
