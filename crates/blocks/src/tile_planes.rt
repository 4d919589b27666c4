//! The planes of one tile. The first says in which way each of the tile's 64 blocks keeps its samples. Behind it lie
//! those of the block to which the tile was cleared, and then those of its own blocks. So clearing a tile touches two
//! of its planes, and a block whose pixels are alike in all samples can be kept in one. With four samples a pixel or more
//! two planes lie between that have the samples of flat blocks.
ghost use Rattle.std.specs.Prelude.{◌≡◌, ◌≢◌, ◌↔◌, ℕ, ◌*◌, ◌<◌, true, false, length, IsTrue};
ghost use Rattle.grid.specs.Samples.{count_of};
ghost use Rattle.shade.specs.Canvas.{with_alpha};
ghost use Rattle.lanes.specs.Block.{stored_at};
ghost use Rattle.blocks.specs.Layout.{IsUniformTile, planes_of_tile, block_in_tile, pixel_in_block, stored_in_tile, way_in_tile, IsSameTile, KeepsOtherSamples, KeepsOtherWays, AreOwnBy, KeepsOtherPlanes, in_list, is_plain, place_by as place_of_way};
ghost use Rattle.blocks.specs.declared.way.Way.TheVariants.{Cleared as AsCleared, Single as AsSingle, Own as AsOwn, FlatFour as AsFour};

use crate::flat_block::spread;
use crate::pair::{mask_of, merged};
use crate::palette::Palette;
use crate::place::{place_by, two_planes};
use crate::way::{Way, all_cleared, says_cleared, says_own, set_all_own, set_way, way_of};
use grid::SampleCount;
use lanes::BlockSamples;
use shade::Sample;

/// Whether all blocks of the tile with these planes are kept as the one to which it was cleared.
#[inline]
pub fn is_cleared(samples: &[BlockSamples]) -> bool
    ensures { IsTrue result ↔ ((k : ℕ) → k < 64 → way_in_tile samples.now k ≡ AsCleared) }
{
    match samples {
        [] => false,
        [state, ..] => says_cleared(state),
    }
}

/// The way in which block `k` of the tile with these planes keeps its samples.
#[inline]
pub fn block_way(k: usize, samples: &[BlockSamples]) -> Way
    requires block { k < 64 }
    requires samples { 0 < length samples.now }
    ensures { result ≡ way_in_tile samples.now k }
{
    way_of(&samples[0], k)
}

/// Makes all samples of a tile the given one, with this alpha if alpha is stored. All blocks are then kept as the one to
/// which the tile was cleared.
pub fn clear_tile(count: SampleCount, sample: Sample, alpha: u8, samples: &mut [BlockSamples])
    requires { length samples.old ≡ planes_of_tile count }
    ensures cleared { (i j s : ℕ) → s < count_of count → stored_in_tile count samples.new i j s ≡
        with_alpha sample alpha }
    ensures uniform { IsUniformTile count samples.new }
{
    samples[0] = all_cleared();
    samples[1] = BlockSamples::filled(sample, alpha);
}

/// Copies the plane that stands for all samples of block `k` of a tile to each of its own planes.
fn fill_alike(count: SampleCount, way: Way, k: usize, samples: &mut [BlockSamples])
    requires plain { is_plain way ≡ true }
    requires way { way ≢ AsOwn }
    requires block { k < 64 }
    requires samples { length samples.old ≡ planes_of_tile count }
    ensures own { AreOwnBy count way k samples.old samples.new }
    ensures others { KeepsOtherPlanes count k samples.old samples.new }
{
    let plane = samples[place_by(count, way, k, 0)];
    for s in 0..count.count() {
        samples[place_by(count, Way::Own, k, s)] = plane;
    }
}

/// Puts each of the own planes of block `k` of a tile together of the two planes of the pair, or of its samples if it is flat
/// and has at most two.
fn fill_pair(count: SampleCount, way: Way, k: usize, samples: &mut [BlockSamples])
    requires way { is_plain way ≡ false }
    requires few { way ≢ AsFour }
    requires block { k < 64 }
    requires samples { length samples.old ≡ planes_of_tile count }
    ensures own { AreOwnBy count way k samples.old samples.new }
    ensures others { KeepsOtherPlanes count k samples.old samples.new }
{
    let (first, second, masks) = two_planes(count, way, k, samples);
    for s in 0..count.count() {
        samples[place_by(count, Way::Own, k, s)] = merged(&first, &second, mask_of(&masks, s));
    }
}

/// Puts each of the own planes of block `k` of a tile, which is kept in up to four samples, together of these.
fn fill_four(count: SampleCount, k: usize, samples: &mut [BlockSamples])
    requires block { k < 64 }
    requires samples { length samples.old ≡ planes_of_tile count }
    ensures own { AreOwnBy count AsFour k samples.old samples.new }
    ensures others { KeepsOtherPlanes count k samples.old samples.new }
{
    let palette = Palette::stored(count, k, samples);
    for s in 0..count.count() {
        samples[place_by(count, Way::Own, k, s)] = palette.plane(s);
    }
}

/// Writes each sample of block `k` of a tile, which keeps them in this way, to its own plane.
fn fill_planes(count: SampleCount, way: Way, k: usize, samples: &mut [BlockSamples])
    requires way { way ≢ AsOwn }
    requires block { k < 64 }
    requires samples { length samples.old ≡ planes_of_tile count }
    ensures own { AreOwnBy count way k samples.old samples.new }
    ensures others { KeepsOtherPlanes count k samples.old samples.new }
{
    if way.is_plain() {
        fill_alike(count, way, k, samples);
    } else if way == Way::FlatFour {
        fill_four(count, k, samples);
    } else {
        fill_pair(count, way, k, samples);
    }
}

/// Gives block `k` of a tile its own planes, one for each sample of a pixel, so that each sample can be changed.
pub fn fill_block(count: SampleCount, k: usize, samples: &mut [BlockSamples])
    requires block { k < 64 }
    requires samples { length samples.old ≡ planes_of_tile count }
    ensures own { way_in_tile samples.new k ≡ AsOwn }
    ensures ways { KeepsOtherWays k samples.old samples.new }
    ensures kept { IsSameTile count samples.old samples.new }
{
    let way = way_of(&samples[0], k);
    if let Way::Own = way {
        return;
    }
    fill_planes(count, way, k, samples);
    set_way(&mut samples[0], k, Way::Own);
}

/// Copies the plane of the block to which a tile was cleared to each plane of its own blocks.
fn copy_cleared(count: SampleCount, samples: &mut [BlockSamples])
    requires { length samples.old ≡ planes_of_tile count }
    ensures own { (k s : ℕ) → k < 64 → s < count_of count →
        in_list samples.new (place_of_way count AsOwn k s) ≡ in_list samples.old 1 }
    ensures first { in_list samples.new 0 ≡ in_list samples.old 0 }
{
    for place in place_by(count, Way::Own, 0, 0)..samples.len() {
        samples[place] = samples[1];
    }
}

/// Gives the blocks of a tile that are kept as the one to which it was cleared their own planes.
fn fill_cleared(count: SampleCount, samples: &mut [BlockSamples])
    requires cleared { (k : ℕ) → k < 64 → way_in_tile samples.old k ≡ AsCleared }
    requires samples { length samples.old ≡ planes_of_tile count }
    ensures own { (k : ℕ) → way_in_tile samples.new k ≡ AsOwn }
    ensures kept { IsSameTile count samples.old samples.new }
{
    copy_cleared(count, samples);
    set_all_own(&mut samples[0]);
}

/// Gives all blocks of a tile their own planes.
pub fn fill_tile(count: SampleCount, samples: &mut [BlockSamples])
    requires { length samples.old ≡ planes_of_tile count }
    ensures own { (k : ℕ) → way_in_tile samples.new k ≡ AsOwn }
    ensures kept { IsSameTile count samples.old samples.new }
{
    if says_own(&samples[0]) {
        return;
    }
    if is_cleared(samples) {
        fill_cleared(count, samples);
        return;
    }
    for k in 0..64 {
        fill_block(count, k, samples);
    }
    set_all_own(&mut samples[0]);
}

/// Gives block `k` of a tile a single plane of its own, if one plane stands for all samples of its pixels. Returns
/// whether it has one then; else all planes are unchanged. No clause says when it has one: whoever calls it has to go on
/// without, which costs time alone.
pub fn single_block(count: SampleCount, k: usize, samples: &mut [BlockSamples]) -> bool
    requires block { k < 64 }
    requires samples { length samples.old ≡ planes_of_tile count }
    ensures single { IsTrue result → way_in_tile samples.new k ≡ AsSingle }
    ensures unchanged { result ≡ false → samples.new ≡ samples.old }
    ensures ways { KeepsOtherWays k samples.old samples.new }
    ensures kept { IsSameTile count samples.old samples.new }
{
    match way_of(&samples[0], k) {
        Way::Cleared => {
            let plane = samples[1];
            make_single(count, k, &plane, samples);
            true
        }
        Way::Flat => {
            let plane = spread(samples[place_by(count, Way::Flat, k, 0)].sample(k));
            make_single(count, k, &plane, samples);
            true
        }
        Way::Single => true,
        Way::Pair | Way::Own | Way::FlatPair | Way::FlatFour => false,
    }
}

/// Makes a plane the samples of block `k` of a tile: each of its samples is that of all samples of its pixel.
pub fn make_single(count: SampleCount, k: usize, plane: &BlockSamples, samples: &mut [BlockSamples])
    requires block { k < 64 }
    requires samples { length samples.old ≡ planes_of_tile count }
    ensures single { way_in_tile samples.new k ≡ AsSingle }
    ensures ways { KeepsOtherWays k samples.old samples.new }
    ensures made { (i j s : ℕ) → s < count_of count → block_in_tile i j ≡ k →
        stored_in_tile count samples.new i j s ≡ stored_at plane.now (pixel_in_block i j) }
    ensures others { KeepsOtherSamples count k samples.old samples.new }
{
    samples[place_by(count, Way::Single, k, 0)] = *plane;
    set_way(&mut samples[0], k, Way::Single);
}
