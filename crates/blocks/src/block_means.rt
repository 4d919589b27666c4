//! The means of the samples of a block's pixels, all 64 pixels at once.
ghost use Rattle.std.specs.Prelude.{◌≡◌, ℕ, ◌+◌, ◌-◌, ◌*◌, ◌/◌, ◌<◌, ◌≤◌, length, slice_index};
ghost use Rattle.std.specs.Int.{bit_at};
ghost use Rattle.std.specs.Simd.Lanes.{Each1};
ghost use Rattle.grid.specs.Samples.{count_of};
ghost use Rattle.shade.specs.Resolve.{total};
ghost use Rattle.lanes.specs.Block.{stored_at};
ghost use Rattle.blocks.specs.declared.way.Way.TheVariants.{Flat as AsFlat, Pair as AsPair, Own as AsOwn, FlatPair as AsFlatPair, FlatFour as AsFour};
ghost use Rattle.blocks.specs.Layout.{planes_of_tile, in_list, way_in_tile};
ghost use Rattle.blocks.specs.Lanes.{channel_of};
ghost use Rattle.blocks.specs.Means.{IsMeanOf, HasMeansOf};
ghost use Rattle.blocks.specs.Palettes.{sample_numbered};
ghost use Rattle.blocks.specs.declared.block_means.Channel.TheVariants.{Alpha as AlphaChannel};

use crate::flat_block::spread;
use crate::known_count::known;
use crate::mask_lanes::lanes_of_mask;
use crate::pair::masks_of;
use crate::palette::Palette;
use crate::place::place_by;
use crate::way::{Way, way_of};
use grid::SampleCount;
use lanes::BlockSamples;
use shade::CanvasSample;
use std::simd::prelude::*;

/// A channel of samples.
#[derive(Clone, Copy)]
enum Channel {
    Red,
    Green,
    Blue,
    Alpha,
}

/// The bytes of the 64 pixels in lanes of 16 bits.
#[inline(always)]
fn widened(bytes: &[u8]) -> u16x64
    requires { length bytes.now ≡ 64 }
    ensures whole { length result ≡ 64 }
    ensures each { (p : ℕ) → p < 64 → slice_index result p ≡ slice_index bytes.now p }
    ensures bytes { (p : ℕ) → p < 64 → slice_index result p ≤ 255 }
{
    u8x64::from_slice(bytes).cast::<u16>()
}

/// Lanes of at most 255 as bytes.
#[inline(always)]
fn narrowed(lanes: u16x64) -> [u8; 64]
    requires { Each1 (λ n. n ≤ 255) lanes }
    ensures { result ≡ lanes }
{
    lanes.cast::<u8>().to_array()
}

/// A channel of the samples of a plane.
#[inline(always)]
fn lanes_of(plane: &BlockSamples, channel: Channel) -> u16x64
    ensures whole { length result ≡ 64 }
    ensures each { (p : ℕ) → p < 64 → slice_index result p ≡ channel_of channel (stored_at plane.now p) }
    ensures bytes { (p : ℕ) → p < 64 → slice_index result p ≤ 255 }
{
    match channel {
        Channel::Red => widened(&plane.r),
        Channel::Green => widened(&plane.g),
        Channel::Blue => widened(&plane.b),
        Channel::Alpha => widened(&plane.alpha),
    }
}

/// The sums of a channel of the samples of these planes, of which there are up to sixteen.
#[inline(always)]
fn sums(planes: &[BlockSamples], channel: Channel) -> u16x64
    requires { length planes.now ≤ 16 }
    ensures whole { length result ≡ 64 }
    ensures each { (p : ℕ) → p < 64 → slice_index result p ≡
        total (length planes.now) (λ s. channel_of channel (stored_at (in_list planes.now s) p)) }
    ensures most { (p : ℕ) → p < 64 → slice_index result p ≤ 255 * length planes.now }
{
    let mut sums = u16x64::splat(0);
    for plane in planes {
        sums = sums + lanes_of(plane, channel);
    }
    sums
}

/// The means by the sums of the samples.
#[inline(always)]
fn means_of_sums(count: SampleCount, sums: u16x64) -> [u8; 64]
    requires whole { length sums ≡ 64 }
    requires most { (p : ℕ) → p < 64 → slice_index sums p ≤ 255 * count_of count }
    ensures { (p : ℕ) → p < 64 → slice_index result p ≡ (slice_index sums p + count_of count / 2) / count_of count }
{
    let half = u16x64::splat((count.count() / 2) as u16);
    let bits = u16x64::splat(count.logarithm() as u16);
    narrowed((sums + half) >> bits)
}

/// The means of the samples of these planes, one plane for each sample of a pixel.
#[inline(always)]
fn means(count: SampleCount, planes: &[BlockSamples]) -> BlockSamples
    requires { length planes.now ≡ count_of count }
    ensures { (p : ℕ) → p < 64 → IsMeanOf count (λ s. stored_at (in_list planes.now s) p) (stored_at result p) }
{
    BlockSamples {
        z: [0; 64],
        r: means_of_sums(count, sums(planes, Channel::Red)),
        g: means_of_sums(count, sums(planes, Channel::Green)),
        b: means_of_sums(count, sums(planes, Channel::Blue)),
        alpha: means_of_sums(count, sums(planes, Channel::Alpha)),
    }
}

/// The means of the samples of block `k` of a tile with these planes, if the block has a plane for each sample of a
/// pixel.
#[inline(never)]
fn means_of_own(count: SampleCount, planes: &[BlockSamples], k: usize) -> BlockSamples
    requires block { k < 64 }
    requires planes { length planes.now ≡ planes_of_tile count }
    requires way { way_in_tile planes.now k ≡ AsOwn }
    ensures { HasMeansOf count planes.now k result }
{
    let own = &planes[place_by(count, Way::Own, k, 0)..];
    // Each count by itself: where the number of planes is known, the loops over them are unrolled.
    match count {
        SampleCount::One => means(SampleCount::One, &own[..1]),
        SampleCount::Two => means(SampleCount::Two, &own[..2]),
        SampleCount::Four => means(SampleCount::Four, &own[..4]),
        SampleCount::Eight => means(SampleCount::Eight, &own[..8]),
        SampleCount::Sixteen => means(SampleCount::Sixteen, &own[..16]),
    }
}

/// These sums of the bits of the masks before number `s`, with those of four masks more.
#[inline(always)]
fn four_more(bits: u8x64, masks: &[u64; 16], s: usize) -> u8x64
    requires masks { s ≤ 12 }
    requires whole { length bits ≡ 64 }
    requires each { (p : ℕ) → p < 64 → slice_index bits p ≡ total s (λ t. bit_at (slice_index masks.now t) p) }
    ensures whole { length result ≡ 64 }
    ensures each { (p : ℕ) → p < 64 → slice_index result p ≡
        total (s + 4) (λ t. bit_at (slice_index masks.now t) p) }
{
    bits + lanes_of_mask(masks[s])
        + lanes_of_mask(masks[s + 1])
        + lanes_of_mask(masks[s + 2])
        + lanes_of_mask(masks[s + 3])
}

/// How many of the masks have the bit of each pixel, in bytes. They are summed by fours, since no loop over each of them
/// is unrolled.
#[inline(always)]
fn sum_bits(count: SampleCount, masks: &[u64; 16]) -> u8x64
    ensures whole { length result ≡ 64 }
    ensures each { (p : ℕ) → p < 64 → slice_index result p ≡
        total (count_of count) (λ s. bit_at (slice_index masks.now s) p) }
{
    let many = count.count() as usize;
    let mut bits = u8x64::splat(0);
    for part in 0..many / 4 {
        bits = four_more(bits, masks, 4 * part);
    }
    for s in many / 4 * 4..many {
        bits = bits + lanes_of_mask(masks[s]);
    }
    bits
}

/// How many of the masks have the bit of each pixel.
#[inline(always)]
fn count_bits(count: SampleCount, masks: &[u64; 16]) -> u16x64
    ensures whole { length result ≡ 64 }
    ensures each { (p : ℕ) → p < 64 → slice_index result p ≡
        total (count_of count) (λ s. bit_at (slice_index masks.now s) p) }
{
    sum_bits(count, masks).cast::<u16>()
}

/// The means of bytes in lanes: `bits` samples of each pixel have the second, and the others the first.
#[inline(always)]
fn means_of_both(count: SampleCount, bits: u16x64, first: u16x64, second: u16x64) -> [u8; 64]
    requires bits { length bits ≡ 64 }
    requires few { (p : ℕ) → p < 64 → slice_index bits p ≤ count_of count }
    requires first { length first ≡ 64 }
    requires first_bytes { (p : ℕ) → p < 64 → slice_index first p ≤ 255 }
    requires second { length second ≡ 64 }
    requires second_bytes { (p : ℕ) → p < 64 → slice_index second p ≤ 255 }
    ensures { (p : ℕ) → p < 64 → slice_index result p ≡
        (slice_index first p * (count_of count - slice_index bits p) + slice_index second p * slice_index bits p +
        count_of count / 2) / count_of count }
{
    let rest = u16x64::splat(count.count() as u16) - bits;
    means_of_sums(count, first * rest + second * bits)
}

/// The means of a channel: `bits` samples of each pixel are that of `second`, and the others that of `first`.
#[inline(always)]
fn channel_of_both(
    count: SampleCount,
    bits: u16x64,
    first: &BlockSamples,
    second: &BlockSamples,
    channel: Channel,
) -> [u8; 64]
    requires bits { length bits ≡ 64 }
    requires few { (p : ℕ) → p < 64 → slice_index bits p ≤ count_of count }
    ensures { (p : ℕ) → p < 64 → slice_index result p ≡
        (channel_of channel (stored_at first.now p) * (count_of count - slice_index bits p) +
        channel_of channel (stored_at second.now p) * slice_index bits p + count_of count / 2) / count_of count }
{
    means_of_both(
        count,
        bits,
        lanes_of(first, channel),
        lanes_of(second, channel),
    )
}

/// The means of the samples of block `k` of a tile with these planes, if the block is kept as a pair.
#[inline(always)]
fn means_of_pair<const COUNT: u32>(
    count: SampleCount,
    planes: &[BlockSamples],
    k: usize,
) -> BlockSamples
    requires count { count_of count ≡ COUNT }
    requires block { k < 64 }
    requires planes { length planes.now ≡ planes_of_tile count }
    requires way { way_in_tile planes.now k ≡ AsPair }
    ensures { HasMeansOf count planes.now k result }
{
    let count = known::<COUNT>(count);
    let many = count.count();
    let first = &planes[place_by(count, Way::Pair, k, 0)];
    let second = &planes[place_by(count, Way::Pair, k, many / 2)];
    let masks = &planes[place_by(count, Way::Pair, k, many - 1)];
    let bits = count_bits(count, &masks_of(count, masks));
    BlockSamples {
        z: [0; 64],
        r: channel_of_both(count, bits, first, second, Channel::Red),
        g: channel_of_both(count, bits, first, second, Channel::Green),
        b: channel_of_both(count, bits, first, second, Channel::Blue),
        alpha: channel_of_both(count, bits, first, second, Channel::Alpha),
    }
}

/// The means of two bytes: `bits` samples of each pixel have the second, and the others the first.
#[inline(always)]
fn means_of_bytes(count: SampleCount, bits: u16x64, first: u8, second: u8) -> [u8; 64]
    requires bits { length bits ≡ 64 }
    requires few { (p : ℕ) → p < 64 → slice_index bits p ≤ count_of count }
    ensures { (p : ℕ) → p < 64 → slice_index result p ≡
        (first * (count_of count - slice_index bits p) + second * slice_index bits p + count_of count / 2) /
        count_of count }
{
    let first = u16x64::splat(u16::from(first));
    let second = u16x64::splat(u16::from(second));
    means_of_both(count, bits, first, second)
}

/// What `means_of_bytes` does, for bytes that are mostly the same.
#[inline(always)]
fn means_of_alphas(count: SampleCount, bits: u16x64, first: u8, second: u8) -> [u8; 64]
    requires bits { length bits ≡ 64 }
    requires few { (p : ℕ) → p < 64 → slice_index bits p ≤ count_of count }
    ensures { (p : ℕ) → p < 64 → slice_index result p ≡
        (first * (count_of count - slice_index bits p) + second * slice_index bits p + count_of count / 2) /
        count_of count }
{
    if first == second {
        return [first; 64];
    }
    means_of_bytes(count, bits, first, second)
}

/// The means of the samples of block `k` of a tile with these planes, if the block is kept in two samples.
#[inline(always)]
fn means_of_flat<const COUNT: u32>(
    count: SampleCount,
    planes: &[BlockSamples],
    k: usize,
) -> BlockSamples
    requires count { count_of count ≡ COUNT }
    requires block { k < 64 }
    requires planes { length planes.now ≡ planes_of_tile count }
    requires way { way_in_tile planes.now k ≡ AsFlatPair }
    ensures { HasMeansOf count planes.now k result }
{
    let count = known::<COUNT>(count);
    let many = count.count();
    let first = planes[place_by(count, Way::FlatPair, k, 0)].sample(k);
    let second = planes[place_by(count, Way::FlatPair, k, many / 2)].sample(k);
    let masks = &planes[place_by(count, Way::Own, k, many - 1)];
    let bits = count_bits(count, &masks_of(count, masks));
    BlockSamples {
        z: [0; 64],
        r: means_of_bytes(count, bits, first.r, second.r),
        g: means_of_bytes(count, bits, first.g, second.g),
        b: means_of_bytes(count, bits, first.b, second.b),
        alpha: means_of_alphas(count, bits, first.alpha, second.alpha),
    }
}

/// The sums with `many` samples more of each pixel, all of which have this byte.
#[inline(always)]
fn added(sums: u16x64, many: u16x64, byte: u8) -> u16x64
    requires sums { length sums ≡ 64 }
    requires room { (p : ℕ) → p < 64 → slice_index sums p ≤ 12240 }
    requires many { length many ≡ 64 }
    requires few { (p : ℕ) → p < 64 → slice_index many p ≤ 16 }
    ensures whole { length result ≡ 64 }
    ensures each { (p : ℕ) → p < 64 → slice_index result p ≡ slice_index sums p + slice_index many p * byte }
    ensures most { (p : ℕ) → p < 64 → slice_index result p ≤ slice_index sums p + 255 * slice_index many p }
{
    sums + many * u16x64::splat(u16::from(byte))
}

/// How many samples of each pixel have the number 0, by how many have the others.
#[inline(always)]
fn others(count: SampleCount, ones: u16x64, twos: u16x64, threes: u16x64) -> u16x64
    requires ones { length ones ≡ 64 }
    requires twos { length twos ≡ 64 }
    requires threes { length threes ≡ 64 }
    requires few { (p : ℕ) → p < 64 →
        slice_index ones p + slice_index twos p + slice_index threes p ≤ count_of count }
    ensures whole { length result ≡ 64 }
    ensures each { (p : ℕ) → p < 64 →
        slice_index result p + slice_index ones p + slice_index twos p + slice_index threes p ≡ count_of count }
{
    u16x64::splat(count.count() as u16) - ones - twos - threes
}

/// A channel of a sample.
#[inline(always)]
fn byte_of(sample: CanvasSample, channel: Channel) -> u8
    ensures { result ≡ channel_of channel sample }
{
    match channel {
        Channel::Red => sample.r,
        Channel::Green => sample.g,
        Channel::Blue => sample.b,
        Channel::Alpha => sample.alpha,
    }
}

/// The means of a channel, by how many samples of each pixel have each number of these four.
#[inline(always)]
fn means_of_four(
    count: SampleCount,
    noughts: u16x64,
    ones: u16x64,
    twos: u16x64,
    threes: u16x64,
    samples: &[CanvasSample; 4],
    channel: Channel,
) -> [u8; 64]
    requires noughts { length noughts ≡ 64 }
    requires ones { length ones ≡ 64 }
    requires twos { length twos ≡ 64 }
    requires threes { length threes ≡ 64 }
    requires all { (p : ℕ) → p < 64 →
        slice_index noughts p + slice_index ones p + slice_index twos p + slice_index threes p ≡ count_of count }
    ensures { (p : ℕ) → p < 64 → slice_index result p ≡
        (slice_index noughts p * channel_of channel (sample_numbered samples.now 0) +
        slice_index ones p * channel_of channel (sample_numbered samples.now 1) +
        slice_index twos p * channel_of channel (sample_numbered samples.now 2) +
        slice_index threes p * channel_of channel (sample_numbered samples.now 3) + count_of count / 2) / count_of count }
{
    let sums = added(u16x64::splat(0), noughts, byte_of(samples[0], channel));
    let sums = added(sums, ones, byte_of(samples[1], channel));
    let sums = added(sums, twos, byte_of(samples[2], channel));
    means_of_sums(count, added(sums, threes, byte_of(samples[3], channel)))
}

/// What `means_of_four` does for alpha, which is mostly the same in all samples.
#[inline(always)]
fn alphas_of_four(
    count: SampleCount,
    noughts: u16x64,
    ones: u16x64,
    twos: u16x64,
    threes: u16x64,
    samples: &[CanvasSample; 4],
) -> [u8; 64]
    requires noughts { length noughts ≡ 64 }
    requires ones { length ones ≡ 64 }
    requires twos { length twos ≡ 64 }
    requires threes { length threes ≡ 64 }
    requires all { (p : ℕ) → p < 64 →
        slice_index noughts p + slice_index ones p + slice_index twos p + slice_index threes p ≡ count_of count }
    ensures { (p : ℕ) → p < 64 → slice_index result p ≡
        (slice_index noughts p * channel_of AlphaChannel (sample_numbered samples.now 0) +
        slice_index ones p * channel_of AlphaChannel (sample_numbered samples.now 1) +
        slice_index twos p * channel_of AlphaChannel (sample_numbered samples.now 2) +
        slice_index threes p * channel_of AlphaChannel (sample_numbered samples.now 3) + count_of count / 2) / count_of count }
{
    let alpha = samples[0].alpha;
    if samples[1].alpha == alpha && samples[2].alpha == alpha && samples[3].alpha == alpha {
        return [alpha; 64];
    }
    means_of_four(count, noughts, ones, twos, threes, samples, Channel::Alpha)
}

/// The means of the samples of block `k` of a tile with these planes, if the block is kept in up to four samples.
#[inline(always)]
fn means_of_palette<const COUNT: u32>(
    count: SampleCount,
    planes: &[BlockSamples],
    k: usize,
) -> BlockSamples
    requires count { count_of count ≡ COUNT }
    requires block { k < 64 }
    requires planes { length planes.now ≡ planes_of_tile count }
    requires way { way_in_tile planes.now k ≡ AsFour }
    ensures { HasMeansOf count planes.now k result }
{
    let count = known::<COUNT>(count);
    let palette = Palette::stored(count, k, planes);
    let samples = &palette.samples;
    let ones = count_bits(count, &palette.pixels_of(count, 1));
    let twos = count_bits(count, &palette.pixels_of(count, 2));
    let threes = count_bits(count, &palette.pixels_of(count, 3));
    let noughts = others(count, ones, twos, threes);
    BlockSamples {
        z: [0; 64],
        r: means_of_four(count, noughts, ones, twos, threes, samples, Channel::Red),
        g: means_of_four(count, noughts, ones, twos, threes, samples, Channel::Green),
        b: means_of_four(count, noughts, ones, twos, threes, samples, Channel::Blue),
        alpha: alphas_of_four(count, noughts, ones, twos, threes, samples),
    }
}

/// The means of the samples of block `k` of a tile with these planes, if the block is kept in one sample.
#[inline(always)]
pub fn means_of_one(count: SampleCount, planes: &[BlockSamples], k: usize) -> BlockSamples
    requires block { k < 64 }
    requires planes { length planes.now ≡ planes_of_tile count }
    requires way { way_in_tile planes.now k ≡ AsFlat }
    ensures { HasMeansOf count planes.now k result }
{
    spread(planes[place_by(count, Way::Flat, k, 0)].sample(k))
}

/// Makes a plane the means of the samples of block `k` of a tile with these planes. The number of samples of a pixel is
/// known when this is compiled, so that loops over these are unrolled.
#[inline(never)]
pub fn means_of_block<const COUNT: u32>(
    count: SampleCount,
    planes: &[BlockSamples],
    k: usize,
    means: &mut BlockSamples,
)
    requires count { count_of count ≡ COUNT }
    requires block { k < 64 }
    requires planes { length planes.now ≡ planes_of_tile count }
    ensures { HasMeansOf count planes.now k means.new }
{
    let way = way_of(&planes[0], k);
    match way {
        Way::Cleared | Way::Single => *means = planes[place_by(count, way, k, 0)],
        Way::Flat => *means = means_of_one(count, planes, k),
        Way::FlatPair => *means = means_of_flat::<COUNT>(count, planes, k),
        Way::FlatFour => *means = means_of_palette::<COUNT>(count, planes, k),
        Way::Pair => *means = means_of_pair::<COUNT>(count, planes, k),
        Way::Own => *means = means_of_own(count, planes, k),
    }
}
