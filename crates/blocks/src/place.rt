//! Where a sample of a tile is stored.
ghost use Rattle.std.specs.Prelude.{◌≡◌, ◌≢◌, ◌↔◌, false, ℕ, ◌+◌, ◌*◌, ◌/◌, ◌%◌, ◌<◌, length, IsSome, IfSome};
ghost use Rattle.grid.specs.Samples.{count_of};
ghost use Rattle.lanes.specs.Block.{stored_at};
ghost use Rattle.blocks.specs.declared.way.Way.TheVariants.{Flat as AsFlat, FlatFour as AsFour};
ghost use Rattle.blocks.specs.Layout.{planes_of_tile, block_in_tile, pixel_in_block, block_in_tile as block_of, pixel_in_block as pixel_of_block, place_by as place_of_way, flat_place as the_flat_place, slot_by, is_plain, if_bit, own_plane, masks_in, more_in, place_in_tile, in_list, stored_in_tile, way_in_tile};

use crate::flat_block::spread;
use crate::pair::{further_mask_of, further_plane, mask_of, merged};
use crate::palette::Palette;
use crate::way::{Way, way_of};
use grid::SampleCount;
use lanes::BlockSamples;
use shade::CanvasSample;

/// The number of the block of pixel (i, j) among the 64 of its tile, row by row.
#[inline]
pub fn block_in_tile(i: u32, j: u32) -> usize
    ensures value { result ≡ block_of i j }
    ensures within { result < 64 }
{
    (j % 64 / 8 * 8 + i % 64 / 8) as usize
}

/// The number of pixel (i, j) among the 64 of its block, row by row.
#[inline]
pub(crate) fn pixel_in_block(i: u32, j: u32) -> usize
    ensures value { result ≡ pixel_of_block i j }
    ensures within { result < 64 }
{
    (8 * (j % 8) + i % 8) as usize
}

/// The index of the plane with a sample of flat block `k` among the planes of its tile: with the first one if `n` is 0,
/// with the second one if `n` is half of the samples of a pixel, with the third one if it is a quarter of them, and with
/// the fourth one if it is both together.
#[inline(always)]
fn flat_place(count: SampleCount, k: usize, n: u32) -> usize
    requires block { k < 64 }
    requires sample { n < count_of count }
    ensures value { result ≡ the_flat_place count k n }
    ensures within { result < planes_of_tile count }
{
    let n = n as usize;
    match count {
        SampleCount::One => 2 + k + n,
        SampleCount::Two => 3 + 2 * k + n,
        SampleCount::Four if n == 3 => 5 + 4 * k,
        SampleCount::Four => 2 + n / 2 + 2 * (n % 2),
        SampleCount::Eight => 2 + n / 4 + 2 * (n / 2 % 2),
        SampleCount::Sixteen => 2 + n / 8 + 2 * (n / 4 % 2),
    }
}

/// The index of own plane `n` of block `k` among the planes of its tile, if it keeps its samples in this way: that of
/// sample index `n`, unless the block is a pair; of a flat block that with one of its samples.
#[inline(always)]
pub fn place_by(count: SampleCount, way: Way, k: usize, n: u32) -> usize
    requires block { k < 64 }
    requires sample { n < count_of count }
    ensures value { result ≡ place_of_way count way k n }
    ensures within { result < planes_of_tile count }
{
    let own = 1 + (k + 1) * count.count() as usize;
    match way {
        Way::Cleared => 1,
        Way::Single => own,
        Way::Pair | Way::Own => own + n as usize,
        Way::Flat => flat_place(count, k, 0),
        Way::FlatPair | Way::FlatFour => flat_place(count, k, n),
    }
}

/// The number, if the mask has the bit of pixel `p`, else 0.
#[inline]
fn if_bit(mask: u64, p: usize, number: u32) -> u32
    requires { p < 64 }
    ensures { result ≡ if_bit mask p number }
{
    if (mask >> p) % 2 == 1 { number } else { 0 }
}

/// Which of the own planes of block `k` of a tile with these planes has sample `s` of pixel `p`.
#[inline]
fn own_plane(
    count: SampleCount,
    way: Way,
    planes: &[BlockSamples],
    k: usize,
    p: usize,
    s: u32,
) -> u32
    requires block { k < 64 }
    requires pixel { p < 64 }
    requires sample { s < count_of count }
    requires planes { length planes.now ≡ planes_of_tile count }
    ensures value { result ≡
        own_plane count way (masks_in count (in_list planes.now) k) (more_in count (in_list planes.now) k) p s }
    ensures within { result < count_of count }
{
    let many = count.count();
    match way {
        Way::Pair | Way::FlatPair => {
            let masks = &planes[place_by(count, Way::Own, k, many - 1)];
            if_bit(mask_of(masks, s), p, many / 2)
        }
        Way::FlatFour => {
            let masks = &planes[place_by(count, Way::Own, k, many - 1)];
            let more = &planes[place_by(count, Way::Own, k, further_plane(count))];
            if_bit(mask_of(masks, s), p, many / 2)
                + if_bit(further_mask_of(count, more, s), p, many / 4)
        }
        Way::Flat => 0,
        Way::Cleared | Way::Single | Way::Own => s,
    }
}

/// The index of the plane of sample `s` of pixel (i, j) among these of its tile.
#[inline]
pub fn place_in_tile(planes: &[BlockSamples], count: SampleCount, i: u32, j: u32, s: u32) -> usize
    requires sample { s < count_of count }
    requires planes { length planes.now ≡ planes_of_tile count }
    ensures value { result ≡ place_in_tile count (in_list planes.now) i j s }
    ensures within { result < planes_of_tile count }
{
    let block = block_in_tile(i, j);
    let way = way_of(&planes[0], block);
    let own = own_plane(count, way, planes, block, pixel_in_block(i, j), s);
    place_by(count, way, block, own)
}

/// Sample `s` of pixel (i, j), as it is stored in these planes of its tile.
pub fn sample_in_tile(
    planes: &[BlockSamples],
    count: SampleCount,
    i: u32,
    j: u32,
    s: u32,
) -> CanvasSample
    requires sample { s < count_of count }
    requires planes { length planes.now ≡ planes_of_tile count }
    ensures { result ≡ stored_in_tile count planes.now i j s }
{
    let block = block_in_tile(i, j);
    let slot = way_of(&planes[0], block).slot(block, pixel_in_block(i, j));
    planes[place_in_tile(planes, count, i, j, s)].sample(slot)
}

/// The two planes of block `k` of a tile with these planes and its masks, if it is a pair. If it is flat and has at most
/// two samples, all samples of the first are its first sample, and all of the second its second one. One of one sample
/// has no masks, and any do.
pub(crate) fn two_planes(
    count: SampleCount,
    way: Way,
    k: usize,
    planes: &[BlockSamples],
) -> (BlockSamples, BlockSamples, BlockSamples)
    requires way { is_plain way ≡ false }
    requires few { way ≢ AsFour }
    requires block { k < 64 }
    requires planes { length planes.now ≡ planes_of_tile count }
    ensures first { (p : ℕ) → p < 64 → stored_at result.0 p ≡
        stored_at (in_list planes.now (place_of_way count way k 0)) (slot_by way k p) }
    ensures second { (p : ℕ) → p < 64 → stored_at result.1 p ≡
        stored_at (in_list planes.now (place_of_way count way k (count_of count / 2))) (slot_by way k p) }
    ensures masks { way ≢ AsFlat → result.2 ≡ masks_in count (in_list planes.now) k }
{
    let masks = &planes[place_by(count, Way::Own, k, count.count() - 1)];
    let first = &planes[place_by(count, way, k, 0)];
    let second = &planes[place_by(count, way, k, count.count() / 2)];
    match way {
        Way::Flat => {
            let plane = spread(first.sample(k));
            (plane, plane, plane)
        }
        Way::FlatPair => (spread(first.sample(k)), spread(second.sample(k)), *masks),
        _ => (*first, *second, *masks),
    }
}

/// A plane that has sample `s` of each pixel of block `k`, put together of two, if the block is a pair or flat.
#[inline]
pub fn merged_in_tile(
    planes: &[BlockSamples],
    count: SampleCount,
    k: usize,
    s: u32,
) -> Option<BlockSamples>
    requires block { k < 64 }
    requires sample { s < count_of count }
    requires planes { length planes.now ≡ planes_of_tile count }
    ensures some { IsSome result ↔ is_plain (way_in_tile planes.now k) ≡ false }
    ensures merged { IfSome result (λ plane. (i j : ℕ) → block_in_tile i j ≡ k →
        stored_at plane (pixel_in_block i j) ≡ stored_in_tile count planes.now i j s) }
{
    let way = way_of(&planes[0], k);
    if way.is_plain() {
        return None;
    }
    if way == Way::FlatFour {
        return Some(Palette::stored(count, k, planes).plane(s));
    }
    let (first, second, masks) = two_planes(count, way, k, planes);
    Some(merged(&first, &second, mask_of(&masks, s)))
}
