//! Two planes of a block and masks, which say for each sample index in which of the two a pixel has its sample.
ghost use Rattle.std.specs.Prelude.{◌≡◌, ◌↔◌, ◌≢◌, ◌⊎◌, ℕ, ◌+◌, ◌/◌, ◌<◌, ◌≤◌, slice_index, IsTrue};
ghost use Rattle.std.specs.Int.{bit_at};
ghost use Rattle.grid.specs.Samples.{count_of};
ghost use Rattle.lanes.specs.Block.{stored_at};
ghost use Rattle.blocks.specs.Layout.{mask_of as the_mask, masks_from, first_further as first_among, chosen};

use crate::mask_lanes::{choose_bytes, choose_depths, lanes_of_mask};
use grid::SampleCount;
use lanes::BlockSamples;

/// Whether blocks with this many samples a pixel are kept as pairs or in few samples: a pair needs three planes, of one of
/// them few bytes.
#[inline]
pub fn has_pairs(count: SampleCount) -> bool
    ensures { IsTrue result ↔ (4 ≤ count_of count) }
{
    count.count() >= 4
}

/// The mask of sample index `s` of those that a plane has in place of depths.
#[inline(always)]
pub(crate) fn mask_of(masks: &BlockSamples, s: u32) -> u64
    requires { s < 16 }
    ensures { result ≡ the_mask masks.now s }
{
    let at = 4 * s as usize;
    u64::from(masks.z[at])
        + 65536 * u64::from(masks.z[at + 1])
        + 4294967296 * u64::from(masks.z[at + 2])
        + 281474976710656 * u64::from(masks.z[at + 3])
}

/// Has a plane have this mask of sample index `s`.
#[inline(always)]
pub(crate) fn set_mask(masks: &mut BlockSamples, s: u32, mask: u64)
    requires { s < 16 }
    ensures set { the_mask masks.new s ≡ mask }
    ensures others { (t : ℕ) → t ≢ s → the_mask masks.new t ≡ the_mask masks.old t }
{
    let at = 4 * s as usize;
    masks.z[at] = (mask % 65536) as u16;
    masks.z[at + 1] = (mask / 65536 % 65536) as u16;
    masks.z[at + 2] = (mask / 4294967296 % 65536) as u16;
    masks.z[at + 3] = (mask / 281474976710656) as u16;
}

/// The masks that a plane has in place of depths.
#[inline(always)]
pub(crate) fn masks_of(count: SampleCount, plane: &BlockSamples) -> [u64; 16]
    ensures { (s : ℕ) → s < count_of count → slice_index result s ≡ the_mask plane.now s }
{
    let mut masks = [0; 16];
    for s in 0..count.count() {
        masks[s as usize] = mask_of(plane, s);
    }
    masks
}

/// The number of the own plane of a block with its further masks.
#[inline(always)]
pub(crate) fn further_plane(count: SampleCount) -> u32
    ensures value { result ≡ Rattle.blocks.specs.Layout.further_plane count }
    ensures within { result < count_of count }
{
    match count {
        SampleCount::Sixteen => 14,
        _ => count.count() - 1,
    }
}

/// The number of the first further mask among those of its plane.
#[inline(always)]
fn first_further(count: SampleCount) -> u32
    ensures value { result ≡ Rattle.blocks.specs.Layout.first_further count }
    ensures room { result + count_of count ≤ 16 }
{
    match count {
        SampleCount::Sixteen => 0,
        _ => count.count(),
    }
}

/// The further mask of sample index `s` of those that a plane has in place of depths.
#[inline(always)]
pub(crate) fn further_mask_of(count: SampleCount, plane: &BlockSamples, s: u32) -> u64
    requires { s < count_of count }
    ensures { result ≡ the_mask (masks_from (first_among count) plane.now) s }
{
    mask_of(plane, first_further(count) + s)
}

/// The further masks that a plane has in place of depths.
#[inline(always)]
pub(crate) fn further_masks_of(count: SampleCount, plane: &BlockSamples) -> [u64; 16]
    ensures { (s : ℕ) → s < count_of count →
        slice_index result s ≡ the_mask (masks_from (first_among count) plane.now) s }
{
    let mut masks = [0; 16];
    for s in 0..count.count() {
        masks[s as usize] = further_mask_of(count, plane, s);
    }
    masks
}

/// Has a plane have these further masks.
#[inline(always)]
pub(crate) fn set_further_masks(count: SampleCount, masks: &[u64; 16], plane: &mut BlockSamples)
    ensures set { (s : ℕ) → s < count_of count →
        the_mask (masks_from (first_among count) plane.new) s ≡ slice_index masks.now s }
    ensures before { (s : ℕ) → s < first_among count → the_mask plane.new s ≡ the_mask plane.old s }
{
    let first = first_further(count);
    for s in 0..count.count() {
        set_mask(plane, first + s, masks[s as usize]);
    }
}

/// Has a plane have these masks.
#[inline(always)]
pub(crate) fn set_masks(count: SampleCount, masks: &[u64; 16], plane: &mut BlockSamples)
    ensures { (s : ℕ) → s < count_of count → the_mask plane.new s ≡ slice_index masks.now s }
{
    for s in 0..count.count() {
        set_mask(plane, s, masks[s as usize]);
    }
}

/// The samples of `second` where the mask has a bit, and those of `first` where it has none.
#[inline(always)]
pub(crate) fn merged(first: &BlockSamples, second: &BlockSamples, mask: u64) -> BlockSamples
    ensures { (p : ℕ) → p < 64 → stored_at result p ≡ chosen mask p (stored_at second.now p) (stored_at first.now p) }
{
    let lanes = lanes_of_mask(mask);
    BlockSamples {
        z: choose_depths(lanes, &second.z, &first.z),
        r: choose_bytes(lanes, &second.r, &first.r),
        g: choose_bytes(lanes, &second.g, &first.g),
        b: choose_bytes(lanes, &second.b, &first.b),
        alpha: choose_bytes(lanes, &second.alpha, &first.alpha),
    }
}

/// Whether all samples of all pixels are in these masks.
#[inline(always)]
pub(crate) fn are_full(count: SampleCount, masks: &[u64; 16]) -> bool
    ensures { IsTrue result ↔ ((s p : ℕ) → s < count_of count → p < 64 → bit_at (slice_index masks.now s) p ≡ 1) }
{
    for s in 0..count.count() as usize {
        if masks[s] != u64::MAX {
            return false;
        }
    }
    true
}

/// Whether all bits of a block's masks are in these.
#[inline(always)]
pub(crate) fn are_in(count: SampleCount, stored: &[u64; 16], masks: &[u64; 16]) -> bool
    ensures { IsTrue result ↔ ((s p : ℕ) → s < count_of count → p < 64 → bit_at (slice_index stored.now s) p ≡ 1 →
        bit_at (slice_index masks.now s) p ≡ 1) }
{
    for s in 0..count.count() {
        if stored[s as usize] & !masks[s as usize] != 0 {
            return false;
        }
    }
    true
}

/// Whether each bit is in a block's masks or in these.
#[inline(always)]
pub(crate) fn are_all(count: SampleCount, stored: &[u64; 16], masks: &[u64; 16]) -> bool
    ensures { IsTrue result ↔ ((s p : ℕ) → s < count_of count → p < 64 → bit_at (slice_index masks.now s) p ≢ 1 →
        bit_at (slice_index stored.now s) p ≡ 1) }
{
    for s in 0..count.count() {
        if stored[s as usize] | masks[s as usize] != u64::MAX {
            return false;
        }
    }
    true
}

/// The bits of a block's masks, and these.
#[inline(always)]
pub(crate) fn united(count: SampleCount, stored: &[u64; 16], masks: &[u64; 16]) -> [u64; 16]
    ensures more { (s p : ℕ) → s < count_of count → p < 64 → bit_at (slice_index masks.now s) p ≡ 1 →
        bit_at (slice_index result s) p ≡ 1 }
    ensures rest { (s p : ℕ) → s < count_of count → p < 64 → bit_at (slice_index masks.now s) p ≢ 1 →
        bit_at (slice_index result s) p ≡ bit_at (slice_index stored.now s) p }
{
    let mut union = [0; 16];
    for s in 0..count.count() {
        union[s as usize] = stored[s as usize] | masks[s as usize];
    }
    union
}

/// The bits that are in both masks.
#[inline(always)]
pub(crate) fn shared(count: SampleCount, stored: &[u64; 16], masks: &[u64; 16]) -> [u64; 16]
    ensures { (s p : ℕ) → s < count_of count → p < 64 → (bit_at (slice_index result s) p ≡ 1) ↔
        ((bit_at (slice_index stored.now s) p ≡ 1) × (bit_at (slice_index masks.now s) p ≡ 1)) }
{
    let mut both = [0; 16];
    for s in 0..count.count() {
        both[s as usize] = stored[s as usize] & masks[s as usize];
    }
    both
}

/// The bits of a block's masks that are not in these.
#[inline(always)]
pub(crate) fn without(count: SampleCount, stored: &[u64; 16], masks: &[u64; 16]) -> [u64; 16]
    ensures less { (s p : ℕ) → s < count_of count → p < 64 → bit_at (slice_index masks.now s) p ≡ 1 →
        bit_at (slice_index result s) p ≡ 0 }
    ensures rest { (s p : ℕ) → s < count_of count → p < 64 → bit_at (slice_index masks.now s) p ≢ 1 →
        bit_at (slice_index result s) p ≡ bit_at (slice_index stored.now s) p }
{
    let mut rest = [0; 16];
    for s in 0..count.count() {
        rest[s as usize] = stored[s as usize] & !masks[s as usize];
    }
    rest
}

/// Whether two planes have the same samples. Colours are compared first, since they mostly differ if anything does.
pub(crate) fn are_same(first: &BlockSamples, second: &BlockSamples) -> bool
    ensures { IsTrue result ↔ (first.now ≡ second.now) }
{
    first.r == second.r
        && first.g == second.g
        && first.b == second.b
        && first.alpha == second.alpha
        && first.z == second.z
}
