ghost use Rattle.std.specs.Prelude.{◌≡◌, ℕ, ◌+◌, ◌*◌, ◌/◌, ◌^◌, ◌<◌, ◌≤◌, length, slice_index, [], ◌∷◌};
ghost use Rattle.grid.specs.declared.sample_count.SampleCount.TheVariants.{Four};
ghost use Rattle.shade.specs.Resolve.{IsResolved};
ghost use Rattle.lanes.specs.BlockMask.{plane_of};
ghost use Rattle.lanes.specs.Sums.{AreSums};

use crate::block_samples::BlockSamples;
use crate::lane_bytes::{narrow_row, widen_row};
use std::simd::prelude::*;

/// A channel of eight pixels in order from that channel of their four samples, sample by sample, from a place on: their
/// means.
#[inline(always)]
pub fn means_of_four(first: &[u8], second: &[u8], third: &[u8], fourth: &[u8], at: usize) -> u8x8
    requires room { (at + 8 ≤ length first.now) × (at + 8 ≤ length second.now) × (at + 8 ≤ length third.now) ×
        (at + 8 ≤ length fourth.now) }
    ensures whole { length result ≡ 8 }
    ensures resolved { (i : ℕ) → i < 8
        → IsResolved Four (slice_index
        (slice_index first.now (at + i) ∷ slice_index second.now (at + i) ∷ slice_index third.now (at + i) ∷ slice_index
        fourth.now (at + i) ∷ [])) (slice_index result i) }
{
    let a = widen_row(u8x8::from_slice(&first[at..]));
    let b = widen_row(u8x8::from_slice(&second[at..]));
    let c = widen_row(u8x8::from_slice(&third[at..]));
    let d = widen_row(u8x8::from_slice(&fourth[at..]));
    narrow_row((a + b + c + d + u16x8::splat(2)) >> 2)
}

/// Sums of eight pixels with a channel of eight pixels in order added, from a place on.
#[inline(always)]
fn with_row(sums: u16x8, channel: &[u8], at: usize) -> u16x8
    requires room { at + 8 ≤ length channel.now }
    requires whole { length sums ≡ 8 }
    requires small { (i : ℕ) → i < 8 → slice_index sums i ≤ 4096 }
    ensures whole { length result ≡ 8 }
    ensures each { (i : ℕ) → i < 8 → slice_index result i ≡ slice_index sums i + slice_index channel.now (at + i) }
    ensures most { (i : ℕ) → i < 8 → slice_index result i ≤ slice_index sums i + 255 }
{
    sums + widen_row(u8x8::from_slice(&channel[at..]))
}

/// The sums of red, of green and of blue of the samples of eight pixels in order, from a place on. There are up to
/// sixteen samples.
pub fn sums(samples: &[BlockSamples], at: usize) -> (u16x8, u16x8, u16x8)
    requires room { at + 8 ≤ 64 }
    requires few { length samples.now ≤ 16 }
    ensures red { AreSums result.0 (length samples.now) (λ s i. slice_index (plane_of samples.now s).r (at + i)) }
    ensures green { AreSums result.1 (length samples.now) (λ s i. slice_index (plane_of samples.now s).g (at + i)) }
    ensures blue { AreSums result.2 (length samples.now) (λ s i. slice_index (plane_of samples.now s).b (at + i)) }
{
    let (mut red, mut green, mut blue) = (u16x8::splat(0), u16x8::splat(0), u16x8::splat(0));
    for s in 0..samples.len() {
        let plane = &samples[s];
        red = with_row(red, &plane.r, at);
        green = with_row(green, &plane.g, at);
        blue = with_row(blue, &plane.b, at);
    }
    (red, green, blue)
}

/// The means of eight pixels by the sums of their samples, of which there are 2^bits; half of that is `half`.
#[inline(always)]
pub fn means_of_sums(sums: u16x8, half: u16, bits: u16) -> u8x8
    requires whole { length sums ≡ 8 }
    requires bits { bits < 16 }
    requires half { half ≤ 2 ^ bits / 2 }
    requires half_small { half ≤ 2048 }
    requires most { (i : ℕ) → i < 8 → slice_index sums i ≤ 255 * 2 ^ bits }
    requires small { (i : ℕ) → i < 8 → slice_index sums i ≤ 4096 }
    ensures whole { length result ≡ 8 }
    ensures each { (i : ℕ) → i < 8 → slice_index result i ≡ (slice_index sums i + half) / 2 ^ bits }
{
    narrow_row((sums + u16x8::splat(half)) >> u16x8::splat(bits))
}
