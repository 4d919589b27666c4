//! Sixteen samples at once, in lanes, for edges less than a pixel wide and at most a pixel high.
ghost use Rattle.std.specs.Prelude.{◌≡◌, ◌↔◌, ℕ, ◌+◌, ◌-◌, ◌*◌, ◌/◌, ◌%◌, ◌<◌, ◌≤◌, IsTrue, IsFalse, length, slice_index};
ghost use Rattle.std.specs.Int.{bit_at};

use std::simd::prelude::*;

/// Sixteen distances, each `by` more.
#[inline(always)]
pub(crate) fn moved(distances: &[u16; 16], by: u16) -> u16x16
    requires room { (s : ℕ) → s < 16 → slice_index distances.now s ≤ 32768 }
    requires small { by < 32768 }
    ensures length { length result ≡ 16 }
    ensures each { (s : ℕ) → s < 16 → slice_index result s ≡ slice_index distances.now s + by }
{
    u16x16::from_array(*distances) + u16x16::splat(by)
}

/// How many whole pixels are in sixteen distances.
#[inline(always)]
pub(crate) fn pixels(distances: u16x16) -> u16x16
    ensures length { length result ≡ 16 }
    ensures each { (s : ℕ) → s < 16 → slice_index result s ≡ slice_index distances s / 256 }
{
    distances >> u16x16::splat(8)
}

/// Sixteen numbers that are not 0, each less 1.
#[inline(always)]
pub(crate) fn lessened(numbers: u16x16) -> u16x16
    ensures length { length result ≡ 16 }
    ensures each { (s : ℕ) → s < 16 → 0 < slice_index numbers s → slice_index result s ≡ slice_index numbers s - 1 }
{
    numbers - u16x16::splat(1)
}

/// What is left of sixteen distances without their whole pixels.
#[inline(always)]
pub(crate) fn rests(distances: u16x16) -> u16x16
    ensures length { length result ≡ 16 }
    ensures each { (s : ℕ) → s < 16 → slice_index result s ≡ slice_index distances s % 256 }
{
    distances & u16x16::splat(255)
}

/// A bit for each lane: whether there are 1 to 64 whole pixels in its distance, and one more with `by`. The rests are
/// those of the distances.
#[inline(always)]
pub(crate) fn passing(distances: u16x16, rests: u16x16, by: u16) -> u64
    requires by { by ≤ 256 }
    requires rests { (s : ℕ) → s < 16 → slice_index rests s < 256 }
    ensures { (s : ℕ) → s < 16 → ((bit_at result s ≡ 1) ↔
        ((256 ≤ slice_index distances s) × (slice_index distances s < 16640) × (256 ≤ slice_index rests s + by))) }
{
    let some = distances.simd_ge(u16x16::splat(256));
    let few = distances.simd_lt(u16x16::splat(16640));
    let more = (rests + u16x16::splat(by)).simd_ge(u16x16::splat(256));
    (some & few & more).to_bitmask()
}

/// By the rests of sixteen distances, how far it is back to the whole pixel, or how far beyond the next one it is with
/// `by` more.
#[inline(always)]
pub(crate) fn ahead_or_behind(rests: u16x16, by: u16, is_ahead: bool) -> u16x16
    requires by { by ≤ 256 }
    ensures length { length result ≡ 16 }
    ensures ahead { IsTrue is_ahead → (s : ℕ) → s < 16 → slice_index rests s < 256 →
        slice_index result s ≡ 255 - slice_index rests s }
    ensures behind { IsFalse is_ahead → (s : ℕ) → s < 16 → slice_index rests s < 256 → 256 ≤ slice_index rests s + by →
        slice_index result s ≡ slice_index rests s + by - 255 }
{
    if is_ahead {
        return u16x16::splat(255) - rests;
    }
    rests + u16x16::splat(by) - u16x16::splat(255)
}

/// Sixteen numbers, one more where what is left of a pixel, times the height, is less than the length times the width.
#[inline(always)]
pub(crate) fn advanced(
    numbers: u16x16,
    rests: u16x16,
    height: u16,
    lengths: u16x16,
    width: u16,
) -> u16x16
    requires height { height ≤ 256 }
    requires width { width < 256 }
    ensures length { length result ≡ 16 }
    ensures more { (s : ℕ) → s < 16 → slice_index numbers s < 256 → slice_index rests s < 256 → slice_index lengths s ≤ 256 →
        (255 - slice_index rests s) * height < slice_index lengths s * width →
        slice_index result s ≡ slice_index numbers s + 1 }
    ensures same { (s : ℕ) → s < 16 → slice_index numbers s < 256 → slice_index rests s < 256 → slice_index lengths s ≤ 256 →
        slice_index lengths s * width ≤ (255 - slice_index rests s) * height →
        slice_index result s ≡ slice_index numbers s }
{
    let across = (u16x16::splat(255) - rests) * u16x16::splat(height);
    let along = lengths * u16x16::splat(width);
    numbers
        + across
            .simd_lt(along)
            .select(u16x16::splat(1), u16x16::splat(0))
}
