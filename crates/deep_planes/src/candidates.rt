//! Sixteen heights of a depth's plane, and what is done with them. A height is the depth times 2^40, a little too high.
ghost use Rattle.std.specs.Prelude.{ℕ, pos, ◌≡◌, ◌*◌, ◌<◌, ◌≤◌, ◌/◌, ◌%◌, ◌^◌, ◌-ℤ◌, IsTrue, length, slice_index};
ghost use Rattle.shade.specs.Quotient.{IsQuotient};
ghost use Rattle.gradients.specs.Candidate.{IsNear};
ghost use Rattle.gradients.specs.Modulo.{IsModulo};

use std::simd::prelude::*;

/// The upper halves of sixteen numbers.
#[inline(always)]
fn upper_halves(numbers: u64x16) -> u32x16
    ensures length { length result ≡ 16 }
    ensures each { (i : ℕ) → i < 16 → slice_index result i ≡ slice_index numbers i / 2 ^ 32 }
{
    (numbers >> 32).cast::<u32>()
}

/// The integer parts of sixteen heights.
#[inline(always)]
pub(crate) fn wholes(heights: u64x16) -> u32x16
    ensures length { length result ≡ 16 }
    ensures each { (i : ℕ) → i < 16 → slice_index result i ≡ slice_index heights i / 2 ^ 40 }
{
    upper_halves(heights) >> 8
}

/// The first byte of the fractions of sixteen heights, which is the lowest one of their upper halves.
#[inline(always)]
fn first_bytes(heights: u64x16) -> u32x16
    ensures length { length result ≡ 16 }
    ensures each { (i : ℕ) → i < 16 → slice_index result i ≡ slice_index heights i / 2 ^ 32 % 2 ^ 8 }
{
    upper_halves(heights) & u32x16::splat(255)
}

/// The first 32 bits of the fractions of sixteen heights.
#[inline(always)]
fn fractions(heights: u64x16) -> u32x16
    ensures length { length result ≡ 16 }
    ensures each { (i : ℕ) → i < 16 → slice_index result i ≡ slice_index heights i / 2 ^ 8 % 2 ^ 32 }
{
    ((heights >> 8) & u64x16::splat(0xffff_ffff)).cast::<u32>()
}

/// Whether each of sixteen numbers is at least `least`.
#[inline(always)]
fn are_at_least(numbers: u32x16, least: u32) -> bool
    ensures { IsTrue result → (i : ℕ) → i < 16 → least ≤ slice_index numbers i }
{
    numbers.simd_lt(u32x16::splat(least)).to_bitmask() == 0
}

/// The least that the first 32 bits of a fraction have to be, so that its integer part is surely the depth.
const SURE: u32 = 1 << 19;

/// Whether the integer parts of these heights are surely the depths, where the first byte of a fraction does not say so.
#[cold]
#[inline(never)]
fn are_sure_by_fractions(heights: u64x16) -> bool
    ensures { IsTrue result → (i : ℕ) → i < 16 → 2 ^ 27 ≤ slice_index heights i % 2 ^ 40 }
{
    are_at_least(fractions(heights), SURE)
}

/// Whether the integer parts of these heights are surely the depths.
#[inline(always)]
pub(crate) fn are_sure(heights: u64x16) -> bool
    ensures { IsTrue result → (i : ℕ) → i < 16 → 2 ^ 27 ≤ slice_index heights i % 2 ^ 40 }
{
    are_at_least(first_bytes(heights), 1) || are_sure_by_fractions(heights)
}

/// The remainders of sixteen numerators: each without its depth times the divisor, modulo 2^64.
#[inline(always)]
pub(crate) fn rests(numerators: u64x16, depths: u32x16, divisor: u64) -> u64x16
    ensures length { length result ≡ 16 }
    ensures each { (i n : ℕ) → i < 16 → IsModulo (pos n) (slice_index numerators i) →
        IsModulo (pos n -ℤ pos (slice_index depths i * divisor)) (slice_index result i) }
{
    numerators - depths.cast::<u64>() * u64x16::splat(divisor)
}

/// The highest bits of sixteen numbers: 1 if the number is negative, else 0.
#[inline(always)]
fn signs(numbers: u64x16) -> u32x16
    ensures length { length result ≡ 16 }
    ensures each { (i : ℕ) → i < 16 → slice_index result i ≡ slice_index numbers i / 2 ^ 63 }
{
    (numbers >> 63).cast::<u32>()
}

/// The quotients: the depths or the numbers before them, by the signs of the remainders. No lane grows.
#[inline(always)]
pub(crate) fn lowered(depths: u32x16, rests: u64x16) -> u32x16
    ensures length { length result ≡ 16 }
    ensures each { (i n d : ℕ) → i < 16 → d ≤ 2 ^ 56 → IsNear n d (slice_index depths i) →
        IsModulo (pos n -ℤ pos (slice_index depths i * d)) (slice_index rests i) →
        IsQuotient n d (slice_index result i) }
    ensures at_most { (i : ℕ) → i < 16 → slice_index result i ≤ slice_index depths i }
{
    let lower = depths - signs(rests);
    lower.simd_lt(depths).select(lower, depths)
}
