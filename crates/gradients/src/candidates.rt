//! Candidates of sixteen values, and what is done with them.
ghost use Rattle.std.specs.Prelude.{ℕ, ℤ, pos, ◌≡◌, ◌⊎◌, ◌-◌, ◌*◌, ◌<◌, ◌≤◌, ◌/◌, ◌%◌, ◌^◌, ◌+◌, ◌+ℤ◌, ◌-ℤ◌, IsTrue, min, length, slice_index};
ghost use Rattle.std.specs.Simd.Lanes.{Each1};
ghost use Rattle.gradients.specs.declared.plane.Plane.{Plane};
ghost use Rattle.gradients.specs.declared.slope.Slope.{Slope};
ghost use Rattle.shade.specs.Quotient.{IsQuotient};
ghost use Rattle.gradients.specs.Modulo.{IsModulo};
ghost use Rattle.gradients.specs.Candidate.{IsCandidate, IsNear};
ghost use Rattle.gradients.specs.Plane.{IsCandidatePlane, IsHeight, IsHighPart, IsReached};

use std::simd::prelude::*;

/// The candidates at sixteen points, from the high halves of a plane's growth to each and of its height.
#[inline(always)]
pub(crate) fn candidates(lanes: u32x16, height: u64) -> u32x16
    requires { length lanes ≡ 16 }
    ensures length { length result ≡ 16 }
    ensures each { (i k area n : ℕ) (s : Slope) (p : Plane) (x y right below : ℤ) → i < 16 →
        IsCandidatePlane k area s p → IsHeight p x y height → IsHighPart p right below (slice_index lanes i) →
        IsReached k area s (x +ℤ right) (y +ℤ below) n → IsCandidate k n area (slice_index result i) }
{
    lanes + u32x16::splat((height >> 32) as u32)
}

/// The integer parts of sixteen candidates with `bits` fractional bits.
#[inline(always)]
pub(crate) fn wholes(candidates: u32x16, bits: u32) -> u16x16
    requires { (bits ≡ 16) ⊎ (bits ≡ 24) }
    ensures length { length result ≡ 16 }
    ensures each { (i : ℕ) → i < 16 → slice_index result i ≡ slice_index candidates i / 2 ^ bits }
    ensures bytes { bits ≡ 24 → Each1 (λ n. n ≤ 255) result }
{
    (candidates >> u32x16::splat(bits)).cast::<u16>()
}

/// The fractions of sixteen candidates, in units of their last bit. `mask` has a bit for each fractional one.
#[inline(always)]
pub(crate) fn fractions(candidates: u32x16, mask: u32) -> u32x16
    ensures length { length result ≡ 16 }
    ensures each { (i k : ℕ) → i < 16 → mask ≡ 2 ^ k - 1 → slice_index result i ≡ slice_index candidates i % 2 ^ k }
{
    candidates & u32x16::splat(mask)
}

/// The lesser of the two, lane by lane.
#[inline(always)]
pub(crate) fn least(a: u32x16, b: u32x16) -> u32x16
    ensures length { length result ≡ 16 }
    ensures each { (i : ℕ) → i < 16 → slice_index result i ≡ min (slice_index a i) (slice_index b i) }
{
    a.simd_lt(b).select(a, b)
}

/// The least fraction, in units of the last bit, with which the integer part of a candidate is surely the value.
const SURE: u32 = 3;

/// Whether the integer parts of candidates with these fractions are surely the values.
#[inline(always)]
pub(crate) fn are_sure(fractions: u32x16) -> bool
    ensures { IsTrue result → (i : ℕ) → i < 16 → 3 ≤ slice_index fractions i }
{
    fractions.simd_lt(u32x16::splat(SURE)).to_bitmask() == 0
}

/// The remainders of sixteen numerators: each without its value times the area, modulo 2^64.
#[inline(always)]
pub(crate) fn rests(numerators: u64x16, values: u16x16, area: u64) -> u64x16
    ensures length { length result ≡ 16 }
    ensures each { (i n : ℕ) → i < 16 → IsModulo (pos n) (slice_index numerators i) →
        IsModulo (pos n -ℤ pos (slice_index values i * area)) (slice_index result i) }
{
    numerators - values.cast::<u64>() * u64x16::splat(area)
}

/// The highest bits of sixteen numbers: 1 if the number is negative, else 0.
#[inline(always)]
fn signs(numbers: u64x16) -> u16x16
    ensures length { length result ≡ 16 }
    ensures each { (i : ℕ) → i < 16 → slice_index result i ≡ slice_index numbers i / 2 ^ 63 }
{
    (numbers >> 63).cast::<u16>()
}

/// The quotients: the values or the numbers before them, by the signs of the remainders. No lane grows.
#[inline(always)]
pub(crate) fn lowered(values: u16x16, rests: u64x16) -> u16x16
    ensures length { length result ≡ 16 }
    ensures each { (i n s : ℕ) → i < 16 → s ≤ 2 ^ 48 → IsNear n s (slice_index values i) →
        IsModulo (pos n -ℤ pos (slice_index values i * s)) (slice_index rests i) →
        IsQuotient n s (slice_index result i) }
    ensures at_most { (i : ℕ) → i < 16 → slice_index result i ≤ slice_index values i }
{
    let lower = values - signs(rests);
    lower.simd_lt(values).select(lower, values)
}
