//! Words of bits, each the mark of a triangle.
ghost use Rattle.std.specs.Prelude.{◌≡◌, ℕ, ◌<◌, ◌≤◌, None as Nothing, IfSome, IsBitSet, length, slice_index};

use std::simd::prelude::*;

/// The first bit that is set, from bit `from` on, or `None` if there is none. Bits are counted from 0, the lowest.
#[inline(always)]
pub fn next_bit(word: u64, from: usize) -> Option<usize>
    ensures none { result ≡ Nothing → (bit : ℕ) → from ≤ bit → bit < 64 → ¬ IsBitSet word bit }
    ensures some { IfSome result (λ next. (from ≤ next) × ((bit : ℕ) → from ≤ bit → bit < next → ¬ IsBitSet word bit)) }
{
    if from >= 64 {
        return None;
    }
    let rest = word >> from;
    if rest == 0 {
        return None;
    }
    let next = from + rest.trailing_zeros() as usize;
    Some(next)
}

/// A bit for each of the first sixteen bytes: it is set for those that are at most `most`.
#[inline(always)]
pub(crate) fn at_most(bytes: &[u8], most: u8) -> u64
    requires { 16 ≤ length bytes.now }
    ensures { (bit : ℕ) → bit < 16 → slice_index bytes.now bit ≤ most → IsBitSet result bit }
{
    u8x16::from_slice(bytes)
        .simd_le(u8x16::splat(most))
        .to_bitmask()
}

/// A bit for each of the first sixteen bytes: it is set for those that are above `least`.
#[inline(always)]
pub(crate) fn above(bytes: &[u8], least: u8) -> u64
    requires { 16 ≤ length bytes.now }
    ensures { (bit : ℕ) → bit < 16 → least < slice_index bytes.now bit → IsBitSet result bit }
{
    u8x16::from_slice(bytes)
        .simd_gt(u8x16::splat(least))
        .to_bitmask()
}
