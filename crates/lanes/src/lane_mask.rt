//! Masks of sixteen lanes: a lane is all ones or 0.
ghost use Rattle.std.specs.Prelude.{◌≡◌, ℕ, ◌+◌, ◌*◌, ◌<◌, length, slice_index, IsBitSet, IsTrue, ◌≢◌};
ghost use Rattle.lanes.specs.Lanes.{IsMask};

use std::simd::prelude::*;

/// Sixteen bits of a mask of 64 pixels as lanes: those of a group of two rows.
#[inline(always)]
pub(crate) fn lanes_of_mask(bits: u64, group: u64) -> u16x16
    requires { group < 4 }
    ensures { IsMask result (λ i. IsBitSet bits (16 * group + i)) }
{
    let ours = ((bits >> (16 * group)) % 65536) as u16;
    let ones = u16x16::from_array([
        1, 2, 4, 8, 16, 32, 64, 128, 256, 512, 1024, 2048, 4096, 8192, 16384, 32768,
    ]);
    (u16x16::splat(ours) & ones)
        .simd_ne(u16x16::splat(0))
        .select(u16x16::splat(65535), u16x16::splat(0))
}

/// The lanes that are set in both masks.
#[inline(always)]
pub(crate) fn both(m: u16x16, n: u16x16) -> u16x16
    ensures whole { length result ≡ 16 }
    ensures both { (i : ℕ) → i < 16 → slice_index m i ≡ 65535 → slice_index result i ≡ slice_index n i }
    ensures neither { (i : ℕ) → i < 16 → slice_index m i ≡ 0 → slice_index result i ≡ 0 }
{
    m & n
}

/// Whether no lane is set.
#[inline(always)]
pub(crate) fn is_clear(m: u16x16) -> bool
    ensures { IsTrue result → (i : ℕ) → i < 16 → slice_index m i ≢ 65535 }
{
    m.simd_eq(u16x16::splat(65535)).to_bitmask() == 0
}

/// The lanes of `yes` where the mask is set, and those of `no` where it is not.
#[inline(always)]
pub(crate) fn choose(m: u16x16, yes: u16x16, no: u16x16) -> u16x16
    ensures whole { length result ≡ 16 }
    ensures set { (i : ℕ) → i < 16 → slice_index m i ≡ 65535 → slice_index result i ≡ slice_index yes i }
    ensures clear { (i : ℕ) → i < 16 → slice_index m i ≡ 0 → slice_index result i ≡ slice_index no i }
{
    m.simd_ge(u16x16::splat(32768)).select(yes, no)
}

/// The bytes of `yes` where the mask is set, and those of `no` where it is not.
#[inline(always)]
pub(crate) fn choose_bytes(m: u16x16, yes: u8x16, no: u8x16) -> u8x16
    ensures whole { length result ≡ 16 }
    ensures set { (i : ℕ) → i < 16 → slice_index m i ≡ 65535 → slice_index result i ≡ slice_index yes i }
    ensures clear { (i : ℕ) → i < 16 → slice_index m i ≡ 0 → slice_index result i ≡ slice_index no i }
{
    (m >> 8)
        .cast::<u8>()
        .simd_ge(u8x16::splat(128))
        .select(yes, no)
}
