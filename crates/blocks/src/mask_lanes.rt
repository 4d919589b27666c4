//! Masks of the 64 pixels of a block in lanes, a lane for each pixel.
ghost use Rattle.std.specs.Prelude.{◌≡◌, ℕ, ◌<◌, length, slice_index};
ghost use Rattle.std.specs.Int.{bit_at};
ghost use Rattle.blocks.specs.Lanes.{AreChosen};

use std::simd::prelude::*;

/// The bits of a mask, each in the lane of its pixel.
#[inline(always)]
pub(crate) fn lanes_of_mask(mask: u64) -> u8x64
    ensures whole { length result ≡ 64 }
    ensures each { (p : ℕ) → p < 64 → slice_index result p ≡ bit_at mask p }
{
    let rows = u8x8::from_array(mask.to_le_bytes());
    let each = rows.shuffle(
        rows,
        [
            0, 0, 0, 0, 0, 0, 0, 0, 1, 1, 1, 1, 1, 1, 1, 1, 2, 2, 2, 2, 2, 2, 2, 2, 3, 3, 3, 3, 3,
            3, 3, 3, 4, 4, 4, 4, 4, 4, 4, 4, 5, 5, 5, 5, 5, 5, 5, 5, 6, 6, 6, 6, 6, 6, 6, 6, 7, 7,
            7, 7, 7, 7, 7, 7,
        ],
    );
    let powers = u8x64::from_array([
        1, 2, 4, 8, 16, 32, 64, 128, 1, 2, 4, 8, 16, 32, 64, 128, 1, 2, 4, 8, 16, 32, 64, 128, 1,
        2, 4, 8, 16, 32, 64, 128, 1, 2, 4, 8, 16, 32, 64, 128, 1, 2, 4, 8, 16, 32, 64, 128, 1, 2,
        4, 8, 16, 32, 64, 128, 1, 2, 4, 8, 16, 32, 64, 128,
    ]);
    (each & powers)
        .simd_ne(u8x64::splat(0))
        .select(u8x64::splat(1), u8x64::splat(0))
}

/// The bytes of `set` where a lane is 1, and those of `clear` where it is not.
#[inline(always)]
pub(crate) fn choose_bytes(lanes: u8x64, set: &[u8; 64], clear: &[u8; 64]) -> [u8; 64]
    requires { length lanes ≡ 64 }
    ensures { AreChosen lanes set.now clear.now result }
{
    lanes
        .simd_eq(u8x64::splat(1))
        .select(u8x64::from_array(*set), u8x64::from_array(*clear))
        .to_array()
}

/// The depths of `set` where a lane is 1, and those of `clear` where it is not.
#[inline(always)]
pub(crate) fn choose_depths(lanes: u8x64, set: &[u16; 64], clear: &[u16; 64]) -> [u16; 64]
    requires { length lanes ≡ 64 }
    ensures { AreChosen lanes set.now clear.now result }
{
    lanes
        .cast::<u16>()
        .simd_eq(u16x64::splat(1))
        .select(u16x64::from_array(*set), u16x64::from_array(*clear))
        .to_array()
}
