//! Masks of the 64 pixels of a block in lanes, a lane for each pixel.
ghost use Rattle.std.specs.Prelude.{◌≡◌, ℕ, ◌/◌, ◌<◌, length, slice_index};
ghost use Rattle.std.specs.Int.{bit_at};

use std::simd::prelude::*;

/// A byte of each row in the lanes of the row's pixels.
#[inline(always)]
pub(crate) fn lanes_of_rows(rows: u8x8) -> u8x64
    requires { length rows ≡ 8 }
    ensures whole { length result ≡ 64 }
    ensures each { (p : ℕ) → p < 64 → slice_index result p ≡ slice_index rows (p / 8) }
{
    rows.shuffle(
        rows,
        [
            0, 0, 0, 0, 0, 0, 0, 0, 1, 1, 1, 1, 1, 1, 1, 1, 2, 2, 2, 2, 2, 2, 2, 2, 3, 3, 3, 3, 3,
            3, 3, 3, 4, 4, 4, 4, 4, 4, 4, 4, 5, 5, 5, 5, 5, 5, 5, 5, 6, 6, 6, 6, 6, 6, 6, 6, 7, 7,
            7, 7, 7, 7, 7, 7,
        ],
    )
}

/// The bits of a mask, each in the lane of its pixel.
#[inline(always)]
pub(crate) fn lanes_of_mask(mask: u64) -> u8x64
    ensures whole { length result ≡ 64 }
    ensures each { (p : ℕ) → p < 64 → slice_index result p ≡ bit_at mask p }
{
    let rows = u8x8::from_array(mask.to_le_bytes());
    let each = lanes_of_rows(rows);
    let powers = u8x64::from_array([
        1, 2, 4, 8, 16, 32, 64, 128, 1, 2, 4, 8, 16, 32, 64, 128, 1, 2, 4, 8, 16, 32, 64, 128, 1,
        2, 4, 8, 16, 32, 64, 128, 1, 2, 4, 8, 16, 32, 64, 128, 1, 2, 4, 8, 16, 32, 64, 128, 1, 2,
        4, 8, 16, 32, 64, 128, 1, 2, 4, 8, 16, 32, 64, 128,
    ]);
    (each & powers)
        .simd_ne(u8x64::splat(0))
        .select(u8x64::splat(1), u8x64::splat(0))
}
