//! The sums of rows of which each has one flag at most. Up to the flag the sum of a row is what it was before, and from
//! the flag on it is another number.
ghost use Rattle.std.specs.Prelude.{◌≡◌, ◌↔◌, ℕ, ◌*◌, ◌<◌, length, slice_index, IsTrue};
ghost use Rattle.polygons.specs.Summing.{nonzero_bit};
ghost use Rattle.polygons.specs.FourSums.{HasOneFlagAtMost, AreSmall, AreRowsSummed};

use crate::four_sums::{bytes_of, lowered};
use std::simd::prelude::*;

/// Whether each row has one flag at most.
#[inline(always)]
pub(crate) fn are_lone(downs: u8x32, ups: u8x32) -> bool
    requires downs { length downs ≡ 32 }
    requires ups { length ups ≡ 32 }
    ensures { IsTrue result ↔ ((row : ℕ) → row < 32 → HasOneFlagAtMost (slice_index downs row) (slice_index ups row)) }
{
    let some = downs | ups;
    let further = (some & (some - u8x32::splat(1))) | (downs & ups);
    further.simd_ne(u8x32::splat(0)).to_bitmask() == 0
}

/// All bits of each lane that is other than 0.
#[inline(always)]
fn nonzero_lanes(lanes: u8x32) -> u8x32
    requires { length lanes ≡ 32 }
    ensures whole { length result ≡ 32 }
    ensures each { (row : ℕ) → row < 32 → slice_index result row ≡ 255 * nonzero_bit (slice_index lanes row) }
{
    lanes
        .simd_ne(u8x32::splat(0))
        .select(u8x32::splat(255), u8x32::splat(0))
}

/// The masks of 32 rows of eight cells, and the sums at their ends.
#[inline(always)]
pub(crate) fn sum_lone(downs: u8x32, ups: u8x32, sums: u32x32) -> (u8x32, u32x32)
    requires downs { length downs ≡ 32 }
    requires ups { length ups ≡ 32 }
    requires sums { length sums ≡ 32 }
    requires lone { (row : ℕ) → row < 32 → HasOneFlagAtMost (slice_index downs row) (slice_index ups row) }
    requires small { AreSmall sums }
    ensures { AreRowsSummed downs ups sums result.0 result.1 }
{
    let starts = bytes_of(sums);
    let ends = (starts - nonzero_lanes(downs)) + nonzero_lanes(ups);
    let from_flag = u8x32::splat(0) - (downs | ups);
    let before = nonzero_lanes(starts);
    let behind = nonzero_lanes(ends);
    let rows = before ^ ((before ^ behind) & from_flag);
    (rows, lowered(ends + u8x32::splat(16)))
}
