//! The sums of the rows of four words, if no counter is in use and the sums before are from -8 to 7. The number of a cell
//! is from -1 to 1 then, and each sum of up to eight of these is from -16 to 15.
ghost use Rattle.std.specs.Prelude.{◌≡◌, ◌↔◌, ℕ, ◌+◌, ◌*◌, ◌/◌, ◌%◌, ◌^◌, ◌<◌, length, slice_index, IsTrue};
ghost use Rattle.std.specs.Int.{bit_at};
ghost use Rattle.polygons.specs.FourSums.{first_number, AreSmall, AreRowsSummed, AreSummed};

use crate::byte_sums::Sums;
use crate::four_words::rows_of;
use crate::lone_flags::{are_lone, sum_lone};
use crate::plane_sums::sum_planes;
use std::simd::prelude::*;

/// The sums of the rows of four words.
#[inline(always)]
fn sums_of(sums: &Sums, row: usize) -> u32x32
    requires { row < 8 }
    ensures whole { length result ≡ 32 }
    ensures each { (q : ℕ) → q < 32 → slice_index result q ≡ slice_index sums.now (32 * row + q) }
{
    u32x32::from_slice(&sums[32 * row..32 * row + 32])
}

/// Sets the sums of the rows of four words.
#[inline(always)]
fn set_sums(sums: &mut Sums, row: usize, ends: u32x32)
    requires row { row < 8 }
    requires whole { length ends ≡ 32 }
    ensures set { (q : ℕ) → q < 32 → slice_index sums.new (32 * row + q) ≡ slice_index ends q }
    ensures others { (q : ℕ) → (q / 32 ≡ row → ⊥) → slice_index sums.new q ≡ slice_index sums.old q }
{
    ends.copy_to_slice(&mut sums[32 * row..32 * row + 32]);
}

/// Whether the sums of the rows of four words are from -8 to 7.
#[inline(always)]
pub(crate) fn are_small(sums: &Sums, row: usize) -> bool
    requires { row < 8 }
    ensures { IsTrue result ↔ ((q : ℕ) → q < 32 → (slice_index sums.now (32 * row + q) + 8) % 2 ^ 32 < 16) }
{
    (sums_of(sums, row) + u32x32::splat(8))
        .simd_ge(u32x32::splat(16))
        .to_bitmask()
        == 0
}

/// What sums are modulo 256.
#[inline(always)]
pub(crate) fn bytes_of(sums: u32x32) -> u8x32
    requires { length sums ≡ 32 }
    ensures whole { length result ≡ 32 }
    ensures each { (row : ℕ) → row < 32 → slice_index result row ≡ slice_index sums row % 256 }
{
    (sums & u32x32::splat(255)).cast::<u8>()
}

/// The sums that are 16 less than these bytes.
#[inline(always)]
pub(crate) fn lowered(raised: u8x32) -> u32x32
    requires { length raised ≡ 32 }
    ensures whole { length result ≡ 32 }
    ensures each { (row : ℕ) → row < 32 → slice_index result row ≡ (slice_index raised row + 4294967280) % 2 ^ 32 }
{
    raised.cast::<u32>() - u32x32::splat(16)
}

/// In each row all bits, if the last one is set.
#[inline(always)]
pub(crate) fn level_rows(rows: u8x32) -> u8x32
    requires { length rows ≡ 32 }
    ensures whole { length result ≡ 32 }
    ensures each { (q j : ℕ) → q < 32 → j < 8 → bit_at (slice_index result q) j ≡ bit_at (slice_index rows q) 7 }
{
    rows.simd_ge(u8x32::splat(128))
        .select(u8x32::splat(255), u8x32::splat(0))
}

/// The masks of 32 rows of eight cells, and the sums at their ends.
#[inline(always)]
fn sum_rows(downs: u8x32, ups: u8x32, sums: u32x32) -> (u8x32, u32x32)
    requires downs { length downs ≡ 32 }
    requires ups { length ups ≡ 32 }
    requires sums { length sums ≡ 32 }
    requires small { AreSmall sums }
    ensures { AreRowsSummed downs ups sums result.0 result.1 }
{
    if are_lone(downs, ups) {
        return sum_lone(downs, ups, sums);
    }
    sum_planes(downs, ups, sums)
}

/// The masks of four words without counters, by their rows, and the sums at the ends of these.
#[inline(always)]
pub(crate) fn sum_four(downs: u64x4, ups: u64x4, sums: &mut Sums, row: usize) -> u8x32
    requires row { row < 8 }
    requires downs { length downs ≡ 4 }
    requires ups { length ups ≡ 4 }
    requires small { (q : ℕ) → q < 32 → (slice_index sums.old (32 * row + q) + 8) % 2 ^ 32 < 16 }
    ensures whole { length result ≡ 32 }
    ensures summed { AreSummed (λ w. first_number (slice_index downs w) (slice_index ups w)) row sums.old sums.new result }
{
    let (rows, ends) = sum_rows(rows_of(downs), rows_of(ups), sums_of(sums, row));
    set_sums(sums, row, ends);
    rows
}
