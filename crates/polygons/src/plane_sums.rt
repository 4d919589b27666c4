//! The sums of rows in planes of bits. Each is from -16 to 15, and what it is modulo 32 says which.
ghost use Rattle.std.specs.Prelude.{◌≡◌, ℕ, ◌+◌, ◌*◌, ◌%◌, ◌^◌, ◌<◌, length, slice_index};
ghost use Rattle.std.specs.Int.{bit_at};
ghost use Rattle.polygons.specs.Summing.{run};
ghost use Rattle.polygons.specs.FourSums.{first_number, AreSmall, AreRowsSummed};
ghost use Rattle.polygons.specs.BitPlanes.{AreWhole, cell_number};

use crate::bit_planes::{BitPlanes, add, nonzero, sum_rows};
use crate::four_sums::{bytes_of, lowered};
use std::simd::prelude::*;

/// One bit of each lane, as the lowest.
#[inline(always)]
fn bit(lanes: u8x32, i: u8) -> u8x32
    requires whole { length lanes ≡ 32 }
    requires bit { i < 8 }
    ensures whole { length result ≡ 32 }
    ensures each { (row : ℕ) → row < 32 → slice_index result row ≡ bit_at (slice_index lanes row) i }
{
    (lanes >> u8x32::splat(i)) & u8x32::splat(1)
}

/// The sums of 32 rows as numbers of their first cells, modulo 32, with 0 in the other cells.
#[inline(always)]
fn starts(sums: u32x32) -> BitPlanes
    requires { length sums ≡ 32 }
    ensures whole { AreWhole result }
    ensures first { (row : ℕ) → row < 32 → cell_number result row 0 ≡ slice_index sums row % 32 }
    ensures others { (row j : ℕ) → row < 32 → 0 < j → cell_number result row j ≡ 0 }
{
    let bytes = bytes_of(sums);
    BitPlanes {
        ones: bit(bytes, 0),
        twos: bit(bytes, 1),
        fours: bit(bytes, 2),
        eights: bit(bytes, 3),
        sixteens: bit(bytes, 4),
    }
}

/// The numbers of cells, modulo 32: their first flags less their second ones.
#[inline(always)]
fn numbers(downs: u8x32, ups: u8x32) -> BitPlanes
    requires downs { length downs ≡ 32 }
    requires ups { length ups ≡ 32 }
    ensures whole { AreWhole result }
    ensures each { (row j : ℕ) → row < 32 → cell_number result row j ≡
        (bit_at (slice_index downs row) j + 31 * bit_at (slice_index ups row) j) % 32 }
{
    let some = downs ^ ups;
    let negative = some & ups;
    BitPlanes {
        ones: some,
        twos: negative,
        fours: negative,
        eights: negative,
        sixteens: negative,
    }
}

/// The numbers of the last cells of rows, from -16 to 15 by what they are modulo 32.
#[inline(always)]
fn ends(planes: BitPlanes) -> u32x32
    requires { AreWhole planes }
    ensures whole { length result ≡ 32 }
    ensures each { (row : ℕ) → row < 32 →
        slice_index result row ≡ ((cell_number planes row 7 + 16) % 32 + 4294967280) % 2 ^ 32 }
{
    let twos = bit(planes.twos, 7);
    let fours = bit(planes.fours, 7);
    let eights = bit(planes.eights, 7);
    let sixteens = bit(planes.sixteens, 7);
    let low = bit(planes.ones, 7)
        + (twos << u8x32::splat(1))
        + (fours << u8x32::splat(2))
        + (eights << u8x32::splat(3));
    let raised = low + (u8x32::splat(16) - (sixteens << u8x32::splat(4)));
    lowered(raised)
}

/// The sums of the rows up to each cell, modulo 32, by the sums before and the flags.
#[inline(always)]
fn sum_cells(downs: u8x32, ups: u8x32, sums: u32x32) -> BitPlanes
    requires downs { length downs ≡ 32 }
    requires ups { length ups ≡ 32 }
    requires sums { length sums ≡ 32 }
    ensures whole { AreWhole result }
    ensures each { (row j : ℕ) → row < 32 → j < 8 → cell_number result row j ≡
        run (first_number (slice_index downs row) (slice_index ups row)) 0 (slice_index sums row) (j + 1) % 32 }
{
    sum_rows(add(numbers(downs, ups), starts(sums)))
}

/// The masks of 32 rows of eight cells, and the sums at their ends.
#[inline(always)]
pub(crate) fn sum_planes(downs: u8x32, ups: u8x32, sums: u32x32) -> (u8x32, u32x32)
    requires downs { length downs ≡ 32 }
    requires ups { length ups ≡ 32 }
    requires sums { length sums ≡ 32 }
    requires small { AreSmall sums }
    ensures { AreRowsSummed downs ups sums result.0 result.1 }
{
    let cells = sum_cells(downs, ups, sums);
    (nonzero(cells), ends(cells))
}
