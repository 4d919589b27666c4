//! Numbers from 0 to 31 in planes of bits, so that a few operations of bits add all of them at once.
ghost use Rattle.std.specs.Prelude.{◌≡◌, ℕ, ◌+◌, ◌-◌, ◌*◌, ◌%◌, ◌<◌, ◌==◌, ltb, cond, length, slice_index};
ghost use Rattle.std.specs.Int.{bit_at};
ghost use Rattle.polygons.specs.Summing.{run, nonzero_bit};
ghost use Rattle.polygons.specs.BitPlanes.{AreWhole, cell_number};

use std::simd::prelude::*;

/// The numbers of the cells of 32 rows of 8. Each plane has one bit of every number, and a lane for each row.
#[derive(Clone, Copy, Debug)]
pub(crate) struct BitPlanes {
    pub ones: u8x32,
    pub twos: u8x32,
    pub fours: u8x32,
    pub eights: u8x32,
    pub sixteens: u8x32,
}

/// The sums of two bits and a carry: the bits of the sums, and the next carries.
#[inline(always)]
fn add_bits(x: u8x32, y: u8x32, carry: u8x32) -> (u8x32, u8x32)
    requires x { length x ≡ 32 }
    requires y { length y ≡ 32 }
    requires carry { length carry ≡ 32 }
    ensures bits { length result.0 ≡ 32 }
    ensures carries { length result.1 ≡ 32 }
    ensures each { (row i : ℕ) → row < 32 →
        bit_at (slice_index result.0 row) i + 2 * bit_at (slice_index result.1 row) i ≡
        bit_at (slice_index x row) i + bit_at (slice_index y row) i + bit_at (slice_index carry row) i }
{
    let half = x ^ y;
    (half ^ carry, (x & y) | (half & carry))
}

/// The sums of the numbers of two cells each, modulo 32.
#[inline(always)]
pub(crate) fn add(x: BitPlanes, y: BitPlanes) -> BitPlanes
    requires x { AreWhole x }
    requires y { AreWhole y }
    ensures whole { AreWhole result }
    ensures each { (row i : ℕ) → row < 32 → cell_number result row i ≡ (cell_number x row i + cell_number y row i) % 32 }
{
    let (ones, carry) = add_bits(x.ones, y.ones, u8x32::splat(0));
    let (twos, carry) = add_bits(x.twos, y.twos, carry);
    let (fours, carry) = add_bits(x.fours, y.fours, carry);
    let (eights, carry) = add_bits(x.eights, y.eights, carry);
    let (sixteens, _) = add_bits(x.sixteens, y.sixteens, carry);
    BitPlanes {
        ones,
        twos,
        fours,
        eights,
        sixteens,
    }
}

/// The bits of each row, moved on by some columns, behind zeros.
#[inline(always)]
fn moved_bits(bits: u8x32, by: u8) -> u8x32
    requires whole { length bits ≡ 32 }
    requires by { by < 8 }
    ensures whole { length result ≡ 32 }
    ensures each { (row j : ℕ) → row < 32 → j < 8 →
        bit_at (slice_index result row) j ≡ cond (ltb j by) 0 (bit_at (slice_index bits row) (j - by)) }
{
    bits << u8x32::splat(by)
}

/// The numbers of each row, moved on by some columns, behind zeros.
#[inline(always)]
fn moved(planes: BitPlanes, by: u8) -> BitPlanes
    requires whole { AreWhole planes }
    requires by { by < 8 }
    ensures whole { AreWhole result }
    ensures each { (row j : ℕ) → row < 32 → j < 8 →
        cell_number result row j ≡ cond (ltb j by) 0 (cell_number planes row (j - by)) }
{
    BitPlanes {
        ones: moved_bits(planes.ones, by),
        twos: moved_bits(planes.twos, by),
        fours: moved_bits(planes.fours, by),
        eights: moved_bits(planes.eights, by),
        sixteens: moved_bits(planes.sixteens, by),
    }
}

/// The sums of the numbers of each row up to each cell, modulo 32.
#[inline(always)]
pub(crate) fn sum_rows(numbers: BitPlanes) -> BitPlanes
    requires { AreWhole numbers }
    ensures whole { AreWhole result }
    ensures each { (row j : ℕ) → row < 32 → j < 8 →
        cell_number result row j ≡ run (cell_number numbers row) 0 0 (j + 1) % 32 }
{
    let two = add(numbers, moved(numbers, 1));
    let four = add(two, moved(two, 2));
    add(four, moved(four, 4))
}

/// A bit for each cell whose number is other than 0.
#[inline(always)]
pub(crate) fn nonzero(planes: BitPlanes) -> u8x32
    requires { AreWhole planes }
    ensures whole { length result ≡ 32 }
    ensures each { (row i : ℕ) → row < 32 →
        bit_at (slice_index result row) i ≡ nonzero_bit (cell_number planes row i) }
{
    planes.ones | planes.twos | planes.fours | planes.eights | planes.sixteens
}
