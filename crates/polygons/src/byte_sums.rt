//! The sums of a word's rows in lanes of a byte, one for each cell, if the sums before are from -64 to 63 and the numbers
//! of cells from -8 to 8. Then each sum of up to eight of these is from -128 to 127, and what it is modulo 256 says which.
ghost use Rattle.std.specs.Prelude.{◌≡◌, ◌↔◌, ℕ, ◌+◌, ◌-◌, ◌*◌, ◌/◌, ◌%◌, ◌^◌, ◌<◌, ◌≤◌, ◌==◌, ltb, cond, length, slice_index, IsTrue, IsSome, IfSome, IfNone};
ghost use Rattle.polygons.specs.Cells.{in_use};
ghost use Rattle.polygons.specs.Summing.{run, number_in, AreInBytes, IsSummed};
ghost use Rattle.std.specs.Int.{bit_at};

use crate::cells::Counters;
use crate::marks::Marks;
use crate::mask_lanes::{lanes_of_mask, lanes_of_rows};
use std::simd::prelude::*;

/// The sums of a column's rows: of each of its words eight.
pub(crate) type Sums = [u32; 256];

/// The lanes of each row, moved on by some lanes, behind zeros.
#[inline(always)]
fn moved(lanes: u8x64, by: u64) -> u8x64
    requires whole { length lanes ≡ 64 }
    requires by { by < 8 }
    ensures whole { length result ≡ 64 }
    ensures each { (r j : ℕ) → r < 8 → j < 8 →
        slice_index result (8 * r + j) ≡ cond (ltb j by) 0 (slice_index lanes (8 * r + (j - by))) }
{
    (u64x8::from_le_bytes(lanes) << u64x8::splat(8 * by)).to_le_bytes()
}

/// The sums of the numbers of each row up to each lane, modulo 256.
#[inline(always)]
fn sum_rows(numbers: u8x64) -> u8x64
    requires { length numbers ≡ 64 }
    ensures whole { length result ≡ 64 }
    ensures each { (r j : ℕ) → r < 8 → j < 8 →
        slice_index result (8 * r + j) ≡ run (slice_index numbers) (8 * r) 0 (j + 1) % 256 }
{
    let two = numbers + moved(numbers, 1);
    let four = two + moved(two, 2);
    four + moved(four, 4)
}

/// The counter of cell `i` of a word modulo 256, if it is from -7 to 7.
#[inline(always)]
fn counter_byte(counters: &Counters, word: usize, i: usize) -> Option<u8>
    requires word { word < 32 }
    requires bit { i < 64 }
    ensures some { IsSome result ↔ ((slice_index counters.now (64 * word + i) + 7) % 2 ^ 32 ≤ 14) }
    ensures value { IfSome result (λ byte. byte ≡ slice_index counters.now (64 * word + i) % 256) }
{
    let counter = counters[64 * word + i];
    if counter.wrapping_add(7) > 14 {
        return None;
    }
    Some((counter & 255) as u8)
}

/// The counters in use of a word modulo 256, if each is from -7 to 7. The bytes of other cells are 0.
#[inline(always)]
fn counter_bytes(more: u64, counters: &Counters, word: usize) -> Option<[u8; 64]>
    requires { word < 32 }
    ensures some { IsSome result ↔ ((i : ℕ) → i < 64 →
        (in_use (bit_at more i) (slice_index counters.now (64 * word + i)) + 7) % 2 ^ 32 ≤ 14) }
    ensures value { IfSome result (AreInBytes 7 (λ i. in_use (bit_at more i) (slice_index counters.now (64 * word + i)))) }
{
    let mut bytes = [0; 64];
    let mut done = 0;
    let mut left = more;
    while left != 0 {
        let skipped = left.trailing_zeros();
        let i = done + skipped as usize;
        bytes[i] = counter_byte(counters, word, i)?;
        done = i + 1;
        left = (left >> skipped) >> 1;
    }
    Some(bytes)
}

/// The first flag of each cell of a word less its second one, modulo 256.
#[inline(always)]
fn firsts(marks: Marks) -> u8x64
    ensures { AreInBytes 1 (λ i. bit_at marks.downs i + 4294967295 * bit_at marks.ups i) result }
{
    lanes_of_mask(marks.downs) - lanes_of_mask(marks.ups)
}

/// The numbers of cells modulo 256: what their flags say and their counters.
#[inline(always)]
fn with_counters(firsts: u8x64, bytes: &[u8; 64]) -> u8x64
    requires { length firsts ≡ 64 }
    ensures { (f g : ℕ → ℕ) → AreInBytes 1 f firsts → AreInBytes 7 g bytes.now → AreInBytes 8 (λ i. f i + g i) result }
{
    firsts + u8x64::from_array(*bytes)
}

/// The sums of a word's rows.
#[inline(always)]
fn sums_of(sums: &Sums, word: usize) -> u32x8
    requires { word < 32 }
    ensures whole { length result ≡ 8 }
    ensures each { (r : ℕ) → r < 8 → slice_index result r ≡ slice_index sums.now (8 * word + r) }
{
    u32x8::from_slice(&sums[8 * word..8 * word + 8])
}

/// Whether each of eight sums is from -64 to 63.
#[inline(always)]
fn are_small(sums: u32x8) -> bool
    requires { length sums ≡ 8 }
    ensures { IsTrue result ↔ ((r : ℕ) → r < 8 → (slice_index sums r + 64) % 2 ^ 32 < 128) }
{
    (sums + u32x8::splat(64))
        .simd_ge(u32x8::splat(128))
        .to_bitmask()
        == 0
}

/// The sums of eight rows in the lanes of their cells, each 128 more, so that none is negative.
#[inline(always)]
fn starts(sums: u32x8) -> u8x64
    requires whole { length sums ≡ 8 }
    requires small { (r : ℕ) → r < 8 → (slice_index sums r + 64) % 2 ^ 32 < 128 }
    ensures whole { length result ≡ 64 }
    ensures each { (r j : ℕ) → r < 8 → j < 8 → slice_index result (8 * r + j) ≡ (slice_index sums r + 128) % 256 }
{
    lanes_of_rows((sums + u32x8::splat(64)).cast::<u8>() + u8x8::splat(64))
}

/// The sums of the rows up to each cell, each 128 more, by the sums before and the numbers of the cells.
#[inline(always)]
fn sum_cells(numbers: u8x64, sums: u32x8) -> u8x64
    requires numbers { length numbers ≡ 64 }
    requires sums { length sums ≡ 8 }
    requires small { (r : ℕ) → r < 8 → (slice_index sums r + 64) % 2 ^ 32 < 128 }
    ensures whole { length result ≡ 64 }
    ensures each { (f : ℕ → ℕ) (r j : ℕ) → AreInBytes 8 f numbers → r < 8 → j < 8 →
        slice_index result (8 * r + j) ≡ (run f (8 * r) (slice_index sums r) (j + 1) + 128) % 2 ^ 32 }
{
    sum_rows(numbers) + starts(sums)
}

/// Sets the sums of a word's rows to those of their last lanes, each 128 less.
#[inline(always)]
fn set_sums(sums: &mut Sums, word: usize, lanes: u8x64)
    requires word { word < 32 }
    requires lanes { length lanes ≡ 64 }
    ensures next { (r : ℕ) → r < 8 →
        slice_index sums.new (8 * word + r) ≡ (slice_index lanes (8 * r + 7) + 4294967168) % 2 ^ 32 }
    ensures other_sums { (q : ℕ) → (q / 8 ≡ word → ⊥) → slice_index sums.new q ≡ slice_index sums.old q }
{
    let last = lanes.shuffle(lanes, [7, 15, 23, 31, 39, 47, 55, 63]);
    (last.cast::<u32>() - u32x8::splat(128)).copy_to_slice(&mut sums[8 * word..8 * word + 8]);
}

/// A bit for each lane that is other than 128.
#[inline(always)]
fn mask_of(lanes: u8x64) -> u64
    requires { length lanes ≡ 64 }
    ensures { (i : ℕ) → i < 64 → bit_at result i ≡ cond (slice_index lanes i == 128) 0 1 }
{
    lanes.simd_ne(u8x64::splat(128)).to_bitmask()
}

/// The mask of a word, and the sums at the ends of its rows, if the sums and the counters in use are small. Else nothing
/// changes.
#[inline(always)]
pub(crate) fn sum_bytes(
    marks: Marks,
    counters: &Counters,
    word: usize,
    sums: &mut Sums,
) -> Option<u64>
    requires { word < 32 }
    ensures some { IsSome result ↔ (((r : ℕ) → r < 8 → (slice_index sums.old (8 * word + r) + 64) % 2 ^ 32 < 128) ×
        ((i : ℕ) → i < 64 → (in_use (bit_at marks.more i) (slice_index counters.now (64 * word + i)) + 7) % 2 ^ 32 ≤ 14)) }
    ensures summed { IfSome result (IsSummed (number_in marks counters.now word) word sums.old sums.new) }
    ensures same { IfNone result (sums.new ≡ sums.old) }
{
    let old = sums_of(sums, word);
    if !are_small(old) {
        return None;
    }
    let mut numbers = firsts(marks);
    if marks.more != 0 {
        let bytes = counter_bytes(marks.more, counters, word)?;
        numbers = with_counters(numbers, &bytes);
    }
    let lanes = sum_cells(numbers, old);
    set_sums(sums, word, lanes);
    Some(mask_of(lanes))
}
