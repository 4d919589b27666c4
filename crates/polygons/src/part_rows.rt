//! An edge in one row of pixels, as the samples of a part count it: four at once in lanes if their flags lie in
//! neighbouring words.
ghost use Rattle.std.specs.Prelude.{◌≡◌, ◌↔◌, ℕ, ◌+◌, ◌*◌, ◌/◌, ◌%◌, ◌^◌, ◌<◌, ◌≤◌, pos, ◌≤ℤ◌, ◌<ℤ◌, IsTrue, IsFalse, length, slice_index, slice_index_or, bit_and};
ghost use Rattle.std.specs.Int.{int_max};
ghost use Rattle.polygons.specs.declared.rule.Rule.TheVariants.{NonZero};
ghost use Rattle.polygons.specs.Cells.{bit_in_block, HasCounters};
ghost use Rattle.polygons.specs.Plotting.{AreNearColumns, HasRow, IsRowCounted};
ghost use Rattle.polygons.specs.Short.{AreNearRows};

use crate::cells::{Counters, Flags, columns_of, cross, flag_column};
use crate::four_words::{four_of, set_four};
use crate::rule::Rule;
use std::simd::prelude::*;

/// Whether a row is one of those from `from` to before `to`.
#[inline(always)]
fn is_between(row: usize, from: i32, to: i32) -> bool
    requires { row < 64 }
    ensures { IsTrue result ↔ ((from ≤ℤ pos row) × (pos row <ℤ to)) }
{
    from <= row as i32 && (row as i32) < to
}

/// 1 in the lane of each of four samples whose rows hold this one, else 0.
#[inline(always)]
fn are_between(row: usize, from: &[i32; 4], to: &[i32; 4]) -> u64x4
    requires row { row < 64 }
    requires from { AreNearRows from.now }
    requires to { AreNearRows to.now }
    ensures whole { length result ≡ 4 }
    ensures each { (s : ℕ) → s < 4 → slice_index result s < 2 }
    ensures rows { (s : ℕ) → s < 4 → (slice_index result s ≡ 1) ↔ HasRow from.now to.now row s }
{
    let from = i64x4::from_array([
        i64::from(from[0]),
        i64::from(from[1]),
        i64::from(from[2]),
        i64::from(from[3]),
    ]);
    let to = i64x4::from_array([
        i64::from(to[0]),
        i64::from(to[1]),
        i64::from(to[2]),
        i64::from(to[3]),
    ]);
    let row = i64x4::splat(row as i64);
    let before = row.simd_lt(to).select(u64x4::splat(1), u64x4::splat(0));
    row.simd_lt(from).select(u64x4::splat(0), before)
}

/// The columns of four samples in the strip.
#[inline(always)]
fn four_in_strip(columns: &[i64; 4]) -> u64x4
    requires { AreNearColumns columns.now }
    ensures whole { length result ≡ 4 }
    ensures each { (s : ℕ) → s < 4 →
        pos (slice_index result s) ≡ int_max (slice_index_or columns.now s (pos 0)) (pos 0) }
{
    let columns = i64x4::from_array(*columns);
    columns
        .simd_lt(i64x4::splat(0))
        .select(i64x4::splat(0), columns)
        .cast::<u64>()
}

/// Whether the columns of four samples lie in a column of blocks.
#[inline(always)]
fn are_in(columns: u64x4, block: u64) -> bool
    requires { length columns ≡ 4 }
    ensures { IsTrue result ↔ ((s : ℕ) → s < 4 → slice_index columns s / 8 ≡ block) }
{
    (columns >> u64x4::splat(3))
        .simd_ne(u64x4::splat(block))
        .to_bitmask()
        == 0
}

/// Of each of four samples the bit of its pixel in the pixel's block, if the sample is crossed, else 0.
#[inline(always)]
fn pixel_bits(row: usize, columns: u64x4, crossed: u64x4) -> u64x4
    requires row { row < 64 }
    requires columns { length columns ≡ 4 }
    requires crossed { length crossed ≡ 4 }
    requires each { (s : ℕ) → s < 4 → slice_index crossed s < 2 }
    ensures whole { length result ≡ 4 }
    ensures crossed { (s : ℕ) → s < 4 → slice_index crossed s ≡ 1 →
        slice_index result s ≡ 2 ^ bit_in_block row (slice_index columns s) }
    ensures apart { (s : ℕ) → s < 4 → slice_index crossed s ≡ 0 → slice_index result s ≡ 0 }
{
    let first = 8 * (row as u64 % 8);
    crossed << (u64x4::splat(first) + (columns & u64x4::splat(7)))
}

/// Whether four samples count an edge by flipping these bits of their words: always by the even-odd rule, and by the
/// nonzero rule if none of them is set.
#[inline(always)]
pub(crate) fn can_flip(rule: Rule, words: u64x4, bits: u64x4) -> bool
    requires words { length words ≡ 4 }
    requires bits { length bits ≡ 4 }
    ensures { IsTrue result ↔
        (rule ≡ NonZero → (s : ℕ) → s < 4 → bit_and (slice_index words s) (slice_index bits s) ≡ 0) }
{
    match rule {
        Rule::EvenOdd => true,
        Rule::NonZero => (words & bits).simd_ne(u64x4::splat(0)).to_bitmask() == 0,
    }
}

/// Counts an edge in a row by four samples at once, if their columns lie in one column of blocks and their flags can be
/// flipped. Returns whether it is counted. The words of the four lie side by side.
#[inline(always)]
fn cross_four(
    flags: &mut [Flags],
    counters: &[Counters],
    rule: Rule,
    row: usize,
    columns: &[i64; 4],
    from: &[i32; 4],
    to: &[i32; 4],
    down: bool,
) -> bool
    requires row { row < 64 }
    requires counters { HasCounters rule flags.old counters.now }
    requires columns { AreNearColumns columns.now }
    requires from { AreNearRows from.now }
    requires to { AreNearRows to.now }
    ensures counted { IsTrue result → IsRowCounted rule 4 row columns.now from.now to.now down flags.old counters.now
        flags.new counters.now }
    ensures unchanged { IsFalse result → flags.new ≡ flags.old }
{
    let columns = four_in_strip(columns);
    let block = columns.to_array()[0] / 8;
    if !are_in(columns, block) {
        return false;
    }
    let column = block as usize;
    if column >= columns_of(rule, flags, counters) {
        return true;
    }
    let bits = pixel_bits(row, columns, are_between(row, from, to));
    let words = &mut flags[flag_column(rule, column, counters.len(), down)];
    let four = four_of(words, row / 8);
    if !can_flip(rule, four, bits) {
        return false;
    }
    set_four(words, row / 8, four ^ bits);
    true
}

/// Counts an edge in a row by the first samples of a part, one after another.
#[inline(always)]
fn cross_each<const SIZE: usize>(
    flags: &mut [Flags],
    counters: &mut [Counters],
    rule: Rule,
    row: usize,
    columns: &[i64; 4],
    from: &[i32; 4],
    to: &[i32; 4],
    down: bool,
)
    requires size { SIZE ≤ 4 }
    requires row { row < 64 }
    requires counters { HasCounters rule flags.old counters.old }
    requires columns { AreNearColumns columns.now }
    requires from { AreNearRows from.now }
    requires to { AreNearRows to.now }
    ensures { IsRowCounted rule SIZE row columns.now from.now to.now down flags.old counters.old flags.new counters.new }
{
    for s in 0..SIZE {
        if is_between(row, from[s], to[s]) {
            cross(flags, counters, rule, s, row, columns[s], down);
        }
    }
}

/// Counts an edge in a row by four samples, one after another. Few rows need it.
#[inline(never)]
fn cross_each_of_four(
    flags: &mut [Flags],
    counters: &mut [Counters],
    rule: Rule,
    row: usize,
    columns: &[i64; 4],
    from: &[i32; 4],
    to: &[i32; 4],
    down: bool,
)
    requires row { row < 64 }
    requires counters { HasCounters rule flags.old counters.old }
    requires columns { AreNearColumns columns.now }
    requires from { AreNearRows from.now }
    requires to { AreNearRows to.now }
    ensures { IsRowCounted rule 4 row columns.now from.now to.now down flags.old counters.old flags.new counters.new }
{
    cross_each::<4>(flags, counters, rule, row, columns, from, to, down);
}

/// Counts an edge in a row by those samples of a part whose rows, from one to before another, hold it: each from its
/// column on, downwards or upwards.
#[inline(always)]
pub(crate) fn cross_row<const SIZE: usize>(
    flags: &mut [Flags],
    counters: &mut [Counters],
    rule: Rule,
    row: usize,
    columns: &[i64; 4],
    from: &[i32; 4],
    to: &[i32; 4],
    down: bool,
)
    requires size { SIZE ≤ 4 }
    requires row { row < 64 }
    requires counters { HasCounters rule flags.old counters.old }
    requires columns { AreNearColumns columns.now }
    requires from { AreNearRows from.now }
    requires to { AreNearRows to.now }
    ensures { IsRowCounted rule SIZE row columns.now from.now to.now down flags.old counters.old flags.new counters.new }
{
    if SIZE < 4 {
        cross_each::<SIZE>(flags, counters, rule, row, columns, from, to, down);
    } else if !cross_four(flags, counters, rule, row, columns, from, to, down) {
        // Copies, so that those of a loop over rows stay in registers.
        let (columns, from, to) = (*columns, *from, *to);
        cross_each_of_four(flags, counters, rule, row, &columns, &from, &to, down);
    }
}
