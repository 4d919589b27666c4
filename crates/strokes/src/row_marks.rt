//! Marks in a row of samples: bits in the masks of its blocks.
ghost use Rattle.std.specs.Prelude.{◌≡◌, ◌⊎◌, ◌↔◌, ℕ, ◌+◌, ◌-◌, ◌*◌, ◌/◌, ◌%◌, ◌^◌, ◌<◌, ◌≤◌, min, length, slice_index, bit_or, pos};
ghost use Rattle.std.specs.Int.{bit_at, int_max, int_min};
ghost use Rattle.polygons.specs.ManyRows.{row_of};
ghost use Rattle.strokes.specs.Marking.{IsMarkedAt};

use polygons::Flags;

/// How many of the eight columns of a block are before a column.
#[inline(always)]
fn columns_before(column: usize, block: usize) -> usize
    requires { block < 512 }
    ensures { result ≡ min (column - 8 * block) 8 }
{
    column.saturating_sub(8 * block).min(8)
}

/// The bits from `low` to before `high`.
#[inline(always)]
fn bits_between(low: usize, high: usize) -> u64
    requires order { low ≤ high }
    requires high { high ≤ 64 }
    ensures { result ≡ 2 ^ high - 2 ^ low }
{
    let above = 1u128 << high;
    let below = 1u128 << low;
    (above - below) as u64
}

/// The bits of the columns from `first` to before `end` in a row of a block.
#[inline(always)]
fn row_bits(first: usize, end: usize, block: usize, row: usize) -> u64
    requires order { first ≤ end }
    requires block { block < 512 }
    ensures { (r j : ℕ) → r < 8 → j < 8 →
        (bit_at result (8 * r + j) ≡ 1) ↔ ((r ≡ row % 8) × (first ≤ 8 * block + j) × (8 * block + j < end)) }
{
    let start = 8 * (row % 8);
    bits_between(
        start + columns_before(first, block),
        start + columns_before(end, block),
    )
}

/// Sets these bits of a word of a column.
#[inline(always)]
fn set_bits(flags: &mut [Flags], column: usize, word: usize, bits: u64)
    requires column { column < length flags.old }
    requires word { word < 32 }
    ensures len { length flags.new ≡ length flags.old }
    ensures here { slice_index (row_of flags.new column) word ≡
        bit_or (slice_index (row_of flags.old column) word) bits }
    ensures others { (c w : ℕ) → (c ≡ column → w ≡ word → ⊥) →
        slice_index (row_of flags.new c) w ≡ slice_index (row_of flags.old c) w }
{
    flags[column][word] |= bits;
}

/// A column of a row of samples: one left of the row counts as the first, and one right of it as the one behind the last.
pub(crate) fn in_row(column: i64, columns: usize) -> usize
    requires { columns ≤ 4096 }
    ensures small { result ≤ columns }
    ensures value { pos result ≡ int_min (int_max column (pos 0)) (pos columns) }
{
    column.max(0).min(columns as i64) as usize
}

/// Marks a sample of each pixel of a row from the column `first` to before `end`.
pub(crate) fn mark_columns(
    flags: &mut [Flags],
    columns: usize,
    s: usize,
    row: usize,
    first: usize,
    end: usize,
)
    requires room { s / 4 * columns + columns ≤ length flags.old }
    requires narrow { columns ≤ 512 }
    requires row { row < 64 }
    requires end { end ≤ 8 * columns }
    ensures len { length flags.new ≡ length flags.old }
    ensures bits { (t j k : ℕ) → k < 8 * columns → IsMarkedAt flags.new columns t j k ↔
        (IsMarkedAt flags.old columns t j k ⊎ ((t ≡ s) × (j ≡ row) × (first ≤ k) × (k < end))) }
{
    if end <= first {
        return;
    }
    for block in first / 8..end.div_ceil(8) {
        let column = s / 4 * columns + block;
        let bits = row_bits(first, end, block, row);
        set_bits(flags, column, 4 * (row / 8) + s % 4, bits);
    }
}
