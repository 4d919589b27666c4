//! From flags and counters to masks: each bit says whether the sum of the numbers of its row up to it is other than 0.
ghost use Rattle.std.specs.Prelude.{◌≡◌, ◌≢◌, ◌↔◌, ℕ, ◌+◌, ◌*◌, ◌/◌, ◌%◌, ◌^◌, ◌<◌, cond, pos, length, slice_index, ◌++◌};
ghost use Rattle.std.specs.Int.{bit_at};
ghost use Rattle.polygons.specs.Cells.{flag_of, running_sum, IsAlike, AreMarked, AreZeros, AreZerosFrom};
ghost use Rattle.polygons.specs.Summing.{run, number_in, marks_of_word, nonzero_bit, change_bit, change_at, IsLevelMask, HasFirstMarked, IsSummed};
ghost use Rattle.polygons.specs.declared.rule.Rule.TheVariants.{NonZero};

use crate::byte_rows::{fill_rows, last_column};
use crate::byte_sums::{Sums, sum_bytes};
use crate::cells::{Counters, Flags};
use crate::fill::no_carry;
use crate::four_sums::{are_small, level_rows, sum_four};
use crate::four_words::{are_zeros, four_of, set_four, words_of};
use crate::marks::Marks;
use std::simd::prelude::*;

/// 1 if one of the sums is 0 and the other is not, else 0.
#[inline(always)]
fn change(old: u32, new: u32) -> u64
    ensures { result ≡ change_bit old new }
{
    u64::from(old != 0) ^ u64::from(new != 0)
}

/// The number of cell `i` of a word: its first flag less its second, and its counter if that is in use.
#[inline(always)]
fn number(marks: Marks, counters: &Counters, word: usize, i: usize) -> u32
    requires word { word < 32 }
    requires bit { i < 64 }
    ensures { result ≡ number_in marks counters.now word i % 2 ^ 32 }
{
    let downs = (marks.downs >> i & 1) as u32;
    let ups = (marks.ups >> i & 1) as u32;
    let firsts = downs.wrapping_sub(ups);
    if marks.more >> i & 1 == 0 {
        return firsts;
    }
    firsts.wrapping_add(counters[64 * word + i])
}

/// Adds the number of cell `i` of a word to the sum of its row. Returns 1 if the sum was 0 and is no longer, or is 0 now
/// and was not, else 0.
#[inline(always)]
fn add_number(marks: Marks, counters: &Counters, word: usize, i: usize, sums: &mut Sums) -> u64
    requires word { word < 32 }
    requires bit { i < 64 }
    ensures change { result ≡
        change_bit (slice_index sums.old (8 * word + i / 8)) (slice_index sums.new (8 * word + i / 8)) }
    ensures sum { slice_index sums.new (8 * word + i / 8) ≡
        (slice_index sums.old (8 * word + i / 8) + number_in marks counters.now word i) % 2 ^ 32 }
    ensures other_sums { (q : ℕ) → q ≢ 8 * word + i / 8 → slice_index sums.new q ≡ slice_index sums.old q }
{
    let old = sums[8 * word + i / 8];
    let new = old.wrapping_add(number(marks, counters, word, i));
    sums[8 * word + i / 8] = new;
    change(old, new)
}

/// The flags of a word at which the sum of a row becomes 0 or another number again. The sums are those at the ends of
/// the rows afterwards.
#[inline(never)]
fn changes(marks: Marks, counters: &Counters, word: usize, sums: &mut Sums) -> u64
    requires word { word < 32 }
    requires marked { HasFirstMarked marks }
    ensures changes { (i : ℕ) → i < 64 → bit_at result i ≡ change_at (number_in marks counters.now word) word sums.old i }
    ensures next { (r : ℕ) → r < 8 → slice_index sums.new (8 * word + r) ≡
        run (number_in marks counters.now word) (8 * r) (slice_index sums.old (8 * word + r)) 8 }
    ensures other_sums { (q : ℕ) → (q / 8 ≡ word → ⊥) → slice_index sums.new q ≡ slice_index sums.old q }
{
    let mut changes = 0;
    let mut done = 0;
    let mut left = marks.firsts();
    while left != 0 {
        let skipped = left.trailing_zeros();
        let i = done + skipped as usize;
        changes |= add_number(marks, counters, word, i, sums) << i;
        done = i + 1;
        left = (left >> skipped) >> 1;
    }
    changes
}

/// The mask of a word, and the sums at the ends of its rows. `level` is its mask if it has no flags.
#[inline(always)]
fn sum_word(marks: Marks, counters: &Counters, word: usize, sums: &mut Sums, level: u64) -> u64
    requires word { word < 32 }
    requires marked { HasFirstMarked marks }
    requires level { IsLevelMask level word sums.old }
    ensures { IsSummed (number_in marks counters.now word) word sums.old sums.new result }
{
    if let Some(mask) = sum_bytes(marks, counters, word, sums) {
        return mask;
    }
    let changes = changes(marks, counters, word, sums);
    fill_rows(changes, last_column(level)).0
}

/// In each row of a word all bits, if the last one is set.
#[inline(always)]
fn level_of(mask: u64) -> u64
    ensures { (r j : ℕ) → r < 8 → j < 8 → bit_at result (8 * r + j) ≡ bit_at mask (8 * r + 7) }
{
    fill_rows(0, last_column(mask)).0
}

/// Makes the mask of a word, in place of its first flags, and the sums at the ends of its rows with the mask that the
/// next word has if it has no flags. `levels` has that of this word. Its other flags are 0 afterwards.
#[inline(always)]
fn sum_at(
    downs: &mut Flags,
    ups: &mut Flags,
    more: &mut Flags,
    counters: &Counters,
    word: usize,
    sums: &mut Sums,
    levels: &mut Flags,
)
    requires word { word < 32 }
    requires marked { HasFirstMarked (marks_of_word downs.old ups.old more.old word) }
    requires level { IsLevelMask (slice_index levels.old word) word sums.old }
    ensures bits { (r j : ℕ) → r < 8 → j < 8 → bit_at (slice_index downs.new word) (8 * r + j) ≡
        nonzero_bit (run (number_in (marks_of_word downs.old ups.old more.old word) counters.now word) (8 * r)
        (slice_index sums.old (8 * word + r)) (j + 1)) }
    ensures next { (r : ℕ) → r < 8 → slice_index sums.new (8 * word + r) ≡
        run (number_in (marks_of_word downs.old ups.old more.old word) counters.now word) (8 * r)
        (slice_index sums.old (8 * word + r)) 8 }
    ensures level { IsLevelMask (slice_index levels.new word) word sums.new }
    ensures clear { (slice_index ups.new word ≡ 0) × (slice_index more.new word ≡ 0) }
    ensures others { (i : ℕ) → (i ≡ word → ⊥) → (marks_of_word downs.new ups.new more.new i ≡
        marks_of_word downs.old ups.old more.old i) × (slice_index levels.new i ≡ slice_index levels.old i) }
    ensures other_sums { (q : ℕ) → (q / 8 ≡ word → ⊥) → slice_index sums.new q ≡ slice_index sums.old q }
{
    let marks = Marks {
        downs: downs[word],
        ups: ups[word],
        more: more[word],
    };
    if marks.firsts() == 0 {
        downs[word] = levels[word];
        return;
    }
    ups[word] = 0;
    more[word] = 0;
    let mask = sum_word(marks, counters, word, sums, levels[word]);
    downs[word] = mask;
    levels[word] = level_of(mask);
}

/// Makes the masks of the four words of a row of blocks, one by one.
#[inline(never)]
fn sum_each(
    downs: &mut Flags,
    ups: &mut Flags,
    more: &mut Flags,
    counters: &Counters,
    row: usize,
    sums: &mut Sums,
    levels: &mut Flags,
)
    requires row { row < 8 }
    requires marked { (i : ℕ) → i / 4 ≡ row → HasFirstMarked (marks_of_word downs.old ups.old more.old i) }
    requires levels { (i : ℕ) → i / 4 ≡ row → IsLevelMask (slice_index levels.old i) i sums.old }
    ensures levels { (i : ℕ) → i / 4 ≡ row → IsLevelMask (slice_index levels.new i) i sums.new }
    ensures bits { (i r j : ℕ) → i / 4 ≡ row → r < 8 → j < 8 → bit_at (slice_index downs.new i) (8 * r + j) ≡
        nonzero_bit (run (number_in (marks_of_word downs.old ups.old more.old i) counters.now i) (8 * r)
        (slice_index sums.old (8 * i + r)) (j + 1)) }
    ensures next { (i r : ℕ) → i / 4 ≡ row → r < 8 → slice_index sums.new (8 * i + r) ≡
        run (number_in (marks_of_word downs.old ups.old more.old i) counters.now i) (8 * r)
        (slice_index sums.old (8 * i + r)) 8 }
    ensures clear { (i : ℕ) → i / 4 ≡ row → (slice_index ups.new i ≡ 0) × (slice_index more.new i ≡ 0) }
    ensures others { (i : ℕ) → (i / 4 ≡ row → ⊥) → (marks_of_word downs.new ups.new more.new i ≡
        marks_of_word downs.old ups.old more.old i) × (slice_index levels.new i ≡ slice_index levels.old i) }
    ensures other_sums { (q : ℕ) → (q / 32 ≡ row → ⊥) → slice_index sums.new q ≡ slice_index sums.old q }
{
    for i in 4 * row..4 * row + 4 {
        sum_at(downs, ups, more, counters, i, sums, levels);
    }
}

/// Makes the masks of the four words of a row of blocks, in place of their first flags, and the sums at the ends of
/// their rows with the masks that the next words have if they have no flags. In many rows of blocks no word has one, and
/// in most others no counter is in use.
#[inline(always)]
fn sum_row(
    downs: &mut Flags,
    ups: &mut Flags,
    more: &mut Flags,
    counters: &Counters,
    row: usize,
    sums: &mut Sums,
    levels: &mut Flags,
)
    requires row { row < 8 }
    requires marked { (i : ℕ) → i / 4 ≡ row → HasFirstMarked (marks_of_word downs.old ups.old more.old i) }
    requires levels { (i : ℕ) → i / 4 ≡ row → IsLevelMask (slice_index levels.old i) i sums.old }
    ensures levels { (i : ℕ) → i / 4 ≡ row → IsLevelMask (slice_index levels.new i) i sums.new }
    ensures bits { (i r j : ℕ) → i / 4 ≡ row → r < 8 → j < 8 → bit_at (slice_index downs.new i) (8 * r + j) ≡
        nonzero_bit (run (number_in (marks_of_word downs.old ups.old more.old i) counters.now i) (8 * r)
        (slice_index sums.old (8 * i + r)) (j + 1)) }
    ensures next { (i r : ℕ) → i / 4 ≡ row → r < 8 → slice_index sums.new (8 * i + r) ≡
        run (number_in (marks_of_word downs.old ups.old more.old i) counters.now i) (8 * r)
        (slice_index sums.old (8 * i + r)) 8 }
    ensures clear { (i : ℕ) → i / 4 ≡ row → (slice_index ups.new i ≡ 0) × (slice_index more.new i ≡ 0) }
    ensures others { (i : ℕ) → (i / 4 ≡ row → ⊥) → (marks_of_word downs.new ups.new more.new i ≡
        marks_of_word downs.old ups.old more.old i) × (slice_index levels.new i ≡ slice_index levels.old i) }
    ensures other_sums { (q : ℕ) → (q / 32 ≡ row → ⊥) → slice_index sums.new q ≡ slice_index sums.old q }
{
    if are_zeros(downs, row) & are_zeros(ups, row) {
        set_four(downs, row, four_of(levels, row));
        return;
    }
    if are_zeros(more, row) & are_small(sums, row) {
        let rows = sum_four(four_of(downs, row), four_of(ups, row), sums, row);
        set_four(downs, row, words_of(rows));
        set_four(ups, row, u64x4::splat(0));
        set_four(levels, row, words_of(level_rows(rows)));
        return;
    }
    sum_each(downs, ups, more, counters, row, sums, levels);
}

/// Makes the masks of a column of blocks, and the sums into the next column with the masks that its words have if they
/// have no flags.
fn sum_column(
    downs: &mut Flags,
    ups: &mut Flags,
    more: &mut Flags,
    counters: &Counters,
    sums: &mut Sums,
    levels: &mut Flags,
)
    requires marked { (i : ℕ) → i < 32 → HasFirstMarked (marks_of_word downs.old ups.old more.old i) }
    requires levels { (i : ℕ) → i < 32 → IsLevelMask (slice_index levels.old i) i sums.old }
    ensures levels { (i : ℕ) → i < 32 → IsLevelMask (slice_index levels.new i) i sums.new }
    ensures bits { (i r j : ℕ) → i < 32 → r < 8 → j < 8 → bit_at (slice_index downs.new i) (8 * r + j) ≡
        nonzero_bit (run (number_in (marks_of_word downs.old ups.old more.old i) counters.now i) (8 * r)
        (slice_index sums.old (8 * i + r)) (j + 1)) }
    ensures next { (i r : ℕ) → i < 32 → r < 8 → slice_index sums.new (8 * i + r) ≡
        run (number_in (marks_of_word downs.old ups.old more.old i) counters.now i) (8 * r)
        (slice_index sums.old (8 * i + r)) 8 }
    ensures clear { (i : ℕ) → (slice_index ups.new i ≡ 0) × (slice_index more.new i ≡ 0) }
{
    for row in 0..8 {
        sum_row(downs, ups, more, counters, row, sums, levels);
    }
}

/// The sums into the first column.
fn no_sums() -> Sums
    ensures { (q : ℕ) → slice_index result q ≡ 0 }
{
    [0; 256]
}

/// Makes the masks of all columns, in place of the first flags. The other flags are 0 afterwards.
fn sum_columns(downs: &mut [Flags], ups: &mut [Flags], more: &mut [Flags], counters: &[Counters])
    requires downs { length downs.old ≡ length counters.now }
    requires ups { length ups.old ≡ length counters.now }
    requires more { length more.old ≡ length counters.now }
    requires marked { AreMarked NonZero (downs.old ++ (ups.old ++ more.old)) counters.now }
    ensures len { length downs.new ≡ length downs.old }
    ensures bits { (s row k : ℕ) → s < 4 → row < 64 → k < 8 * length counters.now →
        ((flag_of downs.new s row k ≡ 1) ↔ (IsAlike (2 ^ 32)
        (running_sum NonZero (downs.old ++ (ups.old ++ more.old)) counters.now s row k) (pos 0) → ⊥)) }
    ensures ups { AreZeros ups.new }
    ensures more { AreZeros more.new }
{
    let mut sums = no_sums();
    let mut levels = no_carry();
    for column in 0..counters.len() {
        sum_column(
            &mut downs[column],
            &mut ups[column],
            &mut more[column],
            &counters[column],
            &mut sums,
            &mut levels,
        );
    }
}

/// Makes the masks of all columns, in place of the first flags. The other flags are 0 afterwards.
pub(crate) fn sum(flags: &mut [Flags], counters: &[Counters])
    requires columns { length flags.old ≡ 3 * length counters.now }
    requires marked { AreMarked NonZero flags.old counters.now }
    ensures len { length flags.new ≡ length flags.old }
    ensures bits { (s row k : ℕ) → s < 4 → row < 64 → k < 8 * length counters.now →
        ((flag_of flags.new s row k ≡ 1) ↔
        (IsAlike (2 ^ 32) (running_sum NonZero flags.old counters.now s row k) (pos 0) → ⊥)) }
    ensures others { AreZerosFrom (length counters.now) flags.new }
{
    let (downs, others) = flags.split_at_mut(counters.len());
    let (ups, more) = others.split_at_mut(counters.len());
    sum_columns(downs, ups, more, counters);
}
