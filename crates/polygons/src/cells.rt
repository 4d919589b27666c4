//! The flags and counters of a part of a strip's samples, by columns of blocks. A column has 32 words of flags: of each of its
//! eight blocks one for each of four samples, whose bit 8 * row + column is that of a pixel. By the nonzero rule there
//! are three times as many columns of flags: of a first edge that runs downwards, of a first one that runs upwards, and
//! of counters in use. Most samples need no counter, so few of these are ever read. There are 64 for each word, one for
//! each bit, and what is in those that are not in use does not matter.
ghost use Rattle.std.specs.Prelude.{◌≡◌, ℕ, ◌+◌, ◌*◌, ◌%◌, ◌^◌, ◌<◌, pos, negsuc, ◌+ℤ◌, cond, length, IsTrue, IsFalse};
ghost use Rattle.std.specs.Int.{int_max};
ghost use Rattle.polygons.specs.Rows.{from_column};
ghost use Rattle.polygons.specs.declared.rule.Rule.TheVariants.{EvenOdd, NonZero};
ghost use Rattle.polygons.specs.Cells.{flags_by, columns_in, flag_of, counter_at, more_flag, in_use, signed, HasCounters, IsEdgeCounted, IsAdded};

use crate::rule::Rule;

/// The flags of a column of blocks.
pub type Flags = [u64; 32];

/// The counters of a column of blocks.
pub type Counters = [u32; 2048];

/// The flags and counters of a strip, and the rule by which edges count there. Each part of at most four samples of a
/// pixel has columns of its own, and those of one part lie behind those of another.
#[derive(Drop)]
pub(crate) struct Cells<'a> {
    pub rule: Rule,
    /// How many columns of blocks there are.
    pub columns: usize,
    /// How many columns of flags a part has: one for each column of blocks and each flag that a sample has.
    pub flagged: usize,
    /// How many columns of counters a part has: as many as of blocks by the nonzero rule, none by the even-odd rule.
    pub counted: usize,
    pub flags: &'a mut [Flags],
    pub counters: &'a mut [Counters],
    pub ghost all_flags: { flagged ≡ flags_by rule * columns },
    pub ghost all_counters: { rule ≡ NonZero → counted ≡ columns },
}

/// The word of a sample's row.
#[inline(always)]
fn word(s: usize, row: usize) -> usize
    requires sample { s < 4 }
    requires row { row < 64 }
    ensures value { result ≡ Rattle.polygons.specs.Cells.word_of s row }
    ensures small { result < 32 }
{
    4 * (row / 8) + s
}

/// The bit of a pixel.
#[inline(always)]
fn bit(row: usize, column: usize) -> usize
    ensures value { result ≡ Rattle.polygons.specs.Cells.bit_in_block row column }
    ensures small { result < 64 }
{
    8 * (row % 8) + column % 8
}

/// The word of a sample's row of pixels with the bit of a pixel alone, if the pixel's sample is crossed, else 0.
#[inline(always)]
fn pixel_bit(row: usize, column: usize, is_crossed: bool) -> u64
    ensures crossed { IsTrue is_crossed → result ≡ 2 ^ Rattle.polygons.specs.Cells.bit_in_block row column }
    ensures apart { IsFalse is_crossed → result ≡ 0 }
{
    u64::from(is_crossed) << bit(row, column)
}

/// Flips the flag of a sample, if the sample is crossed.
#[inline(always)]
pub(crate) fn flip(
    flags: &mut [Flags],
    s: usize,
    row: usize,
    block: usize,
    column: usize,
    is_crossed: bool,
)
    requires sample { s < 4 }
    requires row { row < 64 }
    requires block { block < length flags.old }
    ensures len { length flags.new ≡ length flags.old }
    ensures here { IsTrue is_crossed → flag_of flags.new s row (8 * block + column % 8) ≡
        (flag_of flags.old s row (8 * block + column % 8) + 1) % 2 }
    ensures others { (r j k : ℕ) → r < 4 → j < 64 →
        (IsTrue is_crossed → r ≡ s → j ≡ row → k ≡ 8 * block + column % 8 → ⊥) →
        flag_of flags.new r j k ≡ flag_of flags.old r j k }
{
    let words = &mut flags[block][4 * (row / 8)..];
    words[s] ^= pixel_bit(row, column, is_crossed);
}

/// Whether the flag of a sample is not set, or the sample is not crossed.
#[inline(always)]
pub(crate) fn is_clear(
    flags: &[Flags],
    s: usize,
    row: usize,
    block: usize,
    column: usize,
    is_crossed: bool,
) -> bool
    requires sample { s < 4 }
    requires row { row < 64 }
    requires block { block < length flags.now }
    ensures clear { IsTrue result → IsTrue is_crossed → flag_of flags.now s row (8 * block + column % 8) ≡ 0 }
    ensures set { IsFalse result → flag_of flags.now s row (8 * block + column % 8) ≡ 1 }
    ensures crossed { IsFalse result → IsTrue is_crossed }
{
    let words = &flags[block][4 * (row / 8)..];
    words[s] & pixel_bit(row, column, is_crossed) == 0
}

/// Sets the counter of a sample to 1 or -1 modulo 2^32, or adds that to a counter in use.
#[inline(always)]
fn add(counters: &mut [Counters], s: usize, row: usize, column: usize, down: bool, used: bool)
    requires sample { s < 4 }
    requires row { row < 64 }
    requires column { column < 8 * length counters.old }
    ensures len { length counters.new ≡ length counters.old }
    ensures here { counter_at counters.new s row column ≡
        (in_use (cond used 1 0) (counter_at counters.old s row column) + cond down 1 4294967295) % 2 ^ 32 }
    ensures others { (r j k : ℕ) → r < 4 → j < 64 → (r ≡ s → j ≡ row → k ≡ column → ⊥) →
        counter_at counters.new r j k ≡ counter_at counters.old r j k }
{
    let counter = &mut counters[column / 8][64 * word(s, row) + bit(row, column)];
    let direction: u32 = if down { 1 } else { u32::MAX };
    let before = if used { *counter } else { 0 };
    *counter = before.wrapping_add(direction);
}

/// Counts an edge by the counter of a sample. Few samples have a second edge of one direction.
#[inline(never)]
fn count_again(
    flags: &mut [Flags],
    counters: &mut [Counters],
    s: usize,
    row: usize,
    column: usize,
    down: bool,
)
    requires sample { s < 4 }
    requires row { row < 64 }
    requires columns { length flags.old ≡ 3 * length counters.old }
    requires column { column < 8 * length counters.old }
    ensures flags_len { length flags.new ≡ length flags.old }
    ensures counters_len { length counters.new ≡ length counters.old }
    ensures used { more_flag flags.new counters.old s row column ≡ 1 }
    ensures other_flags { (r j k : ℕ) → r < 4 → j < 64 → (r ≡ s → j ≡ row → k ≡ column + 16 * length counters.old → ⊥) →
        flag_of flags.new r j k ≡ flag_of flags.old r j k }
    ensures here { counter_at counters.new s row column ≡
        (in_use (more_flag flags.old counters.old s row column) (counter_at counters.old s row column) +
        cond down 1 4294967295) % 2 ^ 32 }
    ensures others { (r j k : ℕ) → r < 4 → j < 64 → (r ≡ s → j ≡ row → k ≡ column → ⊥) →
        counter_at counters.new r j k ≡ counter_at counters.old r j k }
{
    let block = column / 8 + 2 * counters.len();
    let is_new = is_clear(flags, s, row, block, column, true);
    flip(flags, s, row, block, column, is_new);
    add(counters, s, row, column, down, !is_new);
}

/// How many columns of blocks there are by the rule.
#[inline(always)]
pub(crate) fn columns_of(rule: Rule, flags: &[Flags], counters: &[Counters]) -> usize
    ensures { result ≡ columns_in rule flags.now counters.now }
{
    match rule {
        Rule::EvenOdd => flags.len(),
        Rule::NonZero => counters.len(),
    }
}

/// The column of flags in which a first edge of a direction has its flag, by its column of blocks.
#[inline(always)]
pub(crate) fn flag_column(rule: Rule, column: usize, columns: usize, down: bool) -> usize
    requires column { column < 2 ^ 62 }
    requires columns { columns < 2 ^ 62 }
    ensures even_odd { rule ≡ EvenOdd → result ≡ column }
    ensures nonzero { rule ≡ NonZero → result ≡ column + cond down 0 columns }
{
    match rule {
        Rule::EvenOdd => column,
        Rule::NonZero if down => column,
        Rule::NonZero => column + columns,
    }
}

/// Counts an edge at a sample, downwards or upwards. The first of each direction has a flag.
#[inline(always)]
fn count(
    flags: &mut [Flags],
    counters: &mut [Counters],
    s: usize,
    row: usize,
    column: usize,
    down: bool,
)
    requires sample { s < 4 }
    requires row { row < 64 }
    requires columns { length flags.old ≡ 3 * length counters.old }
    requires column { column < 8 * length counters.old }
    ensures flags_len { length flags.new ≡ length flags.old }
    ensures counters_len { length counters.new ≡ length counters.old }
    ensures counted { IsEdgeCounted flags.old counters.old flags.new counters.new s row column down }
{
    let block = flag_column(Rule::NonZero, column / 8, counters.len(), down);
    if is_clear(flags, s, row, block, column, true) {
        flip(flags, s, row, block, column, true);
    } else {
        count_again(flags, counters, s, row, column, down);
    }
}

/// A column of the strip: one left of it counts as the first.
#[inline(always)]
pub(crate) fn in_strip(column: i64) -> usize
    ensures { pos result ≡ int_max column (pos 0) }
{
    column.max(0) as usize
}

/// Counts an edge that is crossed at a sample's row from a column on, downwards or upwards. A column left of the strip
/// counts as the first, and one right of it is left out.
#[inline(always)]
pub(crate) fn cross(
    flags: &mut [Flags],
    counters: &mut [Counters],
    rule: Rule,
    s: usize,
    row: usize,
    column: i64,
    down: bool,
)
    requires sample { s < 4 }
    requires row { row < 64 }
    requires counters { HasCounters rule flags.old counters.old }
    ensures { IsAdded rule s row (row + 1) (λ _ k. signed down (from_column column (pos 1) k)) flags.old counters.old
        flags.new counters.new }
{
    let column = in_strip(column);
    match rule {
        Rule::EvenOdd => {
            if column / 8 < flags.len() {
                flip(flags, s, row, column / 8, column, true);
            }
        }
        Rule::NonZero => {
            if column / 8 < counters.len() {
                count(flags, counters, s, row, column, down);
            }
        }
    }
}
