//! The masks of the blocks of a tile row.
ghost use Rattle.std.specs.Prelude.{◌≡◌, ℕ, ◌+◌, ◌*◌, ◌<◌, ◌≤◌, false, length, slice_index, IsBitSet, IsTrue};
ghost use Rattle.grid.specs.Samples.{count_of, parts_of};

use grid::SampleCount;
use polygons::Flags;
use std::simd::prelude::*;

/// The masks of the blocks of a tile row, of all samples of a pixel. For each part of at most four samples there are
/// a column of words for each column of blocks, part by part.
#[derive(Clone, Copy, Debug)]
pub struct Masks<'a> {
    /// The words: of each row of blocks a column has four.
    pub flags: &'a [Flags],
    /// How many columns of blocks there are.
    pub columns: usize,
    /// How many columns of words a part has: the first ones are those of its masks.
    pub each: usize,
    /// How many samples a pixel has.
    pub count: SampleCount,
    pub ghost all: { parts_of count * each ≤ length flags.now },
    pub ghost wide: { columns ≤ each },
}

/// Whether a bit is set.
#[inline(always)]
pub(crate) fn has_some(words: &[u64; 4]) -> bool
    ensures { result ≡ false → (s : ℕ) → s < 4 → slice_index words.now s ≡ 0 }
{
    u64x4::from_slice(words)
        .simd_ne(u64x4::splat(0))
        .to_bitmask()
        != 0
}

/// Whether all bits of the first words are set.
#[inline(always)]
fn are_full(words: &[u64; 4], samples: u32) -> bool
    requires { samples ≤ 4 }
    ensures { IsTrue result → (s k : ℕ) → s < samples → k < 64 → IsBitSet (slice_index words.now s) k }
{
    for s in 0..samples as usize {
        if words[s] != u64::MAX {
            return false;
        }
    }
    true
}

impl Masks<'_> {
    ghost use Rattle.block_fills.specs.Parts.{block_mask};

    /// The masks of the samples of a part, of the block in a column and a row of blocks.
    #[inline(always)]
    pub(crate) fn part(&self, column: usize, row: usize, part: u32) -> [u64; 4]
        requires column { column < self.now.columns }
        requires row { row < 8 }
        requires part { part < parts_of self.now.count }
        ensures { (s : ℕ) → s < 4 → slice_index result s ≡ block_mask self.now column row (4 * part + s) }
    {
        let words = &self.flags[part as usize * self.each + column];
        let at = 4 * row;
        [words[at], words[at + 1], words[at + 2], words[at + 3]]
    }

    /// Whether a bit of the block in a column and a row of blocks is set.
    #[inline(always)]
    pub(crate) fn has_some(&self, count: SampleCount, column: usize, row: usize) -> bool
        requires count { count ≡ self.now.count }
        requires column { column < self.now.columns }
        requires row { row < 8 }
        ensures { result ≡ false → (s : ℕ) → s < count_of self.now.count → block_mask self.now column row s ≡ 0 }
    {
        for part in 0..count.parts() {
            if has_some(&self.part(column, row, part)) {
                return true;
            }
        }
        false
    }

    /// Whether all bits of the block in a column and a row of blocks are set.
    #[inline(always)]
    pub(crate) fn is_full(&self, count: SampleCount, column: usize, row: usize) -> bool
        requires count { count ≡ self.now.count }
        requires column { column < self.now.columns }
        requires row { row < 8 }
        ensures { IsTrue result → (s k : ℕ) → s < count_of self.now.count → k < 64 →
            IsBitSet (block_mask self.now column row s) k }
    {
        for part in 0..count.parts() {
            if !are_full(&self.part(column, row, part), count.part_size()) {
                return false;
            }
        }
        true
    }

    /// The masks of all samples of the block in a column and a row of blocks.
    #[inline(always)]
    pub(crate) fn words(&self, count: SampleCount, column: usize, row: usize) -> [u64; 16]
        requires count { count ≡ self.now.count }
        requires column { column < self.now.columns }
        requires row { row < 8 }
        ensures { (s : ℕ) → s < count_of self.now.count → slice_index result s ≡ block_mask self.now column row s }
    {
        let mut words = [0; 16];
        for s in 0..count.count() {
            let of_part = &self.flags[(s / 4) as usize * self.each + column];
            words[s as usize] = of_part[4 * row + (s % 4) as usize];
        }
        words
    }
}
