//! Where the flags of a short edge's crossings lie, if all of them lie in one block. Then those of four samples are flipped
//! at once.
ghost use Rattle.std.specs.Prelude.{◌≡◌, ℕ, ◌+◌, ◌*◌, ◌/◌, ◌%◌, ◌^◌, ◌<◌, ◌≤ℤ◌, IsTrue, IsFalse, IfSome, length, slice_index};
ghost use Rattle.std.specs.Int.{bit_at};
ghost use Rattle.grid.specs.Samples.{parts_of};
ghost use Rattle.polygons.specs.Cells.{signed, HasCounters, IsPlotted};
ghost use Rattle.polygons.specs.Crossed.{AreCrossed};
ghost use Rattle.polygons.specs.Rows.{direction};
ghost use Rattle.polygons.specs.Short.{IsShortEdge};

use crate::cells::{Counters, Flags, columns_of, flag_column};
use crate::edge::Edge;
use crate::four_words::{four_of, set_four};
use crate::part_rows::can_flip;
use crate::rule::Rule;
use crate::short_crossings::ShortCrossings;
use crate::short_lanes::pixels;
use crate::starts::Starts;
use std::simd::prelude::*;

/// 1 in the lane of each of sixteen samples whose bit is set, else 0.
#[inline(always)]
fn set_lanes(bits: u64) -> u16x16
    ensures whole { length result ≡ 16 }
    ensures each { (s : ℕ) → s < 16 → slice_index result s ≡ bit_at bits s }
{
    let powers = u16x16::from_array([
        1, 2, 4, 8, 16, 32, 64, 128, 256, 512, 1024, 2048, 4096, 8192, 16384, 32768,
    ]);
    (u16x16::splat((bits & 65535) as u16) & powers)
        .simd_ne(u16x16::splat(0))
        .select(u16x16::splat(1), u16x16::splat(0))
}

/// Sixteen numbers, each `by` more, modulo 2^16.
#[inline(always)]
fn further(numbers: &[u16; 16], by: u16) -> u16x16
    ensures whole { length result ≡ 16 }
    ensures each { (s : ℕ) → s < 16 → slice_index result s ≡ (slice_index numbers.now s + by) % 65536 }
{
    u16x16::from_array(*numbers) + u16x16::splat(by)
}

/// The rows or the columns of blocks in which sixteen rows or columns lie.
#[inline(always)]
fn blocks(numbers: u16x16) -> u16x16
    ensures whole { length result ≡ 16 }
    ensures each { (s : ℕ) → s < 16 → slice_index result s ≡ slice_index numbers s / 8 }
{
    numbers >> u16x16::splat(3)
}

/// Whether all numbers are this one whose lane in `counted` is 1.
#[inline(always)]
fn are_all(counted: u16x16, numbers: u16x16, number: u16) -> bool
    requires counted { length counted ≡ 16 }
    requires numbers { length numbers ≡ 16 }
    ensures { IsTrue result → (s : ℕ) → s < 16 → slice_index counted s ≡ 1 → slice_index numbers s ≡ number }
{
    let others = u16x16::splat(number);
    counted
        .simd_eq(u16x16::splat(1))
        .select(numbers, others)
        .simd_ne(others)
        .to_bitmask()
        == 0
}

/// The bits of sixteen pixels in their blocks.
#[inline(always)]
fn bits_in_block(rows: u16x16, columns: u16x16) -> u16x16
    requires rows { length rows ≡ 16 }
    requires columns { length columns ≡ 16 }
    ensures whole { length result ≡ 16 }
    ensures each { (s : ℕ) → s < 16 →
        slice_index result s ≡ 8 * (slice_index rows s % 8) + slice_index columns s % 8 }
{
    u16x16::splat(8) * (rows & u16x16::splat(7)) + (columns & u16x16::splat(7))
}

/// The block in which all crossings of a short edge lie, and the bits of their pixels there.
#[derive(Clone, Copy, Debug)]
pub(crate) struct ShortPlaces {
    /// The row of blocks.
    pub row: usize,
    /// The column of blocks.
    pub column: usize,
    /// Of each sample that is crossed 1, else 0.
    pub crossed: [u16; 16],
    /// Of each sample that is crossed the bit of its pixel in the block.
    pub bits: [u16; 16],
    pub ghost high: { row < 8 },
    pub ghost small: { (s : ℕ) → s < 16 → slice_index bits s < 64 },
}

impl ShortPlaces {
    ghost use Rattle.polygons.specs.Placed.{AreInOneBlock};

    /// The places of these crossings, or `None` if they lie in several blocks, beside the strip, or too far right in it.
    #[inline(always)]
    pub(crate) fn of(crossings: &ShortCrossings) -> Option<ShortPlaces>
        ensures { IfSome result (λ p. AreInOneBlock crossings.now p) }
    {
        if crossings.column < 0 || 32_768 <= crossings.column {
            return None;
        }
        let crossed = set_lanes(crossings.bits);
        let rows = u16x16::from_array(crossings.rows);
        let columns = further(&crossings.columns, crossings.column as u16);
        let first = crossings.bits.trailing_zeros() as usize % 16;
        let row = crossings.rows[first] / 8;
        let column = columns.to_array()[first] / 8;
        if 8 <= row || !are_all(crossed, pixels(u16x16::from_array(crossings.columns)), 0) {
            return None;
        }
        if !are_all(crossed, blocks(rows), row) || !are_all(crossed, blocks(columns), column) {
            return None;
        }
        Some(ShortPlaces {
            row: usize::from(row),
            column: usize::from(column),
            crossed: crossed.to_array(),
            bits: bits_in_block(rows, columns).to_array(),
        })
    }

    /// Of each of four samples of a part the bit of its pixel in the block, if the sample is crossed, else 0.
    #[inline(always)]
    fn part(&self, part: usize) -> u64x4
        requires { part < 4 }
        ensures whole { length result ≡ 4 }
        ensures crossed { (s : ℕ) → s < 4 → slice_index self.now.crossed (4 * part + s) ≡ 1 →
            slice_index result s ≡ 2 ^ slice_index self.now.bits (4 * part + s) }
        ensures apart { (s : ℕ) → s < 4 → slice_index self.now.crossed (4 * part + s) ≡ 0 → slice_index result s ≡ 0 }
    {
        let from = 4 * part;
        let crossed = u64x4::from_array([
            u64::from(self.crossed[from]),
            u64::from(self.crossed[from + 1]),
            u64::from(self.crossed[from + 2]),
            u64::from(self.crossed[from + 3]),
        ]);
        let bits = u64x4::from_array([
            u64::from(self.bits[from]),
            u64::from(self.bits[from + 1]),
            u64::from(self.bits[from + 2]),
            u64::from(self.bits[from + 3]),
        ]);
        crossed << bits
    }

    /// Marks where a short edge is crossed by samples of a part, all at once, if their flags can be flipped. Returns whether it
    /// is marked.
    #[inline(always)]
    pub(crate) fn flip(
        &self,
        flags: &mut [Flags],
        counters: &[Counters],
        rule: Rule,
        edge: &Edge,
        forward: bool,
        starts: &Starts,
        part: usize,
        crossings: &ShortCrossings,
    ) -> bool
        requires short { IsShortEdge edge.now }
        requires runs_down { edge.now.a.y ≤ℤ edge.now.b.y }
        requires part { part < parts_of starts.now.strip.count }
        requires counters { HasCounters rule flags.old counters.now }
        requires crossings { AreCrossed starts.now.strip edge.now crossings.now }
        requires places { AreInOneBlock crossings.now self.now }
        ensures marked { IsTrue result → IsPlotted rule starts.now.strip part
            (λ p. signed forward (direction edge.now p)) flags.old counters.now flags.new counters.now }
        ensures unchanged { IsFalse result → flags.new ≡ flags.old }
    {
        let column = self.column;
        if column >= columns_of(rule, flags, counters) {
            return true;
        }
        let bits = self.part(part);
        let words = &mut flags[flag_column(rule, column, counters.len(), forward)];
        let four = four_of(words, self.row);
        if !can_flip(rule, four, bits) {
            return false;
        }
        set_four(words, self.row, four ^ bits);
        true
    }
}
