//! The four words of a row of blocks, and the bytes of their rows: of word w the lanes from 8 w on.
ghost use Rattle.std.specs.Prelude.{◌≡◌, ◌↔◌, ℕ, ◌+◌, ◌*◌, ◌/◌, ◌%◌, ◌<◌, length, slice_index, IsTrue};
ghost use Rattle.std.specs.Int.{bit_at};

use crate::cells::Flags;
use std::simd::prelude::*;

/// Whether the words of a row of blocks are 0.
#[inline(always)]
pub(crate) fn are_zeros(words: &Flags, row: usize) -> bool
    requires { row < 8 }
    ensures { IsTrue result ↔ ((i : ℕ) → i / 4 ≡ row → slice_index words.now i ≡ 0) }
{
    let mut any = 0;
    for i in 4 * row..4 * row + 4 {
        any |= words[i];
    }
    any == 0
}

/// The words of a row of blocks.
#[inline(always)]
pub(crate) fn four_of(words: &Flags, row: usize) -> u64x4
    requires { row < 8 }
    ensures whole { length result ≡ 4 }
    ensures each { (w : ℕ) → w < 4 → slice_index result w ≡ slice_index words.now (4 * row + w) }
{
    u64x4::from_slice(&words[4 * row..4 * row + 4])
}

/// Sets the words of a row of blocks.
#[inline(always)]
pub(crate) fn set_four(words: &mut Flags, row: usize, four: u64x4)
    requires row { row < 8 }
    requires whole { length four ≡ 4 }
    ensures set { (w : ℕ) → w < 4 → slice_index words.new (4 * row + w) ≡ slice_index four w }
    ensures others { (i : ℕ) → (i / 4 ≡ row → ⊥) → slice_index words.new i ≡ slice_index words.old i }
{
    four.copy_to_slice(&mut words[4 * row..4 * row + 4]);
}

/// The bytes of four words, each with the bits of a row.
#[inline(always)]
pub(crate) fn rows_of(words: u64x4) -> u8x32
    requires { length words ≡ 4 }
    ensures whole { length result ≡ 32 }
    ensures each { (w r j : ℕ) → w < 4 → r < 8 → j < 8 →
        bit_at (slice_index result (8 * w + r)) j ≡ bit_at (slice_index words w) (8 * r + j) }
{
    words.to_le_bytes()
}

/// The words that have these bytes, each with the bits of a row.
#[inline(always)]
pub(crate) fn words_of(rows: u8x32) -> u64x4
    requires { length rows ≡ 32 }
    ensures whole { length result ≡ 4 }
    ensures each { (w r j : ℕ) → w < 4 → r < 8 → j < 8 →
        bit_at (slice_index result w) (8 * r + j) ≡ bit_at (slice_index rows (8 * w + r)) j }
{
    u64x4::from_le_bytes(rows)
}
