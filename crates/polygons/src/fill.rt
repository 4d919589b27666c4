//! From flags to masks: each bit is the parity of the flags of its row up to it.
ghost use Rattle.std.specs.Prelude.{◌≡◌, ℕ, ◌+◌, ◌*◌, ◌<◌, length, slice_index};
ghost use Rattle.polygons.specs.Rows.{parity};
ghost use Rattle.polygons.specs.Cells.{flag_of};
ghost use Rattle.polygons.specs.Spreading.{IsCarry, IsFilled, IsNextCarry};

use crate::byte_rows::fill_rows;
use crate::cells::Flags;

/// The masks of a column of blocks, and the carries into the next column.
fn fill_column(words: &mut Flags, carry: &mut Flags)
    requires { (i : ℕ) → i < 32 → IsCarry (slice_index carry.old i) }
    ensures filled { (i : ℕ) → i < 32 → IsFilled (slice_index words.old i) (slice_index carry.old i)
        (slice_index words.new i) }
    ensures next { (i : ℕ) → i < 32 → IsNextCarry (slice_index words.old i) (slice_index carry.old i)
        (slice_index carry.new i) }
    ensures carry { (i : ℕ) → i < 32 → IsCarry (slice_index carry.new i) }
{
    for i in 0..32 {
        let (filled, next) = fill_rows(words[i], carry[i]);
        words[i] = filled;
        carry[i] = next;
    }
}

/// The carries into the first column.
pub(crate) fn no_carry() -> Flags
    ensures { (i : ℕ) → slice_index result i ≡ 0 }
{
    [0; 32]
}

/// The masks of all columns.
pub(crate) fn fill(flags: &mut [Flags])
    ensures len { length flags.new ≡ length flags.old }
    ensures bits { (s row k : ℕ) → s < 4 → row < 64 → k < 8 * length flags.old →
        flag_of flags.new s row k ≡ parity (flag_of flags.old s row) (k + 1) }
{
    let mut carry = no_carry();
    for words in flags.iter_mut() {
        fill_column(words, &mut carry);
    }
}
