//! Blocks of 8 by 8 flags in a word: all eight rows at once.
ghost use Rattle.std.specs.Prelude.{◌≡◌, ℕ, ◌+◌, ◌*◌, ◌%◌, ◌<◌};
ghost use Rattle.std.specs.Int.{bit_at};
ghost use Rattle.polygons.specs.Rows.{parity};
ghost use Rattle.polygons.specs.Spreading.{IsCarry, IsFilled, IsNextCarry};

/// The word in whose rows each bit is the parity of the bits up to it.
#[inline(always)]
fn spread_rows(word: u64) -> u64
    ensures { (r j : ℕ) → r < 8 → j < 8 → bit_at result (8 * r + j) ≡ parity (λ k. bit_at word (8 * r + k)) (j + 1) }
{
    let two = word ^ ((word << 1) & 0xfefe_fefe_fefe_fefe);
    let four = two ^ ((two << 2) & 0xfcfc_fcfc_fcfc_fcfc);
    four ^ ((four << 4) & 0xf0f0_f0f0_f0f0_f0f0)
}

/// The last bit of each row, as its first.
#[inline(always)]
pub(crate) fn last_column(word: u64) -> u64
    ensures bits { (r : ℕ) → r < 8 → bit_at result (8 * r) ≡ bit_at word (8 * r + 7) }
    ensures carry { IsCarry result }
{
    (word >> 7) & 0x0101_0101_0101_0101
}

/// The word in whose rows each bit is the parity of a carry and of the bits up to it, and the carries into the next
/// word.
#[inline(always)]
pub(crate) fn fill_rows(word: u64, carry: u64) -> (u64, u64)
    requires { IsCarry carry }
    ensures filled { IsFilled word carry result.0 }
    ensures next { IsNextCarry word carry result.1 }
    ensures carry { IsCarry result.1 }
{
    let filled = spread_rows(word ^ carry);
    let next = last_column(filled);
    (filled, next)
}
