ghost use Rattle.std.specs.Prelude.{◌≡◌, ◌+◌, ◌≤◌, ◌<◌, ◌^◌, ◌||◌, IfSome, IsTrue, true, length, get_or};
ghost use Rattle.std.specs.Bool.{MatchBool};
ghost use Rattle.fast_float.specs.Text.{with_sign};
ghost use Rattle.json.specs.Word.{is_operator, is_space};
ghost use Rattle.json_tokens.specs.Lexed.{IsSizeAt, IsIntegerAt, MayEnd};

use crate::blank::{byte_at, is_blank};
use crate::digits::digits_at;

/// Whether a number or a boolean may end before this byte.
#[inline(always)]
pub(crate) fn ends_word(byte: u8) -> bool
    ensures { IsTrue result → (is_operator byte || is_space byte) ≡ true }
{
    byte == b',' || byte == b']' || byte == b'}' || is_blank(byte)
}

/// Whether a minus is at `from`, and the index behind it.
#[inline(always)]
fn sign_at(bytes: &[u8], from: usize) -> (bool, usize)
    requires { from ≤ length bytes.now }
    ensures { MatchBool result.0
        ((get_or bytes.now from 0 ≡ 45) × (from < length bytes.now) × (result.1 ≡ from + 1)) (result.1 ≡ from) }
{
    if byte_at(bytes, from) == b'-' {
        (true, from + 1)
    } else {
        (false, from)
    }
}

/// The natural number whose digits begin at `from`, and the index of the byte after them.
#[inline(always)]
pub(crate) fn size_at(bytes: &[u8], from: usize) -> Option<(u64, usize)>
    requires { from ≤ length bytes.now }
    ensures { IfSome result (λ found. IsSizeAt bytes.now from found.1 found.0) }
{
    let (size, end) = digits_at(bytes, from)?;
    if byte_at(bytes, from) == b'0' && end - from > 1 {
        return None;
    }
    Some((size, end))
}

/// The number of this absolute value, negative after a minus.
#[inline(always)]
pub(crate) fn signed(has_minus: bool, size: u64) -> i64
    requires { size < 2 ^ 62 }
    ensures { result ≡ with_sign has_minus size }
{
    if has_minus {
        0 - size as i64
    } else {
        size as i64
    }
}

/// The integer whose first byte is at `from`, and the index of the byte after it, if a number may end there. Returns
/// `None` for `-0`, for an integer with many digits and for what is no number.
#[inline(always)]
pub(crate) fn integer_at(bytes: &[u8], from: usize) -> Option<(i64, usize)>
    requires { from ≤ length bytes.now }
    ensures { IfSome result (λ found. (found.1 ≤ length bytes.now)
        × (MayEnd bytes.now found.1 → IsIntegerAt bytes.now from found.0 found.1)) }
{
    let (has_minus, first) = sign_at(bytes, from);
    let (size, end) = size_at(bytes, first)?;
    if has_minus && size == 0 {
        return None;
    }
    Some((signed(has_minus, size), end))
}
