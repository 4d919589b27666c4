ghost use Rattle.std.specs.Prelude.{◌+◌, ◌<◌, ◌≤◌, IfSome, length};
ghost use Rattle.json_tokens.specs.Lexed.{AreDigits};

use crate::eight::{digit_count, number, offsets_at};

/// The number that the decimal digits from `from` on write, and the index of the byte after them, a byte at a time.
/// That index is `from` if there is no digit, and for some numbers of 18 digits and more.
#[inline(never)]
fn digits_slowly(bytes: &[u8], from: usize) -> (u64, usize)
    requires { from ≤ length bytes.now }
    ensures { from < result.1 → AreDigits bytes.now from result.1 result.0 }
{
    let mut value = 0u64;
    let mut at = from;
    'digits: while at < bytes.len() && bytes[at] >= b'0' && bytes[at] <= b'9' {
        if value >= 100_000_000_000_000_000 {
            return (0, from);
        }
        value = value * 10 + u64::from(bytes[at] - b'0');
        at += 1;
    }
    (value, at)
}

/// The number that up to seven decimal digits from `from` on write, and the index of the byte after them.
#[inline(always)]
fn few_digits_at(bytes: &[u8], from: usize) -> Option<(u64, usize)>
    requires { from + 8 ≤ length bytes.now }
    ensures { IfSome result (λ found. AreDigits bytes.now from found.1 found.0) }
{
    let offsets = offsets_at(bytes, from);
    let count = digit_count(offsets);
    if count == 0 {
        return None;
    }
    if count >= 8 {
        return None;
    }
    Some((number(offsets, count), from + count))
}

/// The number that the decimal digits from `from` on write, and the index of the byte after them. Returns `None` if
/// there is no digit, and for some numbers of 18 digits and more.
#[inline(always)]
pub(crate) fn digits_at(bytes: &[u8], from: usize) -> Option<(u64, usize)>
    requires { from ≤ length bytes.now }
    ensures { IfSome result (λ found. AreDigits bytes.now from found.1 found.0) }
{
    if bytes.len() - from >= 8 {
        if let Some(found) = few_digits_at(bytes, from) {
            return Some(found);
        }
    }
    let (value, end) = digits_slowly(bytes, from);
    if end <= from {
        return None;
    }
    Some((value, end))
}
