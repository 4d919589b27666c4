ghost use Rattle.std.specs.Prelude.{◌≡◌, ◌≤◌, ◌<◌, length, drop, get_or, not};
ghost use Rattle.std.specs.List.{prefix_len};
ghost use Rattle.json.specs.Word.{is_space};
ghost use Rattle.json.specs.Lex.{between, lex};
ghost use Rattle.json_tokens.specs.Blank.{is_no_space};

use std::simd::prelude::*;

/// The byte at an index, and 0 past the end.
#[inline(always)]
pub(crate) fn byte_at(bytes: &[u8], at: usize) -> u8
    ensures value { result ≡ get_or bytes.now at 0 }
    ensures within { 0 < result → at < length bytes.now }
{
    if at < bytes.len() { bytes[at] } else { 0 }
}

/// Whether the byte is a blank of JSON: a space, a tab or the end of a line.
#[inline(always)]
pub(crate) fn is_blank(byte: u8) -> bool
    ensures { result ≡ is_space byte }
{
    (byte == b' ') | (byte == b'\t') | (byte == b'\n') | (byte == b'\r')
}

/// How many spaces come before the first of sixteen bytes that is none.
#[inline(always)]
fn space_count(lanes: u8x16) -> usize
    requires { length lanes ≡ 16 }
    ensures { result ≡ prefix_len (λ b. not (is_no_space b)) lanes }
{
    let others = lanes.simd_ne(u8x16::splat(b' ')).to_bitmask();
    if others == 0 {
        16
    } else {
        others.trailing_zeros() as usize
    }
}

/// Passes spaces from `from` on, up to sixteen. Near the end of the text it passes none.
#[inline(always)]
fn skip_spaces(bytes: &[u8], from: usize) -> usize
    requires { from ≤ length bytes.now }
    ensures same { lex between (drop result bytes.now) ≡ lex between (drop from bytes.now) }
    ensures within { (from ≤ result) × (result ≤ length bytes.now) }
{
    if bytes.len() - from < 16 {
        return from;
    }
    from + space_count(u8x16::from_slice(&bytes[from..]))
}

/// The index of the first byte from `from` on that is no blank. Each line of a text that is laid out begins with
/// spaces.
#[inline(never)]
fn skip_some_blanks(bytes: &[u8], from: usize) -> usize
    requires { from ≤ length bytes.now }
    ensures same { lex between (drop result bytes.now) ≡ lex between (drop from bytes.now) }
    ensures within { result ≤ length bytes.now }
{
    let mut at = from;
    'blanks: while is_blank(byte_at(bytes, at)) {
        at = skip_spaces(bytes, at + 1);
    }
    at
}

/// The index of the first byte from `from` on that is no blank.
#[inline(always)]
pub(crate) fn skip_blanks(bytes: &[u8], from: usize) -> usize
    requires { from ≤ length bytes.now }
    ensures same { lex between (drop result bytes.now) ≡ lex between (drop from bytes.now) }
    ensures within { result ≤ length bytes.now }
{
    let byte = byte_at(bytes, from);
    if byte > b' ' {
        return from;
    }
    if byte == b' ' && byte_at(bytes, from + 1) > b' ' {
        return from + 1;
    }
    skip_some_blanks(bytes, from)
}
