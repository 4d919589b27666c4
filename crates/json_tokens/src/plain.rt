ghost use Rattle.std.specs.Prelude.{◌≡◌, ◌≤◌, ◌∷◌, ◌++◌, ◌-◌, ◌+◌, IfSome, IsTrue, length, take, drop};
ghost use Rattle.json.specs.Token.{string, boolean};
ghost use Rattle.json.specs.Lex.{token, between, lex};
ghost use Rattle.json_tokens.specs.Lexed.{ArePlain, truth_text};

use crate::blank::byte_at;
use crate::integer::ends_word;

/// The index of the first byte from `from` on that does not stand for itself in a string.
#[inline(always)]
fn plain_end(bytes: &[u8], from: usize) -> usize
    requires { from ≤ length bytes.now }
    ensures { (from ≤ result) × (result ≤ length bytes.now) × ArePlain (take (result - from) (drop from bytes.now)) }
{
    let mut at = from;
    'plain: while at < bytes.len() && bytes[at] >= b' ' && bytes[at] != b'"' && bytes[at] != b'\\' {
        at += 1;
    }
    at
}

/// The string whose quote is at `from`, and the index behind its closing quote. Returns `None` for a string with an
/// escape.
pub(crate) fn string_at<'a>(bytes: &'a [u8], from: usize) -> Option<(&'a str, usize)>
    requires { from ≤ length bytes.now }
    ensures { IfSome result (λ found. (lex between (drop from bytes.now)
        ≡ token (string found.0.now) ∷ lex between (drop found.1 bytes.now)) × (found.1 ≤ length bytes.now)) }
{
    if byte_at(bytes, from) != b'"' {
        return None;
    }
    let end = plain_end(bytes, from + 1);
    if byte_at(bytes, end) != b'"' {
        return None;
    }
    let Ok(text) = std::str::from_utf8(&bytes[from + 1..end]) else {
        return None;
    };
    Some((text, end + 1))
}

/// Whether these bytes are at `from`.
fn has_word(bytes: &[u8], from: usize, word: &[u8]) -> bool
    requires { from ≤ length bytes.now }
    ensures { IsTrue result → (from + length word.now ≤ length bytes.now)
        × (take (length word.now) (drop from bytes.now) ≡ word.now) }
{
    bytes.len() - from >= word.len() && &bytes[from..from + word.len()] == word
}

/// The boolean whose first byte is at `from`, and the index behind it.
pub(crate) fn truth_at(bytes: &[u8], from: usize) -> Option<(bool, usize)>
    requires { from ≤ length bytes.now }
    ensures { IfSome result (λ found. (lex between (drop from bytes.now)
        ≡ token (boolean found.0) ∷ lex between (drop found.1 bytes.now)) × (found.1 ≤ length bytes.now)) }
{
    let (found, end) = word_at(bytes, from)?;
    if !ends_word(byte_at(bytes, end)) {
        return None;
    }
    Some((found, end))
}

/// The boolean whose bytes begin at `from`, and the index of the byte after them.
fn word_at(bytes: &[u8], from: usize) -> Option<(bool, usize)>
    requires { from ≤ length bytes.now }
    ensures { IfSome result (λ found. (drop from bytes.now ≡ truth_text found.0 ++ drop found.1 bytes.now) ×
        (found.1 ≤ length bytes.now)) }
{
    if has_word(bytes, from, b"true") {
        return Some((true, from + 4));
    }
    if has_word(bytes, from, b"false") {
        return Some((false, from + 5));
    }
    None
}
