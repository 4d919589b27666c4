//! The lines that report errors.
ghost use Rattle.std.specs.Prelude.{◌≡◌, ℕ, List, [], ◌∷◌, ◌++◌};

use arrayvec::ArrayString;
use std::fmt;
use std::fmt::Write as _;

/// The greatest length of the line of an error, in bytes, with its line feed.
pub const LINE_BYTES: usize = 96;

/// The line of an error.
pub type FaultLine = ArrayString<LINE_BYTES>;

/// The line that reports an error: its `Display` and a line feed. What of the text is past the greatest length is left
/// out.
pub fn fault_line<E: fmt::Display>(error: &E) -> FaultLine
    ensures { (text : List ℕ) × (result.bytes ≡ text ++ 10 ∷ []) }
{
    let mut text: ArrayString<95> = ArrayString::new();
    let _ = write!(text, "{error}");
    let mut line = FaultLine::new();
    line.push_str(text.as_str());
    line.push('\n');
    line
}
