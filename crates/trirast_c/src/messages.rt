//! The message of an error, in the caller's buffer.
ghost use Rattle.std.specs.Prelude.{◌≡◌, ◌+◌, ◌-◌, ◌<◌, ◌≤◌, min, length, drop, slice_index, IfSome};
ghost use Rattle.draw_list.specs.Fault.{kind_number as list_number_of};

use arrayvec::ArrayString;
use c_abi::{Error, NONE, Status};
use list::ReadKind;
use std::fmt::Write as _;

/// A message, of at most 127 bytes.
type Message = ArrayString<127>;

/// The kind of a list's error with this number.
fn list_kind(number: u32) -> Option<ReadKind>
    ensures { IfSome result (λ kind. list_number_of kind ≡ number) }
{
    match number {
        // generated: kinds
        1 => Some(ReadKind::NotJson),
        2 => Some(ReadKind::UnknownKey),
        3 => Some(ReadKind::MissingKey),
        4 => Some(ReadKind::WrongKind),
        5 => Some(ReadKind::OutOfRange),
        6 => Some(ReadKind::BadIndex),
        7 => Some(ReadKind::TooMany),
        8 => Some(ReadKind::OutOfMemory),
        9 => Some(ReadKind::TwoLists),
        10 => Some(ReadKind::NotConvex),
        // end of kinds
        _ => None,
    }
}

/// What is wrong with a list, as the program has it too.
fn list_message(error: &Error) -> Message {
    let mut text = Message::new();
    let Some(kind) = list_kind(error.cause) else {
        text.push_str(Status::BadList.text());
        return text;
    };
    let _ = write!(text, "list fault {} {}", kind.number(), kind.name());
    if error.draw != NONE {
        let _ = write!(text, " in draw {}", error.draw);
    }
    text
}

/// What is wrong with a draw's index, vertex or quad, or with the draw, by the number of the cause.
fn batch_words(cause: u32) -> (&'static str, &'static str) {
    match cause {
        // generated: words
        1 => ("", "fewer vertices are left than the draw has"),
        2 => ("", "fewer indices are left than the draw has"),
        3 => ("", "a number of its state is out of range"),
        4 => ("", "the indices make no whole triangles or quads"),
        5 => ("", "an id is greater than 16777215"),
        6 => ("index", "is not less than the number of vertices"),
        7 => ("vertex", "is out of range"),
        8 => ("quad", "is not strictly convex"),
        9 => (
            "",
            "a vertex or an index is in no draw, or a corner or a ring in no polygon",
        ),
        10 => ("", "the polygons have 4294967296 corners or more"),
        11 => ("ring", "ends before it begins, or behind the last corner"),
        12 => ("polygon", "ends before it begins, or behind the last ring"),
        13 => ("", "there are fewer colors than polygons"),
        14 => ("", "there are fewer depths than polygons"),
        15 => ("", "no such topology"),
        16 => ("", "no such culling"),
        17 => ("", "no such depth test"),
        18 => ("", "depth_write is neither 0 nor 1"),
        19 => ("", "keep has a bit of no channel"),
        20 => ("", "scissor_enable is neither 0 nor 1"),
        21 => ("", "no such blend factor"),
        22 => ("", "no such blend operation"),
        23 => ("", "no such fill rule"),
        24 => ("", "there are fewer boxes than polygons"),
        // end of words
        _ => ("", Status::BadBatch.text()),
    }
}

/// What is wrong with a batch.
fn batch_message(error: &Error) -> Message {
    let mut text = Message::new();
    if error.draw != NONE {
        let _ = write!(text, "draw {}: ", error.draw);
    }
    let (element, words) = batch_words(error.cause);
    if error.element != NONE {
        let _ = write!(text, "{element} {} ", error.element);
    } else if !element.is_empty() {
        let _ = write!(text, "one {element} ");
    }
    if error.value != NONE {
        let _ = write!(text, "is {}, which ", error.value);
    }
    let _ = text.try_push_str(words);
    text
}

/// The message of an error.
fn message_of(error: &Error) -> Message {
    let mut text = Message::new();
    match Status::of_number(error.status) {
        Some(Status::BadList) => return list_message(error),
        Some(Status::BadBatch) => return batch_message(error),
        Some(status) => text.push_str(status.text()),
        None if error.status == 0 => text.push_str("ok"),
        None => text.push_str("unknown status"),
    }
    text
}

/// Writes the message of an error at the beginning of the buffer, with a zero byte behind it, or as much of it as fits
/// before a zero byte. Bytes behind that are unchanged. Returns the length of the whole message in bytes.
#[unsafe(no_mangle)]
pub extern "C" fn trirast_error_message(error: &Error, buffer: &mut [u8]) -> usize
    ensures short { result < 128 }
    ensures end { 1 ≤ length buffer.old → slice_index buffer.new (min result (length buffer.old - 1)) ≡ 0 }
    ensures behind { drop (result + 1) buffer.new ≡ drop (result + 1) buffer.old }
{
    let text = message_of(error);
    let bytes = text.as_str().as_bytes();
    if !buffer.is_empty() {
        let fits = bytes.len().min(buffer.len() - 1);
        buffer[..fits].copy_from_slice(&bytes[..fits]);
        buffer[fits] = 0;
    }
    bytes.len()
}
