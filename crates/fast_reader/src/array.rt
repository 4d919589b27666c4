ghost use Rattle.std.specs.Prelude.{◌≡◌, ◌∷◌, IfSome, IsTrue, Some, option_map};
ghost use Rattle.json.specs.Token.{begin_array, begin_object};
ghost use Rattle.json.specs.Json.{read_key};
ghost use Rattle.list_json.specs.Denotes.{IsClearColour, IsWriteMask, IsScissorSide, IsScissor};
ghost use Rattle.fast_reader.specs.Took.{Took};

use crate::number::{channel, take_between};
use crate::word::take_truth;
use draw_list::MOST_PIXELS;
use grid::PixelBox;
use json_tokens::Cursor;

/// Takes the bracket that opens an array, if it is next.
#[inline(always)]
pub(crate) fn take_begin_array(reader: &mut Cursor<'_>) -> bool
    ensures { IsTrue result → reader.old ≡ begin_array ∷ reader.new }
{
    reader.take_begin_array()
}

/// Takes the brace that opens an object, if it is next.
pub(crate) fn take_begin_object(reader: &mut Cursor<'_>) -> bool
    ensures { IsTrue result → reader.old ≡ begin_object ∷ reader.new }
{
    reader.take_begin_object()
}

/// Takes a key, or the brace that closes the object.
pub(crate) fn take_key<'a>(reader: &mut Cursor<'a>) -> Option<Option<&'a str>>
    ensures { IfSome result (λ k. read_key reader.old ≡ Some (option_map (λ s. s.now) k, reader.new)) }
{
    reader.take_key()
}

/// Takes a colour, written as [red, green, blue].
pub(crate) fn take_colour(reader: &mut Cursor<'_>) -> Option<[u8; 3]>
    ensures { IfSome result (λ c. Took 1 (λ d c. IsClearColour (Some d) c) reader.old c reader.new) }
{
    let (red, green, blue) = reader.take_three()?;
    Some([channel(red)?, channel(green)?, channel(blue)?])
}

/// Takes which channels are written, as [red, green, blue].
pub(crate) fn take_write_mask(reader: &mut Cursor<'_>) -> Option<[bool; 3]>
    ensures { IfSome result (λ w. Took 1 (λ d w. IsWriteMask (Some d) w) reader.old w reader.new) }
{
    if !take_begin_array(reader) {
        return None;
    }
    let mask = [
        take_truth(reader)?,
        take_truth(reader)?,
        take_truth(reader)?,
    ];
    if !reader.take_end_array() {
        return None;
    }
    Some(mask)
}

/// Takes a side of a scissor, in pixels.
fn take_scissor_side(reader: &mut Cursor<'_>) -> Option<i32>
    ensures { IfSome result (λ z. Took 0 (λ d z. IsScissorSide (Some d) z) reader.old z reader.new) }
{
    Some(take_between(reader, 0, i64::from(MOST_PIXELS))? as i32)
}

/// Takes a scissor, written as [left, top, right, bottom].
pub(crate) fn take_scissor(reader: &mut Cursor<'_>) -> Option<PixelBox>
    ensures { IfSome result (λ s. Took 1 (λ d s. IsScissor (Some d) s) reader.old s reader.new) }
{
    if !take_begin_array(reader) {
        return None;
    }
    let scissor = PixelBox {
        x0: take_scissor_side(reader)?,
        y0: take_scissor_side(reader)?,
        x1: take_scissor_side(reader)?,
        y1: take_scissor_side(reader)?,
    };
    if !reader.take_end_array() {
        return None;
    }
    Some(scissor)
}
