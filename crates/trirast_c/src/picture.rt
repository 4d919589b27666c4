//! The picture of a list, as a file in the caller's buffer.
ghost use Rattle.std.specs.Prelude.{◌≡◌, ◌≢◌, length, OnOk, OnErr, ⊤};
ghost use Rattle.list_json.specs.Denotes.{Denotes};
ghost use Rattle.c_abi.specs.Calls.{IsCall, IsReport};
ghost use Rattle.trirast_c.specs.Texts.{IsFirstOfText};
ghost use Rattle.trirast_c.specs.Library.{DrawsFile, picture_checks};

use crate::buffer::file_into;
use crate::text::list_of;
use crate::tile_size::side_of;
use c_abi::{CallError, Error, report};
use std::alloc::Global;

/// Draws the file of the picture of the list that the bytes denote into the buffer.
fn draw_into(alloc: Global, json: &[u8], tile_size: u32, buffer: &mut [u8]) -> Result<(), CallError>
    ensures drawn { OnOk result (DrawsFile (Denotes json.now) buffer.old buffer.new) }
    ensures kept { OnErr result (buffer.new ≡ buffer.old) }
    ensures judged { IsCall (picture_checks json.now tile_size (length buffer.old)) (IsFirstOfText json.now) (λ done. ⊤)
        result }
{
    let side = side_of(tile_size)?;
    let list = list_of(alloc, json)?;
    Ok(file_into(alloc, &list, side, buffer)?)
}

/// Draws a list's picture by tiles of this size, in pixels, and writes its file at the beginning of the buffer. Bytes
/// behind the file are unchanged. Returns the status, and writes the error. If the status is not 0, the buffer is
/// unchanged.
#[unsafe(no_mangle)]
pub extern "C" fn trirast_proved_list_draw(
    alloc: Global,
    json: &[u8],
    tile_size: u32,
    buffer: &mut [u8],
    error: &mut Error,
) -> u32
    ensures drawn { result ≡ 0 → DrawsFile (Denotes json.now) buffer.old buffer.new }
    ensures kept { result ≢ 0 → buffer.new ≡ buffer.old }
    ensures report { IsReport (picture_checks json.now tile_size (length buffer.old)) (IsFirstOfText json.now) result
        error.new }
{
    report(draw_into(alloc, json, tile_size, buffer), error)
}
