//! Tile rows of a list's picture, as bytes in the caller's buffer.
ghost use Rattle.std.specs.Prelude.{◌≡◌, ◌≢◌, length, OnOk, OnErr, ⊤};
ghost use Rattle.list_json.specs.Denotes.{Denotes};
ghost use Rattle.c_abi.specs.Calls.{IsCall, IsReport};
ghost use Rattle.trirast_c.specs.Texts.{IsFirstOfText};
ghost use Rattle.trirast_c.specs.Library.{DrawsRows, rows_checks};

use crate::buffer::put;
use crate::text::list_of;
use crate::tile_size::side_of;
use c_abi::{CallError, Error, Status, report};
use engine::{bytes_of_rows, draw_rows};
use std::alloc::Global;
use std::ops::Range;
use tiling::Tiling;

/// Draws the rows of pixels in these tile rows into the buffer. They are drawn into memory of their own first, so that
/// the buffer is unchanged if an allocation fails.
fn draw_rows_into(
    alloc: Global,
    json: &[u8],
    tile_size: u32,
    rows: Range<u32>,
    buffer: &mut [u8],
) -> Result<(), CallError>
    ensures drawn { OnOk result (DrawsRows (Denotes json.now) tile_size rows.start rows.end buffer.old buffer.new) }
    ensures kept { OnErr result (buffer.new ≡ buffer.old) }
    ensures judged { IsCall (rows_checks json.now tile_size rows.start rows.end (length buffer.old))
        (IsFirstOfText json.now) (λ done. ⊤) result }
{
    let Range { start: first, end } = rows;
    let side = side_of(tile_size)?;
    let list = list_of(alloc, json)?;
    if first >= end || end > Tiling::new(list.width(), list.height(), side).rows() {
        return Err(CallError::from(Status::BadTileRows));
    }
    if bytes_of_rows(&list, side, first, end) > buffer.len() as u64 {
        return Err(CallError::from(Status::BufferTooSmall));
    }
    put(&draw_rows(alloc, &list, side, first, end)?, buffer);
    Ok(())
}

/// Draws the tile rows from `first` to before `end`, counted from the top, of a list's picture by tiles of this size,
/// in pixels. The bytes of their rows of pixels go to the beginning of the buffer, without a header; bytes behind them
/// are unchanged. Returns the status, and writes the error. If the status is not 0, the buffer is unchanged. Two calls
/// share nothing, so several threads may each draw tile rows of one picture.
#[unsafe(no_mangle)]
pub extern "C" fn trirast_proved_list_draw_rows(
    alloc: Global,
    json: &[u8],
    tile_size: u32,
    first: u32,
    end: u32,
    buffer: &mut [u8],
    error: &mut Error,
) -> u32
    ensures drawn { result ≡ 0 → DrawsRows (Denotes json.now) tile_size first end buffer.old buffer.new }
    ensures kept { result ≢ 0 → buffer.new ≡ buffer.old }
    ensures report { IsReport (rows_checks json.now tile_size first end (length buffer.old)) (IsFirstOfText json.now)
        result error.new }
{
    report(
        draw_rows_into(alloc, json, tile_size, first..end, buffer),
        error,
    )
}
