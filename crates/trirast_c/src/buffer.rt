//! Bytes at the beginning of the caller's buffer.
ghost use Rattle.std.specs.Prelude.{◌≡◌, ◌≤◌, length, OnOk, OnErr, ⊤};
ghost use Rattle.checks.specs.Checking.{IsJudged};
ghost use Rattle.trirast_c.specs.Library.{HoldsFile, IsPut, file_checks};

use crate::image_info::ImageInfo;
use c_abi::Status;
use engine::draw;
use grid::TileSide;
use list::DrawList;
use std::alloc::Global;

/// Writes bytes at the beginning of a buffer.
pub(crate) fn put(bytes: &[u8], buffer: &mut [u8])
    requires { length bytes.now ≤ length buffer.old }
    ensures { IsPut bytes.now buffer.old buffer.new }
{
    buffer[..bytes.len()].copy_from_slice(bytes);
}

/// Draws the file of a list's picture into the buffer. It is drawn into memory of its own first, so that the buffer is
/// unchanged if an allocation fails.
pub(crate) fn file_into(
    alloc: Global,
    list: &DrawList,
    side: TileSide,
    buffer: &mut [u8],
) -> Result<(), Status>
    ensures drawn { OnOk result (HoldsFile list.now buffer.old buffer.new) }
    ensures kept { OnErr result (buffer.new ≡ buffer.old) }
    ensures judged { IsJudged (file_checks list.now (length buffer.old)) (λ done. ⊤) result }
{
    if ImageInfo::of(list).file_bytes > buffer.len() as u64 {
        return Err(Status::BufferTooSmall);
    }
    put(&draw(alloc, list, side)?, buffer);
    Ok(())
}
