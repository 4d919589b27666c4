//! The size of a picture and of its file.
ghost use Rattle.std.specs.Prelude.{◌≡◌, ◌≢◌, length, OnOk, OnErr, ⊤};
ghost use Rattle.checks.specs.Checking.{done as checked};
ghost use Rattle.list_json.specs.Denotes.{Denotes};
ghost use Rattle.c_abi.specs.Calls.{IsCall, IsReport};
ghost use Rattle.trirast_c.specs.Texts.{IsFirstOfText, text_checks};
ghost use Rattle.trirast_c.specs.Library.{HoldsInfo, IsImageInfo};

use crate::text::list_of;
use c_abi::{CallError, Error, report};
use list::DrawList;
use picture_file::file_header;
use std::alloc::Global;

/// The size of a picture and of its file, laid out as in C.
#[repr(C)]
#[derive(Clone, Copy, Debug, PartialEq, Eq)]
pub struct ImageInfo {
    /// The width of the picture, in pixels.
    pub width: u32,
    /// The height of the picture, in pixels.
    pub height: u32,
    /// The bytes of a pixel: 3 for colours, 2 for depths.
    pub pixel_bytes: u32,
    /// The bytes of the file before its first pixel.
    pub header_bytes: u32,
    /// The bytes of the whole file.
    pub file_bytes: u64,
}

impl ImageInfo {
    /// The sizes of a list's picture.
    pub(crate) fn of(list: &DrawList) -> ImageInfo
        ensures { IsImageInfo list.now result }
    {
        let pixel_bytes = list.output().pixel_bytes();
        let header_bytes = file_header(list).len() as u32;
        let pixels = list.width() * list.height();
        ImageInfo {
            width: list.width(),
            height: list.height(),
            pixel_bytes,
            header_bytes,
            file_bytes: u64::from(header_bytes) + u64::from(pixel_bytes * pixels),
        }
    }
}

/// Writes the sizes of the list's picture into `info`.
fn info_into(alloc: Global, json: &[u8], info: &mut ImageInfo) -> Result<(), CallError>
    ensures info { OnOk result (HoldsInfo (Denotes json.now) info.new) }
    ensures kept { OnErr result (info.new ≡ info.old) }
    ensures judged { IsCall (text_checks json.now checked) (IsFirstOfText json.now) (λ done. ⊤) result }
{
    *info = ImageInfo::of(&list_of(alloc, json)?);
    Ok(())
}

/// Reads a list and writes the size of its picture into `info`. Nothing is drawn. Returns the status, and writes the
/// error. If the status is not 0, `info` is unchanged.
#[unsafe(no_mangle)]
pub extern "C" fn trirast_proved_list_info(
    alloc: Global,
    json: &[u8],
    info: &mut ImageInfo,
    error: &mut Error,
) -> u32
    ensures info { result ≡ 0 → HoldsInfo (Denotes json.now) info.new }
    ensures kept { result ≢ 0 → info.new ≡ info.old }
    ensures report { IsReport (text_checks json.now checked) (IsFirstOfText json.now) result error.new }
{
    report(info_into(alloc, json, info), error)
}
