//! Pictures in the caller's memory.
ghost use Rattle.std.specs.Prelude.{◌≡◌, ◌≢◌, ◌↔◌, ◌*◌, ◌≤◌, length, IsSome, IfSome, IfOk, OnOk, OnErr, ⊤};
ghost use Rattle.canvas.specs.Layout.{planes_of_rows};
ghost use Rattle.readout.specs.Colours.{AreResolved};
ghost use Rattle.readout.specs.Pixels.{pixel_bytes};
ghost use Rattle.readout.specs.Loaded.{AreLoaded};
ghost use Rattle.checks.specs.Checking.{IsJudged, check, followed_by, done as checked};
ghost use Rattle.c_abi.specs.Calls.{IsStatus};
ghost use Rattle.c_abi.specs.declared.status.Status.TheVariants as failed;
ghost use Rattle.canvas_c.specs.Pieces.{has_alpha, AreRowsOf, OnRows, IsFormat, format_of as format_named, stride_of as row_stride, piece_checks, image_checks};

use crate::piece::{CanvasHead, CanvasPiece, fitted, rows_of};
use c_abi::{Status, status_of};
use canvas::TileRows;
use lanes::BlockSamples;
use readout::{Format, View, load};

/// The format of this number.
fn format_of(number: u32) -> Option<Format>
    ensures some { IsSome result ↔ IsFormat number }
    ensures value { IfSome result (λ format. format ≡ format_named number) }
{
    match number {
        // generated: formats
        0 => Some(Format::Rgb8),
        1 => Some(Format::Rgba8),
        2 => Some(Format::Bgra8),
        3 => Some(Format::Rgba8Straight),
        4 => Some(Format::Bgra8Straight),
        // end of formats
        _ => None,
    }
}

/// The tile rows that the caller names, and the format of this number.
pub(crate) fn image_rows(
    head: &CanvasHead,
    planes: &[BlockSamples],
    format: u32,
) -> Result<(TileRows, Format), Status>
    ensures judged { IsJudged (followed_by (piece_checks head.now (length planes.now))
        (check (IsFormat format) failed.BadFormat checked)) (λ found. AreRowsOf head.now found.0) result }
    ensures planes { IfOk result (λ found. length planes.now ≡
        planes_of_rows found.0.canvas found.0.first found.0.end) }
    ensures format { IfOk result (λ found. found.1 ≡ format_named format) }
{
    let rows = rows_of(head, planes)?;
    match format_of(format) {
        Some(format) => Ok((rows, format)),
        None => Err(Status::BadFormat),
    }
}

/// The bytes from the beginning of a row of pixels to that of the next: those of a row if the caller says 0.
pub(crate) fn stride_of(head: &CanvasHead, format: Format, stride: usize) -> usize
    requires { head.now.width ≤ 4096 }
    ensures { result ≡ row_stride (head.now.width * pixel_bytes format) stride }
{
    match stride {
        0 => head.width as usize * format.pixel_bytes(),
        _ => stride,
    }
}

/// Makes a picture the colour of all samples of its pixels.
fn load_into(
    head: &CanvasHead,
    planes: &mut [BlockSamples],
    format: u32,
    pixels: &[u8],
    stride: usize,
) -> Result<(), Status>
    ensures judged { IsJudged (image_checks head.now (length planes.old) format stride (length pixels.now)) (λ done. ⊤)
        result }
    ensures loaded { OnOk result (OnRows head.now
        (λ c first end. AreLoaded c first end pixels.now (format_named format)
        (row_stride (head.now.width * pixel_bytes (format_named format)) stride) (has_alpha head.now) planes.old
        planes.new)) }
    ensures kept { OnErr result (planes.new ≡ planes.old) }
{
    let (rows, format) = image_rows(head, planes, format)?;
    let mut piece = rows.over(planes);
    fitted(load(
        &mut piece,
        pixels,
        format,
        stride_of(head, format, stride),
        head.has_alpha(),
    ))
}

/// Makes a picture in this format the colour of all samples of its pixels in these tile rows; depths are unchanged.
/// Returns the status. If it is not 0, the samples are unchanged.
#[unsafe(no_mangle)]
pub extern "C" fn trirast_canvas_load(
    canvas: &mut CanvasPiece<'_>,
    format: u32,
    pixels: &[u8],
    stride: usize,
) -> u32
    ensures status { IsStatus (image_checks canvas.old.head (length canvas.old.planes.now) format stride
        (length pixels.now)) result }
    ensures loaded { result ≡ 0 → OnRows canvas.old.head
        (λ c first end. AreLoaded c first end pixels.now (format_named format)
        (row_stride (canvas.old.head.width * pixel_bytes (format_named format)) stride) (has_alpha canvas.old.head)
        canvas.old.planes.now canvas.new.planes.now) }
    ensures kept { result ≢ 0 → canvas.new.planes.now ≡ canvas.old.planes.now }
    ensures head { canvas.new.head ≡ canvas.old.head }
    ensures same { canvas.new.planes.ghost_name ≡ canvas.old.planes.ghost_name }
{
    let head = canvas.head;
    status_of(load_into(&head, canvas.planes, format, pixels, stride))
}

/// Writes the colour of each pixel of these tile rows in this format. Bytes of no pixel are unchanged. Returns the
/// status. If it is not 0, nothing is written.
#[unsafe(no_mangle)]
pub extern "C" fn trirast_canvas_resolve(
    canvas: &CanvasPiece<'_>,
    format: u32,
    pixels: &mut [u8],
    stride: usize,
) -> u32
    ensures status { IsStatus (image_checks canvas.now.head (length canvas.now.planes.now) format stride
        (length pixels.old)) result }
    ensures resolved { result ≡ 0 → OnRows canvas.now.head
        (λ c first end. AreResolved c first end canvas.now.planes.now (format_named format)
        (row_stride (canvas.now.head.width * pixel_bytes (format_named format)) stride) pixels.old pixels.new) }
    ensures kept { result ≢ 0 → pixels.new ≡ pixels.old }
{
    match image_rows(&canvas.head, canvas.planes, format) {
        Ok((rows, format)) => {
            let view = View::of(&rows, canvas.planes);
            let stride = stride_of(&canvas.head, format, stride);
            status_of(fitted(view.resolve(pixels, format, stride)))
        }
        Err(failed) => failed.number(),
    }
}
