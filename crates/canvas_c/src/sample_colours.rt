//! The colours of the samples of one index, in the caller's memory.
ghost use Rattle.std.specs.Prelude.{◌≡◌, ◌≢◌, ◌*◌, ◌<◌, length, IfOk, OnOk, OnErr, ⊤};
ghost use Rattle.grid.specs.Samples.{count_of, pattern_of};
ghost use Rattle.canvas.specs.Layout.{planes_of_rows};
ghost use Rattle.readout.specs.Pixels.{pixel_bytes};
ghost use Rattle.readout.specs.Colours.{AreColours};
ghost use Rattle.readout.specs.Loaded.{AreStored};
ghost use Rattle.checks.specs.Checking.{IsJudged, check, followed_by, done as checked};
ghost use Rattle.c_abi.specs.Calls.{IsStatus};
ghost use Rattle.c_abi.specs.declared.status.Status.TheVariants as failed;
ghost use Rattle.canvas_c.specs.Pieces.{has_alpha, AreRowsOf, OnRows, IsFormat, format_of as format_named, stride_of as row_stride, piece_checks};
ghost use Rattle.canvas_c.specs.Samples.{colours_checks};

use crate::images::{image_rows, stride_of};
use crate::piece::{CanvasHead, CanvasPiece, fitted};
use c_abi::{Status, status_of};
use canvas::TileRows;
use lanes::BlockSamples;
use readout::{Format, View, store};

/// The tile rows that the caller names, and the format of this number, if a pixel has the sample.
fn sample_rows(
    head: &CanvasHead,
    planes: &[BlockSamples],
    sample: u32,
    format: u32,
) -> Result<(TileRows, Format), Status>
    ensures judged { IsJudged (followed_by (piece_checks head.now (length planes.now))
        (check (IsFormat format) failed.BadFormat
        (check (sample < count_of (pattern_of head.now.samples)) failed.BadSample checked)))
        (λ found. AreRowsOf head.now found.0) result }
    ensures planes { IfOk result (λ found. length planes.now ≡
        planes_of_rows found.0.canvas found.0.first found.0.end) }
    ensures format { IfOk result (λ found. found.1 ≡ format_named format) }
{
    match image_rows(head, planes, format) {
        Ok((rows, format)) => {
            if sample >= rows.canvas.count.count() {
                return Err(Status::BadSample);
            }
            Ok((rows, format))
        }
        Err(failed) => Err(failed),
    }
}

/// Makes a picture the colour of one sample of its pixels.
fn store_into(
    head: &CanvasHead,
    planes: &mut [BlockSamples],
    sample: u32,
    format: u32,
    pixels: &[u8],
    stride: usize,
) -> Result<(), Status>
    ensures judged { IsJudged (colours_checks head.now (length planes.old) sample format stride (length pixels.now))
        (λ done. ⊤) result }
    ensures stored { OnOk result (OnRows head.now
        (λ c first end. AreStored c first end sample pixels.now (format_named format)
        (row_stride (head.now.width * pixel_bytes (format_named format)) stride) (has_alpha head.now) planes.old
        planes.new)) }
    ensures kept { OnErr result (planes.new ≡ planes.old) }
{
    let (rows, format) = sample_rows(head, planes, sample, format)?;
    let mut piece = rows.over(planes);
    fitted(store(
        &mut piece,
        sample,
        pixels,
        format,
        stride_of(head, format, stride),
        head.has_alpha(),
    ))
}

/// Makes a picture in this format the colour of sample `sample` of its pixels in these tile rows; depths and other
/// samples are unchanged. Returns the status. If it is not 0, the samples are unchanged.
#[unsafe(no_mangle)]
pub extern "C" fn trirast_canvas_store(
    canvas: &mut CanvasPiece<'_>,
    sample: u32,
    format: u32,
    pixels: &[u8],
    stride: usize,
) -> u32
    ensures status { IsStatus (colours_checks canvas.old.head (length canvas.old.planes.now) sample format stride
        (length pixels.now)) result }
    ensures stored { result ≡ 0 → OnRows canvas.old.head
        (λ c first end. AreStored c first end sample pixels.now (format_named format)
        (row_stride (canvas.old.head.width * pixel_bytes (format_named format)) stride) (has_alpha canvas.old.head)
        canvas.old.planes.now canvas.new.planes.now) }
    ensures kept { result ≢ 0 → canvas.new.planes.now ≡ canvas.old.planes.now }
    ensures head { canvas.new.head ≡ canvas.old.head }
    ensures same { canvas.new.planes.ghost_name ≡ canvas.old.planes.ghost_name }
{
    let head = canvas.head;
    status_of(store_into(&head, canvas.planes, sample, format, pixels, stride))
}

/// Writes the colour of sample `sample` of each pixel of these tile rows in this format. Bytes of no pixel are
/// unchanged. Returns the status. If it is not 0, nothing is written.
#[unsafe(no_mangle)]
pub extern "C" fn trirast_canvas_colors(
    canvas: &CanvasPiece<'_>,
    sample: u32,
    format: u32,
    pixels: &mut [u8],
    stride: usize,
) -> u32
    ensures status { IsStatus (colours_checks canvas.now.head (length canvas.now.planes.now) sample format stride
        (length pixels.old)) result }
    ensures written { result ≡ 0 → OnRows canvas.now.head
        (λ c first end. AreColours c first end canvas.now.planes.now sample (format_named format)
        (row_stride (canvas.now.head.width * pixel_bytes (format_named format)) stride) pixels.old pixels.new) }
    ensures kept { result ≢ 0 → pixels.new ≡ pixels.old }
{
    match sample_rows(&canvas.head, canvas.planes, sample, format) {
        Ok((rows, format)) => {
            let view = View::of(&rows, canvas.planes);
            let stride = stride_of(&canvas.head, format, stride);
            status_of(fitted(view.colors(sample, pixels, format, stride)))
        }
        Err(failed) => failed.number(),
    }
}
