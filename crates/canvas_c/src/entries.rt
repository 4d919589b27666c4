//! Depths and ids, written to the caller's memory.
ghost use Rattle.std.specs.Prelude.{◌≡◌, ◌≢◌, ◌<◌, length, map, OnOk, OnErr, ⊤};
ghost use Rattle.readout.specs.Colours.{AreEntries, AreDepths, AreIds};
ghost use Rattle.checks.specs.Checking.{IsJudged};
ghost use Rattle.c_abi.specs.Calls.{IsStatus};
ghost use Rattle.canvas_c.specs.Pieces.{OnRows, entries_of as row_entries, entries_checks};

use crate::piece::{CanvasHead, CanvasPiece, fitted, rows_of};
use c_abi::{Status, status_of};
use lanes::BlockSamples;
use readout::{Entry, View};

/// The bytes of a depth and of an id.
const DEPTH_BYTES: usize = size_of::<u16>();

const ID_BYTES: usize = size_of::<u32>();

/// The entries from the beginning of a row to that of the next: those of a row if the caller says 0, else those of
/// `stride` bytes.
fn entries_of(width: u32, entry_bytes: usize, stride: usize) -> usize
    requires { 0 < entry_bytes }
    ensures { result ≡ row_entries width entry_bytes stride }
{
    match stride {
        0 => width as usize,
        _ => stride / entry_bytes,
    }
}

/// Writes the entry of one sample of each pixel. An entry has `entry_bytes` bytes.
fn entries_into<E: Entry>(
    head: &CanvasHead,
    planes: &[BlockSamples],
    sample: u32,
    entries: &mut [E],
    entry_bytes: usize,
    stride: usize,
) -> Result<(), Status>
    requires { 0 < entry_bytes }
    ensures judged { IsJudged (entries_checks head.now (length planes.now) sample entry_bytes stride
        (length entries.old)) (λ done. ⊤) result }
    ensures written { OnOk result (OnRows head.now
        (λ c first end. AreEntries E.number_of c first end planes.now sample
        (row_entries head.now.width entry_bytes stride) (map E.number entries.old) (map E.number entries.new))) }
    ensures kept { OnErr result (entries.new ≡ entries.old) }
{
    let rows = rows_of(head, planes)?;
    if sample >= head.samples.max(1) {
        return Err(Status::BadSample);
    }
    if stride % entry_bytes != 0 {
        return Err(Status::BadStride);
    }
    let stride = entries_of(head.width, entry_bytes, stride);
    fitted(View::of(&rows, planes).entries(sample, entries, stride))
}

/// Writes the depth of sample `sample` of each pixel of these tile rows. Entries of no pixel are unchanged. Returns the
/// status. If it is not 0, nothing is written.
#[unsafe(no_mangle)]
pub extern "C" fn trirast_canvas_depths(
    canvas: &CanvasPiece<'_>,
    sample: u32,
    depths: &mut [u16],
    stride: usize,
) -> u32
    ensures status { IsStatus (entries_checks canvas.now.head (length canvas.now.planes.now) sample 2 stride
        (length depths.old)) result }
    ensures written { result ≡ 0 → OnRows canvas.now.head
        (λ c first end. AreDepths c first end canvas.now.planes.now sample (row_entries canvas.now.head.width 2 stride)
        depths.old depths.new) }
    ensures kept { result ≢ 0 → depths.new ≡ depths.old }
{
    let planes = &*canvas.planes;
    status_of(entries_into(&canvas.head, planes, sample, depths, DEPTH_BYTES, stride))
}

/// Writes the id of sample `sample` of each pixel of these tile rows. Entries of no pixel are unchanged. Returns the
/// status. If it is not 0, nothing is written.
#[unsafe(no_mangle)]
pub extern "C" fn trirast_canvas_ids(
    canvas: &CanvasPiece<'_>,
    sample: u32,
    ids: &mut [u32],
    stride: usize,
) -> u32
    ensures status { IsStatus (entries_checks canvas.now.head (length canvas.now.planes.now) sample 4 stride
        (length ids.old)) result }
    ensures written { result ≡ 0 → OnRows canvas.now.head
        (λ c first end. AreIds c first end canvas.now.planes.now sample (row_entries canvas.now.head.width 4 stride)
        ids.old ids.new) }
    ensures kept { result ≢ 0 → ids.new ≡ ids.old }
{
    let planes = &*canvas.planes;
    status_of(entries_into(&canvas.head, planes, sample, ids, ID_BYTES, stride))
}
