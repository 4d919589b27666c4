//! Tile rows of a canvas, as the caller names them.
ghost use Rattle.std.specs.Prelude.{◌≡◌, ◌↔◌, ◌⊎◌, ◌+◌, ◌*◌, ◌/◌, ◌≤◌, length, IsTrue, IsSome, IfSome, IsOk, IfOk, IfErr};
ghost use Rattle.checks.specs.Checking.{IsJudged};
ghost use Rattle.canvas.specs.Layout.{planes_of_rows};
ghost use Rattle.grid.specs.Samples.{pattern_of};
ghost use Rattle.canvas_c.specs.Pieces.{IsCount, AreChannels, IsCanvas, IsWhole, has_alpha, planes_listed, tile_rows_of, AreRowsOf, piece_checks};

use c_abi::{Status, is_own_size};
use canvas::{Canvas, TileRows};
use grid::SampleCount;
use lanes::BlockSamples;
use readout::Misfit;

/// The bytes of a plane of samples.
const PLANE_BYTES: usize = size_of::<BlockSamples>();

/// The bytes of a piece of a canvas.
const PIECE_SIZE: u32 = size_of::<CanvasPiece<'_>>() as u32;

/// A canvas and some of its tile rows, laid out as in C.
#[repr(C)]
#[derive(Clone, Copy, Debug, PartialEq, Eq)]
pub struct CanvasHead {
    /// The bytes of the whole struct, as the caller has it, or 0.
    pub struct_size: u32,
    /// The pixels of a row of the whole canvas: 1 to 4096.
    pub width: u32,
    /// Its rows of pixels: 1 to 4096.
    pub height: u32,
    /// The samples of a pixel: as many as `SampleCount::of` takes, or 0 for 1.
    pub samples: u32,
    /// The channels of a sample: 3, without alpha; 0 for 3; or 4, with alpha.
    pub channels: u32,
    /// The column of the screen at which its upper left pixel lies.
    pub origin_x: i32,
    /// The row of the screen at which its upper left pixel lies.
    pub origin_y: i32,
    /// The first of these tile rows.
    pub first: u32,
    /// The tile row behind the last one.
    pub end: u32,
    /// 1 once the canvas got its memory, else 0.
    pub initialized: u32,
}

impl CanvasHead {
    /// Whether the canvas has alpha.
    pub(crate) fn has_alpha(&self) -> bool
        ensures { result ≡ has_alpha self.now }
    {
        self.channels == 4
    }
}

/// Tile rows of a canvas with the planes of their samples, laid out as in C.
#[repr(C)]
#[derive(Drop)]
pub struct CanvasPiece<'a> {
    /// What they are.
    pub head: CanvasHead,
    /// Their planes.
    pub planes: &'a mut [BlockSamples],
}

/// This number of samples of a pixel, with 0 for one.
fn count_of(samples: u32) -> Option<SampleCount>
    ensures some { IsSome result ↔ IsCount samples }
    ensures value { IfSome result (λ count. count ≡ pattern_of samples) }
{
    match samples {
        0 => Some(SampleCount::One),
        _ => SampleCount::of(samples),
    }
}

/// Whether a sample may have this number of channels.
fn has_channels(channels: u32) -> bool
    ensures { IsTrue result ↔ AreChannels channels }
{
    channels == 0 || channels == 3 || channels == 4
}

/// The canvas that the caller names.
fn canvas(head: &CanvasHead) -> Option<Canvas>
    ensures some { IsSome result ↔ IsCanvas head.now }
    ensures value { IfSome result (λ c. (c.width ≡ head.now.width) × (c.height ≡ head.now.height) ×
        (c.count ≡ pattern_of head.now.samples)) }
{
    let count = count_of(head.samples)?;
    if !has_channels(head.channels) {
        return None;
    }
    Canvas::new(head.width, head.height, count)
}

/// The canvas that the caller names, if its struct has the size that this library knows.
pub(crate) fn whole(head: &CanvasHead) -> Option<Canvas>
    ensures some { IsSome result ↔ IsWhole head.now }
    ensures value { IfSome result (λ c. (c.width ≡ head.now.width) × (c.height ≡ head.now.height) ×
        (c.count ≡ pattern_of head.now.samples)) }
{
    if !is_own_size(head.struct_size, PIECE_SIZE) {
        return None;
    }
    canvas(head)
}

/// The tile rows that the caller names, if their memory has as many planes.
pub(crate) fn rows_of(head: &CanvasHead, planes: &[BlockSamples]) -> Result<TileRows, Status>
    ensures judged { IsJudged (piece_checks head.now (length planes.now)) (AreRowsOf head.now) result }
    ensures planes { IfOk result (λ rows. length planes.now ≡ planes_of_rows rows.canvas rows.first rows.end) }
{
    if !is_own_size(head.struct_size, PIECE_SIZE) {
        return Err(Status::BadStructSize);
    }
    let Some(canvas) = canvas(head) else {
        return Err(Status::BadCanvas);
    };
    let Some(rows) = canvas.rows(head.first, head.end) else {
        return Err(Status::BadTileRows);
    };
    if head.initialized != 1 {
        return Err(Status::BadMemory);
    }
    if !rows.fits(planes.len()) {
        return Err(Status::BadMemory);
    }
    Ok(rows)
}

/// How a call ended that reads or writes rows of pixels: whatever does not fit, the caller's memory is too small for
/// them.
pub(crate) fn fitted(ended: Result<(), Misfit>) -> Result<(), Status>
    ensures done { IsOk result ↔ IsOk ended }
    ensures small { IfErr result (λ failed. failed ≡ Status.BufferTooSmall) }
{
    match ended {
        Ok(()) => Ok(()),
        Err(_) => Err(Status::BufferTooSmall),
    }
}

/// The bytes of the samples of all tile rows of the canvas. Returns 0 if there is no such canvas.
#[unsafe(no_mangle)]
pub extern "C" fn trirast_canvas_size(head: &CanvasHead) -> usize
    ensures value { IsWhole head.now → result ≡
        384 * planes_listed head.now.width head.now.samples 0 (tile_rows_of head.now.height) }
    ensures none { ¬ IsWhole head.now → result ≡ 0 }
{
    match whole(head) {
        Some(canvas) => PLANE_BYTES * canvas.all().planes(),
        None => 0,
    }
}

/// The number of tile rows of the canvas. Returns 0 if there is no such canvas.
#[unsafe(no_mangle)]
pub extern "C" fn trirast_canvas_tile_rows(head: &CanvasHead) -> u32
    ensures value { IsWhole head.now → result ≡ tile_rows_of head.now.height }
    ensures none { ¬ IsWhole head.now → result ≡ 0 }
{
    match whole(head) {
        Some(canvas) => canvas.row_count(),
        None => 0,
    }
}
