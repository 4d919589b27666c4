//! The samples of one tile, in the caller's memory.
ghost use Rattle.std.specs.Prelude.{◌≡◌, ◌≢◌, length, OnOk, OnErr, ⊤};
ghost use Rattle.readout.specs.Tiles.{AreTileColours};
ghost use Rattle.checks.specs.Checking.{IsJudged};
ghost use Rattle.c_abi.specs.Calls.{IsStatus};
ghost use Rattle.canvas_c.specs.Pieces.{OnRows};
ghost use Rattle.canvas_c.specs.Samples.{tile_ids_checks, tile_store_checks, status_for, AreIdsOfTile};

use crate::piece::{CanvasHead, CanvasPiece, rows_of};
use c_abi::{Status, status_of};
use lanes::BlockSamples;
use readout::{Misfit, View, tile_store};

/// The status of a call for a tile that does not fit.
pub(crate) fn status_for_tile(misfit: Misfit) -> Status
    ensures { result ≡ status_for misfit }
{
    match misfit {
        Misfit::Tile => Status::BadTile,
        Misfit::Pixels | Misfit::Sample => Status::BufferTooSmall,
    }
}

/// 1 if that number of entries is one, else 0.
fn is_one(many: usize) -> u32
    ensures one { many ≡ 1 → result ≡ 1 }
    ensures more { many ≢ 1 → result ≡ 0 }
{
    if many == 1 { 1 } else { 0 }
}

/// Writes the ids of a tile's samples. Returns whether one was written, which is that of all samples: 1 if so, else 0.
fn ids_into(
    head: &CanvasHead,
    planes: &[BlockSamples],
    column: u32,
    row: u32,
    ids: &mut [u32],
) -> Result<u32, Status>
    ensures judged { IsJudged (tile_ids_checks head.now (length planes.now) column row (length ids.old))
        (λ uniform. OnRows head.now
        (λ c first end. AreIdsOfTile c first end column row planes.now ids.old ids.new uniform)) result }
    ensures kept { OnErr result (ids.new ≡ ids.old) }
{
    let rows = rows_of(head, planes)?;
    match View::of(&rows, planes).tile_ids(column, row, ids) {
        Ok(many) => Ok(is_one(many)),
        Err(misfit) => Err(status_for_tile(misfit)),
    }
}

/// Writes the ids of all samples of a tile, or one if all of its blocks are cleared and have one id, and whether it was
/// one. Entries behind them are unchanged. Returns the status. If it is not 0, nothing is written.
#[unsafe(no_mangle)]
pub extern "C" fn trirast_canvas_tile_ids(
    canvas: &CanvasPiece<'_>,
    column: u32,
    row: u32,
    ids: &mut [u32],
    uniform: &mut u32,
) -> u32
    ensures status { IsStatus (tile_ids_checks canvas.now.head (length canvas.now.planes.now) column row
        (length ids.old)) result }
    ensures written { result ≡ 0 → OnRows canvas.now.head
        (λ c first end. AreIdsOfTile c first end column row canvas.now.planes.now ids.old ids.new uniform.new) }
    ensures kept { result ≢ 0 → (ids.new ≡ ids.old) × (uniform.new ≡ uniform.old) }
{
    match ids_into(&canvas.head, canvas.planes, column, row, ids) {
        Ok(told) => {
            *uniform = told;
            0
        }
        Err(failed) => failed.number(),
    }
}

/// Stores colours in place of those of a tile's samples.
fn store_in_tile(
    head: &CanvasHead,
    planes: &mut [BlockSamples],
    column: u32,
    row: u32,
    colours: &[u32],
) -> Result<(), Status>
    ensures judged { IsJudged (tile_store_checks head.now (length planes.old) column row (length colours.now))
        (λ done. ⊤) result }
    ensures stored { OnOk result (OnRows head.now
        (λ c first end. AreTileColours c first end column row colours.now planes.old planes.new)) }
    ensures kept { OnErr result (planes.new ≡ planes.old) }
{
    let rows = rows_of(head, planes)?;
    let mut piece = rows.over(planes);
    match tile_store(&mut piece, column, row, colours) {
        Ok(()) => Ok(()),
        Err(misfit) => Err(status_for_tile(misfit)),
    }
}

/// Stores the colours of all samples of a tile, or one colour for all of them. Depths, alpha and other tiles are
/// unchanged. Returns the status. If it is not 0, the samples are unchanged.
#[unsafe(no_mangle)]
pub extern "C" fn trirast_canvas_tile_store(
    canvas: &mut CanvasPiece<'_>,
    column: u32,
    row: u32,
    colours: &[u32],
) -> u32
    ensures status { IsStatus (tile_store_checks canvas.old.head (length canvas.old.planes.now) column row
        (length colours.now)) result }
    ensures stored { result ≡ 0 → OnRows canvas.old.head
        (λ c first end. AreTileColours c first end column row colours.now canvas.old.planes.now canvas.new.planes.now) }
    ensures kept { result ≢ 0 → canvas.new.planes.now ≡ canvas.old.planes.now }
    ensures head { canvas.new.head ≡ canvas.old.head }
    ensures same { canvas.new.planes.ghost_name ≡ canvas.old.planes.ghost_name }
{
    let head = canvas.head;
    status_of(store_in_tile(&head, canvas.planes, column, row, colours))
}
