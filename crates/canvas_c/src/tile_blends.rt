//! Fragments of the caller's, merged with the samples of one tile.
ghost use Rattle.std.specs.Prelude.{◌≡◌, ◌≢◌, length, Bool, OnOk, OnErr, ⊤};
ghost use Rattle.checks.specs.Checking.{IsJudged, Pass, check, done as passed};
ghost use Rattle.batch.specs.Listed.{state_listed};
ghost use Rattle.batch.specs.States.{state_checks};
ghost use Rattle.c_abi.specs.Calls.{IsStatus};
ghost use Rattle.c_abi.specs.declared.status.Status.TheVariants.{BadBatch as AsBadBatch};
ghost use Rattle.tile_blend.specs.Fragments.{IsTileBlended};
ghost use Rattle.canvas_c.specs.Pieces.{OnRows};
ghost use Rattle.canvas_c.specs.Samples.{tile_blend_checks, merge_listed};

use crate::piece::{CanvasHead, CanvasPiece, rows_of};
use crate::tiles::status_for_tile;
use batch::BatchDraw;
use c_abi::{Status, status_of};
use lanes::BlockSamples;
use shade::Merge;
use tile_blend::{TileFragments, tile_blend};

/// How a fragment is merged with a sample by a state, on a canvas that has alpha or not.
fn merge_of(state: &BatchDraw, has_alpha: bool) -> Result<Merge, Status>
    ensures { IsJudged (check (Pass (state_checks state.now)) AsBadBatch passed)
        (λ merge. merge ≡ (state_listed has_alpha state.now).merge) result }
{
    match state.check_state() {
        Ok(()) => Ok(state.state(has_alpha).merge),
        Err(_) => Err(Status::BadBatch),
    }
}

/// Merges fragments with the kept samples of a tile.
fn blend_in_tile(
    head: &CanvasHead,
    planes: &mut [BlockSamples],
    column: u32,
    row: u32,
    state: &BatchDraw,
    fragments: &TileFragments<'_>,
) -> Result<(), Status>
    ensures judged { IsJudged (tile_blend_checks head.now (length planes.old) column row state.now
        (length fragments.now.colours.now) (length fragments.now.depths.now) (length fragments.now.kept.now))
        (λ done. ⊤) result }
    ensures blended { OnOk result (OnRows head.now
        (λ c first end. IsTileBlended c first end column row (merge_listed head.now state.now) fragments.now.colours.now fragments.now.depths.now fragments.now.kept.now planes.old planes.new)) }
    ensures kept { OnErr result (planes.new ≡ planes.old) }
{
    let rows = rows_of(head, planes)?;
    let merge = merge_of(state, head.has_alpha())?;
    let mut piece = rows.over(planes);
    match tile_blend(&mut piece, column, row, &merge, fragments) {
        Ok(()) => Ok(()),
        Err(misfit) => Err(status_for_tile(misfit)),
    }
}

/// Merges fragments with the samples of a tile that the masks keep: each takes its own by the depth test, the depth
/// write, the channels that are kept and the blend equations of a draw, as a sample does that a triangle covers. The
/// rest of the draw is not looked at but for its range. All other samples are unchanged. Returns the status. If it is
/// not 0, the samples are unchanged.
#[unsafe(no_mangle)]
pub extern "C" fn trirast_canvas_tile_blend(
    canvas: &mut CanvasPiece<'_>,
    column: u32,
    row: u32,
    state: &BatchDraw,
    colours: &[u32],
    depths: &[u16],
    kept: &[u64],
) -> u32
    ensures status { IsStatus (tile_blend_checks canvas.old.head (length canvas.old.planes.now) column row state.now
        (length colours.now) (length depths.now) (length kept.now)) result }
    ensures blended { result ≡ 0 → OnRows canvas.old.head
        (λ c first end. IsTileBlended c first end column row (merge_listed canvas.old.head state.now) colours.now depths.now kept.now canvas.old.planes.now canvas.new.planes.now) }
    ensures kept { result ≢ 0 → canvas.new.planes.now ≡ canvas.old.planes.now }
    ensures head { canvas.new.head ≡ canvas.old.head }
    ensures same { canvas.new.planes.ghost_name ≡ canvas.old.planes.ghost_name }
{
    let head = canvas.head;
    let fragments = TileFragments {
        colours,
        depths,
        kept,
    };
    status_of(blend_in_tile(&head, canvas.planes, column, row, state, &fragments))
}
