//! Batches, drawn at the samples of tile rows.
ghost use Rattle.std.specs.Prelude.{◌≡◌, ◌≢◌, length, OnOk, OnErr, None as Nothing, Some as Just, ⊤};
ghost use Rattle.canvas.specs.Drawing.{HaveEnds};
ghost use Rattle.canvas.specs.Ids.{with_ids};
ghost use Rattle.batch.specs.Seen.{triangles_seen};
ghost use Rattle.batch.specs.Ids.{drawn_as};
ghost use Rattle.c_abi.specs.Calls.{IsCall, IsReport};
ghost use Rattle.canvas_c.specs.Arrays.{indices_of, vertices_of};
ghost use Rattle.canvas_c.specs.Pieces.{has_alpha, OnRows};
ghost use Rattle.canvas_c.specs.Batches.{draw_call_checks, batch_fault, IsFirstOfBatch};

use crate::arrays::Batch;
use crate::piece::{CanvasHead, CanvasPiece, rows_of};
use batch::{BatchFault, draw_batch};
use c_abi::{CallError, Error, Fault, Status, report};
use canvas::Origin;
use lanes::BlockSamples;

/// What is wrong with a batch, by its numbers.
fn fault_of(fault: BatchFault) -> Fault
    ensures { result ≡ batch_fault fault }
{
    Fault {
        cause: fault.cause.number(),
        draw: fault.draw,
        element: fault.element,
        value: fault.value,
    }
}

/// Draws a batch, in its colours or by ids.
fn draw_into(
    head: &CanvasHead,
    planes: &mut [BlockSamples],
    batch: &Batch<'_>,
    ids: Option<u32>,
) -> Result<(), CallError>
    ensures judged { IsCall (draw_call_checks head.now (length planes.old) ids batch.now)
        (IsFirstOfBatch head.now ids batch.now) (λ done. ⊤) result }
    ensures drawn { OnOk result (OnRows head.now (λ c first end.
        HaveEnds (drawn_as ids (triangles_seen (has_alpha head.now) head.now.origin_x head.now.origin_y batch.now.draws.now (vertices_of batch.now) (indices_of batch.now))) c first end planes.old planes.new)) }
    ensures kept { OnErr result (planes.new ≡ planes.old) }
{
    let rows = rows_of(head, planes)?;
    if !batch.has_size() {
        return Err(CallError::from(Status::BadStructSize));
    }
    let Some(vertices) = batch.given_vertices() else {
        return Err(CallError::from(Status::BadStride));
    };
    if !batch.has_index_size() {
        return Err(CallError::from(Status::BadIndexSize));
    }
    let origin = Origin {
        x: head.origin_x,
        y: head.origin_y,
    };
    if !batch.has_all(&vertices) {
        return Err(CallError::of_batch(fault_of(BatchFault::left_over())));
    }
    let indices = batch.given_indices();
    let mut piece = rows.over(planes);
    let alpha = head.has_alpha();
    match draw_batch(
        &mut piece,
        batch.draws,
        &vertices,
        &indices,
        &origin,
        ids,
        alpha,
    ) {
        Ok(()) => Ok(()),
        Err(fault) => Err(CallError::of_batch(fault_of(fault))),
    }
}

/// Draws a batch at the samples of these tile rows, over what is stored there. Returns the status, and writes the
/// error. If the status is not 0, the samples are unchanged.
#[unsafe(no_mangle)]
pub extern "C" fn trirast_proved_canvas_draw(
    canvas: &mut CanvasPiece<'_>,
    batch: &Batch<'_>,
    error: &mut Error,
) -> u32
    ensures report { IsReport (draw_call_checks canvas.old.head (length canvas.old.planes.now) Nothing batch.now)
        (IsFirstOfBatch canvas.old.head Nothing batch.now) result error.new }
    ensures drawn { result ≡ 0 → OnRows canvas.old.head (λ c first end.
        HaveEnds (triangles_seen (has_alpha canvas.old.head) canvas.old.head.origin_x canvas.old.head.origin_y batch.now.draws.now (vertices_of batch.now) (indices_of batch.now)) c first end canvas.old.planes.now canvas.new.planes.now) }
    ensures kept { result ≢ 0 → canvas.new.planes.now ≡ canvas.old.planes.now }
    ensures head { canvas.new.head ≡ canvas.old.head }
    ensures same { canvas.new.planes.ghost_name ≡ canvas.old.planes.ghost_name }
{
    let head = canvas.head;
    report(draw_into(&head, canvas.planes, batch, None), error)
}

/// Draws a batch in the same way, each triangle in the colour of its id, unblended: `first_id` and its place in the
/// batch.
#[unsafe(no_mangle)]
pub extern "C" fn trirast_proved_canvas_draw_ids(
    canvas: &mut CanvasPiece<'_>,
    batch: &Batch<'_>,
    first_id: u32,
    error: &mut Error,
) -> u32
    ensures report { IsReport (draw_call_checks canvas.old.head (length canvas.old.planes.now) (Just first_id) batch.now)
        (IsFirstOfBatch canvas.old.head (Just first_id) batch.now) result error.new }
    ensures drawn { result ≡ 0 → OnRows canvas.old.head (λ c first end.
        HaveEnds (with_ids (triangles_seen (has_alpha canvas.old.head) canvas.old.head.origin_x canvas.old.head.origin_y batch.now.draws.now (vertices_of batch.now) (indices_of batch.now)) first_id) c first end canvas.old.planes.now canvas.new.planes.now) }
    ensures kept { result ≢ 0 → canvas.new.planes.now ≡ canvas.old.planes.now }
    ensures head { canvas.new.head ≡ canvas.old.head }
    ensures same { canvas.new.planes.ghost_name ≡ canvas.old.planes.ghost_name }
{
    let head = canvas.head;
    report(
        draw_into(&head, canvas.planes, batch, Some(first_id)),
        error,
    )
}
