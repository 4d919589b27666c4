//! Polygons, drawn at the samples of tile rows.
ghost use Rattle.std.specs.Prelude.{◌≡◌, ◌≢◌, length, take, OnOk, OnErr, None as Nothing, Some as Just, ⊤};
ghost use Rattle.fills.specs.Painting.{ArePainted};
ghost use Rattle.polygons.specs.Cells.{AreZeros};
ghost use Rattle.c_abi.specs.Calls.{IsCall, IsReport};
ghost use Rattle.canvas_c.specs.Pieces.{has_alpha, OnRows};
ghost use Rattle.canvas_c.specs.Scratch.{flag_columns_listed};
ghost use Rattle.canvas_c.specs.PolygonChecks.{origin_of, polygons_checks, shapes_listed, HasRightBoxes, IsFirstOfPolygons};

use crate::piece::{CanvasHead, CanvasPiece, rows_of};
use crate::polygon_arrays::{PolygonArrays, is_in_band, rule_of};
use c_abi::{CallError, Error, Status, report};
use canvas::Origin;
use fills::{Style, clear, counter_columns, draw_polygons, flag_columns};
use lanes::BlockSamples;
use polygons::{Counters, Flags};

/// Draws polygons, in their colours or by ids.
fn draw_into(
    head: &CanvasHead,
    planes: &mut [BlockSamples],
    arrays: &PolygonArrays<'_>,
    ids: Option<u32>,
    flags: &mut [Flags],
    counters: &mut [Counters],
) -> Result<(), CallError>
    ensures judged { IsCall (polygons_checks head.now (length planes.old) ids arrays.now (length flags.old)
        (length counters.old)) (IsFirstOfPolygons ids arrays.now) (λ done. ⊤) result }
    ensures drawn { OnOk result (OnRows head.now
        (λ c first end. HasRightBoxes arrays.now → ArePainted (shapes_listed (has_alpha head.now) ids arrays.now)
        (origin_of head.now) c first end planes.old planes.new)) }
    ensures kept { OnErr result (planes.new ≡ planes.old) }
    ensures scratch { OnErr result ((flags.new ≡ flags.old) × (counters.new ≡ counters.old)) }
    ensures zeros { OnOk result (AreZeros (take (flag_columns_listed head.now arrays.now.fill_rule) flags.new)) }
{
    let rows = rows_of(head, planes)?;
    if !arrays.has_size() {
        return Err(CallError::from(Status::BadStructSize));
    }
    let origin = Origin {
        x: head.origin_x,
        y: head.origin_y,
    };
    if !is_in_band(&origin) {
        return Err(CallError::from(Status::BadPosition));
    }
    let rule = rule_of(arrays.fill_rule);
    let flagged = flag_columns(&rows.canvas, rule);
    let counted = counter_columns(&rows.canvas);
    if !arrays.has_scratch(flagged, counted, flags.len(), counters.len()) {
        return Err(CallError::from(Status::BufferTooSmall));
    }
    let polygons = match arrays.polygons(ids) {
        Ok(polygons) => polygons,
        Err(fault) => return Err(CallError::of_batch(fault)),
    };
    let style = Style {
        rule,
        colours: arrays.colours,
        depths: arrays.depths,
        ids,
        state: arrays.state.state(head.has_alpha()),
    };
    let flags = &mut flags[..flagged];
    clear(flags);
    let counted = counted.min(counters.len());
    let counters = &mut counters[..counted];
    let mut piece = rows.over(planes);
    draw_polygons(&mut piece, &polygons, &style, &origin, flags, counters);
    Ok(())
}

/// Draws polygons at the samples of these tile rows, over what is stored there, one after another. Flags and counters
/// are scratch memory: what is in them before does not matter. If the status is 0, the flags that the call needs are
/// zeros, and what is in the counters is unspecified. Returns the status, and writes the error. If the status is not 0,
/// the samples and the scratch memory are unchanged. By boxes that are not those of the polygons some of them are left out.
#[unsafe(no_mangle)]
pub extern "C" fn trirast_proved_canvas_draw_polygons(
    canvas: &mut CanvasPiece<'_>,
    polygons: &PolygonArrays<'_>,
    flags: &mut [Flags],
    counters: &mut [Counters],
    error: &mut Error,
) -> u32
    ensures report { IsReport (polygons_checks canvas.old.head (length canvas.old.planes.now) Nothing polygons.now
        (length flags.old) (length counters.old)) (IsFirstOfPolygons Nothing polygons.now) result error.new }
    ensures drawn { result ≡ 0 → OnRows canvas.old.head (λ c first end. HasRightBoxes polygons.now →
        ArePainted (shapes_listed (has_alpha canvas.old.head) Nothing polygons.now) (origin_of canvas.old.head) c first end canvas.old.planes.now canvas.new.planes.now) }
    ensures kept { result ≢ 0 → canvas.new.planes.now ≡ canvas.old.planes.now }
    ensures scratch { result ≢ 0 → (flags.new ≡ flags.old) × (counters.new ≡ counters.old) }
    ensures zeros { result ≡ 0 → AreZeros (take (flag_columns_listed canvas.old.head polygons.now.fill_rule) flags.new) }
    ensures head { canvas.new.head ≡ canvas.old.head }
    ensures same { canvas.new.planes.ghost_name ≡ canvas.old.planes.ghost_name }
{
    let head = canvas.head;
    report(
        draw_into(&head, canvas.planes, polygons, None, flags, counters),
        error,
    )
}

/// Draws polygons in the same way, each in the colour of its id, unblended: `first_id` and its index.
#[unsafe(no_mangle)]
pub extern "C" fn trirast_proved_canvas_draw_polygon_ids(
    canvas: &mut CanvasPiece<'_>,
    polygons: &PolygonArrays<'_>,
    first_id: u32,
    flags: &mut [Flags],
    counters: &mut [Counters],
    error: &mut Error,
) -> u32
    ensures report { IsReport (polygons_checks canvas.old.head (length canvas.old.planes.now) (Just first_id)
        polygons.now (length flags.old) (length counters.old)) (IsFirstOfPolygons (Just first_id) polygons.now) result
        error.new }
    ensures drawn { result ≡ 0 → OnRows canvas.old.head (λ c first end. HasRightBoxes polygons.now →
        ArePainted (shapes_listed (has_alpha canvas.old.head) (Just first_id) polygons.now) (origin_of canvas.old.head) c first end canvas.old.planes.now canvas.new.planes.now) }
    ensures kept { result ≢ 0 → canvas.new.planes.now ≡ canvas.old.planes.now }
    ensures scratch { result ≢ 0 → (flags.new ≡ flags.old) × (counters.new ≡ counters.old) }
    ensures zeros { result ≡ 0 → AreZeros (take (flag_columns_listed canvas.old.head polygons.now.fill_rule) flags.new) }
    ensures head { canvas.new.head ≡ canvas.old.head }
    ensures same { canvas.new.planes.ghost_name ≡ canvas.old.planes.ghost_name }
{
    let head = canvas.head;
    report(
        draw_into(
            &head,
            canvas.planes,
            polygons,
            Some(first_id),
            flags,
            counters,
        ),
        error,
    )
}
