//! The boxes of polygons, which all calls that draw them may share.
ghost use Rattle.std.specs.Prelude.{◌≡◌, ◌≢◌, [], length, IfErr, OnOk, ⊤};
ghost use Rattle.polygons.specs.Arrays.{AreLeastBoxesOf, KeepsBoxesFrom};
ghost use Rattle.c_abi.specs.Calls.{IsCall, IsReport};
ghost use Rattle.c_abi.specs.Statuses.{status_number};
ghost use Rattle.canvas_c.specs.PolygonChecks.{measure_checks, IsFirstOfArrays};

use crate::polygon_arrays::{PolygonArrays, array_fault};
use c_abi::{CallError, Error, Status, report};
use polygons::{Extent, measure};

/// Writes the box of each polygon's corners.
fn measure_into(arrays: &PolygonArrays<'_>, boxes: &mut [Extent]) -> Result<(), CallError>
    ensures judged { IsCall (measure_checks arrays.now (length boxes.old)) (IsFirstOfArrays arrays.now) (λ done. ⊤) result }
    ensures measured { OnOk result (AreLeastBoxesOf boxes.new arrays.now.corners.now arrays.now.ring_ends.now
        arrays.now.polygon_ends.now) }
    ensures behind { KeepsBoxesFrom (length arrays.now.polygon_ends.now) boxes.old boxes.new }
    ensures kept { IfErr result (λ e. e.status ≢ Status.BadBatch → boxes.new ≡ boxes.old) }
{
    if !arrays.has_size() {
        return Err(CallError::from(Status::BadStructSize));
    }
    if boxes.len() < arrays.polygon_ends.len() {
        return Err(CallError::from(Status::BufferTooSmall));
    }
    match measure(arrays.corners, arrays.ring_ends, arrays.polygon_ends, boxes) {
        Ok(()) => Ok(()),
        Err(error) => Err(CallError::of_batch(array_fault(error))),
    }
}

/// Checks the corners and the ends of rings and polygons, and writes the box of each polygon's corners. Returns the
/// status, and writes the error. If an error of the polygons is reported, what is in these boxes is unspecified, as some
/// may have been measured before the error was found; after any other error they are unchanged. Those behind are
/// unchanged in any case.
#[unsafe(no_mangle)]
pub extern "C" fn trirast_proved_polygons_measure(
    polygons: &PolygonArrays<'_>,
    boxes: &mut [Extent],
    error: &mut Error,
) -> u32
    ensures report { IsReport (measure_checks polygons.now (length boxes.old)) (IsFirstOfArrays polygons.now) result
        error.new }
    ensures measured { result ≡ 0 → AreLeastBoxesOf boxes.new polygons.now.corners.now polygons.now.ring_ends.now
        polygons.now.polygon_ends.now }
    ensures behind { KeepsBoxesFrom (length polygons.now.polygon_ends.now) boxes.old boxes.new }
    ensures kept { result ≢ 0 → result ≢ status_number Status.BadBatch → boxes.new ≡ boxes.old }
{
    report(measure_into(polygons, boxes), error)
}
