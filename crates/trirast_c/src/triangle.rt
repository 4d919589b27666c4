//! How many samples of the picture a triangle has, in the caller's memory.
ghost use Rattle.std.specs.Prelude.{◌≡◌, ◌≢◌, OnOk, OnErr, ⊤};
ghost use Rattle.c_abi.specs.Calls.{IsCall, IsReport};
ghost use Rattle.trirast_c.specs.Texts.{IsFirstOfText};
ghost use Rattle.trirast_c.specs.History.{HoldsCounts, samples_checks};

use crate::text::list_of;
use c_abi::{CallError, Error, Status, report};
use draw_list::TrianglePlace;
use grid::OutOfMemory;
use list_history::{counts_of, number_of as number_in};
use std::alloc::Global;

/// How many samples of the picture a triangle covers, changes and is shown by, laid out as in C.
#[repr(C)]
#[derive(Clone, Copy, Debug, PartialEq, Eq)]
pub struct TriangleSamples {
    /// Those that it covers by the top-left rule, whether or not it is culled, scissored or masked there.
    pub covered: u32,
    /// Those that it changes: they store another colour or depth after it than before it.
    pub changed: u32,
    /// Those that still show it after all triangles: it is the last triangle that changes them.
    pub shown: u32,
}

/// Writes into `samples` how many samples of the picture the triangle covers, how many it changes, and how many still
/// show it in the end. After an error `samples` is unchanged.
fn write_triangle_samples(
    alloc: Global,
    json: &[u8],
    place: TrianglePlace,
    samples: &mut TriangleSamples,
) -> Result<(), CallError>
    ensures written { OnOk result (HoldsCounts json.now place samples.new) }
    ensures kept { OnErr result (samples.new ≡ samples.old) }
    ensures judged { IsCall (samples_checks json.now place) (IsFirstOfText json.now) (λ done. ⊤) result }
{
    let list = list_of(alloc, json)?;
    let Some(number) = number_in(&list, place) else {
        return Err(CallError::from(Status::BadTriangle));
    };
    let counts = counts_of(alloc, &list, number).map_err(OutOfMemory::from)?;
    *samples = TriangleSamples {
        covered: counts.covered,
        changed: counts.changed,
        shown: counts.shown,
    };
    Ok(())
}

/// Writes into `samples` how many samples of the picture triangle `triangle` of draw `draw` covers, how many it
/// changes, and how many still show it in the end. Returns the status, and writes the error. If the status is not 0,
/// `samples` is unchanged.
#[unsafe(no_mangle)]
pub extern "C" fn trirast_proved_list_triangle_samples(
    alloc: Global,
    json: &[u8],
    draw: usize,
    triangle: usize,
    samples: &mut TriangleSamples,
    error: &mut Error,
) -> u32
    ensures written { result ≡ 0 → HoldsCounts json.now (record { draw = draw; triangle = triangle }) samples.new }
    ensures kept { result ≢ 0 → samples.new ≡ samples.old }
    ensures report { IsReport (samples_checks json.now (record { draw = draw; triangle = triangle }))
        (IsFirstOfText json.now) result error.new }
{
    let place = TrianglePlace { draw, triangle };
    report(write_triangle_samples(alloc, json, place, samples), error)
}
