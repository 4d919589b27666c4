ghost use Rattle.std.specs.Prelude.{◌≡◌, ◌≤◌, ◌+◌, Some, None, IfOk, IfErr};
ghost use Rattle.serde_json.specs.View.{view};
ghost use Rattle.draw_list.specs.declared.fault.ReadKind.TheVariants.{OutOfMemory};
ghost use Rattle.checking_reader.specs.Answer.{Reads};
ghost use Rattle.checks.specs.FirstFault.{first_fault};
ghost use Rattle.draw_list.specs.Primitives.{primitive_listing, count_of_triangles};
ghost use Rattle.draw_list.specs.Listing.{draw_listing};
ghost use Rattle.checking_reader.specs.Given.{given_triangles, given_strip, given_quads};
ghost use Rattle.list_json.specs.Checks.{array_checks, part_checks, draw_value_checks, checks_before_vertices};
ghost use Rattle.list_json.specs.Denotes.{IsVertex, IsPrimitives, IsArrayOf, IsDraw};

use crate::keys::check_keys;
use crate::primitives::{PrimitiveArray, primitive_array, read_primitives};
use crate::state::read_state;
use crate::vertices::read_vertices;
use draw_list::{Draw, MOST_TRIANGLES, MOST_VERTICES, Primitives, ReadKind, Vertex};
use grid::PixelBox;
use serde_json::Value;
use std::alloc::Global;

/// The vertices and the primitives of a draw, before which the draws have `earlier` triangles.
#[tactic(auto, using(checks::proofs::Faults::first_fault_of_both))]
fn parts(
    alloc: Global,
    vertex_array: &Value,
    given: PrimitiveArray<'_>,
    earlier: usize,
) -> Result<(Vec<Vertex>, Primitives), ReadKind>
    requires { earlier ≤ MOST_TRIANGLES }
    ensures reported { let vertices = Some (view vertex_array.now) in
        let triangles = given_triangles given.entry in
        let strip = given_strip given.entry in let quads = given_quads given.entry in
        Reads (part_checks earlier vertices triangles strip quads)
        (λ found. IsArrayOf MOST_VERTICES IsVertex vertices found.0.items
        × IsPrimitives found.0.items triangles strip quads (primitive_listing found.1)) result }
    ensures memory { IfErr result (λ kind. kind ≡ OutOfMemory
        → first_fault (array_checks MOST_VERTICES (Some (view vertex_array.now))) ≡ None) }
    ensures room { IfOk result (λ found. earlier + count_of_triangles (primitive_listing found.1) ≤ MOST_TRIANGLES) }
{
    let vertices = read_vertices(alloc, vertex_array)?;
    let primitives = read_primitives(alloc, given, earlier, &vertices)?;
    Ok((vertices, primitives))
}

/// A draw on a picture of these pixels, before which the draws have `earlier` triangles.
#[tactic(auto, using(checks::proofs::Faults::first_fault_of_both))]
pub(crate) fn read_draw(
    alloc: Global,
    value: &Value,
    picture: PixelBox,
    earlier: usize,
) -> Result<Draw, ReadKind>
    requires { earlier ≤ MOST_TRIANGLES }
    ensures reported { Reads (draw_value_checks earlier (view value.now))
        (λ d. IsDraw picture (view value.now) (draw_listing d)) result }
    ensures memory { IfErr result (λ kind. kind ≡ OutOfMemory
        → first_fault (checks_before_vertices (view value.now)) ≡ None) }
    ensures room { IfOk result (λ d. earlier + count_of_triangles (primitive_listing d.primitives) ≤ MOST_TRIANGLES) }
{
    check_keys(
        value,
        &[
            "cull",
            "depth_test",
            "depth_write",
            "blend",
            "write",
            "sample_mask",
            "scissor",
            "vertices",
            "triangles",
            "strip",
            "quads",
        ],
    )?;
    let Some(vertex_array) = value.get("vertices") else {
        return Err(ReadKind::MissingKey);
    };
    let given = primitive_array(value)?;
    let state = read_state(value, picture)?;
    let (vertices, primitives) = parts(alloc, vertex_array, given, earlier)?;
    Ok(Draw {
        state,
        vertices,
        primitives,
    })
}
