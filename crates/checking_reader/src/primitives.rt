ghost use Rattle.std.specs.Prelude.{◌≤◌, ◌+◌, [], ◌∷◌, IfOk, length, map};
ghost use Rattle.serde_json.specs.View.{view};
ghost use Rattle.draw_list.specs.declared.fault.ReadKind.TheVariants.{MissingKey, TwoLists};
ghost use Rattle.checking_reader.specs.Answer.{Answers, Reads};
ghost use Rattle.checks.specs.FirstFault.{check};
ghost use Rattle.draw_list.specs.Primitives.{primitive_listing, count_of_triangles};
ghost use Rattle.checking_reader.specs.Given.{given_triangles, given_strip, given_quads, IsGiven};
ghost use Rattle.list_json.specs.Checks.{primitive_checks, has_no_list, has_two_lists};
ghost use Rattle.list_json.specs.Denotes.{IsPrimitives};

use crate::index_lists::{read_quads, read_strip, read_triangles};
use draw_list::{MOST_TRIANGLES, MOST_VERTICES, Primitives, ReadKind, Vertex};
use serde_json::Value;
use std::alloc::Global;

/// The one list of primitives that a draw has, still as a JSON value.
#[derive(Clone, Copy)]
pub(crate) enum PrimitiveArray<'v> {
    Triangles(&'v Value),
    Strip(&'v Value),
    Quads(&'v Value),
}

/// The list of primitives of a draw, which has exactly one.
pub(crate) fn primitive_array(value: &Value) -> Result<PrimitiveArray<'_>, ReadKind>
    ensures { let seen = view value.now in
        Answers (check (has_no_list seen) MissingKey ∷ check (has_two_lists seen) TwoLists ∷ []) (IsGiven seen) result }
{
    match (
        value.get("triangles"),
        value.get("strip"),
        value.get("quads"),
    ) {
        (None, None, None) => Err(ReadKind::MissingKey),
        (Some(array), None, None) => Ok(PrimitiveArray::Triangles(array)),
        (None, Some(array), None) => Ok(PrimitiveArray::Strip(array)),
        (None, None, Some(array)) => Ok(PrimitiveArray::Quads(array)),
        _ => Err(ReadKind::TwoLists),
    }
}

/// The primitives of a draw of these vertices, before which the draws have `earlier` triangles.
#[tactic(auto, using(checks::proofs::Faults::first_fault_of_both))]
pub(crate) fn read_primitives(
    alloc: Global,
    given: PrimitiveArray<'_>,
    earlier: usize,
    vertices: &[Vertex],
) -> Result<Primitives, ReadKind>
    requires earlier { earlier ≤ MOST_TRIANGLES }
    requires count { length vertices.now ≤ MOST_VERTICES }
    ensures reported { let count = length vertices.now in let positions = map (λ v. v.at) vertices.now in
        let triangles = given_triangles given.entry in
        let strip = given_strip given.entry in let quads = given_quads given.entry in
        Reads (primitive_checks earlier count positions triangles strip quads)
        (λ found. IsPrimitives vertices.now triangles strip quads (primitive_listing found)) result }
    ensures room { IfOk result (λ found. earlier + count_of_triangles (primitive_listing found) ≤ MOST_TRIANGLES) }
{
    match given {
        PrimitiveArray::Triangles(array) => Ok(Primitives::Triangles(read_triangles(
            alloc,
            array,
            earlier,
            vertices.len(),
        )?)),
        PrimitiveArray::Strip(array) => Ok(Primitives::Strip(read_strip(
            alloc,
            array,
            earlier,
            vertices.len(),
        )?)),
        PrimitiveArray::Quads(array) => Ok(Primitives::Quads(read_quads(
            alloc, array, earlier, vertices,
        )?)),
    }
}
