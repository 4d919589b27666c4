//! The lists of primitives of a draw: triangles, the indices of a strip, or quads.
ghost use Rattle.std.specs.Prelude.{◌≤◌, ◌+◌, Some, IfOk, length, vec_len, map};
ghost use Rattle.serde_json.specs.View.{view};
ghost use Rattle.checking_reader.specs.Answer.{Reads};
ghost use Rattle.draw_list.specs.Primitives.{strip_count as count_of_strip, quads_count as count_of_quads};
ghost use Rattle.list_json.specs.Checks.{triangle_checks, triangles_checks, strip_index_checks, strip_checks, quad_checks_over, quads_checks};
ghost use Rattle.list_json.specs.Denotes.{IsTriangle, IsStripIndex, IsQuad, IsArrayOf};

use crate::array::{array_of, check_length};
use crate::elements::{ElementReader, elements_of};
use crate::index::index;
use draw_list::{
    MOST_QUADS, MOST_STRIP_INDICES, MOST_TRIANGLES, MOST_VERTICES, ReadKind, Vertex, is_convex,
    quads_count, strip_count,
};
use serde_json::Value;
use std::alloc::Global;

/// Reads triangles over this many vertices.
#[derive(Drop)]
struct TriangleReader {
    count: usize,
    ghost few: { count ≤ 65536 },
}

impl ElementReader for TriangleReader {
    type Element = [u32; 3];

    ghost checks = { λ s. triangle_checks s.count };

    ghost denotes = { λ s. IsTriangle s.count };

    /// A triangle, by the indices of three of the vertices.
    fn read(&self, value: &Value) -> Result<[u32; 3], ReadKind> {
        check_length(value, 3)?;
        let first = index(value.get(0usize), self.count)?;
        let second = index(value.get(1usize), self.count)?;
        let third = index(value.get(2usize), self.count)?;
        Ok([first, second, third])
    }
}

/// The triangles of a draw of `count` vertices, before which the draws have `earlier` triangles.
#[tactic(auto, using(list_json::proofs::Counts::items_len_each), unfolding(list_json::specs::Checks::triangles_checks))]
pub(crate) fn read_triangles(
    alloc: Global,
    value: &Value,
    earlier: usize,
    count: usize,
) -> Result<Vec<[u32; 3]>, ReadKind>
    requires earlier { earlier ≤ MOST_TRIANGLES }
    requires count { count ≤ MOST_VERTICES }
    ensures reported { let seen = Some (view value.now) in
        Reads (triangles_checks earlier count seen)
        (λ found. IsArrayOf MOST_TRIANGLES (IsTriangle count) seen found.items) result }
    ensures room { IfOk result (λ found. earlier + vec_len found ≤ MOST_TRIANGLES) }
{
    let list = array_of(value, MOST_TRIANGLES)?;
    if list.len() > MOST_TRIANGLES - earlier {
        return Err(ReadKind::TooMany);
    }
    elements_of(alloc, list, &TriangleReader { count })
}

/// Reads the indices of a strip over this many vertices.
#[derive(Drop)]
struct StripReader {
    count: usize,
    ghost few: { count ≤ 65536 },
}

impl ElementReader for StripReader {
    type Element = u32;

    ghost checks = { λ s. strip_index_checks s.count };

    ghost denotes = { λ s. IsStripIndex s.count };

    /// The index of one of the vertices.
    fn read(&self, value: &Value) -> Result<u32, ReadKind> {
        index(Some(value), self.count)
    }
}

/// The strip of a draw of `count` vertices, before which the draws have `earlier` triangles.
#[tactic(auto, using(list_json::proofs::Counts::items_len_each), unfolding(list_json::specs::Checks::strip_checks))]
pub(crate) fn read_strip(
    alloc: Global,
    value: &Value,
    earlier: usize,
    count: usize,
) -> Result<Vec<u32>, ReadKind>
    requires earlier { earlier ≤ MOST_TRIANGLES }
    requires count { count ≤ MOST_VERTICES }
    ensures reported { let seen = Some (view value.now) in
        Reads (strip_checks earlier count seen)
        (λ found. IsArrayOf MOST_STRIP_INDICES (IsStripIndex count) seen found.items) result }
    ensures room { IfOk result (λ found. earlier + count_of_strip (vec_len found) ≤ MOST_TRIANGLES) }
{
    let list = array_of(value, MOST_STRIP_INDICES)?;
    if strip_count(list.len()) > MOST_TRIANGLES - earlier {
        return Err(ReadKind::TooMany);
    }
    elements_of(alloc, list, &StripReader { count })
}

/// Reads quads over these vertices.
#[derive(Drop)]
struct QuadReader<'a> {
    vertices: &'a [Vertex],
    ghost few: { length vertices.now ≤ 65536 },
}

impl ElementReader for QuadReader<'_> {
    type Element = [u32; 4];

    ghost checks = { λ s. quad_checks_over s.vertices.now };

    ghost denotes = { λ s. IsQuad s.vertices.now };

    /// A strictly convex quad, by the indices of four of the vertices.
    fn read(&self, value: &Value) -> Result<[u32; 4], ReadKind> {
        check_length(value, 4)?;
        let count = self.vertices.len();
        let first = index(value.get(0usize), count)?;
        let second = index(value.get(1usize), count)?;
        let third = index(value.get(2usize), count)?;
        let fourth = index(value.get(3usize), count)?;
        let quad = [first, second, third, fourth];
        if !is_convex(quad, self.vertices) {
            return Err(ReadKind::NotConvex);
        }
        Ok(quad)
    }
}

/// The quads of a draw of these vertices, before which the draws have `earlier` triangles.
#[tactic(auto, using(list_json::proofs::Counts::items_len_each), unfolding(list_json::specs::Checks::quads_checks))]
pub(crate) fn read_quads(
    alloc: Global,
    value: &Value,
    earlier: usize,
    vertices: &[Vertex],
) -> Result<Vec<[u32; 4]>, ReadKind>
    requires earlier { earlier ≤ MOST_TRIANGLES }
    requires count { length vertices.now ≤ MOST_VERTICES }
    ensures reported { let seen = Some (view value.now) in
        let count = length vertices.now in let positions = map (λ v. v.at) vertices.now in
        Reads (quads_checks earlier count positions seen)
        (λ found. IsArrayOf MOST_QUADS (IsQuad vertices.now) seen found.items) result }
    ensures room { IfOk result (λ found. earlier + count_of_quads (vec_len found) ≤ MOST_TRIANGLES) }
{
    let list = array_of(value, MOST_QUADS)?;
    if quads_count(list.len()) > MOST_TRIANGLES - earlier {
        return Err(ReadKind::TooMany);
    }
    elements_of(alloc, list, &QuadReader { vertices })
}
