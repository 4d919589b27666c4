ghost use Rattle.std.specs.Prelude.{◌≡◌, ◌≤◌, length, slice_index, Some, None, IfErr};
ghost use Rattle.serde_json.specs.View.{view};
ghost use Rattle.serde_json.specs.Find.{at};
ghost use Rattle.draw_list.specs.declared.fault.ReadKind.TheVariants.{OutOfMemory};
ghost use Rattle.checking_reader.specs.Answer.{Answers, Reads};
ghost use Rattle.checks.specs.FirstFault.{first_fault};
ghost use Rattle.list_json.specs.Checks.{array_checks, rgba_checks, vertex_checks, vertices_checks};
ghost use Rattle.list_json.specs.Denotes.{IsChannel, IsVertex, IsArrayOf};

use crate::array::{array_of, check_length};
use crate::elements::{ElementReader, elements_of};
use crate::number::{channel, coordinate, depth};
use draw_list::{MOST_VERTICES, ReadKind, Vertex};
use grid::Point;
use serde_json::Value;
use std::alloc::Global;

/// The channels and the alpha of a vertex, its last four elements.
fn rgba(value: &Value) -> Result<[u8; 4], ReadKind>
    ensures { let seen = view value.now in Answers (rgba_checks seen)
        (λ rgba. (length rgba ≡ 4) × IsChannel (at 3 seen) (slice_index rgba 0) ×
        IsChannel (at 4 seen) (slice_index rgba 1)
        × IsChannel (at 5 seen) (slice_index rgba 2) × IsChannel (at 6 seen) (slice_index rgba 3)) result }
{
    let red = channel(value.get(3usize))?;
    let green = channel(value.get(4usize))?;
    let blue = channel(value.get(5usize))?;
    let alpha = channel(value.get(6usize))?;
    Ok([red, green, blue, alpha])
}

/// Reads vertices.
#[derive(Drop)]
struct VertexReader;

impl ElementReader for VertexReader {
    type Element = Vertex;

    ghost checks = { λ s. vertex_checks };

    ghost denotes = { λ s. IsVertex };

    /// A vertex, written as [x, y, z, red, green, blue, alpha].
    fn read(&self, value: &Value) -> Result<Vertex, ReadKind> {
        check_length(value, 7)?;
        let x = coordinate(value.get(0usize))?;
        let y = coordinate(value.get(1usize))?;
        let z = depth(value.get(2usize))?;
        let rgba = rgba(value)?;
        let at = Point::new(x, y).unwrap();
        Ok(Vertex { at, z, rgba })
    }
}

/// The vertices of a draw.
#[tactic(auto, using(list_json::proofs::Counts::items_len_each), unfolding(list_json::specs::Checks::vertices_checks))]
pub(crate) fn read_vertices(alloc: Global, value: &Value) -> Result<Vec<Vertex>, ReadKind>
    ensures reported { let seen = Some (view value.now) in
        Reads (vertices_checks seen) (λ found. IsArrayOf MOST_VERTICES IsVertex seen found.items) result }
    ensures memory { IfErr result (λ kind. kind ≡ OutOfMemory
        → first_fault (array_checks MOST_VERTICES (Some (view value.now))) ≡ None) }
{
    elements_of(alloc, array_of(value, MOST_VERTICES)?, &VertexReader)
}
