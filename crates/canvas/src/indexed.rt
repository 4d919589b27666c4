//! Triangles that are drawn by the indices of their vertices in a list.
ghost use Rattle.std.specs.Prelude.{◌≡◌, ◌↔◌, ◌<◌, map, length, IsSome, IsTrue, IfSome};
ghost use Rattle.std.specs.List.{All};
ghost use Rattle.canvas.specs.Indexed.{AreIndices, placed_by};

use crate::vertex::Vertex;
use grid::Tri;
use shade::{Placed, State, Triangles};

/// Whether the indices of a triangle are vertices.
fn are_indices(vertices: &[Vertex], indices: [u32; 3]) -> bool
    ensures { IsTrue result ↔ AreIndices (length vertices.now) indices }
{
    let many = vertices.len();
    (indices[0] as usize) < many && (indices[1] as usize) < many && (indices[2] as usize) < many
}

/// The triangle with these indices.
fn placed(vertices: &[Vertex], state: &State, indices: [u32; 3]) -> Placed
    requires { AreIndices (length vertices.now) indices }
    ensures { result ≡ placed_by vertices.now state.now indices }
{
    let a = vertices[indices[0] as usize];
    let b = vertices[indices[1] as usize];
    let c = vertices[indices[2] as usize];
    let (of_a, of_b, of_c) = (a.rgba, b.rgba, c.rgba);
    Placed {
        tri: Tri::new(a.position, b.position, c.position),
        z: [a.z, b.z, c.z],
        rgba: [of_a, of_b, of_c],
        state: *state,
    }
}

/// Triangles in one state, each by the indices of its vertices.
#[derive(Drop)]
pub struct Indexed<'a> {
    vertices: &'a [Vertex],
    triangles: &'a [[u32; 3]],
    state: State,
    ghost indices: { All (AreIndices (length vertices.now)) triangles.now },
}

impl<'a> Indexed<'a> {
    /// The triangles with these indices, or `None` if an index names no vertex.
    pub fn new(
        vertices: &'a [Vertex],
        triangles: &'a [[u32; 3]],
        state: State,
    ) -> Option<Indexed<'a>>
        ensures some { IsSome result ↔ All (AreIndices (length vertices.now)) triangles.now }
        ensures listed { IfSome result (λ indexed. ⟦<Indexed<'a> as Triangles>⟧.listed indexed ≡
            map (placed_by vertices.now state) triangles.now) }
    {
        if !triangles
            .iter()
            .all(|indices| are_indices(vertices, *indices))
        {
            return None;
        }
        Some(Indexed {
            vertices,
            triangles,
            state,
        })
    }
}

impl Triangles for Indexed<'_> {
    ghost listed = { λ s. map (placed_by s.vertices.now s.state) s.triangles.now };

    #[inline(always)]
    fn count(&self) -> usize {
        self.triangles.len()
    }

    #[inline(always)]
    fn triangle(&self, number: usize) -> Placed {
        placed(self.vertices, &self.state, self.triangles[number])
    }
}
