//! The triangles of one draw.
ghost use Rattle.std.specs.Prelude.{◌≡◌, ◌≤◌, length};
ghost use Rattle.batch.specs.Seen.{NameSeenVertices};

use crate::indices::Indices;
use crate::primitives::{triangle, triangle_count};
use crate::seen::seen_triangle;
use crate::vertices::Vertices;
use canvas::Origin;
use shade::{Placed, State, Triangles};

/// The primitives of a draw, with the vertices and indices that are the draw's own: a source of the draw's triangles,
/// as they are seen.
#[derive(Drop)]
pub(crate) struct Part<V: Vertices, I: Indices> {
    /// The state of its triangles, with the scissor as seen from the origin.
    pub(crate) state: State,
    pub(crate) topology: u8,
    pub(crate) vertices: V,
    pub(crate) indices: I,
    pub(crate) origin: Origin,
    ghost known: { topology ≤ 2 },
    ghost fits: { length (I.listed indices) ≤ 4611686018427387904 },
    ghost named: { NameSeenVertices origin.x origin.y (V.listed vertices) (I.listed indices) },
}

impl<V: Vertices, I: Indices> Triangles for Part<V, I> {
    ghost use Rattle.batch.specs.Parts.{all_seen};

    ghost listed = { λ p. all_seen p.origin p.state p.topology (V.listed p.vertices) (I.listed p.indices) };

    #[inline]
    fn count(&self) -> usize {
        triangle_count(self.topology, self.indices.count())
    }

    #[inline]
    fn triangle(&self, number: usize) -> Placed {
        let indices = triangle(self.topology, &self.indices, number);
        seen_triangle(&self.vertices, &self.state, indices, &self.origin)
    }
}
