ghost use Rattle.std.specs.Prelude.{◌≡◌, ◌↔◌, IsTrue, ◌<◌, vec_len, slice_index_or, []};
ghost use Rattle.std.specs.List.{All};
ghost use Rattle.draw_list.specs.Primitives.{primitive_listing, triangles_of, count_of_triangles};
ghost use Rattle.draw_list.specs.Listing.{draw_listing, placed, IsDrawWithinLimits};

use crate::limits::MOST_VERTICES;
use crate::primitives::Primitives;
use grid::{Point, Tri};
use shade::{Placed, State};

/// A vertex of a draw.
#[derive(Clone, Copy, Debug, PartialEq, Eq)]
pub struct Vertex {
    /// The position, in 1/256 pixel.
    pub at: Point,
    /// The depth, from 0 to 65535.
    pub z: u16,
    /// Red, green, blue and alpha.
    pub rgba: [u8; 4],
}

/// Primitives over common vertices, and how they are drawn.
#[derive(Debug, Drop)]
pub struct Draw {
    /// How the triangles are drawn.
    pub state: State,
    /// The vertices.
    pub vertices: Vec<Vertex>,
    /// The primitives, by the indices of their vertices.
    pub primitives: Primitives,
}

impl Draw {
    /// Whether the draw is within the limits of a draw: 65,536 vertices, primitives of these alone, and
    /// strictly convex quads.
    pub(crate) fn is_within_limits(&self) -> bool
        ensures { IsTrue result ↔ IsDrawWithinLimits (draw_listing self.now) }
    {
        if self.vertices.len() > MOST_VERTICES {
            return false;
        }
        self.primitives.are_over(&self.vertices)
    }

    /// The triangle of this number, with its vertices and the state.
    pub(crate) fn triangle(&self, number: usize) -> Placed
        requires number { number < count_of_triangles (primitive_listing self.now.primitives) }
        requires limits { IsDrawWithinLimits (draw_listing self.now) }
        ensures { let triangles = triangles_of (primitive_listing self.now.primitives) in
            result ≡ placed (draw_listing self.now) (slice_index_or triangles number []) }
    {
        self.place(self.primitives.triangle(number))
    }

    /// The triangle of these three vertices, with the state.
    fn place(&self, indices: [u32; 3]) -> Placed
        requires { All (λ k. k < vec_len self.now.vertices) indices }
        ensures { result ≡ placed (draw_listing self.now) indices }
    {
        let [a, b, c] = indices;
        let a = self.vertices[a as usize];
        let b = self.vertices[b as usize];
        let c = self.vertices[c as usize];
        let (first, second, third) = (a.rgba, b.rgba, c.rgba);
        Placed {
            tri: Tri::new(a.at, b.at, c.at),
            z: [a.z, b.z, c.z],
            rgba: [first, second, third],
            state: self.state,
        }
    }
}
