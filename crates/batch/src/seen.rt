//! Vertices as they are seen, by their indices.
ghost use Rattle.std.specs.Prelude.{◌≡◌, ◌↔◌, ℕ, ℤ, pos, ◌<◌, ◌-ℤ◌, ◌*ℤ◌, length, map, IsSome, IfSome, IsTrue, slice_index};
ghost use Rattle.grid.specs.Position.{IsInBand};
ghost use Rattle.draw_list.specs.Listing.{triangle_of};
ghost use Rattle.draw_list.specs.Primitives.{vertex_position, IsConvexOver};
ghost use Rattle.draw_list.specs.declared.draw.Vertex.{Vertex as VertexOf};
ghost use Rattle.batch.specs.Listed.{vertex_listed};
ghost use Rattle.batch.specs.Seen.{vertex_at, vertex_seen, CanBeSeen, AreSeen, NameSeenVertices};
ghost use Rattle.batch.specs.Checks.{IsQuadSeen};

use crate::vertex::BatchVertex;
use crate::vertices::Vertices;
use canvas::{Origin, seen_point};
use draw_list::Vertex;
use grid::{Point, Quad, Tri};
use shade::{Placed, State};

/// The vertex of this index; past the end one of zeros.
fn numbers_at<V: Vertices>(vertices: &V, index: usize) -> BatchVertex
    ensures { result ≡ vertex_at (V.listed vertices.now) index }
{
    if index < vertices.count() {
        return vertices.at(index);
    }
    BatchVertex::default()
}

/// The vertex of this index, or `None` if it cannot be seen.
fn vertex<V: Vertices>(vertices: &V, index: usize, origin: &Origin) -> Option<Vertex>
    ensures some { IsSome result ↔ CanBeSeen origin.now.x origin.now.y (vertex_at (V.listed vertices.now) index) }
    ensures value { IfSome result (λ v. v ≡ vertex_listed (vertex_at (V.listed vertices.now) index)) }
{
    let vertex = numbers_at(vertices, index).vertex()?;
    seen_point(vertex.at, origin)?;
    Some(vertex)
}

/// Whether the vertex of this index can be seen.
pub(crate) fn is_seen<V: Vertices>(vertices: &V, index: usize, origin: &Origin) -> bool
    ensures { IsTrue result ↔ CanBeSeen origin.now.x origin.now.y (vertex_at (V.listed vertices.now) index) }
{
    vertex(vertices, index, origin).is_some()
}

/// Whether each vertex that an index names can be seen.
fn are_seen<V: Vertices>(vertices: &V, indices: &[usize], origin: &Origin) -> bool
    ensures { IsTrue result ↔ AreSeen origin.now.x origin.now.y (V.listed vertices.now) indices.now }
{
    indices
        .iter()
        .all(|index| is_seen(vertices, *index, origin))
}

/// The position of a vertex that can be seen.
#[tactic(auto, using(crate::proofs::Corners::position_at))]
fn position<V: Vertices>(vertices: &V, index: usize, origin: &Origin) -> Point
    requires { CanBeSeen origin.now.x origin.now.y (vertex_at (V.listed vertices.now) index) }
    ensures { result ≡ vertex_position (map vertex_listed (V.listed vertices.now)) index }
{
    vertex(vertices, index, origin).unwrap().at
}

/// Whether a quad whose vertices can be seen is strictly convex.
fn is_convex<V: Vertices>(vertices: &V, quad: [usize; 4], origin: &Origin) -> bool
    requires { AreSeen origin.now.x origin.now.y (V.listed vertices.now) quad }
    ensures { IsTrue result ↔ IsConvexOver (map vertex_listed (V.listed vertices.now)) quad }
{
    let a = position(vertices, quad[0], origin);
    let b = position(vertices, quad[1], origin);
    let c = position(vertices, quad[2], origin);
    let d = position(vertices, quad[3], origin);
    Quad::new(a, b, c, d).is_some()
}

/// Whether the vertices of a quad can be seen, and it is strictly convex.
pub(crate) fn is_quad_seen<V: Vertices>(vertices: &V, quad: [usize; 4], origin: &Origin) -> bool
    ensures { IsTrue result ↔ IsQuadSeen origin.now.x origin.now.y (V.listed vertices.now) quad }
{
    are_seen(vertices, &quad, origin) && is_convex(vertices, quad, origin)
}

/// A coordinate as seen from a pixel, where it is in the guard band.
#[inline]
fn seen_coordinate(coordinate: i32, pixel: i32) -> i32
    requires { IsInBand (coordinate -ℤ pos 256 *ℤ pixel) }
    ensures { result ≡ coordinate -ℤ pos 256 *ℤ pixel }
{
    (i64::from(coordinate) - 256 * i64::from(pixel)) as i32
}

/// The vertex of this index as it is seen. The checks of a batch have found that it can be, so none is made again.
#[inline]
fn seen_vertex<V: Vertices>(vertices: &V, index: usize, origin: &Origin) -> Vertex
    requires named { index < length (V.listed vertices.now) }
    requires seen { CanBeSeen origin.now.x origin.now.y (vertex_at (V.listed vertices.now) index) }
    ensures { result ≡ vertex_seen origin.now.x origin.now.y (vertex_at (V.listed vertices.now) index) }
{
    let vertex = vertices.at(index);
    let across = seen_coordinate(vertex.x, origin.x);
    let down = seen_coordinate(vertex.y, origin.y);
    Vertex {
        at: Point::new(across, down).unwrap(),
        z: vertex.depth,
        rgba: [vertex.red, vertex.green, vertex.blue, vertex.alpha],
    }
}

/// The triangle of the vertices with these indices as they are seen, in this state.
#[inline]
pub(crate) fn seen_triangle<V: Vertices>(
    vertices: &V,
    state: &State,
    indices: [usize; 3],
    origin: &Origin,
) -> Placed
    requires { NameSeenVertices origin.now.x origin.now.y (V.listed vertices.now) indices }
    ensures { let corner : ℕ → VertexOf = λ i. vertex_seen origin.now.x origin.now.y (vertex_at (V.listed vertices.now) (slice_index indices i)) in
        result ≡ triangle_of state.now (corner 0) (corner 1) (corner 2) }
{
    let a = seen_vertex(vertices, indices[0], origin);
    let b = seen_vertex(vertices, indices[1], origin);
    let c = seen_vertex(vertices, indices[2], origin);
    let (of_a, of_b, of_c) = (a.rgba, b.rgba, c.rgba);
    Placed {
        tri: Tri::new(a.at, b.at, c.at),
        z: [a.z, b.z, c.z],
        rgba: [of_a, of_b, of_c],
        state: *state,
    }
}
