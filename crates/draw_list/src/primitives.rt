ghost use Rattle.std.specs.Prelude.{ℕ, ◌≡◌, ◌↔◌, ◌<◌, ◌≤◌, IsTrue, List, length, slice_index_or, []};
ghost use Rattle.std.specs.List.{All, flat_map};
ghost use Rattle.draw_list.specs.Primitives.{primitive_listing, triangles_of as triangles_of_listing, count_of_triangles, strip_count as count_of_strip, strip_triangle as triangle_of_strip, quads_count as count_of_quads, quad_triangles, vertex_position, IsConvexOver, IsQuadOver, AreOver};
ghost use Rattle.draw_list.specs.declared.draw.Vertex.{Vertex as VertexOf};

use crate::draw::Vertex;
use grid::{Point, Quad};

/// The primitives of a draw, each by the indices of its vertices.
#[derive(Debug, Drop)]
pub enum Primitives {
    /// A triangle list: triangles in draw order.
    Triangles(Vec<[u32; 3]>),
    /// A triangle strip: each three indices in a row are a triangle, of which every other one swaps its last two, so
    /// that the strip keeps its orientation (Vulkan 1.3, triangle strips). Fewer than three indices are no triangle.
    Strip(Vec<u32>),
    /// Strictly convex quads in draw order, each by its corners in order, in either orientation. The quad abcd is the
    /// triangles abc and cda.
    Quads(Vec<[u32; 4]>),
}

/// The number of triangles of a strip of `indices` indices.
pub fn strip_count(indices: usize) -> usize
    ensures { result ≡ count_of_strip indices }
{
    indices.saturating_sub(2)
}

/// The number of triangles of `quads` quads.
pub fn quads_count(quads: usize) -> usize
    requires { quads ≤ 9223372036854775807 }
    ensures { result ≡ count_of_quads quads }
{
    2 * quads
}

/// Whether each of these numbers is the index of one of `vertices` vertices.
pub fn name_vertices(numbers: &[u32], vertices: usize) -> bool
    ensures { IsTrue result ↔ All (λ k. k < vertices) numbers.now }
{
    numbers.iter().all(|number| (*number as usize) < vertices)
}

/// The triangle of this number of a strip, by the indices of its vertices.
pub fn strip_triangle(strip: &[u32], number: usize) -> [u32; 3]
    requires { number < count_of_strip (length strip.now) }
    ensures value { result ≡ triangle_of_strip strip.now number }
    ensures named { (n : ℕ) → All (λ k. k < n) strip.now → All (λ k. k < n) result }
{
    let odd = number % 2;
    let (first, second, third) = (
        strip[number],
        strip[number + 1 + odd],
        strip[number + 2 - odd],
    );
    [first, second, third]
}

/// The triangle of this number of quads, which have two each, by the indices of its vertices.
pub fn quad_triangle(quads: &[[u32; 4]], number: usize) -> [u32; 3]
    requires { number < count_of_quads (length quads.now) }
    ensures value { result ≡ slice_index_or (flat_map quad_triangles quads.now) number [] }
    ensures named { (vertices : List VertexOf) → All (IsQuadOver vertices) quads.now →
        All (λ k. k < length vertices) result }
{
    let [a, b, c, d] = quads[number / 2];
    if number % 2 == 0 {
        [a, b, c]
    } else {
        [c, d, a]
    }
}

/// The position of the vertex of this index.
fn position(vertices: &[Vertex], number: u32) -> Point
    requires { number < length vertices.now }
    ensures { result ≡ vertex_position vertices.now number }
{
    vertices[number as usize].at
}

/// Whether the vertices that a quad names are the corners of a strictly convex quad.
pub fn is_convex(quad: [u32; 4], vertices: &[Vertex]) -> bool
    requires { All (λ k. k < length vertices.now) quad }
    ensures { IsTrue result ↔ IsConvexOver vertices.now quad }
{
    let [a, b, c, d] = quad;
    let (a, b) = (position(vertices, a), position(vertices, b));
    let (c, d) = (position(vertices, c), position(vertices, d));
    Quad::new(a, b, c, d).is_some()
}

/// Whether a quad names four of the vertices and is strictly convex.
fn is_quad(quad: [u32; 4], vertices: &[Vertex]) -> bool
    ensures { IsTrue result ↔ IsQuadOver vertices.now quad }
{
    if !name_vertices(&quad, vertices.len()) {
        return false;
    }
    is_convex(quad, vertices)
}

impl Primitives {
    /// The number of triangles that the primitives are.
    pub fn triangles(&self) -> usize
        ensures value { result ≡ count_of_triangles (primitive_listing self.now) }
        ensures all { result ≡ length (triangles_of_listing (primitive_listing self.now)) }
    {
        match self {
            Primitives::Triangles(triangles) => triangles.len(),
            Primitives::Strip(indices) => strip_count(indices.len()),
            Primitives::Quads(quads) => quads_count(quads.len()),
        }
    }

    /// The triangle of this number in draw order, by the indices of its vertices.
    pub(crate) fn triangle(&self, number: usize) -> [u32; 3]
        requires { number < count_of_triangles (primitive_listing self.now) }
        ensures value { result ≡ slice_index_or (triangles_of_listing (primitive_listing self.now)) number [] }
        ensures named { (vertices : List VertexOf) → AreOver vertices (primitive_listing self.now) →
            All (λ k. k < length vertices) result }
    {
        match self {
            Primitives::Triangles(triangles) => triangles[number],
            Primitives::Strip(indices) => strip_triangle(indices, number),
            Primitives::Quads(quads) => quad_triangle(quads, number),
        }
    }

    /// Whether each primitive names vertices that there are, and each quad is strictly convex.
    pub fn are_over(&self, vertices: &[Vertex]) -> bool
        ensures { IsTrue result ↔ AreOver vertices.now (primitive_listing self.now) }
    {
        match self {
            Primitives::Triangles(triangles) => triangles
                .iter()
                .all(|triangle| name_vertices(triangle, vertices.len())),
            Primitives::Strip(indices) => name_vertices(indices, vertices.len()),
            Primitives::Quads(quads) => quads.iter().all(|quad| is_quad(*quad, vertices)),
        }
    }
}
