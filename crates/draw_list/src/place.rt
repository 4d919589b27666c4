/// Where a triangle stands in a draw list.
#[derive(Clone, Copy, Debug, PartialEq, Eq)]
pub struct TrianglePlace {
    /// The number of its draw, from 0.
    pub draw: usize,
    /// Its number in the draw, from 0. A strip and quads count the triangles as which they are drawn.
    pub triangle: usize,
}
